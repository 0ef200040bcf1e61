// Document 01 as definitions that compute: what a caller must believe, and nothing about how the code does it.
// It has no code. The definitions stand in specs/, a module for each part of the document, in its words and order:
//   Bounds            document 01's numbers, each under its sentence
//   Words, Trees      words, ranks, trees, rules, the tree of a grammar, sizes
//   Refusals          the closed list of refusals, with numbers, names and places
//   File              reading a file and writing one
//   Edits             the three updates, and several at once
//   Opening, Dropping, Rounds   how the updated file is made
//   Answers, Program  every operation's whole answer; the program's output
// Read Answers first: it names the rest. proofs/Starred has the reference table as one theorem, proofs/Bounds a row on both sides of each bound.
#![tactic(auto)]
