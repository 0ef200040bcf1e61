// The record and body layer: what a file's bytes denote. A file that is taken denotes a grammar of the model (`Denotes` in specs/Measures), and the layers above build
// on that meaning: what the record says of the file and its two tables, and the laws of proofs/Denoted.
// Document 01, "Trees and words", "File layout", "Refusal numbers". Read `answers::check` first, then `read::read`.
//   words      sorting a word
//   refusals   the closed list of refusals, a refusal with its place, and the answer
//   file       numbers, records and the head of a file, in place
//   bodies     a body's words: legal, of the right shape, and the end of a subtree, by a cursor handed on by value
//   rules      the rules of a file into the rule table; of a rule its rank, and its body
//   sizes      the table of gap sizes; of a rule a gap, and its size
//   read       a file read whole, with both tables
//   answers    the checker and the node counter
#![tactic(auto)]

pub mod answers;
pub mod bodies;
pub mod file;
pub mod read;
pub mod refusals;
pub mod rules;
pub mod sizes;
pub mod words;
