// What is true of the model: the three demands as theorems, and the laws below them that callers use instead of the definitions' text.
// It has no code. proofs/Demands has the three demands, proofs/Lib the laws that they cite, in a folder for each of the model's modules, in an order to read them in; specs/ has the notions, specs/Formed when rules are a grammar.
#![tactic(auto)]
