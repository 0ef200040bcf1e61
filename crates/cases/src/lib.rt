// What the test programs share: the cases in their data, and what they print of them.
// A data file holds records as document 01's files do: 32-bit payload length, 16-bit kind, payload, little-endian.
//   kind 1   a file: the cases after it ask about it
//   kind 2   a case of the checker and the counter; kind 3, of the label query; kind 4, of the window expander. The payload: position (64 bits),
//            the answer's number and place (16 bits each), its N or word (64 bits), its window's words (16 bits each)
// tools/cases makes them.
#![tactic(auto)]

pub mod answers;
pub mod case;
pub mod progress;
pub mod records;
pub mod reference;
pub mod reports;
