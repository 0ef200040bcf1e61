// What the programs print and read as text, in ASCII, in buffers that the caller lends. Nothing here reads or writes a file.
//   arguments  a program's arguments
//   operations what a program is asked for, by name
//   lines      bytes put one after the other
//   numbers    decimal and hexadecimal numbers as text, and decimal text read back
//   refusals   document 01's number, place and name of a refusal
//   answers    an answer as a line
#![tactic(auto)]

pub mod answers;
pub mod arguments;
pub mod lines;
pub mod numbers;
pub mod operations;
pub mod refusals;
