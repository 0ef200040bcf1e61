// The label query and the window expander, on the meaning that the record and body layer gives a file. Read `window::window` first, then `pieces::GapStrings::spell_all` and `walk::walk`.
//   pieces   the bodies as gap strings: the words between two parameters of a rule's expansion, as words and gaps of lower rules
//   walk     the words that gap strings spell, from an offset on
//   window   the window expander
//   label    the label query
// Nothing is expanded to find a place: positions go up to 2^40, and trees may be 2^39 deep. A file of w words gives at most 2w pieces, in one pass; a piece that has no words
// is left out, and one that stands for a single piece is put as that piece, so that a walk gives a word at least every few steps. So a query is about linear in the file,
// and a window of L words costs about L more.
// Stack: 64,024 bytes in arrays for a window, whatever the file: 1,536 (rule table), 10,240 (size table), 32,776 (pieces), 2,560 (where gaps start),
// 16,392 (words that are open in a body) and 520 (places of a walk to come back to, at most 255); 2 more for a label's word. No function calls itself.
#![tactic(auto)]

pub mod label;
mod pieces;
mod walk;
pub mod window;
