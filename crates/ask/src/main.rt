// `ask QUESTION`: the file on standard input, the question as arguments. Prints the answer.
//   ask check          accepted, or: refused 7 BODY place 3
//   ask count          and where it is accepted: nodes 11
//   ask label 6        and where it is accepted: word 3
//   ask window 0 11    and where it is accepted the words in hex, 16 to a line
// Reads at most 16,385 bytes: one over the limit is enough to answer 9. A wrong question gets one line of usage.
// What the arguments ask is in `question`, what is printed in `replies`.
#![tactic(auto)]

mod question;
mod replies;

use arrayvec::ArrayVec;
use question::parse;
use replies::put_reply;
use std::env::FillError;
use std::rt::Env;
use text::arguments::{argument, arguments};

const STDIN: i32 = 0;

const STDOUT: i32 = 1;

// An argument of more than 32 bytes is no part of a question, and no question has five arguments. A wrong question reads nothing.
fn main(rt: HostRuntime) {
    let mut name = [0; 32];
    let mut first = [0; 32];
    let mut second = [0; 32];
    let question = parse(
        arguments::<5, _>(|i| matches!(rt.arg(i, &mut [0; 32]), Err(FillError::NotPresent))),
        argument(rt.arg(1, &mut name), &name),
        argument(rt.arg(2, &mut first), &first),
        argument(rt.arg(3, &mut second), &second),
    );
    // `io::read_full` gives a count, and the file is sliced at once; an ArrayVec would be no plainer: filled to be lent, then cut to the same count.
    let mut file = [0; 16385];
    let n = match question {
        Some(_) => io::read_full(STDIN, &mut file),
        None => 0,
    };
    let file = &file[..n];
    let mut out: ArrayVec<u8, 82000> = ArrayVec::new();
    put_reply(question, file, &mut out);
    io::write_all(STDOUT, &out);
}
