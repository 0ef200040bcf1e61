// `time_queries OPERATION TIMES`: the file on standard input, the operation `check`, `count`, `label` or `window`. Makes the call so many times, each on an input
// other than the one before, and prints one line: N, how many calls were accepted, and a checksum of all answers.
// It is one side of the benchmark: `tools/bench` runs it beside a Rust program that prints the same line. The checksum makes the work real, and is what is compared.
//   task      what the arguments ask
//   inputs    how the input changes from call to call
//   tallies   the count and the checksum
//   runs      the calls
#![tactic(auto)]

mod inputs;
mod runs;
mod tallies;
mod task;

use arrayvec::ArrayVec;
use runs::put_run;
use std::env::FillError;
use std::rt::Env;
use task::parse;
use text::arguments::{argument, arguments};

const STDIN: i32 = 0;

const STDOUT: i32 = 1;

// An argument of more than 32 bytes is no part of a task, and no task has four arguments. A wrong task reads nothing.
fn main(rt: HostRuntime) {
    let mut name = [0; 32];
    let mut number = [0; 32];
    let task = parse(
        arguments::<4, _>(|i| matches!(rt.arg(i, &mut [0; 32]), Err(FillError::NotPresent))),
        argument(rt.arg(1, &mut name), &name),
        argument(rt.arg(2, &mut number), &number),
    );
    let Some(task) = task else {
        io::write_all(
            STDOUT,
            b"usage: time_queries check | count | label | window TIMES, the file on standard input\n",
        );
        return;
    };
    // One byte over the largest file is enough to answer 9.
    // `io::read_full` gives a count, and the file is sliced at once; an ArrayVec would be no plainer: filled to be lent, then cut to the same count.
    let mut file = [0; 16385];
    let n = io::read_full(STDIN, &mut file);
    let file = &mut file[..n];
    let mut out: ArrayVec<u8, 128> = ArrayVec::new();
    put_run(task, file, &mut out);
    io::write_all(STDOUT, &out);
}
