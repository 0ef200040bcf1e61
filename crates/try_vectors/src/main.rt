// Runs the checker, the node counter, the label query and the window expander over the cases in its data, and over document 01's H and H', which it
// builds. Prints a line for each wrong case, and a summary for each data file.
#![tactic(auto)]

ghost use Rattle.std.specs.Prelude.{◌+◌, ◌≤◌, ◌<◌, ◌-◌, ◌/◌, ◌≡◌, ◌↔◌, IsTrue, length};
ghost use Rattle.try_vectors.specs.Right.{Right};
ghost use Rattle.try_vectors.specs.Running.{Turned, RanOut};

mod name;

use cases::answers::is_query_answer;
use cases::case::Kind;
use cases::progress::{Progress, Stage};
use cases::records::{Question, words_are};
use cases::reference::put_doubled_at;
use grammar::answers::{check, count};
use name::Name;
use queries::label::label;
use queries::window::window;
use std::fs::File;
use std::os::fd::AsRawFd;
use std::rt::Files;

// The most bytes of a case's payload: its fields, and a window of 128 words.
const PAYLOAD: usize = 276;

fn main(rt: HostRuntime) {
    let mut space = [0u8; 16400];
    let file: &mut [u8] = &mut space;
    over(&rt, Name::new("checks"), file, 0);
    over(&rt, Name::new("own_checks"), file, 0);
    over(&rt, Name::new("queries"), file, 0);
    over(&rt, Name::new("own_queries"), file, 0);
    over_doubled(&rt, 38, Name::new("H_checks"), Name::new("H_queries"), file);
    over_doubled(
        &rt,
        39,
        Name::new("H_prime_checks"),
        Name::new("H_prime_queries"),
        file,
    );
}

// H or H', by the rule that its start calls. What may not change: the second run begins with as many bytes of the space, whatever the first read into
// it. So the length goes beside the space, and no ArrayVec stands for both.
fn over_doubled<R: Files>(rt: &R, called: u8, checks: Name, queries: Name, file: &mut [u8])
where
    R::File: AsRawFd,
    requires { 582 ≤ length file.old }
{
    let n = put_doubled_at(called, file);
    over(rt, checks, file, n);
    over(rt, queries, file, n);
}

// The cases of one data file. `ready` bytes of a file stand ready for cases that come before any other file. Data that can't be opened has no case.
fn over<R: Files>(rt: &R, name: Name, file: &mut [u8], ready: usize)
where
    R::File: AsRawFd,
    requires { ready ≤ length file.old }
{
    let p = match File::open(rt, name.text) {
        Ok(data) => run(name, data.as_raw_fd(), file, ready),
        Err(_) => Progress::new(ready),
    };
    name.print_summary(p.cases, p.wrong);
}

// One case after the other, up to a number that no data reaches.
fn run(name: Name, fd: i32, file: &mut [u8], ready: usize) -> Progress
    requires { ready ≤ length file.old }
    ensures { RanOut ready result }
{
    let mut p = Progress::new(ready);
    for _ in 0..1_000_000u64 {
        p = turn(name, fd, file, p);
        if p.stage == Stage::Ended {
            return p;
        }
    }
    p
}

// One case.
fn turn(name: Name, fd: i32, file: &mut [u8], p: Progress) -> Progress
    requires { (p.length ≤ length file.old) × (p.cases < 1000000) × (p.wrong < 1000000) }
    ensures { Turned p result file.new }
{
    let mut space = [0; PAYLOAD];
    let q = p.advance(fd, file, &mut space);
    let Stage::Case(case) = q.stage else {
        return q;
    };
    let right = is_right(case.kind, &file[..q.length], &space[..case.size]);
    if !right {
        name.print_wrong(q.cases);
    }
    q.judged(right)
}

// By the case's kind: the checker's answer is the case's, and so is the counter's, with its N; the label query's, with its word; the window
// expander's, with its words, where the window has as many as the case.
#[tactic(auto, using(crate::proofs::Judging::held))]
fn is_right(kind: Kind, file: &[u8], payload: &[u8]) -> bool
    requires { (20 ≤ length payload.now) × (length payload.now ≤ PAYLOAD) }
    ensures { IsTrue result ↔ Right kind file.now payload.now }
{
    let q = Question::of(payload);
    match kind {
        Kind::Check => {
            is_query_answer(check(file), q.number, q.place)
                && {
                    let counted = count(file);
                    is_query_answer(counted.answer, q.number, q.place) && counted.nodes == q.value
                }
        }
        Kind::Label => {
            let labelled = label(file, q.position);
            is_query_answer(labelled.answer, q.number, q.place)
                && u64::from(labelled.word) == q.value
        }
        Kind::Window => {
            let n = (payload.len() - 20) / 2;
            let mut space = [7u16; 128];
            let words = &mut space[..n];
            is_query_answer(window(file, q.position, words), q.number, q.place)
                && words_are(words, payload, 20)
        }
        Kind::File | Kind::Other(_) => false,
    }
}
