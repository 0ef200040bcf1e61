// The calls, one after the other.
ghost use Rattle.std.specs.Prelude.{◌≡◌, ℕ, ◌+◌, ◌^◌, ◌<◌, ◌≤◌, ◌++◌, List, length, sum};
ghost use Rattle.arrayvec.specs.ArrayVec.{array_vec_len};
ghost use Rattle.time_queries.specs.Inputs.{varied, start_at};
ghost use Rattle.time_queries.specs.Replies.{Reply as Replied, reply_is, checked_reply, counted_reply, label_reply, window_reply};
ghost use Rattle.time_queries.specs.Runs.{tallies, tally_of, run_line};

use crate::inputs::{Starts, flip, window_length};
use crate::tallies::{Reply, Tally};
use crate::task::Task;
use arrayvec::ArrayVec;
use grammar::answers::{check, count};
use queries::label::label;
use queries::window::window;
use text::operations::Operation;

// Makes the calls, and puts their line.
pub(crate) fn put_run<const N: usize>(task: Task, file: &mut [u8], out: &mut ArrayVec<u8, N>)
    requires { array_vec_len out.old + 100 ≤ N }
    ensures { out.new.items ≡ out.old.items ++ run_line task file.old }
{
    let nodes = count(file).nodes;
    run(task, file, nodes).put(nodes, out);
}

// By the operation, on a file of so many nodes.
fn run(task: Task, file: &mut [u8], nodes: u64) -> Tally
    ensures { result ≡ tally_of task file.old nodes }
{
    match task.operation {
        Operation::Check => run_whole(
            file,
            task.times,
            |file| Reply {
                answer: check(file),
                value: 0,
            },
        ),
        Operation::Count => run_whole(file, task.times, |file| Reply::from(count(file))),
        Operation::Label => {
            let file = &*file;
            run_at(
                Starts::of(nodes, 1),
                task.times,
                |p| Reply::from(label(file, p)),
            )
        }
        Operation::Window => {
            let file = &*file;
            let length = window_length(nodes);
            run_at(
                Starts::of(nodes, length as u64),
                task.times,
                |p| windowed(file, length, p),
            )
        }
    }
}

// Each call on the whole file, which is changed between.
fn run_whole<F: Fn(&[u8]) -> Reply>(file: &mut [u8], times: u64, call: F) -> Tally
    ghost replies: { List ℕ → Replied }
    requires callable { F.IsAlwaysCallable call }
    requires replies { (f : _) (r : _) → F.post call f r → reply_is r ≡ replies f.now }
    ensures { (result ≡ tallies (λ i. replies (varied file.old i)) times) × (file.new ≡ varied file.old times) }
{
    let mut t = Tally::default();
    for _ in 0..times {
        t = t.with(call(file));
        flip(file);
    }
    t
}

// Each call at another position. One loop for both would have to lend each call what changes, and lend it again to change it: no plainer than the two.
fn run_at<F: Fn(u64) -> Reply>(starts: Starts, times: u64, call: F) -> Tally
    ghost replies: { ℕ → Replied }
    requires callable { F.IsAlwaysCallable call }
    requires replies { (p : ℕ) (r : _) → p < 2 ^ 64 → F.post call p r → reply_is r ≡ replies p }
    ensures { result ≡ tallies (λ i. replies (start_at starts.count i)) times }
{
    let mut t = Tally::default();
    let mut p = 0;
    for _ in 0..times {
        t = t.with(call(p));
        p = starts.after(p);
    }
    t
}

// A window comes with the sum of its words.
fn windowed(file: &[u8], length: usize, p: u64) -> Reply
    requires { length ≤ 256 }
    ensures { reply_is result ≡ window_reply file.now length p }
{
    let mut words = [0; 256];
    let words = &mut words[..length];
    let answer = window(file, p, words);
    Reply {
        answer,
        value: sum_of(words),
    }
}

fn sum_of(words: &[u16]) -> u64
    requires { length words.now ≤ 2 ^ 48 }
    ensures { result ≡ sum words.now }
{
    words.iter().map(|w| u64::from(*w)).sum()
}
