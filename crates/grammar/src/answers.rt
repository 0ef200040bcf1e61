// Document 01: the checker and the node counter.
ghost use Rattle.std.specs.Prelude.{◌≡◌};
ghost use Rattle.model.specs.Answers.{checked, counted};
ghost use Rattle.grammar.specs.Meaning.{answer_is, count_is};

use crate::read::read;
use crate::refusals::Answer;
use crate::rules::Entry;
use crate::sizes::first_gaps;

// "The checker answers a file."
pub fn check(file: &[u8]) -> Answer
    ensures { answer_is result ≡ checked file.now }
{
    let mut table = [Entry::NONE; 256];
    let mut sizes = [0u64; 1280];
    Answer::from(read(file, &mut table, &mut sizes))
}

// An answer with N. Kept beside the answer and not in a Result: document 01 has "Refused, N is 0", which `count` promises. No generic struct stands for this one and the
// label query's: N and the word would lose their names, by which `count` and `label` promise them.
#[derive(Clone, Copy, PartialEq, Eq)]
pub struct Counted {
    pub answer: Answer,
    pub nodes: u64,
}

// "The counter adds N." Refused, N is 0.
pub fn count(file: &[u8]) -> Counted
    ensures { count_is result ≡ counted file.now }
{
    let mut table = [Entry::NONE; 256];
    let mut sizes = [0u64; 1280];
    let r = read(file, &mut table, &mut sizes);
    let answer = Answer::from(r);
    let nodes = match r {
        Ok(n) => first_gaps(&sizes, n - 1, 5),
        Err(_) => 0,
    };
    Counted { answer, nodes }
}
