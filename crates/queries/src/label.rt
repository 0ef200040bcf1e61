// Document 01, "Refusal numbers": the label query.
ghost use Rattle.std.specs.Prelude.{◌≡◌};
ghost use Rattle.model.specs.Answers.{label_at};
ghost use Rattle.queries.specs.Labels.{label_is};

use crate::window::window;
use grammar::refusals::Answer;

// An answer with the word. Kept beside the answer and not in a Result: document 01 has FFFF for a refused label, which `label` promises. Not one generic type with
// `Counted`: `word` and `nodes` are public fields, by which callers and contracts name what each query adds.
#[derive(Clone, Copy, PartialEq, Eq)]
pub struct Labelled {
    pub answer: Answer,
    pub word: u16,
}

// The label query: the word at p, 0 at a ⊥. Refused, the word is FFFF.
pub fn label(file: &[u8], p: u64) -> Labelled
    ensures { label_is result ≡ label_at file.now p }
{
    let mut word = [0u16; 1];
    let answer = window(file, p, &mut word);
    Labelled {
        answer: answer,
        word: word[0],
    }
}
