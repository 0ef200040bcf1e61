// What the arguments ask.
ghost use Rattle.std.specs.Prelude.{◌≡◌, IfSome};
ghost use Rattle.ask.specs.Question.{question_of, window_allowed, Allowed};

use text::numbers::read_decimal;
use text::operations::Operation;

#[derive(Clone, Copy)]
pub enum Question {
    Check,
    Count,
    Label(u64),
    Window(u64, usize),
}

// `arguments` is their count, the program's name among them. An argument that is missing is empty. A wrong question is none.
#[tactic(auto, using(crate::proofs::Names::other_name), unfolding(crate::specs::Question::question_of))]
pub(crate) fn parse(arguments: usize, name: &[u8], first: &[u8], second: &[u8]) -> Option<Question>
    ensures asked { result ≡ question_of arguments name.now first.now second.now }
    ensures allowed { IfSome result Allowed }
{
    let operation = Operation::named(name)?;
    match (operation, arguments) {
        (Operation::Check, 2) => Some(Question::Check),
        (Operation::Count, 2) => Some(Question::Count),
        (Operation::Label, 3) => Some(Question::Label(read_decimal(first)?)),
        (Operation::Window, 4) => window_of(read_decimal(first)?, read_decimal(second)?),
        _ => None,
    }
}

// A window of at most 16,384 words.
fn window_of(position: u64, length: u64) -> Option<Question>
    ensures { result ≡ window_allowed position length }
{
    if length > 16384 {
        return None;
    }
    Some(Question::Window(position, length as usize))
}
