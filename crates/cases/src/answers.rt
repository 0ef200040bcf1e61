// An answer held to the one that a case has.
ghost use Rattle.std.specs.Prelude.{◌≡◌};
ghost use Rattle.grammar.specs.Meaning.{answer_is};
ghost use Rattle.cases.specs.Records.{is_query_answer};

use grammar::refusals::Answer;
use text::refusals::{verdict_number, verdict_place};

// "An answer holds number (0 = accepted), place, rules opened, rounds and length written; the last three are 0 in a refusal or query."
pub fn is_query_answer(a: Answer, number: u16, place: u16) -> bool
    ensures { result ≡ is_query_answer (answer_is a) number place }
{
    verdict_number(a.verdict) == usize::from(number)
        && verdict_place(a.verdict) == usize::from(place)
        && a.opened == 0
        && a.rounds == 0
        && a.length == 0
}
