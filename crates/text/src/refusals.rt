// Document 01, "Refusal numbers": the number and the name of a refusal.
ghost use Rattle.std.specs.Prelude.{◌≡◌, ◌≤◌, length};
ghost use Rattle.model.specs.Refusals.{number_of, name_of};
ghost use Rattle.grammar.specs.Meaning.{refusal_is, verdict_is};

use grammar::refusals::{Refusal, Refused};

// The number of the table's first column, which the enum has.
pub(crate) fn number(x: Refusal) -> usize
    ensures { result ≡ number_of (refusal_is x) }
{
    x as usize
}

// The name of the table's second column, in bytes, as lines are put.
pub(crate) fn name(x: Refusal) -> &'static [u8]
    ensures { (result.now ≡ name_of (refusal_is x)) × (length result.now ≤ 12) }
{
    match x {
        Refusal::Short => b"SHORT",
        Refusal::Kind => b"KIND",
        Refusal::Length => b"LENGTH",
        Refusal::Head => b"HEAD",
        Refusal::Rank => b"RANK",
        Refusal::Symbol => b"SYMBOL",
        Refusal::Body => b"BODY",
        Refusal::Trail => b"TRAIL",
        Refusal::Large => b"LARGE",
        Refusal::Huge => b"HUGE",
        Refusal::Empty => b"EMPTY",
        Refusal::Position => b"POSITION",
        Refusal::Node => b"NODE",
        Refusal::Label => b"LABEL",
        Refusal::Tree => b"TREE",
        Refusal::NothingLeft => b"NOTHING LEFT",
        Refusal::Outgrown => b"OUTGROWN",
        Refusal::Full => b"FULL",
        Refusal::Room => b"ROOM",
        Refusal::Work => b"WORK",
        Refusal::Request => b"REQUEST",
    }
}

// An answer's number: 0 = accepted.
pub fn verdict_number(v: Result<(), Refused>) -> usize
    ensures { result ≡ (verdict_is v 0 0 0).number }
{
    match v {
        Ok(()) => 0,
        Err(x) => number(x.refusal),
    }
}

// An answer's place, which stands beside its refusal; 0 where it is accepted.
pub fn verdict_place(v: Result<(), Refused>) -> usize
    ensures { result ≡ (verdict_is v 0 0 0).place }
{
    match v {
        Ok(()) => 0,
        Err(x) => x.place,
    }
}
