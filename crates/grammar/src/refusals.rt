// Document 01, "Refusal numbers": the closed list, a refusal with its place, and an answer that names one of the list beside its counts.
ghost use Rattle.std.specs.Prelude.{◌≡◌, MatchResult};
ghost use Rattle.grammar.specs.Meaning.{reading_is, answer_is, query_answer};

// In the order of its numbers, from 1 on.
#[derive(Clone, Copy, PartialEq, Eq)]
pub enum Refusal {
    Short = 1,
    Kind,
    Length,
    Head,
    Rank,
    Symbol,
    Body,
    Trail,
    Large,
    Huge,
    Empty,
    Position,
    Node,
    Label,
    Tree,
    NothingLeft,
    Outgrown,
    Full,
    Room,
    Work,
    Request,
}

impl Refusal {
    // The refusal of the record with this number, the head's being 0; 0 too where document 01 gives no place.
    pub fn at(self, place: usize) -> Refused
        ensures { (result.refusal ≡ self) × (result.place ≡ place) }
    {
        Refused {
            refusal: self,
            place,
        }
    }
}

// What was read of the record with this number, or its refusal with that place. Not `map_err` at each call: tried, what the closure gives stayed folded in the proofs
// of both callers (`returns-in_err-n` open).
pub(crate) fn placed<T: Drop>(read: Result<T, Refusal>, place: usize) -> Result<T, Refused>
    ensures { MatchResult read (λ a. result ≡ Ok a) (λ x. result ≡ Err (record { refusal = x; place = place })) }
{
    read.map_err(|x| x.at(place))
}

// A refusal with its place.
#[derive(Clone, Copy, PartialEq, Eq)]
pub struct Refused {
    pub refusal: Refusal,
    pub place: usize,
}

// Accepted, or refused, beside the counts: document 01 asks for a struct that holds the refusal with its place next to them.
#[derive(Clone, Copy, PartialEq, Eq)]
pub struct Answer {
    pub verdict: Result<(), Refused>,
    pub opened: usize,
    pub rounds: usize,
    pub length: usize,
}

// The answer of a query, by what was read of the file: accepted or refused, with no counts.
impl From<Result<usize, Refused>> for Answer {
    ghost from_gives = { λ r a. answer_is a ≡ query_answer (reading_is r) };

    fn from(r: Result<usize, Refused>) -> Answer {
        Answer {
            verdict: r.map(|_| ()),
            opened: 0,
            rounds: 0,
            length: 0,
        }
    }
}
