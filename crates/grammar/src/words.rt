// Document 01, "Trees and words": what a word means.
ghost use Rattle.std.specs.Prelude.{◌≡◌};
ghost use Rattle.model.specs.Words.{class_of};
ghost use Rattle.grammar.specs.Meaning.{class_is};

// The rows of the table; a parameter's number is from 1, a call names the rule that it calls.
#[derive(Clone, Copy, PartialEq, Eq)]
pub enum Word {
    Empty,
    Label,
    Parameter(u16),
    Call(u16),
    Illegal,
}

// "All other words are illegal": the row of a 16-bit word.
impl From<u16> for Word {
    ghost from_gives = { λ w r. class_is r ≡ class_of w };

    fn from(w: u16) -> Word {
        match w {
            0 => Word::Empty,
            1..=32767 => Word::Label,
            32769..=32772 => Word::Parameter(w - 32768),
            49152..=49407 => Word::Call(w - 49152),
            _ => Word::Illegal,
        }
    }
}
