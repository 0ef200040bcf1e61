// A case: a record that asks about the file before it.
ghost use Rattle.std.specs.Prelude.{◌≡◌};
ghost use Rattle.cases.specs.Kinds.{kind_of};

// What a record is, by the number of its kind. Another kind keeps its number; no case of it is answered rightly.
#[derive(Clone, Copy, PartialEq, Eq)]
pub enum Kind {
    File,
    Check,
    Label,
    Window,
    Other(u16),
}

impl From<u16> for Kind {
    ghost from_gives = { λ number kind. kind ≡ kind_of number };

    fn from(number: u16) -> Kind {
        match number {
            1 => Kind::File,
            2 => Kind::Check,
            3 => Kind::Label,
            4 => Kind::Window,
            _ => Kind::Other(number),
        }
    }
}

// A case. Its payload is the first `size` bytes of the slice that was lent for it: a vector of its own would not be Copy, as a run's progress is.
#[derive(Clone, Copy, PartialEq, Eq)]
pub struct Case {
    pub kind: Kind,
    pub size: usize,
}
