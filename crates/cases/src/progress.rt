// A run over a data file: from case to case, counting.
ghost use Rattle.std.specs.Prelude.{◌≤◌, ◌<◌, ◌≡◌, length};
ghost use Rattle.cases.specs.Progress.{begun, judged_as, Advanced};

use crate::case::Case;
use crate::records::{Found, next};

// Before the first case, at a case, or at the data's end.
#[derive(Clone, Copy, PartialEq, Eq)]
pub enum Stage {
    Begun,
    Case(Case),
    Ended,
}

// The length of the file asked about, where in the data this is, how many cases there were and how many of them were answered wrong.
// `length` stands beside no buffer: `Turning.none_wrong` speaks of it, and the space for the file is lent.
#[derive(Clone, Copy)]
pub struct Progress {
    pub length: usize,
    pub stage: Stage,
    pub cases: u64,
    pub wrong: u64,
}

impl Progress {
    // Before the first case, with a file of the given length at hand.
    pub fn new(length: usize) -> Self
        ensures { result ≡ begun length }
    {
        Progress {
            length,
            stage: Stage::Begun,
            cases: 0,
            wrong: 0,
        }
    }

    // On to the next case, past a file that stands before it. A case is counted; where there is none, that is the end. What doesn't fit into the
    // slice that is lent for it is none.
    pub fn advance(self, fd: i32, file: &mut [u8], case: &mut [u8]) -> Self
        requires { (self.length ≤ length file.old) × (self.cases < 1000000) }
        ensures { Advanced self result file.new case.new }
    {
        let (length, found) = match next(fd, file, case) {
            Some(Found::File(length)) => (length, next(fd, file, case)),
            found => (self.length, found),
        };
        match found {
            Some(Found::Case(case)) => Progress {
                length,
                stage: Stage::Case(case),
                cases: self.cases + 1,
                ..self
            },
            Some(Found::File(_)) | None => Progress {
                length,
                stage: Stage::Ended,
                ..self
            },
        }
    }

    // The case was answered, rightly or not.
    pub fn judged(self, right: bool) -> Self
        requires { self.wrong < 1000000 }
        ensures { result ≡ judged_as self right }
    {
        if right {
            return self;
        }
        Progress {
            wrong: self.wrong + 1,
            ..self
        }
    }
}
