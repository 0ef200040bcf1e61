// The name of a data file, and what is printed under it.
ghost use Rattle.std.specs.Prelude.{◌≤◌, length};

use arrayvec::ArrayVec;
use cases::reports::{put_summary, put_wrong};

const STDOUT: i32 = 1;

// A name for which a line has room.
#[derive(Clone, Copy)]
pub(crate) struct Name<'a> {
    pub text: &'a str,
    ghost short: { length text.now ≤ 64 },
}

impl<'a> Name<'a> {
    pub(crate) fn new(text: &'a str) -> Self
        requires { length text.now ≤ 64 }
    {
        Name { text }
    }

    // How many cases there were.
    pub(crate) fn print_summary(self, cases: u64, wrong: u64) {
        let mut line: ArrayVec<u8, 128> = ArrayVec::new();
        put_summary(self.text.as_bytes(), cases, wrong, &mut line);
        io::write_all(STDOUT, &line);
    }

    // That a case is wrong.
    pub(crate) fn print_wrong(self, case: u64) {
        let mut line: ArrayVec<u8, 128> = ArrayVec::new();
        put_wrong(self.text.as_bytes(), case, &mut line);
        io::write_all(STDOUT, &line);
    }
}
