// The records in a data file, read one at a time.
ghost use Rattle.std.specs.Prelude.{◌+◌, ◌*◌, ◌≤◌, ◌<◌, ◌≡◌, ◌↔◌, IsTrue, IfSome, OnSome, length};
ghost use Rattle.grammar.specs.Meaning.{word_in};
ghost use Rattle.cases.specs.Records.{Fits, long_in, WordsAt};

use crate::case::{Case, Kind};
use grammar::file::{bytes_at, length_at, word_at};

// What the next record is: a file, with its length, or a case. It is at the start of the slice that was lent for it.
#[derive(Clone, Copy)]
pub(crate) enum Found {
    File(usize),
    Case(Case),
}

pub(crate) fn next(fd: i32, file: &mut [u8], case: &mut [u8]) -> Option<Found>
    ensures { Fits result file.new case.new }
{
    let mut head = [0; 6];
    fill(fd, &mut head)?;
    let size = length_at(&head, 0);
    let kind = Kind::from(word_at(&head, 4));
    if kind == Kind::File {
        fill(fd, file.get_mut(..size)?)?;
        return Some(Found::File(size));
    }
    if size < 20 {
        return None;
    }
    fill(fd, case.get_mut(..size)?)?;
    Some(Found::Case(Case { kind, size }))
}

// Fills `out`, if there are so many bytes.
fn fill(fd: i32, out: &mut [u8]) -> Option<()> {
    (io::read_full(fd, out) == out.len()).then_some(())
}

// What a case asks, and what is right.
#[derive(Clone, Copy)]
pub struct Question {
    pub position: u64,
    pub number: u16,
    pub place: u16,
    pub value: u64,
}

impl Question {
    // A case's fields, which its payload begins with.
    pub fn of(payload: &[u8]) -> Self
        requires { 20 ≤ length payload.now }
        ensures position { result.position ≡ long_in payload.now 0 }
        ensures number { result.number ≡ word_in payload.now 8 }
        ensures place { result.place ≡ word_in payload.now 10 }
        ensures value { result.value ≡ long_in payload.now 12 }
    {
        Question {
            position: long_at(payload, 0),
            number: word_at(payload, 8),
            place: word_at(payload, 10),
            value: long_at(payload, 12),
        }
    }
}

// The 64-bit number at a place.
fn long_at(bytes: &[u8], at: usize) -> u64
    requires { at + 7 < length bytes.now }
    ensures { result ≡ long_in bytes.now at }
{
    u64::from_le_bytes(bytes_at(bytes, at))
}

// The words are those that stand at a place.
pub fn words_are(words: &[u16], bytes: &[u8], at: usize) -> bool
    requires { at + (length words.now + length words.now) ≤ length bytes.now }
    ensures { IsTrue result ↔ WordsAt words.now bytes.now at }
{
    for (i, w) in words.iter().enumerate() {
        if *w != word_at(bytes, at + 2 * i) {
            return false;
        }
    }
    true
}
