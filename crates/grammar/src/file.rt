// Document 01, "File layout": numbers and records, read where they stand.
ghost use Rattle.std.specs.Prelude.{◌≡◌, ◌+◌, ◌≤◌, ◌<◌, length, take, drop};
ghost use Rattle.grammar.specs.Meaning.{word_in, length_in, kind_is, result_is, length_allowed, record_result, head_result};

use crate::refusals::Refusal;

// The N bytes at a place.
pub fn bytes_at<const N: usize>(file: &[u8], at: usize) -> [u8; N]
    requires { at + N ≤ length file.now }
    ensures { result ≡ take N (drop at file.now) }
{
    file[at..at + N].try_into().unwrap()
}

// The 16-bit number at a place.
pub fn word_at(file: &[u8], at: usize) -> u16
    requires { at + 1 < length file.now }
    ensures { result ≡ word_in file.now at }
{
    u16::from_le_bytes(bytes_at(file, at))
}

// The 32-bit number at a place.
pub fn length_at(file: &[u8], at: usize) -> usize
    requires { at + 3 < length file.now }
    ensures { result ≡ length_in file.now at }
{
    u32::from_le_bytes(bytes_at(file, at)) as usize
}

// The kinds of records, by their numbers.
#[derive(Clone, Copy, PartialEq, Eq)]
pub(crate) enum Kind {
    Head = 1,
    Rule = 2,
}

impl Kind {
    // A payload length that the kind allows: 4 for the head; even and at least 4 for a rule.
    fn allows(self, len: usize) -> bool
        ensures { result ≡ length_allowed (kind_is self) len }
    {
        match self {
            Kind::Head => len == 4,
            Kind::Rule => len % 2 == 0 && 4 <= len,
        }
    }
}

// A record at a place: its payload's length, or the first refusal of "six header bytes 1, kind 2, length 3, payload bytes 1".
pub(crate) fn record_at(file: &[u8], at: usize, kind: Kind) -> Result<usize, Refusal>
    requires { at ≤ length file.now }
    ensures { result_is result ≡ record_result (kind_is kind) (drop at file.now) }
{
    let left = file.len() - at;
    if left < 6 {
        return Err(Refusal::Short);
    }
    if word_at(file, at + 4) != kind as u16 {
        return Err(Refusal::Kind);
    }
    let len = length_at(file, at);
    if !kind.allows(len) {
        return Err(Refusal::Length);
    }
    if left - 6 < len {
        return Err(Refusal::Short);
    }
    Ok(len)
}

// The head: the number of rules, or the first refusal.
pub(crate) fn head(file: &[u8]) -> Result<usize, Refusal>
    ensures { result_is result ≡ head_result file.now }
{
    record_at(file, 0, Kind::Head)?;
    let edition = word_at(file, 6);
    let n = word_at(file, 8) as usize;
    if edition != 1 || n < 1 || 256 < n {
        return Err(Refusal::Head);
    }
    Ok(n)
}
