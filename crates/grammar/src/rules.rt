// Document 01, "File layout": the rules of a file, record by record, into the rule table: for each rule its rank, and the place and length of its body.
ghost use Rattle.std.specs.Prelude.{◌≡◌, ◌+◌, ◌*◌, ◌≤◌, ◌<◌, length, take, drop};
ghost use Rattle.model.specs.Refusals.{taken};
ghost use Rattle.grammar.specs.Meaning.{ranks_in, RanksSmall, record_result, result_is, rule_result, RulesRead};

use crate::bodies::{legal, shaped};
use crate::file::{Kind, record_at, word_at};
use crate::refusals::{Refusal, Refused, placed};

// A rule as it stands in the file: its rank, the place of its body and the number of its body's words.
#[derive(Clone, Copy, PartialEq, Eq)]
pub struct Entry {
    pub rank: u16,
    pub place: u16,
    pub words: u16,
}

impl Entry {
    // Of a rule that there isn't.
    pub const NONE: Entry = Entry {
        rank: 0,
        place: 0,
        words: 0,
    };

    // The rule's body, two bytes for each word.
    pub fn body(self, file: &[u8]) -> &[u8]
        requires { self.place + 2 * self.words ≤ length file.now }
        ensures { result.now ≡ take (2 * self.words) (drop self.place file.now) }
    {
        let at = self.place as usize;
        &file[at..at + 2 * self.words as usize]
    }
}

// A rule's record at a place, above the rules below it; last where it is the start rule.
pub(crate) fn rule_at(file: &[u8], at: usize, below: &[Entry], last: bool) -> Result<Entry, Refusal>
    requires { (at ≤ length file.now) × (length file.now ≤ 16384) × RanksSmall below.now }
    ensures { result_is result ≡ rule_result (ranks_in below.now) last at (drop at file.now) }
{
    let len = record_at(file, at, Kind::Rule)?;
    rule_in(file, at, len, below, last)
}

// The same, of a record that is whole: "5, 6 over the whole body, 7".
fn rule_in(
    file: &[u8],
    at: usize,
    len: usize,
    below: &[Entry],
    last: bool,
) -> Result<Entry, Refusal>
    requires { (at ≤ length file.now) × (length file.now ≤ 16384) × RanksSmall below.now
        × (record_result 2 (drop at file.now) ≡ taken len) × (at + 6 + len ≤ length file.now) × (4 ≤ len) }
    ensures { result_is result ≡ rule_result (ranks_in below.now) last at (drop at file.now) }
{
    let rank = word_at(file, at + 6);
    let most = if last { 0 } else { 4 };
    if most < rank {
        return Err(Refusal::Rank);
    }
    let body = &file[at + 8..at + 6 + len];
    if !legal(body, below.len()) {
        return Err(Refusal::Symbol);
    }
    if !shaped(body, rank as usize, below) {
        return Err(Refusal::Body);
    }
    Ok(Entry {
        rank,
        place: (at + 8) as u16,
        words: ((len - 2) / 2) as u16,
    })
}

// The n rules from place 10 on, into the table: the place after the last, or the first refusal.
pub(crate) fn rules(file: &[u8], n: usize, table: &mut [Entry]) -> Result<usize, Refused>
    requires { (10 ≤ length file.now) × (length file.now ≤ 16384) × (n ≤ 256) × (256 ≤ length table.old) }
    ensures { RulesRead result n file.now table.old table.new }
{
    let mut at = 10;
    for r in 0..n {
        let rule = placed(rule_at(file, at, &table[..r], r + 1 == n), r + 1)?;
        table[r] = rule;
        at += 8 + 2 * rule.words as usize;
    }
    Ok(at)
}
