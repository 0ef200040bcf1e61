// What is kept of the answers: how many were accepted, and a checksum of all of them, in order.
ghost use Rattle.std.specs.Prelude.{◌≡◌, ◌+◌, ◌^◌, ◌<◌, ◌≤◌, ◌++◌};
ghost use Rattle.arrayvec.specs.ArrayVec.{array_vec_len};
ghost use Rattle.time_queries.specs.Replies.{reply_is};
ghost use Rattle.time_queries.specs.Tallies.{tallied, mixed, tally_line};

use arrayvec::ArrayVec;
use grammar::answers::Counted;
use grammar::refusals::Answer;
use queries::label::Labelled;
use text::lines::put;
use text::numbers::put_decimal;
use text::refusals::{verdict_number, verdict_place};

// An answer, and the number that came with it.
#[derive(Clone, Copy)]
pub struct Reply {
    pub answer: Answer,
    pub value: u64,
}

// One From for each of the two: their public fields have other names, `nodes` and `word`, so no one impl reads both.
impl From<Counted> for Reply {
    ghost from_gives = { λ c r. (r.answer ≡ c.answer) × (r.value ≡ c.nodes) };

    fn from(counted: Counted) -> Reply {
        Reply {
            answer: counted.answer,
            value: counted.nodes,
        }
    }
}

impl From<Labelled> for Reply {
    ghost from_gives = { λ l r. (r.answer ≡ l.answer) × (r.value ≡ l.word) };

    fn from(labelled: Labelled) -> Reply {
        Reply {
            answer: labelled.answer,
            value: u64::from(labelled.word),
        }
    }
}

// Before the first call both are 0.
#[derive(Clone, Copy, Default)]
pub struct Tally {
    pub accepted: u64,
    pub sum: u32,
}

impl Tally {
    // With one more reply.
    #[tactic(auto, unfolding(crate::specs::Tallies::tallied))]
    pub(crate) fn with(self, reply: Reply) -> Tally
        requires { self.accepted + 1 < 2 ^ 64 }
        ensures { (result ≡ tallied self (reply_is reply)) × (result.accepted ≤ self.accepted + 1) }
    {
        let verdict = reply.answer.verdict;
        let number = verdict_number(verdict);
        let place = verdict_place(verdict);
        let sum = mix(mix(mix(self.sum, number as u64), place as u64), reply.value);
        if verdict.is_ok() {
            return Tally {
                accepted: self.accepted + 1,
                sum,
            };
        }
        Tally { sum, ..self }
    }

    // "nodes 11 accepted 5 sum 12345"
    // No `write!`, as in text::lines: what it promises doesn't rule out an `Err` where the text fits.
    pub(crate) fn put<const N: usize>(self, nodes: u64, out: &mut ArrayVec<u8, N>)
        requires { array_vec_len out.old + 100 ≤ N }
        ensures { out.new.items ≡ out.old.items ++ tally_line nodes self }
    {
        put(b"nodes ", out);
        put_decimal(nodes, out);
        put(b" accepted ", out);
        put_decimal(self.accepted, out);
        put(b" sum ", out);
        put_decimal(u64::from(self.sum), out);
        put(b"\n", out);
    }
}

// The checksum with one more number; an order other than the right one changes it.
// It wraps. Of the number the low 32 bits are taken by `%`, as `as` may lose nothing.
fn mix(sum: u32, x: u64) -> u32
    ensures { result ≡ mixed sum x }
{
    sum.wrapping_mul(31).wrapping_add((x % 4294967296) as u32)
}
