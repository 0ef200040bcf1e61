// An answer as a line.
ghost use Rattle.std.specs.Prelude.{◌+◌, ◌≤◌, ◌≡◌, ◌++◌, eqb, length};
ghost use Rattle.arrayvec.specs.ArrayVec.{array_vec_len};
ghost use Rattle.model.specs.Refusals.{number_of};
ghost use Rattle.grammar.specs.Meaning.{refusal_is, answer_is};
ghost use Rattle.text.specs.Lines.{Put};
ghost use Rattle.text.specs.Answers.{answer_line, refusal_line};

use crate::lines::{put, put_at};
use crate::numbers::put_decimal;
use crate::refusals::{name, number};
use arrayvec::ArrayVec;
use grammar::refusals::{Answer, Refused};

// `accepted`, or `refused N NAME place P`.
pub fn put_answer<const N: usize>(a: Answer, out: &mut ArrayVec<u8, N>)
    requires { array_vec_len out.old + 80 ≤ N }
    ensures items { out.new.items ≡ out.old.items ++ answer_line (answer_is a) }
    ensures len { array_vec_len out.new ≤ array_vec_len out.old + 80 }
{
    match a.verdict {
        Ok(()) => put(b"accepted\n", out),
        Err(x) => put_refusal(x, out),
    }
}

// The same at the start of a lent slice, with the place after it.
pub fn put_answer_at(a: Answer, out: &mut [u8]) -> usize
    requires { 80 ≤ length out.old }
    ensures { Put (answer_line (answer_is a)) out.old 0 out.new result × (result ≤ 80) }
{
    let mut line: ArrayVec<u8, 80> = ArrayVec::new();
    put_answer(a, &mut line);
    put_at(&line, out, 0)
}

// Accepted is number 0.
pub fn is_accepted(a: Answer) -> bool
    ensures { result ≡ eqb (answer_is a).number 0 }
{
    a.verdict.is_ok()
}

fn put_refusal<const N: usize>(x: Refused, out: &mut ArrayVec<u8, N>)
    requires { array_vec_len out.old + 80 ≤ N }
    ensures items { out.new.items ≡ out.old.items ++ refusal_line (number_of (refusal_is x.refusal)) x.place }
    ensures len { array_vec_len out.new ≤ array_vec_len out.old + 80 }
{
    // No `write!`, as in `lines`: what it promises doesn't rule out an `Err` where the text fits.
    put(b"refused ", out);
    put_decimal(number(x.refusal) as u64, out);
    put(b" ", out);
    put(name(x.refusal), out);
    put(b" place ", out);
    put_decimal(x.place as u64, out);
    put(b"\n", out);
}
