// What is printed for an answer.
ghost use Rattle.std.specs.Prelude.{◌≡◌, ◌+◌, ◌*◌, ◌≤◌, [], ◌∷◌, ◌++◌, length, Some, IfSome};
ghost use Rattle.arrayvec.specs.ArrayVec.{array_vec_len};
ghost use Rattle.grammar.specs.Meaning.{answer_is};
ghost use Rattle.text.specs.Numbers.{decimal};
ghost use Rattle.ask.specs.Question.{Allowed};
ghost use Rattle.ask.specs.Replies.{reply, reply_to};

use crate::question::Question;
use arrayvec::ArrayVec;
use grammar::answers::{check, count};
use grammar::refusals::Answer;
use queries::label::label;
use queries::window::window;
use text::answers::{is_accepted, put_answer};
use text::lines::put;
use text::numbers::{put_decimal, put_words};

// The reply to a question; to a wrong one, which is none, the usage.
pub(crate) fn put_reply<const N: usize>(q: Option<Question>, file: &[u8], out: &mut ArrayVec<u8, N>)
    requires allowed { IfSome q Allowed }
    requires room { array_vec_len out.old + 82000 ≤ N }
    ensures { out.new.items ≡ out.old.items ++ reply_to q file.now }
{
    match q {
        Some(Question::Check) => put_answer(check(file), out),
        Some(Question::Count) => {
            let counted = count(file);
            put_numbered(counted.answer, b"nodes ", counted.nodes, out);
        }
        Some(Question::Label(p)) => {
            let labelled = label(file, p);
            put_numbered(labelled.answer, b"word ", u64::from(labelled.word), out);
        }
        Some(Question::Window(p, length)) => put_window(file, p, length, out),
        None => put(
            b"usage: ask check | count | label POSITION | window POSITION LENGTH (at most 16384), the file on standard input\n",
            out,
        ),
    }
}

// An answer, and where it is accepted a line of a name and a number.
// No `write!`, as in text::lines: what it promises doesn't rule out an `Err` where the text fits.
fn put_numbered<const N: usize>(answer: Answer, name: &[u8], n: u64, out: &mut ArrayVec<u8, N>)
    requires { (length name.now ≤ 10) × (array_vec_len out.old + 120 ≤ N) }
    ensures { out.new.items ≡ out.old.items ++ reply (answer_is answer) (name.now ++ decimal n ++ (10 ∷ [])) }
{
    put_answer(answer, out);
    if is_accepted(answer) {
        put(name, out);
        put_decimal(n, out);
        put(b"\n", out);
    }
}

fn put_window<const N: usize>(file: &[u8], p: u64, length: usize, out: &mut ArrayVec<u8, N>)
    requires { (length ≤ 16384) × (array_vec_len out.old + 80 + 5 * length ≤ N) }
    ensures { out.new.items ≡ out.old.items ++ reply_to (Some (Question.Window p length)) file.now }
{
    let mut words = [0; 16384];
    let words = &mut words[..length];
    let answer = window(file, p, words);
    put_answer(answer, out);
    if is_accepted(answer) {
        put_words(words, out);
    }
}
