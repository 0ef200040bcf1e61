// Numbers as text, and decimal text read back.
ghost use Rattle.std.specs.Prelude.{◌+◌, ◌*◌, ◌≤◌, ◌<◌, ◌≡◌, [], ◌∷◌, ◌++◌, length};
ghost use Rattle.arrayvec.specs.ArrayVec.{array_vec_len};
ghost use Rattle.io.specs.Digits.{hex_digit_ascii as glyph_of};
ghost use Rattle.text.specs.Lines.{Put};
ghost use Rattle.text.specs.Numbers.{decimal, hex_word, separator_after, word_lines, number_in, with_digit};

use crate::lines::{put, put_at};
use arrayvec::ArrayVec;
use itoa::Buffer;

// A number in decimal digits.
#[tactic(auto, using(crate::proofs::Decimals::decimal_is))]
pub fn put_decimal<const N: usize>(n: u64, out: &mut ArrayVec<u8, N>)
    requires { array_vec_len out.old + 20 ≤ N }
    ensures items { out.new.items ≡ out.old.items ++ decimal n }
    ensures len { array_vec_len out.new ≤ array_vec_len out.old + 20 }
{
    put(Buffer::new().format(n).as_bytes(), out);
}

// The same at a place in a lent slice, with the place after it.
pub fn put_decimal_at(n: u64, out: &mut [u8], at: usize) -> usize
    requires { at + 20 ≤ length out.old }
    ensures { Put (decimal n) out.old at out.new result × (result ≤ at + 20) }
{
    put_at(Buffer::new().format(n).as_bytes(), out, at)
}

// A word in four hexadecimal digits, and what stands after it. No `io::hex`: it counts the digits, and takes several times as long.
fn put_word_at(w: u16, after: u8, out: &mut [u8], at: usize) -> usize
    requires { at + 5 ≤ length out.old }
    ensures { Put (hex_word w ++ (after ∷ [])) out.old at out.new result × (result ≡ at + 5) }
{
    out[at] = glyph(w / 4096);
    out[at + 1] = glyph(w / 256 % 16);
    out[at + 2] = glyph(w / 16 % 16);
    out[at + 3] = glyph(w % 16);
    out[at + 4] = after;
    at + 5
}

fn glyph(d: u16) -> u8
    requires { d < 16 }
    ensures { result ≡ glyph_of d }
{
    if d < 10 { 48 + d as u8 } else { 87 + d as u8 }
}

// Words in hex, blanks between, 16 to a line.
pub fn put_words<const N: usize>(words: &[u16], out: &mut ArrayVec<u8, N>)
    requires { array_vec_len out.old + 5 * length words.now ≤ N }
    ensures items { out.new.items ≡ out.old.items ++ word_lines words.now }
    ensures len { array_vec_len out.new ≡ array_vec_len out.old + 5 * length words.now }
{
    let at = out.len();
    // Room is made a line at a time, and the words are put into it at once: no look for room a word.
    for line in words.chunks(16) {
        out.try_extend_from_slice(&[0; 80][..5 * line.len()])
            .unwrap();
    }
    put_words_at(words, out, at);
}

// The same at a place in a lent slice, with the place after them.
pub fn put_words_at(words: &[u16], out: &mut [u8], at: usize) -> usize
    requires { at + 5 * length words.now ≤ length out.old }
    ensures { Put (word_lines words.now) out.old at out.new result × (result ≡ at + 5 * length words.now) }
{
    let mut end = at;
    for (i, w) in words.iter().enumerate() {
        end = put_word_at(*w, separator(i, words.len()), out, end);
    }
    end
}

// What decimal text says: a number below 2^64. Digits alone, at least one; `parse` would take a sign too.
#[tactic(auto, unfolding(crate::specs::Numbers::number_in))]
pub fn read_decimal(text: &[u8]) -> Option<u64>
    ensures { result ≡ number_in text.now }
{
    if text.is_empty() {
        return None;
    }
    let mut n = 0;
    for b in text {
        n = with_digit(n, *b)?;
    }
    Some(n)
}

// The number n with one more digit.
fn with_digit(n: u64, b: u8) -> Option<u64>
    ensures { result ≡ with_digit n b }
{
    let digit = char::from(b).to_digit(10)?;
    n.checked_mul(10)?.checked_add(u64::from(digit))
}

// What stands after word i of n.
fn separator(i: usize, n: usize) -> u8
    requires { i < n }
    ensures { result ≡ separator_after i n }
{
    if i % 16 == 15 || i + 1 == n {
        b'\n'
    } else {
        b' '
    }
}
