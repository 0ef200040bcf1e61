// Bytes put one after the other: at the end of what was put before, or at a place in a slice that the caller lends.
// No `write!` of a `Display`: what it promises doesn't rule out an `Err` where the text fits (its `unwrap` stays open), and a line is put whole.
ghost use Rattle.std.specs.Prelude.{◌≡◌, ◌+◌, ◌≤◌, ◌++◌, length};
ghost use Rattle.arrayvec.specs.ArrayVec.{array_vec_len};
ghost use Rattle.text.specs.Lines.{Put};

use arrayvec::ArrayVec;

// Puts `text` at the end of `out`.
pub fn put<const N: usize>(text: &[u8], out: &mut ArrayVec<u8, N>)
    requires { array_vec_len out.old + length text.now ≤ N }
    ensures items { out.new.items ≡ out.old.items ++ text.now }
    ensures len { array_vec_len out.new ≡ array_vec_len out.old + length text.now }
{
    out.try_extend_from_slice(text).unwrap();
}

// Puts `text` at the place `at`, and answers the place after it. What stands behind that stays.
pub fn put_at(text: &[u8], out: &mut [u8], at: usize) -> usize
    requires { at + length text.now ≤ length out.old }
    ensures { Put text.now out.old at out.new result }
{
    let end = at + text.len();
    out[at..end].copy_from_slice(text);
    end
}
