// Document 01, "Reference trees": H and H', built.
ghost use Rattle.std.specs.Prelude.{◌≡◌, ◌+◌, ◌≤◌, ◌++◌, length};
ghost use Rattle.arrayvec.specs.ArrayVec.{array_vec_len};
ghost use Rattle.text.specs.Lines.{Put};
ghost use Rattle.cases.specs.Reference.{rules_one_to39, doubled};

use arrayvec::ArrayVec;
use text::lines::{put, put_at};

// H where the start calls rule 38, H' where it calls rule 39.
pub fn put_doubled<const N: usize>(called: u8, out: &mut ArrayVec<u8, N>)
    requires { array_vec_len out.old + 582 ≤ N }
    ensures items { out.new.items ≡ out.old.items ++ doubled called }
    ensures len { array_vec_len out.new ≡ array_vec_len out.old + 582 }
{
    put(b"\x04\x00\x00\x00\x01\x00\x01\x00\x29\x00", out);
    put(
        b"\x08\x00\x00\x00\x02\x00\x01\x00\x02\x00\x00\x00\x01\x80",
        out,
    );
    put_doublings(out);
    put(&[6, 0, 0, 0, 2, 0, 0, 0, called, 192, 0, 0], out);
}

// The same at the start of a lent slice, with the place after it.
pub fn put_doubled_at(called: u8, out: &mut [u8]) -> usize
    requires { 582 ≤ length out.old }
    ensures { Put (doubled called) out.old 0 out.new result × (result ≤ 582) }
{
    let mut file: ArrayVec<u8, 582> = ArrayVec::new();
    put_doubled(called, &mut file);
    put_at(&file, out, 0)
}

// Rules 1 to 39: each calls the one before twice, nested.
#[tactic(auto, unfolding(crate::specs::Reference::rules_one_to39))]
fn put_doublings<const N: usize>(out: &mut ArrayVec<u8, N>)
    requires { array_vec_len out.old + 546 ≤ N }
    ensures items { out.new.items ≡ out.old.items ++ rules_one_to39 }
    ensures len { array_vec_len out.new ≡ array_vec_len out.old + 546 }
{
    for j in 0..39 {
        put(&[8, 0, 0, 0, 2, 0, 1, 0, j, 192, j, 192, 1, 128], out);
    }
}
