// What a test program prints. Put, and not written by `Display`: `write!` may fail, and these functions can't.
ghost use Rattle.std.specs.Prelude.{◌≡◌, ◌+◌, ◌≤◌, ◌++◌, length};
ghost use Rattle.arrayvec.specs.ArrayVec.{array_vec_len};
ghost use Rattle.io.specs.Counts.{IsPrefixLen};
ghost use Rattle.text.specs.Lines.{Put};
ghost use Rattle.cases.specs.Reports.{summary, wrong_line};

use arrayvec::ArrayVec;
use text::lines::{put, put_at};
use text::numbers::put_decimal;

// `NAME: 165 cases, 0 wrong`
pub fn put_summary<const N: usize>(name: &[u8], cases: u64, wrong: u64, out: &mut ArrayVec<u8, N>)
    requires { array_vec_len out.old + length name.now + 64 ≤ N }
    ensures items { out.new.items ≡ out.old.items ++ summary name.now cases wrong }
    ensures len { array_vec_len out.new ≤ array_vec_len out.old + length name.now + 64 }
{
    put(name, out);
    put_counts(cases, wrong, out);
}

// The same at the start of a lent slice, with the place after it.
pub fn put_summary_at(name: &[u8], cases: u64, wrong: u64, out: &mut [u8]) -> usize
    requires { length name.now + 64 ≤ length out.old }
    ensures { Put (summary name.now cases wrong) out.old 0 out.new result × IsPrefixLen result out.new }
{
    let mut counts: ArrayVec<u8, 64> = ArrayVec::new();
    put_counts(cases, wrong, &mut counts);
    let end = put_at(name, out, 0);
    put_at(&counts, out, end)
}

// What follows the name.
fn put_counts<const N: usize>(cases: u64, wrong: u64, out: &mut ArrayVec<u8, N>)
    requires { array_vec_len out.old + 64 ≤ N }
    ensures items { out.new.items ≡ summary out.old.items cases wrong }
    ensures len { array_vec_len out.new ≤ array_vec_len out.old + 64 }
{
    put(b": ", out);
    put_decimal(cases, out);
    put(b" cases, ", out);
    put_decimal(wrong, out);
    put(b" wrong\n", out);
}

// `NAME: case 17 is wrong`
pub fn put_wrong<const N: usize>(name: &[u8], case: u64, out: &mut ArrayVec<u8, N>)
    requires { array_vec_len out.old + length name.now + 64 ≤ N }
    ensures items { out.new.items ≡ out.old.items ++ wrong_line name.now case }
    ensures len { array_vec_len out.new ≤ array_vec_len out.old + length name.now + 64 }
{
    put(name, out);
    put_case(case, out);
}

// The same at the start of a lent slice, with the place after it.
pub fn put_wrong_at(name: &[u8], case: u64, out: &mut [u8]) -> usize
    requires { length name.now + 64 ≤ length out.old }
    ensures { Put (wrong_line name.now case) out.old 0 out.new result × IsPrefixLen result out.new }
{
    let mut said: ArrayVec<u8, 64> = ArrayVec::new();
    put_case(case, &mut said);
    let end = put_at(name, out, 0);
    put_at(&said, out, end)
}

// What follows the name.
fn put_case<const N: usize>(case: u64, out: &mut ArrayVec<u8, N>)
    requires { array_vec_len out.old + 64 ≤ N }
    ensures items { out.new.items ≡ wrong_line out.old.items case }
    ensures len { array_vec_len out.new ≤ array_vec_len out.old + 64 }
{
    put(b": case ", out);
    put_decimal(case, out);
    put(b" is wrong\n", out);
}
