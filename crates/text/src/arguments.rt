// A program's arguments.
ghost use Rattle.std.specs.Prelude.{◌≡◌, ℕ, ◌<◌, ◌≤◌, true, false, cond, leb, [], length, take, MatchResult};

use std::env::FillError;

// The argument that was read to the start of `text`; empty where it was missing or too long.
pub fn argument(read: Result<usize, FillError>, text: &[u8]) -> &[u8]
    ensures { MatchResult read (λ n. result.now ≡ cond (leb n (length text.now)) (take n text.now) []) (λ _. result.now ≡ []) }
{
    match read {
        Ok(n) => text.get(..n).unwrap_or(&[]),
        Err(_) => &[],
    }
}

// How many arguments there are, the program's name among them: the first that is missing ends them. What comes after the first MOST isn't counted.
pub fn arguments<const MOST: usize, F: Fn(usize) -> bool>(is_missing: F) -> usize
    requires { F.IsAlwaysCallable is_missing }
    ensures most { result ≤ MOST }
    ensures there { (i : ℕ) → i < result → F.post is_missing i false }
    ensures ended { result < MOST → F.post is_missing result true }
{
    for i in 0..MOST {
        if is_missing(i) {
            return i;
        }
    }
    MOST
}
