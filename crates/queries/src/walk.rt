// The words that pieces spell, from an offset on.
ghost use Rattle.std.specs.Prelude.{length};
ghost use Rattle.queries.specs.Pieces.{Walkable, Walked};

use crate::pieces::{GapStrings, Piece};
use arrayvec::ArrayVec;

// Fills `out` with the words of the start rule, of n rules, from p on. A gap that ends before p is passed at one step; one that is gone into leaves a place to
// come back to, and names only gaps of lower rules, so that there are at most 255 such places.
pub(crate) fn walk(strings: &GapStrings, n: usize, p: u64, out: &mut [u16])
    requires { Walkable strings.now.pieces.items strings.now.starts strings.now.sizes.now n p (length out.old) }
    ensures { Walked strings.now.pieces.items strings.now.starts strings.now.sizes.now n p out.new }
{
    let mut frames = ArrayVec::<u16, 256>::new();
    let mut i = strings.starts[5 * (n - 1)] as usize;
    let mut skip = p;
    for x in out.iter_mut() {
        *x = loop {
            match Piece::from(strings.pieces[i]) {
                Piece::Word(w) => {
                    i += 1;
                    if skip == 0 {
                        break w;
                    }
                    skip -= 1;
                }
                Piece::Stop => {
                    i = frames.pop().unwrap() as usize;
                }
                Piece::Gap(g) => {
                    let s = strings.sizes[g];
                    if s <= skip {
                        skip -= s;
                        i += 1;
                    } else {
                        frames.push((i + 1) as u16);
                        i = strings.starts[g] as usize;
                    }
                }
            }
        };
    }
}
