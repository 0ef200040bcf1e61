// Document 01, "Parts": the gap sizes of all rules, in a table that is filled from the lowest rule up. The table is flat, five gaps to a rule, since document 01 asks for
// "a size table [0; 1280] of u64". It is lent as a slice, as `read` and `own` take one of any length from 1,280 on; that and the bounds on its sizes, on a body and on the
// rules stand in the contracts, and `file`, `rules` and `sizes` go side by side: a struct of references would be read as `it.entry.sizes.now` in each clause (see bodies).
ghost use Rattle.std.specs.Prelude.{◌≡◌, suc, ◌+◌, ◌*◌, ◌≤◌, ◌<◌, ◌^◌, [], length, get_or, replicate, sum};
ghost use Rattle.model.specs.Bounds.{largest_size};
ghost use Rattle.model.specs.Words.{rank_of};
ghost use Rattle.model.specs.File.{words_in};
ghost use Rattle.model.specs.Trees.{size, expansions};
ghost use Rattle.laws.specs.Sums.{sum_of};
ghost use Rattle.grammar.specs.Meaning.{ranks_in, RanksSmall, written_rules};
ghost use Rattle.grammar.specs.Measures.{first_gaps, own_by, before_by, SizesSmall, Measurable, RowsBelow, RuleMeasured, MeasuredIs};

use crate::bodies::{parameter, rank_of};
use crate::file::word_at;
use crate::refusals::{Refusal, Refused};
use crate::rules::Entry;
use crate::words::Word;

// The size that no rule is over.
const LARGEST_SIZE: u64 = 1099511627776;

// Gap m of rule j.
pub fn gap(sizes: &[u64], j: usize, m: usize) -> u64
    requires { (5 * j + 5 ≤ length sizes.now) × (m < 5) }
    ensures { result ≡ get_or sizes.now (5 * j + m) 0 }
{
    sizes[5 * j + m]
}

// The first k gaps of rule j.
pub fn first_gaps(sizes: &[u64], j: usize, k: usize) -> u64
    requires { (5 * j + 5 ≤ length sizes.now) × (k ≤ 5) × SizesSmall sizes.now }
    ensures { (result ≡ first_gaps sizes.now j k) × (result ≤ 5 * 2 ^ 40) }
{
    sum_of_gaps(&sizes[5 * j..5 * j + k])
}

fn sum_of_gaps(gaps: &[u64]) -> u64
    requires { sum gaps.now < 2 ^ 64 }
    ensures { result ≡ sum gaps.now }
{
    gaps.iter().sum()
}

// The nodes that a word itself produces before its k-th child; all of them with k = 5.
pub fn own(sizes: &[u64], k: usize, w: u16) -> u64
    requires { (1280 ≤ length sizes.now) × (k ≤ 5) × SizesSmall sizes.now }
    ensures { (result ≡ own_by sizes.now k w) × (result ≤ 5 * 2 ^ 40) }
{
    match Word::from(w) {
        Word::Parameter(_) => 0,
        Word::Call(j) => first_gaps(sizes, j as usize, k),
        Word::Empty | Word::Label | Word::Illegal => 1,
    }
}

// All nodes that the words of a body produce.
pub(crate) fn total(body: &[u8], sizes: &[u64]) -> u64
    requires { (length body.now ≤ 16384) × (1280 ≤ length sizes.now) × SizesSmall sizes.now }
    ensures { (result ≡ sum_of (own_by sizes.now 5) (words_in body.now)) × (result ≤ 8192 * (5 * 2 ^ 40)) }
{
    let mut sum: u64 = 0;
    for i in (0..body.len() / 2).rev() {
        sum += own(sizes, 5, word_at(body, 2 * i));
    }
    sum
}

// The nodes before the place where these first words of a body end, read from the place to the left: the trees between a word and the place are counted, so that a
// word with more children than those is known to stand over the place.
pub(crate) fn before(front: &[u8], rules: &[Entry], sizes: &[u64]) -> u64
    requires { (length front.now ≤ 16384) × (1280 ≤ length sizes.now) × SizesSmall sizes.now × RanksSmall rules.now }
    ensures { (result ≡ before_by (rank_of (ranks_in rules.now)) sizes.now (words_in front.now)) × (result ≤ 8192 * (5 * 2 ^ 40)) }
{
    let mut sum: u64 = 0;
    let mut depth: usize = 0;
    for i in (0..front.len() / 2).rev() {
        let w = word_at(front, 2 * i);
        let rank = rank_of(rules, w);
        if depth < rank {
            sum += own(sizes, depth + 1, w);
            depth = 0;
        } else {
            sum += own(sizes, 5, w);
            depth = depth - rank + 1;
        }
    }
    sum
}

// The gaps of the rules, from the lowest up, into the size table, which is all 0 before; refused with the lowest rule that is over the largest size.
pub(crate) fn measure(file: &[u8], rules: &[Entry], sizes: &mut [u64]) -> Result<(), Refused>
    requires { Measurable file.now rules.now × (1280 ≤ length sizes.old) × (sizes.old ≡ replicate (length sizes.old) 0) }
    ensures { MeasuredIs result (written_rules file.now) sizes.old sizes.new }
{
    for r in 0..rules.len() {
        measure_rule(file, rules, r, sizes)?;
    }
    Ok(())
}

// The gaps of rule r into the size table, by the gaps of the rules below it; refused where its size is over the largest.
fn measure_rule(file: &[u8], rules: &[Entry], r: usize, sizes: &mut [u64]) -> Result<(), Refused>
    requires { Measurable file.now rules.now × (r < length rules.now) × (1280 ≤ length sizes.old) × RowsBelow r (written_rules file.now) sizes.old }
    ensures { RuleMeasured result r (written_rules file.now) sizes.new }
{
    let all = total(rules[r].body(file), sizes);
    if LARGEST_SIZE < all {
        return Err(Refusal::Huge.at(r + 1));
    }
    gaps(file, rules, r, all, sizes);
    Ok(())
}

// The same for a rule of the given size: a gap is what stands before a parameter without what stands before the one before it.
fn gaps(file: &[u8], rules: &[Entry], r: usize, all: u64, sizes: &mut [u64])
    requires { Measurable file.now rules.now × (r < length rules.now) × (1280 ≤ length sizes.old) × RowsBelow r (written_rules file.now) sizes.old
        × (all ≡ size (get_or (expansions (written_rules file.now)) r [])) × (all ≤ largest_size) }
    ensures { RowsBelow (suc r) (written_rules file.now) sizes.new }
{
    let body = rules[r].body(file);
    let mut last: u64 = 0;
    let mut m = 5 * r;
    for i in 0..body.len() / 2 {
        if parameter(word_at(body, 2 * i)).is_some() {
            let b = before(&body[..2 * i], &rules[..r], sizes);
            sizes[m] = b - last;
            last = b;
            m += 1;
        }
    }
    sizes[m] = all - last;
}
