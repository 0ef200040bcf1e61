// Document 01, "Refusal numbers": a file read whole. Taken, it denotes a grammar, and the two lent tables say where its bodies stand and what its gaps are.
ghost use Rattle.std.specs.Prelude.{◌≡◌, ◌≤◌, length, replicate};
ghost use Rattle.model.specs.Refusals.{taken};
ghost use Rattle.model.specs.File.{read};
ghost use Rattle.grammar.specs.Meaning.{no_rule, head_result, written_rules};
ghost use Rattle.grammar.specs.Measures.{Measurable, ReadIs, RecordsRead, WholeIs};

use crate::file::head;
use crate::refusals::{Refusal, Refused, placed};
use crate::rules::{Entry, rules};
use crate::sizes::{first_gaps, measure};

// 9; the records; 8, 10, 11. Taken, the number of its rules, whose entries are the first of the table; it is lent longer than that, since how many there are is known
// only once the head is read. Refused, both tables hold only 0: a refusal clears again what was written before it, and no more, since most of what it costs is clearing.
pub fn read(file: &[u8], table: &mut [Entry], sizes: &mut [u64]) -> Result<usize, Refused>
    requires { (256 ≤ length table.old) × (1280 ≤ length sizes.old) }
    ensures { ReadIs file.now result (read file.now) table.old table.new sizes.old sizes.new }
{
    clear(table, sizes);
    if 16384 < file.len() {
        return Err(Refusal::Large.at(0));
    }
    let n = placed(head(file), 0)?;
    if let Err(x) = records(file, n, table) {
        table.fill(Entry::NONE);
        return Err(x);
    }
    if let Err(x) = whole(file, &table[..n], sizes) {
        clear(table, sizes);
        return Err(x);
    }
    Ok(n)
}

// Both tables of 0.
fn clear(table: &mut [Entry], sizes: &mut [u64])
    ensures { (table.new ≡ replicate (length table.old) no_rule) × (sizes.new ≡ replicate (length sizes.old) 0) }
{
    table.fill(Entry::NONE);
    sizes.fill(0);
}

// After the head: the rules' records, and no byte after them, into a table of 0, in which a refusal leaves the rules before it.
fn records(file: &[u8], n: usize, table: &mut [Entry]) -> Result<(), Refused>
    requires { (length file.now ≤ 16384) × (head_result file.now ≡ taken n) × (256 ≤ length table.old)
        × (table.old ≡ replicate (length table.old) no_rule) }
    ensures { RecordsRead result n file.now table.old table.new }
{
    let end = rules(file, n, table)?;
    if end < file.len() {
        return Err(Refusal::Trail.at(n + 1));
    }
    Ok(())
}

// "10 (lowest rule), 11", into a table of 0, in which a refusal leaves the gaps that were found before it.
fn whole(file: &[u8], rules: &[Entry], sizes: &mut [u64]) -> Result<(), Refused>
    requires { Measurable file.now rules.now × (1280 ≤ length sizes.old) × (sizes.old ≡ replicate (length sizes.old) 0) }
    ensures { WholeIs result (written_rules file.now) sizes.old sizes.new }
{
    measure(file, rules, sizes)?;
    if first_gaps(sizes, rules.len() - 1, 5) == 1 {
        return Err(Refusal::Empty.at(0));
    }
    Ok(())
}
