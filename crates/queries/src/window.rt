// Document 01, "Refusal numbers": the window expander.
ghost use Rattle.std.specs.Prelude.{◌≡◌, ◌≤◌, ◌+◌, length, take, drop, replicate, MatchResult};
ghost use Rattle.model.specs.Trees.{nodes, tree_of};
ghost use Rattle.model.specs.Answers.{window_at};
ghost use Rattle.grammar.specs.Meaning.{reading_is, answer_is, query_answer};
ghost use Rattle.grammar.specs.Measures.{Denotes};
ghost use Rattle.queries.specs.Building.{rules_of};

use crate::pieces::GapStrings;
use crate::walk::walk;
use arrayvec::ArrayVec;
use grammar::read::read;
use grammar::refusals::{Answer, Refusal, Refused};
use grammar::rules::Entry;
use grammar::sizes::first_gaps;

// The window expander: the tree's words from p on, as many as `out` has. Refused (12 where p plus the length is over N, and the file's refusals), it is all FFFF:
// "A refused window is filled with FFFF hex, never with 0, which reads as ⊥."
pub fn window(file: &[u8], p: u64, out: &mut [u16]) -> Answer
    ensures answer { answer_is result ≡ (window_at file.now p (length out.old)).answer }
    ensures words { out.new ≡ (window_at file.now p (length out.old)).window }
{
    let r = fill(file, p, out);
    if r.is_err() {
        out.fill(65535);
    }
    Answer::from(r)
}

// The same but for a refused window. Taken, the number of the file's rules.
fn fill(file: &[u8], p: u64, out: &mut [u16]) -> Result<usize, Refused>
    ensures answer { query_answer (reading_is result) ≡ (window_at file.now p (length out.old)).answer }
    ensures words { MatchResult result (λ n. out.new ≡ (window_at file.now p (length out.old)).window)
        (λ x. replicate (length out.old) 65535 ≡ (window_at file.now p (length out.old)).window) }
{
    let mut table = [Entry::NONE; 256];
    let mut sizes = [0u64; 1280];
    let n = read(file, &mut table, &mut sizes)?;
    let nodes = first_gaps(&sizes, n - 1, 5);
    let len = out.len() as u64;
    if nodes < len || nodes - len < p {
        return Err(Refusal::Position.at(0));
    }
    expand(file, &table[..n], &sizes, p, out);
    Ok(n)
}

// The tree's words from p on, of a file that was read.
fn expand(file: &[u8], rules: &[Entry], sizes: &[u64], p: u64, out: &mut [u16])
    requires { Denotes file.now rules.now sizes.now × (p + length out.old ≤ nodes (rules_of file.now)) }
    ensures { out.new ≡ take (length out.old) (drop p (tree_of (rules_of file.now))) }
{
    let mut strings = GapStrings {
        sizes,
        starts: [0; 1280],
        pieces: ArrayVec::new(),
    };
    strings.spell_all(file, rules);
    walk(&strings, rules.len(), p, out);
}
