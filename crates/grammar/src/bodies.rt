// Document 01, "Trees and words": a body's words, read by a cursor that is handed on by value. A body is lent as its bytes in the file, two for each word. No struct
// round the slice keeps the bounds that the functions ask for: each of its clauses would read `body.entry.bytes.now` for `body.now`, so would the rules' and the sizes'.
ghost use Rattle.std.specs.Prelude.{◌≡◌, ◌+◌, ◌*◌, ◌≤◌, ◌<◌, length, true};
ghost use Rattle.model.specs.Words.{rank_of, is_parameter, when_parameter};
ghost use Rattle.model.specs.File.{words_in};
ghost use Rattle.model.specs.Trees.{all, same, those, parameters, is_legal, is_tree, obeys};
ghost use Rattle.model.specs.Edits.{subtree};
ghost use Rattle.grammar.specs.Meaning.{ranks_in, RanksSmall};

use crate::file::word_at;
use crate::rules::Entry;
use crate::words::Word;

// The rank of a word in a body that may call these rules.
pub fn rank_of(rules: &[Entry], w: u16) -> usize
    ensures { result ≡ rank_of (ranks_in rules.now) w }
{
    match Word::from(w) {
        Word::Label => 2,
        Word::Call(j) => {
            let j = j as usize;
            if j < rules.len() {
                rules[j].rank as usize
            } else {
                0
            }
        }
        Word::Empty | Word::Parameter(_) | Word::Illegal => 0,
    }
}

// "6 over the whole body": every word is legal in rule r.
pub(crate) fn legal(body: &[u8], r: usize) -> bool
    ensures { result ≡ all (is_legal r) (words_in body.now) }
{
    for i in 0..body.len() / 2 {
        if !legal_word(word_at(body, 2 * i), r) {
            return false;
        }
    }
    true
}

fn legal_word(w: u16, r: usize) -> bool
    ensures { result ≡ is_legal r w }
{
    match Word::from(w) {
        Word::Empty | Word::Label | Word::Parameter(_) => true,
        Word::Call(j) => (j as usize) < r,
        Word::Illegal => false,
    }
}

// A position in a body: how many words were passed, and how many trees are still due there.
#[derive(Clone, Copy)]
pub struct Cursor {
    pub at: usize,
    pub due: usize,
}

impl Cursor {
    // Before the first word of a body one tree is due.
    pub fn new() -> Self
        ensures { (result.at ≡ 0) × (result.due ≡ 1) }
    {
        Self::at_place(0)
    }

    // Before the word at a place one tree is due, the one that begins there.
    pub fn at_place(i: usize) -> Self
        ensures { (result.at ≡ i) × (result.due ≡ 1) }
    {
        Self { at: i, due: 1 }
    }

    // Past a word of the given rank: its tree is no longer due, its children's are.
    pub fn step(self, rank: usize) -> Cursor
        requires { (0 < self.due) × (self.at < 65536) × (self.due + rank < 65536) }
        ensures { (result.at ≡ self.at + 1) × (result.due + 1 ≡ self.due + rank) }
    {
        Cursor {
            at: self.at + 1,
            due: self.due - 1 + rank,
        }
    }
}

// The body is one complete tree.
pub(crate) fn one_tree(body: &[u8], rules: &[Entry]) -> bool
    requires { (length body.now ≤ 16384) × RanksSmall rules.now }
    ensures { result ≡ is_tree (ranks_in rules.now) (words_in body.now) }
{
    let mut c = Cursor::new();
    // No `for`: the cursor says the place, document 01 asks for one that is handed on by value.
    while c.at < body.len() / 2 {
        if c.due == 0 {
            return false;
        }
        c = c.step(rank_of(rules, word_at(body, 2 * c.at)));
    }
    c.due == 0
}

// The place after the subtree that begins at place i of a body: where no tree is due any more.
pub fn subtree_end(body: &[u8], i: usize, rules: &[Entry]) -> usize
    requires { (length body.now ≤ 16384) × RanksSmall rules.now × (i < length (words_in body.now))
        × (is_tree (ranks_in rules.now) (words_in body.now) ≡ true) }
    ensures { (result ≡ i + length (subtree (ranks_in rules.now) i (words_in body.now))) × (result ≤ length (words_in body.now)) }
{
    let mut c = Cursor::at_place(i);
    // No `for`: as in `one_tree`, the cursor says the place.
    while 0 < c.due {
        let j = c.at;
        c = c.step(rank_of(rules, word_at(body, 2 * j)));
    }
    c.at
}

// The body holds y1 to yk once each, in that order, and no other parameter.
pub(crate) fn in_order(body: &[u8], k: usize) -> bool
    requires { length body.now ≤ 16384 }
    ensures { result ≡ same (those is_parameter (words_in body.now)) (parameters k) }
{
    let mut next: usize = 1;
    for i in 0..body.len() / 2 {
        if let Some(n) = parameter(word_at(body, 2 * i)) {
            if n != next || k < n {
                return false;
            }
            next += 1;
        }
    }
    k < next
}

// The number of a parameter; any other word has none.
pub(crate) fn parameter(w: u16) -> Option<usize>
    ensures { result ≡ when_parameter None (λ i. Some i) w }
{
    match Word::from(w) {
        Word::Parameter(n) => Some(n as usize),
        Word::Empty | Word::Label | Word::Call(_) | Word::Illegal => None,
    }
}

// "7": the body obeys document 01 as the body of a rule of rank k above these rules.
pub(crate) fn shaped(body: &[u8], k: usize, rules: &[Entry]) -> bool
    requires { (length body.now ≤ 16384) × RanksSmall rules.now }
    ensures { result ≡ obeys (ranks_in rules.now) k (words_in body.now) }
{
    one_tree(body, rules) && in_order(body, k) && (body.len() / 2 != 1 || word_at(body, 0) != 32769)
}
