// A grammar's bodies as gap strings.
ghost use Rattle.std.specs.Prelude.{◌≡◌, ℕ, suc, ◌+◌, ◌*◌, ◌≤◌, ◌<◌, [], ◌∷◌, ◌++◌, length, replicate, IsSome, MatchOption, option_to_list};
ghost use Rattle.arrayvec.specs.ArrayVec.{array_vec_len};
ghost use Rattle.grammar.specs.Measures.{Denotes};
ghost use Rattle.queries.specs.Pieces.{PieceIs, due, next_gap, code_for, GapStands, after, Closes, Closable, first_gap, own, own_gap, own_starts};
ghost use Rattle.queries.specs.Building.{Spelt};

use arrayvec::ArrayVec;
use grammar::bodies::rank_of;
use grammar::file::word_at;
use grammar::rules::Entry;
use grammar::words::Word;

// The piece that ends a gap.
pub const STOP: u16 = 65535;

// What a piece stands for: a word, the words of a gap, or the end of the gap that it is put in. Pieces are kept as 16-bit numbers: of this enum, 4 bytes each or more, the
// 16,384 would be twice their 32,768 bytes of stack or more, all set at each query; memory is fixed, with no heap.
#[derive(Clone, Copy)]
pub(crate) enum Piece {
    Word(u16),
    Gap(usize),
    Stop,
}

impl From<u16> for Piece {
    ghost from_gives = { λ c p. PieceIs p c };

    fn from(c: u16) -> Piece {
        match c {
            0..=32767 => Piece::Word(c),
            STOP => Piece::Stop,
            _ => Piece::Gap((c - 32768) as usize),
        }
    }
}

// A word of a body that is open: how many of its gaps are still due, one or more, and the next of them. What has no gaps has 1,280, which no rule has.
// One number holds both: 2048 times how many, and the next, which is below 2048. All 8,192 places for open words are set at each query, whatever the file: two fields,
// `due: u8` and `next: u16`, take 4 bytes for its 2, so that 16,384 bytes more are set, and a label or a window of a small file takes about a quarter more time.
#[derive(Clone, Copy, Default)]
pub(crate) struct Open(u16);

impl Open {
    // A word of a body, of the given rank: all its gaps are due.
    fn new(w: u16, rank: usize) -> Self
        requires { (rank ≤ 4) × (first_gap w ≤ 1280) }
        ensures { (due result ≡ rank + 1) × (next_gap result ≡ first_gap w) }
    {
        let gap = match Word::from(w) {
            Word::Call(j) => 5 * j,
            Word::Empty | Word::Label | Word::Parameter(_) | Word::Illegal => 1280,
        };
        Open(2048 * (rank as u16 + 1) + gap)
    }

    // The gap that is due, where the word has gaps.
    fn gap(self) -> Option<usize>
        ensures { MatchOption result (1280 ≤ next_gap self) (λ g. (g ≡ next_gap self) × (g < 1280)) }
    {
        let g = (self.0 % 2048) as usize;
        (g < 1280).then_some(g)
    }

    // The word once that gap is given, where it was not the last.
    fn next(self) -> Option<Self>
        requires { next_gap self < 2047 }
        ensures { MatchOption result (due self ≤ 1) (λ e. (next_gap e ≡ suc (next_gap self)) × (suc (due e) ≡ due self) × (1 ≤ due e)) }
    {
        (4096 <= self.0).then(|| Open(self.0 - 2047))
    }
}

// The gap strings of the rules of a grammar, from the lowest up: the pieces of all their gaps, and where those of each gap start. The sizes are the grammar's.
// Two tables by gap, and not one: document 01's size table is what `read` fills. Starts are places in one vector of pieces, as there is no heap for a list for each gap.
// `sizes_kept` and `starts_kept` say what a method leaves alone, which a caller of `&mut self` knows by the contract only; with the sizes out of the struct, they would
// go along as a parameter of five methods and of `walk` instead.
#[derive(Drop)]
pub(crate) struct GapStrings<'a> {
    pub(crate) sizes: &'a [u64],
    pub(crate) starts: [u16; 1280],
    pub(crate) pieces: ArrayVec<u16, 16384>,
}

impl GapStrings<'_> {
    // The gaps of all these rules of the file as pieces, where there are none yet. Puts them into what is lent, since a struct that is returned may be copied whole.
    pub(crate) fn spell_all(&mut self, file: &[u8], rules: &[Entry])
        requires { Denotes file.now rules.now self.old.sizes.now × (self.old.pieces.items ≡ []) × (self.old.starts ≡ replicate 1280 0) }
        ensures spelt { Spelt file.now (length rules.now) rules.now self.new.sizes.now self.new.pieces.items self.new.starts }
        ensures sizes_kept { self.new.sizes.now ≡ self.old.sizes.now }
    {
        let mut opens = ArrayVec::new();
        for r in 0..rules.len() {
            self.spell(file, rules, r, &mut opens);
        }
    }

    // The gaps of rule r as pieces, after those of the rules below it.
    fn spell(&mut self, file: &[u8], rules: &[Entry], r: usize, opens: &mut ArrayVec<Open, 8192>)
        requires { Spelt file.now r rules.now self.old.sizes.now self.old.pieces.items self.old.starts × (r < length rules.now) }
        ensures spelt { Spelt file.now (suc r) rules.now self.new.sizes.now self.new.pieces.items self.new.starts }
        ensures sizes_kept { self.new.sizes.now ≡ self.old.sizes.now }
    {
        let body = rules[r].body(file);
        let mut gap = 5 * r;
        self.starts[gap] = self.pieces.len() as u16;
        opens.clear();
        for i in 0..body.len() / 2 {
            let w = word_at(body, 2 * i);
            gap = self.put_own(w, gap);
            self.close(Open::new(w, rank_of(rules, w)), opens);
        }
        self.pieces.push(STOP); // of the rule's last gap
    }

    // Puts what a word of a body itself gives: a label or ⊥ is its own piece, and a parameter ends a gap, so that the next one starts. Says which gap is put then.
    fn put_own(&mut self, w: u16, gap: usize) -> usize
        requires { (array_vec_len self.old.pieces < 16384) × (gap < 1280) × (own_gap w gap < 1280) }
        ensures gap_after { result ≡ own_gap w gap }
        ensures pieces_after { self.new.pieces.items ≡ self.old.pieces.items ++ own w }
        ensures starts_after { self.new.starts ≡ own_starts w self.old.starts gap (array_vec_len self.new.pieces) }
        ensures sizes_kept { self.new.sizes.now ≡ self.old.sizes.now }
    {
        match Word::from(w) {
            Word::Call(_) => gap,
            Word::Parameter(_) => {
                self.pieces.push(STOP);
                self.starts[gap + 1] = self.pieces.len() as u16;
                gap + 1
            }
            Word::Empty | Word::Label | Word::Illegal => {
                self.pieces.push(w);
                gap
            }
        }
    }

    // A gap of `word`, which is below all open words, is due: puts it, and goes on upwards where it was the word's last. A word that has more is open then.
    fn close(&mut self, word: Open, opens: &mut ArrayVec<Open, 8192>)
        requires { Closable self.old.sizes.now self.old.starts self.old.pieces.items (opens.old.items ++ word ∷ []) }
        ensures closes { Closes after self.old.starts self.old.sizes.now self.old.pieces.items (opens.old.items ++ word ∷ []) self.new.pieces.items opens.new.items }
        ensures starts_kept { self.new.starts ≡ self.old.starts }
        ensures sizes_kept { self.new.sizes.now ≡ self.old.sizes.now }
    {
        if let Some(rest) = self.put_gap(word) {
            opens.push(rest);
            return;
        }
        while let Some(lowest) = opens.last_mut() {
            if let Some(rest) = self.put_gap(*lowest) {
                *lowest = rest;
                return;
            }
            opens.pop();
        }
    }

    // Puts the gap of an open word that is due; says what is due then, where it was not the word's last.
    fn put_gap(&mut self, word: Open) -> Option<Open>
        requires { (next_gap word < 2047) × GapStands self.old.sizes.now self.old.starts self.old.pieces.items (next_gap word)
            × (IsSome (code_for self.old.sizes.now self.old.starts self.old.pieces.items (next_gap word)) → array_vec_len self.old.pieces < 16384) }
        ensures rest { MatchOption result (due word ≤ 1) (λ e. (next_gap e ≡ suc (next_gap word)) × (suc (due e) ≡ due word) × (1 ≤ due e)) }
        ensures put { self.new.pieces.items ≡ self.old.pieces.items ++ option_to_list (code_for self.old.sizes.now self.old.starts self.old.pieces.items (next_gap word)) }
        ensures starts_kept { self.new.starts ≡ self.old.starts }
        ensures sizes_kept { self.new.sizes.now ≡ self.old.sizes.now }
    {
        if let Some(c) = self.piece_for(word) {
            self.pieces.push(c);
        }
        word.next()
    }

    // The piece to put for the next gap of an open word: none where the gap has no words; the gap's own piece where it has only one.
    fn piece_for(&self, word: Open) -> Option<u16>
        requires { GapStands self.now.sizes.now self.now.starts self.now.pieces.items (next_gap word) }
        ensures { result ≡ code_for self.now.sizes.now self.now.starts self.now.pieces.items (next_gap word) }
    {
        let g = word.gap()?;
        if self.sizes[g] == 0 {
            return None;
        }
        let s = self.starts[g] as usize;
        if self.pieces[s + 1] == STOP {
            return Some(self.pieces[s]);
        }
        Some(32768 + g as u16) // no `From<Piece>`: it cannot fail, and words and gaps that are too high have no number
    }
}
