// Pseudo-random values for 64 runs at once, a bit of a word for each, and for one run alone. They are the
// same at every call.
ghost use Rattle.std.specs.Prelude.{ℕ, ◌<◌, length};
ghost use Rattle.values.specs.Lists.{at};

use gates::Kind;

// The word from which the runs begin.
pub(crate) const FIRST_WORD: u64 = 88172645463325252;

// Eight runs in which an input is 0 as often as 1.
const EVEN_RUNS: u64 = 0x0101010101010101;

// Eight runs in which every input is mostly 1. In eight others every input is mostly 0.
const HIGH_RUNS: u64 = 0x0202020202020202;

// Forty runs in which each input mostly has a value of its own: resets and enables stay as they are.
const OWN_RUNS: u64 = 0xdcdcdcdcdcdcdcdc;

// The word after a pseudo-random one, which is not 0.
fn next_word(word: u64) -> u64 {
    let first = word ^ (word << 13);
    let second = first ^ (first >> 7);
    second ^ (second << 17)
}

// The values that an input mostly has, in each of the runs: words of neighbouring nodes have nothing in
// common, so the node is spread over a word's bits and the word is drawn on.
fn usual_word(node: u16) -> u64 {
    let seed = FIRST_WORD ^ ((node as u64 + 1) * 173961102589770);
    next_word(next_word(next_word(seed)))
}

// The values of an input for a drawn word. All but the even runs leave what is usual once in 16 clocks:
// where four bits of the word, far from each other, are all 1.
pub(crate) fn input_word(node: u16, word: u64) -> u64 {
    let usual = (usual_word(node) & OWN_RUNS) | HIGH_RUNS;
    let rare = word & word.rotate_left(21) & word.rotate_left(42) & word.rotate_left(11);
    usual ^ (rare | (word & EVEN_RUNS))
}

// The word that is drawn for a node: a new one where it is of the kind.
pub(crate) fn drawn_for(netlist: &[u8], kind: Kind, node: u16, word: u64) -> u64 {
    if netlist::is_of_kind(netlist, node, kind) {
        return next_word(word);
    }
    word
}

// The values that a node has of a drawn word: an input is mostly what it usually is.
fn values_of(netlist: &[u8], kind: Kind, node: u16, word: u64) -> u64 {
    if kind == Kind::Input && netlist::is_of_kind(netlist, node, kind) {
        return input_word(node, word);
    }
    word
}

// One run by itself: which bit of a word is its own, and the word that was drawn last.
#[derive(Drop)]
pub(crate) struct Run {
    lane: u8,
    word: u64,
}

impl Run {
    // A run at its start.
    pub(crate) fn new(lane: u8) -> Self {
        Run {
            lane,
            word: FIRST_WORD,
        }
    }

    // The run's bit of a word.
    fn bit_of(&self, word: u64) -> u8
        ensures { result < 2 }
    {
        ((word >> (self.lane % 64)) % 2) as u8
    }

    // The value that a node has in the run: a new word is drawn for one of the kind.
    fn value_at(&mut self, netlist: &[u8], kind: Kind, node: u16) -> u8
        ensures { result < 2 }
    {
        self.word = drawn_for(netlist, kind, node, self.word);
        self.bit_of(values_of(netlist, kind, node, self.word))
    }

    // Puts a 0 or 1 of the run into every place, a new one for each node of the kind.
    pub(crate) fn draw(&mut self, netlist: &[u8], kind: Kind, values: &mut [u8])
        ensures { (k : ℕ) → k < length values.old → at values.new k < 2 }
    {
        for (place, value) in values.iter_mut().enumerate() {
            // A circuit has no node from 65536 on: the remainder is the place itself, and a cast alone may not
            // lose bits. No zip with the range of u16: the slice may be longer, and every place gets a value.
            let node = (place % 65536) as u16;
            *value = self.value_at(netlist, kind, node);
        }
    }
}
