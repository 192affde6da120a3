// Open sets: one that has a value of a split, and values of other splits besides.
use crate::quick::scratch::Scratch;
use crate::quick::set::ValueSet;
use crate::quick::window::Window;
use circuit::{Fault, Site};
use gates::UNKNOWN;
use splits::Split;
use values::byte_at;

// How many places are added before the effect is looked at.
const BLOCK: usize = 64;

impl ValueSet<'_, '_> {
    // Whether a value is wanted at a place: it is unknown, and nothing is noted of it for c.
    fn is_wanted(&self, place: usize) -> bool {
        self.value_at(place) >= UNKNOWN
            && splits::noted_c(byte_at(self.noted, place)) != Some(self.window.c)
    }

    // Adds a value if the effect lives with it. Says whether it does. A value that is kept is never taken back,
    // so that each has the whole trail.
    fn add_living(&mut self, place: usize, value: u8) -> bool {
        self.trail.clear();
        if !self.add_value(place, value) {
            return false;
        }
        if self.effect_lives() {
            return true;
        }
        self.trail.undo(0, self.known);
        false
    }

    // Adds a value, if the effect lives with it where it is added singly. Says whether it was added.
    fn add<const SINGLY: bool>(&mut self, place: usize, value: u8) -> bool {
        if SINGLY {
            self.add_living(place, value)
        } else {
            self.add_value(place, value)
        }
    }

    // Adds values at the places of a block: 0, or 1 where 0 does not fit.
    fn add_block<const SINGLY: bool>(&mut self, from: usize, end: usize) {
        for place in from..end {
            if self.is_wanted(place) && !self.add::<SINGLY>(place, 0) {
                self.add::<SINGLY>(place, 1);
            }
        }
    }

    // Adds values at the places of a block, all at once if the effect lives with them, else one by one. Each
    // block has the whole trail.
    fn extend_block(&mut self, from: usize, end: usize) {
        self.trail.clear();
        self.add_block::<false>(from, end);
        if self.trail.is_empty() || self.effect_lives() {
            return;
        }
        self.trail.undo(0, self.known);
        self.add_block::<true>(from, end);
    }

    // Adds values from a place on, up to an end.
    fn extend(&mut self, from: usize, end: usize) {
        for place in (from..end).step_by(BLOCK) {
            let next = place.saturating_add(BLOCK).min(end);
            self.extend_block(place, next);
        }
    }

    // Adds values at the frames below one, the last first.
    fn extend_back(&mut self, frames: u8) {
        for frame in (0..frames).rev() {
            let from = self.window.row_of(frame) as usize;
            self.extend(from, from + self.window.n as usize);
        }
    }

    // Works out branch v of a split. Says whether it seems to stay open.
    fn side_open(&mut self, split: Split, v: u8) -> bool {
        self.begin(split, v) && self.effect_lives()
    }

    // Works out branch 0 of a split, and branch 1 where that closes. Says whether one seems to stay open.
    fn either_open(&mut self, split: Split) -> bool {
        self.side_open(split, 0) || self.side_open(split, 1)
    }

    // Adds values at every place of the window: first from a frame on, then below it.
    fn extend_all(&mut self, frame: u8) {
        let from = self.window.row_of(frame) as usize;
        let end = self.known.len();
        self.extend(from, end);
        self.extend_back(frame);
    }

    // Makes it an open set that has a value of the split, and values of the places behind it of which
    // nothing is noted. Says whether there seems to be one.
    fn open_at(&mut self, split: Split) -> bool {
        if !self.either_open(split) {
            return false;
        }
        let place = self.window.place_of(split.node, split.frame);
        let end = self.known.len();
        self.extend(place, end);
        true
    }

    // Makes it a set in which the fault is excited at the fault frame. Where there is none, nothing is known.
    fn excite(&mut self) {
        let Window { fault, c, .. } = self.window;
        let line = Split {
            c,
            frame: c,
            node: line_source(self.netlist, fault),
        };
        if self.side_open(line, gates::negation(fault.stuck)) {
            self.extend_all(guess_frame(c));
        } else {
            self.known.fill(UNKNOWN);
        }
    }
}

// The node whose value the faulted line has in the good circuit.
fn line_source(netlist: &[u8], fault: Fault) -> u16 {
    match fault.site {
        Site::Whole => fault.node,
        Site::Pin(pin) => netlist::source_of(netlist, fault.node, pin as u16),
    }
}

// The frame at which a guess for the window of c begins: that before the fault frame, since values that
// are chosen far before it mostly fit no effect. With few frames the first, which leaves less unknown.
fn guess_frame(c: u8) -> u8 {
    if c < 3 { 0 } else { c - 1 }
}

// Looks for an open set that has a value of the split, and values of the places behind it of which
// nothing is noted. Says whether there seems to be one. The set is written out here and in `guess`: a
// constructor that lends at several lifetimes had no proof.
pub(crate) fn propose(
    netlist: &[u8],
    window: Window,
    split: Split,
    scratch: &mut Scratch,
    known: &mut [u8],
    noted: &[u8],
) -> bool {
    let mut set = ValueSet {
        netlist,
        window,
        fan: &scratch.fan,
        trail: &mut scratch.trail,
        known,
        noted,
    };
    set.open_at(split)
}

// Looks for a set of values of the window in which the fault is excited at the fault frame. Where there
// is none, nothing is known.
pub(crate) fn guess(
    netlist: &[u8],
    window: Window,
    scratch: &mut Scratch,
    known: &mut [u8],
    noted: &[u8],
) {
    let mut set = ValueSet {
        netlist,
        window,
        fan: &scratch.fan,
        trail: &mut scratch.trail,
        known,
        noted,
    };
    set.excite();
}
