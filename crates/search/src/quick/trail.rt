// The trail: the places that got a value, in order, so that it can be taken back.
use gates::UNKNOWN;
use values::{byte_at, store};

// So many places may be entered together; what needs more is given up.
pub(crate) const PLACES: usize = 16384;

// The places up to the end, and whether spreading has stopped, because of a contradiction or because the
// trail is full. An array and its end, since there is no heap; of 16 bits each, since no window has more places.
#[derive(Drop)]
pub(crate) struct Trail {
    places: [u16; PLACES],
    end: usize,
    stopped: bool,
}

impl Trail {
    pub(crate) fn new() -> Trail {
        Trail {
            places: [0; PLACES],
            end: 0,
            stopped: false,
        }
    }

    pub(crate) fn end(&self) -> usize {
        self.end
    }

    pub(crate) fn is_empty(&self) -> bool {
        self.end == 0
    }

    pub(crate) fn has_stopped(&self) -> bool {
        self.stopped
    }

    // Begins anew: values may spread. What was entered before stays.
    pub(crate) fn clear(&mut self) {
        self.end = 0;
        self.stopped = false;
    }

    // The place that was entered as the number-th, while values spread.
    pub(crate) fn spreading(&self, number: usize) -> Option<u16> {
        if self.stopped || self.end <= number {
            return None;
        }
        self.places.get(number).copied()
    }

    // Puts a place at the end. Without room all stops.
    pub(crate) fn append(&mut self, place: usize) -> bool {
        let (Some(last), Ok(place)) = (self.places.get_mut(self.end), u16::try_from(place)) else {
            self.stopped = true;
            return false;
        };
        *last = place;
        self.end += 1;
        true
    }

    // Enters a value, if there is room for its place.
    pub(crate) fn enter(&mut self, place: usize, value: u8, known: &mut [u8]) {
        if self.append(place) {
            store(known, place, value);
        }
    }

    // Takes a value that is concluded.
    pub(crate) fn take_value(&mut self, place: usize, value: u8, known: &mut [u8]) {
        let old = byte_at(known, place);
        if old == value {
            return;
        }
        if old < UNKNOWN {
            self.stopped = true;
            return;
        }
        self.enter(place, value, known);
    }

    // Takes back the values that were entered from a number on: the trail then ends there, and values may
    // spread again.
    pub(crate) fn undo(&mut self, from: usize, known: &mut [u8]) {
        for &place in self.places.get(from..self.end).unwrap_or(&[]) {
            store(known, place as usize, UNKNOWN);
        }
        self.end = from;
        self.stopped = false;
    }
}
