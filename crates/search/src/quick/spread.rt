// Values and what follows from them, spread along the fan-out lists.
use crate::quick::set::ValueSet;
use crate::quick::trail::PLACES;
use crate::quick::window::Window;
use gates::{Kind, UNKNOWN};
use splits::Split;

impl ValueSet<'_, '_> {
    // Uses the relation of a reader of a node that has got a value at a frame; a flip-flop's is that of
    // the next frame.
    fn use_reader(&mut self, reader: u16, frame: u8, got: u8) {
        let at = if netlist::is_of_kind(self.netlist, reader, Kind::FlipFlop) {
            self.window.frame_after(frame)
        } else {
            Some(frame)
        };
        if let Some(at) = at {
            self.use_relation(reader, at, Some(got));
        }
    }

    fn use_readers(&mut self, node: u16, frame: u8, got: u8) {
        let fan = self.fan;
        for &reader in fan.readers(node) {
            if self.trail.has_stopped() {
                return;
            }
            self.use_reader(reader, frame, got);
        }
    }

    // Uses the relations that a place takes part in: its own, and its readers'.
    fn use_around(&mut self, place: u16) {
        let Some((node, frame)) = self.window.at(place) else {
            return;
        };
        let got = self.value_at(place as usize);
        self.use_relation(node, frame, None);
        self.use_readers(node, frame, got);
    }

    // Spreads the values that the trail has from a number on, until nothing new follows or all stops. By the
    // number, since the trail grows while it is gone over.
    fn spread(&mut self, from: usize) {
        for number in from..PLACES {
            let Some(place) = self.trail.spreading(number) else {
                return;
            };
            self.use_around(place);
        }
    }

    // Enters what is known at the start into the trail. By an index: with an iterator over what is known, the
    // borrow checker had no rule for the trail beside it.
    fn enter_start(&mut self) {
        self.trail.clear();
        for place in 0..self.known.len() {
            if self.value_at(place) < UNKNOWN {
                self.trail.append(place);
            }
        }
    }

    // Uses the relation of a node at every frame of the window.
    fn use_node(&mut self, node: u16) {
        for frame in 0..self.window.w {
            self.use_relation(node, frame, None);
        }
    }

    // Works out what a split's branch implies: from what is known at the start, and from the faulted node,
    // of which a stuck pin may tell something by itself. Says whether all of it fits: no contradiction is
    // met, and the trail has room.
    pub(crate) fn begin(&mut self, split: Split, v: u8) -> bool {
        let Window { fault, c, .. } = self.window;
        let Split { frame, node, .. } = split;
        let netlist = self.netlist;
        let known = &mut *self.known;
        if knowledge::begin_branch(netlist, fault, c, node, frame, v, known) {
            return false;
        }
        self.enter_start();
        self.use_node(fault.node);
        self.spread(0);
        !self.trail.has_stopped()
    }

    // Adds a value and what follows from it to the set. Says whether that fits the set, which else stays as
    // it was.
    pub(crate) fn add_value(&mut self, place: usize, value: u8) -> bool {
        let end = self.trail.end();
        self.trail.enter(place, value, self.known);
        self.spread(end);
        if self.trail.has_stopped() {
            self.trail.undo(end, self.known);
            return false;
        }
        true
    }
}
