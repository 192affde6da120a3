// What the relation of a node at a frame concludes, with few looks at its pins.
use crate::quick::set::ValueSet;
use crate::quick::window::Window;
use circuit::Circuit;
use gates::{Gate, UNKNOWN, inverted_if, join_of, negation};

// The relation of a node at a frame. Place: where its pins stand in the netlist; circuit: the one that
// they read in, or the good one where none of them may be stuck; row: where the values of their frame begin;
// out: where the node's own value stands. Not the relation of the sweeps, which knows facts and is proved.
#[derive(Clone, Copy)]
struct Relation {
    node: u16,
    place: u32,
    circuit: Circuit,
    row: u32,
    out: usize,
    inverted: bool,
}

// What the pins of an AND or OR say: one has the controlling value, all are known and none has it, this one
// alone is unknown, or more are.
#[derive(Clone, Copy)]
enum Pins {
    Settled,
    Known,
    OneUnknown(u16),
    MoreUnknown,
}

impl Relation {
    fn of(set: &ValueSet, node: u16, frame: u8, inverted: bool) -> Relation {
        let window = set.window;
        let Window { fault, c, .. } = window;
        let pins_at = knowledge::pin_frame_of(set.netlist, node, frame);
        Relation {
            node,
            place: netlist::pins_place(set.netlist, node),
            circuit: if fault.node == node {
                knowledge::circuit_in(fault, c, pins_at)
            } else {
                Circuit::Good
            },
            row: window.row_of(pins_at),
            out: window.place_of(node, frame),
            inverted,
        }
    }

    // How many pins the node has.
    fn pin_count(self, set: &ValueSet) -> u16 {
        netlist::length_of(set.netlist, self.node)
    }

    // Where the value of a pin's source stands.
    fn source_place(self, pin: u16, set: &ValueSet) -> usize {
        let source = netlist::source_at(set.netlist, self.place, pin);
        self.row as usize + source as usize
    }

    // Whether one of the pins may be stuck.
    fn may_be_stuck(self) -> bool {
        self.circuit != Circuit::Good
    }

    // What a pin reads.
    fn read_pin(self, pin: u16, set: &ValueSet) -> u8 {
        let stuck = self.circuit.stuck_pin(self.node, pin);
        stuck.unwrap_or_else(|| set.value_at(self.source_place(pin, set)))
    }

    // The node's value before its inversion.
    fn read_output(self, set: &ValueSet) -> u8 {
        inverted_if(self.inverted, set.value_at(self.out))
    }

    // The source of a pin has the value.
    fn take_source(self, pin: u16, value: u8, set: &mut ValueSet) {
        let place = self.source_place(pin, set);
        set.take_value(place, value);
    }

    // The node has the value, but for its inversion. Inlined, so that the relation need not be stored for a call.
    #[inline(always)]
    fn take_output(self, value: u8, set: &mut ValueSet) {
        let value = inverted_if(self.inverted, value);
        set.take_value(self.out, value);
    }

    // Looks at the pins, from the last on: values are mostly entered by rising place, and a gate's sources
    // mostly rise with its pins, so that unknown ones are met first. How many more than two are unknown makes
    // no difference. A pin that was not looked at may have the controlling value. Its source settles the gate
    // when its own value is spread, but a stuck pin's value comes from no source.
    fn look_at_pins(self, controlling: u8, set: &ValueSet) -> Pins {
        let mut pins = Pins::Known;
        for pin in (0..self.pin_count(set)).rev() {
            let value = self.read_pin(pin, set);
            if value == controlling {
                return Pins::Settled;
            }
            if value >= UNKNOWN {
                pins = match pins {
                    Pins::Known => Pins::OneUnknown(pin),
                    _ => Pins::MoreUnknown,
                };
                if !self.may_be_stuck() && matches!(pins, Pins::MoreUnknown) {
                    return pins;
                }
            }
        }
        pins
    }

    // A pin that is unknown has the value.
    fn force_pin(self, pin: u16, value: u8, set: &mut ValueSet) {
        if self.read_pin(pin, set) >= UNKNOWN {
            self.take_source(pin, value, set);
        }
    }

    // Every pin that is unknown has the value.
    fn force_pins(self, value: u8, set: &mut ValueSet) {
        for pin in 0..self.pin_count(set) {
            self.force_pin(pin, value, set);
        }
    }

    // An AND or OR with unknown pins, of which none that was looked at has the controlling value. Where another
    // has it, a contradiction is met when its source is spread.
    fn use_output(self, pins: Pins, controlling: u8, set: &mut ValueSet) {
        let output = self.read_output(set);
        if output == negation(controlling) {
            self.force_pins(output, set);
        } else if output == controlling {
            if let Pins::OneUnknown(pin) = pins {
                self.take_source(pin, output, set);
            }
        }
    }

    // An AND or OR. A source that has got the controlling value settles it, and no pin need be looked at,
    // unless the one that it feeds may be stuck.
    fn use_gate(self, controlling: u8, got: Option<u8>, set: &mut ValueSet) {
        let pins = if got == Some(controlling) && !self.may_be_stuck() {
            Pins::Settled
        } else {
            self.look_at_pins(controlling, set)
        };
        match pins {
            Pins::Settled => self.take_output(controlling, set),
            Pins::Known => self.take_output(negation(controlling), set),
            pins => self.use_output(pins, controlling, set),
        }
    }

    // The other pin of an XOR has a value where one pin and the output have.
    fn use_xor_pin(self, value: u8, other: u16, set: &mut ValueSet) {
        let joined = join_of(Gate::Xor, value, self.read_output(set));
        if joined < UNKNOWN {
            self.take_source(other, joined, set);
        }
    }

    fn use_xor(self, set: &mut ValueSet) {
        let first = self.read_pin(0, set);
        let second = self.read_pin(1, set);
        let both = join_of(Gate::Xor, first, second);
        if both < UNKNOWN {
            self.take_output(both, set);
        } else if first < UNKNOWN {
            self.use_xor_pin(first, 1, set);
        } else {
            self.use_xor_pin(second, 0, set);
        }
    }

    fn use_wire(self, set: &mut ValueSet) {
        let pin = self.read_pin(0, set);
        if pin < UNKNOWN {
            self.take_output(pin, set);
            return;
        }
        let output = self.read_output(set);
        if output < UNKNOWN {
            self.take_source(0, output, set);
        }
    }
}

impl ValueSet<'_, '_> {
    // Takes what the relation of a node at a frame concludes. Got: the value that a source of the node has
    // just got, where the relation is used for that.
    pub(crate) fn use_relation(&mut self, node: u16, frame: u8, got: Option<u8>) {
        let window = self.window;
        if !knowledge::in_force(self.netlist, window.fault, window.c, node, frame) {
            return;
        }
        let rule = netlist::rule_of(self.netlist, node);
        let relation = Relation::of(self, node, frame, rule.inverted);
        match gates::controlling_value(rule.gate) {
            Some(controlling) => relation.use_gate(controlling, got, self),
            None if rule.gate == Gate::Xor => relation.use_xor(self),
            None => relation.use_wire(self),
        }
    }
}
