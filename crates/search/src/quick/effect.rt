// Whether the fault's effect lives in a set of values: along the fan-out lists, with a byte of flags for
// each node. The rules are the trace's, said once more: the trace asks every node of every frame, while this
// follows the touched ones to their readers, and nothing rests on what it says.
//
// Three loops are no `any` and no `all`. That of `gate_touched` goes on behind a touched pin, for one that
// stops the effect; that of `turn_over` tells and clears at once; that of `lives_on` ends early with either
// answer.
use crate::quick::fan::Fan;
use crate::quick::set::ValueSet;
use crate::quick::window::Window;
use crate::trial::NODES_AT_MOST;
use circuit::{Circuit, Fault, Site};
use gates::Kind;
use values::{byte_at, store};

// The flags of a node stand in one byte, so that they are turned over and cleared at once: four bools would
// be four arrays, or a struct whose fields are cleared one by one.

// The node is touched.
const TOUCHED: u8 = 1;

// One of its pins may be.
const PENDING: u8 = 2;

// The flip-flop is touched in this frame.
const HANDED: u8 = 4;

// It is in the next one.
const NEXT: u8 = 8;

// The effect in a set of values, as far as it has been followed.
#[derive(Drop)]
struct Effect<'a> {
    netlist: &'a [u8],
    window: Window,
    fan: &'a Fan,
    known: &'a [u8],
    flags: [u8; NODES_AT_MOST],
}

// A frame's values begin at the row; it is followed in the circuit.
#[derive(Clone, Copy)]
struct Frame {
    circuit: Circuit,
    row: u32,
}

impl Effect<'_> {
    fn is_of_kind(&self, node: u16, kind: Kind) -> bool {
        netlist::is_of_kind(self.netlist, node, kind)
    }

    // The value of a node at a frame.
    fn value_in(&self, frame: Frame, node: u16) -> u8 {
        byte_at(self.known, frame.row as usize + node as usize)
    }

    fn has_flag(&self, node: u16, flag: u8) -> bool {
        byte_at(&self.flags, node as usize) & flag != 0
    }

    fn set_flag(&mut self, node: u16, flag: u8) {
        if let Some(flags) = self.flags.get_mut(node as usize) {
            *flags |= flag;
        }
    }

    // A node is touched: so may be those that read it.
    fn touch(&mut self, node: u16) {
        self.set_flag(node, TOUCHED);
        let fan = self.fan;
        for &reader in fan.readers(node) {
            let late = self.is_of_kind(reader, Kind::FlipFlop);
            self.set_flag(reader, if late { NEXT } else { PENDING });
        }
    }

    // Whether a pin is touched, whose source has the value.
    fn pin_touched(&self, stuck: Option<u8>, value: u8, source: u16) -> bool {
        match circuit::held(stuck) {
            Some(held) => value != held,
            None => self.has_flag(source, TOUCHED),
        }
    }

    // Whether a pin of a gate is touched, and no untouched one stops the effect, which one with the controlling
    // value does.
    fn gate_touched(&self, frame: Frame, node: u16) -> bool {
        let place = netlist::pins_place(self.netlist, node);
        let blocking = gates::controlling_value(netlist::rule_of(self.netlist, node).gate);
        let mut some = false;
        for pin in 0..netlist::length_of(self.netlist, node) {
            let source = netlist::source_at(self.netlist, place, pin);
            let value = self.value_in(frame, source);
            let stuck = frame.circuit.stuck_pin(node, pin);
            if self.pin_touched(stuck, value, source) {
                some = true;
            } else if blocking == Some(value) {
                return false;
            }
        }
        some
    }

    // Whether a node is touched. Most have no flag, and are asked for nothing else.
    fn node_touched(&self, frame: Frame, node: u16) -> bool {
        if !self.has_flag(node, HANDED | PENDING) {
            return false;
        }
        match circuit::held(frame.circuit.stuck_node(node)) {
            Some(held) => self.value_in(frame, node) != held,
            None => self.has_flag(node, HANDED) || self.gate_touched(frame, node),
        }
    }

    // Touches a node, if it is to be. Says whether it is an output that is touched.
    fn touch_node(&mut self, frame: Frame, node: u16) -> bool {
        if !self.node_touched(frame, node) {
            return false;
        }
        self.touch(node);
        self.is_of_kind(node, Kind::Output)
    }

    // Touches the nodes of a frame, up to an output. Says whether one is touched.
    fn touch_frame(&mut self, frame: Frame) -> bool {
        let n = self.window.n;
        (0..n).any(|node| self.touch_node(frame, node))
    }

    // Goes on to the next frame. Says whether a flip-flop is touched there.
    fn turn_over(&mut self) -> bool {
        let n = self.window.n as usize;
        let mut some = false;
        for flags in self.flags.iter_mut().take(n) {
            let next = *flags & NEXT != 0;
            *flags = if next { HANDED } else { 0 };
            some |= next;
        }
        some
    }

    // The faulted node may be touched; through a flip-flop's pin only a frame later, by the rule below.
    fn touch_site(&mut self) {
        let Fault { node, site, .. } = self.window.fault;
        if site == Site::Whole || !self.is_of_kind(node, Kind::FlipFlop) {
            self.set_flag(node, PENDING);
        }
    }

    // A faulted pin of a flip-flop is touched by its own rule.
    fn latch_site(&mut self, frame: Frame) {
        let Fault { node, site, stuck } = self.window.fault;
        if let Site::Pin(pin) = site {
            if self.is_of_kind(node, Kind::FlipFlop) {
                let source = netlist::source_of(self.netlist, node, pin as u16);
                let same = self.value_in(frame, source) == stuck;
                store(&mut self.flags, node as usize, if same { 0 } else { NEXT });
            }
        }
    }

    // Whether the effect lives on through the frames behind the fault frame.
    fn lives_on(&mut self) -> bool {
        let Window { c, w, .. } = self.window;
        for frame in (c..w).skip(1) {
            let good = Frame {
                circuit: Circuit::Good,
                row: self.window.row_of(frame),
            };
            if self.touch_frame(good) {
                return true;
            }
            if !self.turn_over() {
                return false;
            }
        }
        true
    }

    // Whether the effect lives, which is followed from the fault frame on.
    fn lives(&mut self) -> bool {
        let window = self.window;
        let faulty = Frame {
            circuit: Circuit::Faulty(window.fault),
            row: window.row_of(window.c),
        };
        self.touch_site();
        if self.touch_frame(faulty) {
            return true;
        }
        self.latch_site(faulty);
        self.turn_over() && self.lives_on()
    }
}

impl ValueSet<'_, '_> {
    // Whether the effect lives: an output is touched, or a flip-flop's pin in the last frame.
    pub(crate) fn effect_lives(&self) -> bool {
        let mut effect = Effect {
            netlist: self.netlist,
            window: self.window,
            fan: self.fan,
            known: self.known,
            flags: [0; NODES_AT_MOST],
        };
        effect.lives()
    }
}
