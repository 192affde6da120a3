// 64 runs of the good and the faulty circuit at once, a bit of a word for each. Nothing is promised:
// a run that seems to show the fault is run again by itself.
ghost use Rattle.std.specs.Prelude.{◌≤◌};

use crate::random::{FIRST_WORD, drawn_for, input_word};
use crate::trial::{CLOCKS, NODES_AT_MOST};
use circuit::{Circuit, Fault};
use gates::{Gate, Kind};

// A small circuit has no more nodes.
const FEW_NODES: usize = 256;

// The values of a line in the good and in the faulty circuit.
#[derive(Clone, Copy, Default)]
struct Pair {
    good: u64,
    faulty: u64,
}

// What a node has: its seen values, and what it has latched.
#[derive(Clone, Copy, Default)]
struct Node {
    seen: Pair,
    latched: Pair,
}

// A value in all runs.
fn in_all(value: u8) -> u64 {
    if value == 0 { 0 } else { u64::MAX }
}

// The stuck value in all runs where there is one, else the line's own values.
fn stuck_or_own(stuck: Option<u8>, own: u64) -> u64 {
    circuit::held(stuck).map_or(own, in_all)
}

// As `gates::join_of` joins two values, but 64 of each at once, of which none is unknown.
fn join_words(gate: Gate, v: u64, w: u64) -> u64 {
    match gate {
        Gate::Wire => v,
        Gate::And => v & w,
        Gate::Or => v | w,
        Gate::Xor => v ^ w,
    }
}

impl Pair {
    // The same values in both circuits.
    fn both(word: u64) -> Pair {
        Pair {
            good: word,
            faulty: word,
        }
    }

    fn join(self, gate: Gate, other: Pair) -> Pair {
        Pair {
            good: join_words(gate, self.good, other.good),
            faulty: join_words(gate, self.faulty, other.faulty),
        }
    }

    // With the line of the faulty circuit stuck, where it is.
    fn with_stuck(self, stuck: Option<u8>) -> Pair {
        Pair {
            faulty: stuck_or_own(stuck, self.faulty),
            ..self
        }
    }

    fn inverted_if(self, inverted: bool) -> Pair {
        let inverse = in_all(inverted as u8);
        Pair {
            good: self.good ^ inverse,
            faulty: self.faulty ^ inverse,
        }
    }
}

// Where the runs are: the word that was drawn last, and the runs in which an output differs.
#[derive(Clone, Copy)]
struct Clock {
    word: u64,
    differ: u64,
}

// A circuit of n nodes, and the fault of which the runs may show something. What the nodes have stands beside
// it: as a field of it, it made runs 3 in a hundred slower.
#[derive(Clone, Copy)]
struct Lanes<'a> {
    netlist: &'a [u8],
    n: u16,
    fault: Fault,
}

impl Lanes<'_> {
    fn is_of_kind(self, node: u16, kind: Kind) -> bool {
        netlist::is_of_kind(self.netlist, node, kind)
    }

    // What a pin reads, where its node's pins stand at the place.
    fn read_pin(self, place: u32, node: u16, pin: u16, nodes: &[Node]) -> Pair {
        let source = netlist::source_at(self.netlist, place, pin);
        let stuck = Circuit::Faulty(self.fault).stuck_pin(node, pin);
        node_at(nodes, source).seen.with_stuck(stuck)
    }

    fn gate_pair(self, node: u16, nodes: &[Node]) -> Pair {
        let rule = netlist::rule_of(self.netlist, node);
        let gate = rule.gate;
        let place = netlist::pins_place(self.netlist, node);
        let unit = Pair::both(in_all(gates::unit_of(gate)));
        let pair = (0..netlist::length_of(self.netlist, node)).fold(unit, |pair, pin| {
            self.read_pin(place, node, pin, nodes).join(gate, pair)
        });
        pair.inverted_if(rule.inverted)
    }

    // The seen values of a node, before a stuck one.
    fn own_pair(self, node: u16, word: u64, nodes: &[Node]) -> Pair {
        match netlist::kind_of(self.netlist, node) {
            Ok(Kind::Input) => Pair::both(input_word(node, word)),
            Ok(Kind::FlipFlop) => node_at(nodes, node).latched,
            _ => self.gate_pair(node, nodes),
        }
    }

    fn run_node(self, node: u16, clock: Clock, nodes: &mut [Node]) -> Clock {
        let word = drawn_for(self.netlist, Kind::Input, node, clock.word);
        let stuck = Circuit::Faulty(self.fault).stuck_node(node);
        let pair = self.own_pair(node, word, nodes).with_stuck(stuck);
        if let Some(place) = nodes.get_mut(node as usize) {
            place.seen = pair;
        }
        let seen = in_all(self.is_of_kind(node, Kind::Output) as u8);
        Clock {
            word,
            differ: clock.differ | (seen & (pair.good ^ pair.faulty)),
        }
    }

    fn latch_node(self, node: u16, nodes: &mut [Node]) {
        if !self.is_of_kind(node, Kind::FlipFlop) {
            return;
        }
        let place = netlist::pins_place(self.netlist, node);
        let pair = self.read_pin(place, node, 0, nodes);
        if let Some(place) = nodes.get_mut(node as usize) {
            place.latched = pair;
        }
    }

    fn run_clock(self, word: u64, nodes: &mut [Node]) -> Clock {
        let start = Clock { word, differ: 0 };
        let clock = (0..self.n).fold(start, |clock, node| self.run_node(node, clock, nodes));
        for node in 0..self.n {
            self.latch_node(node, nodes);
        }
        clock
    }

    // Draws what the faulty circuit has latched at the start.
    fn draw_start(self, word: u64, nodes: &mut [Node]) -> u64 {
        let mut next = word;
        for (node, place) in (0..self.n).zip(nodes) {
            next = drawn_for(self.netlist, Kind::FlipFlop, node, next);
            place.latched.faulty = next;
        }
        next
    }

    // The clocks before the good circuit starts.
    fn lead_in(self, c: u8, word: u64, nodes: &mut [Node]) -> u64 {
        (0..c).fold(word, |word, _| self.run_clock(word, nodes).word)
    }

    // A run in which an output differs while both circuits take clocks.
    fn run_both(self, word: u64, nodes: &mut [Node]) -> Option<u8> {
        let mut next = word;
        (0..CLOCKS).find_map(|_| {
            let Clock { word, differ } = self.run_clock(next, nodes);
            next = word;
            (differ != 0).then(|| differ.trailing_zeros() as u8)
        })
    }
}

// What a node has, 0 where there is no such node. Like `Fan::word_at` it is one expression of the library's,
// which a function for both would only hide.
fn node_at(nodes: &[Node], node: u16) -> Node {
    nodes.get(node as usize).copied().unwrap_or_default()
}

// The good circuit starts from what the faulty one has latched.
fn take_over(nodes: &mut [Node]) {
    for node in nodes.iter_mut() {
        node.latched.good = node.latched.faulty;
    }
}

// The runs, in room for so many nodes. To clear the room for the greatest circuit takes longer than the runs
// of a small one.
fn run_all<const ROOM: usize>(lanes: Lanes, c: u8) -> Option<u8>
    requires { ROOM ≤ 4096 }
{
    let mut room = [Node::default(); ROOM];
    let all: &mut [Node] = &mut room;
    let nodes = all.get_mut(..lanes.n as usize)?;
    let drawn = lanes.draw_start(FIRST_WORD, nodes);
    let led = lanes.lead_in(c, drawn, nodes);
    take_over(nodes);
    lanes.run_both(led, nodes)
}

// Looks for a run that shows the fault at an output at or after clock c.
pub(crate) fn find_run(netlist: &[u8], n: u16, fault: Fault, c: u8) -> Option<u8> {
    let lanes = Lanes { netlist, n, fault };
    if n as usize <= FEW_NODES {
        run_all::<FEW_NODES>(lanes, c)
    } else {
        run_all::<NODES_AT_MOST>(lanes, c)
    }
}
