// The relation of a node at a frame, and what it concludes of its lines.
ghost use Rattle.std.specs.Prelude.{◌≡◌, set, unwrap_or};
ghost use Rattle.circuit.specs.Fault.{lines_in, lines_of};
ghost use Rattle.gates.specs.Kind.{gate};
ghost use Rattle.gates.specs.Value.{differ};
ghost use Rattle.simulator.specs.Clock.{pin_values};
ghost use Rattle.values.specs.Lists.{at};
ghost use Rattle.netlist.specs.Netlist.{kind_of, net_of};
ghost use Rattle.knowledge.specs.Window.{present_below, has_relation, pin_frame, pin_conclusion, in_force, conclusion};
ghost use Rattle.knowledge.specs.Inner.Slice.{known_in};

use crate::window::place_of;
use certificate::Step;
use circuit::{Circuit, Fault, held};
use gates::{Kind, UNKNOWN};

// The fault is present in frames below c, and absent from c on.
#[tactic(auto, using(crate::proofs::RelationLaws::present_below_lem, crate::proofs::RelationLaws::absent_from), unfolding(circuit::specs::Fault::lines_in))]
pub fn circuit_in(fault: Fault, c: u8, frame: u8) -> Circuit
    ensures { lines_in result ≡ present_below c (lines_of fault) frame }
{
    if frame < c {
        Circuit::Faulty(fault)
    } else {
        Circuit::Good
    }
}

// The frame of the pins of a node of a kind in a relation: a flip-flop's stand one frame earlier. The kind is a
// number, which need not name one.
pub fn pin_frame(kind: u8, frame: u8) -> u8
    ensures { result ≡ pin_frame kind frame }
{
    if kind == u8::from(Kind::FlipFlop) {
        frame.saturating_sub(1)
    } else {
        frame
    }
}

// The frame of a node's pins in its relation.
pub fn pin_frame_of(netlist: &[u8], node: u16, frame: u8) -> u8
    ensures { result ≡ pin_frame (kind_of netlist.now node) frame }
{
    pin_frame(netlist::kind_number(netlist, node), frame)
}

// Inputs, and flip-flops at frame 0, have no relation.
fn has_relation(netlist: &[u8], node: u16, frame: u8) -> bool
    ensures { result ≡ has_relation (kind_of netlist.now node) frame }
{
    if frame == 0 {
        return !netlist::is_given(netlist, node);
    }
    !netlist::is_of_kind(netlist, node, Kind::Input)
}

// Whether a node has a relation at a frame through which something may be concluded. Netlist, fault and c go
// side by side as for `conclude`.
#[tactic(auto, using(crate::proofs::WindowLaws::none_held), unfolding(crate::specs::Window::in_force, crate::specs::Window::held, netlist::specs::Netlist::net_of))]
pub fn in_force(netlist: &[u8], fault: Fault, c: u8, node: u16, frame: u8) -> bool
    ensures { result ≡ in_force (net_of netlist.now) (present_below c (lines_of fault)) node frame }
{
    let circuit = circuit_in(fault, c, frame);
    held(circuit.stuck_node(node)).is_none() && has_relation(netlist, node, frame)
}

// A node whose output is known, and the values that its pins read from.
#[derive(Clone, Copy)]
struct KnownOutput<'a> {
    netlist: &'a [u8],
    circuit: Circuit,
    values: &'a [u8],
    node: u16,
    output: u8,
}

impl KnownOutput<'_> {
    // Whether the output would be another, if the pin read the value.
    fn tells_against(&self, pin: u16, value: u8) -> bool
        ensures { let o = self.now in result ≡ differ (gate (kind_of o.netlist.now o.node) (set (pin_values (net_of o.netlist.now) (lines_in o.circuit) (at o.values.now) o.node) pin value)) o.output }
    {
        let made = simulator::gate_assuming(
            self.netlist,
            self.circuit,
            self.values,
            self.node,
            pin,
            value,
        );
        gates::values_differ(made, self.output)
    }

    // What is concluded of a pin's source: the value whose opposite would make the output another.
    // Through a stuck pin nothing is concluded.
    #[tactic(auto, using(circuit::proofs::FaultLaws::held_some, gates::proofs::GateLaws::controlling_said), unfolding(netlist::specs::Netlist::net_of, crate::specs::Window::pin_conclusion))]
    fn conclusion(&self, pin: u16) -> Option<u8>
        ensures { let o = self.now in unwrap_or result 2 ≡ pin_conclusion (net_of o.netlist.now) (lines_in o.circuit) (at o.values.now) o.node o.output pin }
    {
        if held(self.circuit.stuck_pin(self.node, pin)).is_some() {
            return None;
        }
        let gate = netlist::rule_of(self.netlist, self.node).gate;
        // where no value settles the gate, either may be tried first: the definition begins with 0
        let first = gates::controlling_value(gate).unwrap_or(0);
        let second = gates::negation(first);
        if self.tells_against(pin, first) {
            return Some(second);
        }
        if self.tells_against(pin, second) {
            return Some(first);
        }
        None
    }
}

// The source of a pin, 0 where the node has no such pin: no option, since the definition and all callers go on
// with 0 there.
#[tactic(auto, using(crate::proofs::PinRules::pin_rules))]
pub fn pin_source(netlist: &[u8], node: u16, pin: u16) -> u16
    ensures { result ≡ at ((net_of netlist.now).pins node) pin }
{
    if pin < netlist::length_of(netlist, node) {
        return netlist::source_of(netlist, node, pin);
    }
    0
}

// What the relation of a node at a frame concludes of one of its lines: line 0 is the output, and
// line k + 1 is pin k, as the definition counts them. The value is UNKNOWN or above where nothing is concluded:
// the definition's conclusion is a step then too, so an option of one would say less. What is known lies
// in bytes, frame by frame, one for each node; a place past the end counts as known to be 0, which
// no caller may lean on: it says nothing of the circuit, and a window has a byte for each place.
// Netlist, fault and c go side by side: a struct of the three passes through memory, and took reports 2 to 3
// in a hundred instructions more.
pub fn conclude(
    netlist: &[u8],
    fault: Fault,
    c: u8,
    known: &[u8],
    node: u16,
    frame: u8,
    line: u16,
) -> Step
    ensures { result ≡ conclusion (net_of netlist.now) (present_below c (lines_of fault)) (known_in known.now (net_of netlist.now).size) node frame line }
{
    let n = netlist::node_count(netlist);
    let pins_at = pin_frame_of(netlist, node, frame);
    let circuit = circuit_in(fault, c, pins_at);
    let values = values::tail(known, place_of(n, 0, pins_at as u16));
    if line == 0 {
        return Step {
            node,
            frame,
            value: simulator::gate_value(netlist, circuit, values, node),
            via: node,
            during: frame,
        };
    }
    let pins = KnownOutput {
        netlist,
        circuit,
        values,
        node,
        output: values::byte_at(known, place_of(n, node, frame as u16)),
    };
    Step {
        node: pin_source(netlist, node, line - 1),
        frame: pins_at,
        value: pins.conclusion(line - 1).unwrap_or(UNKNOWN),
        via: node,
        during: frame,
    }
}
