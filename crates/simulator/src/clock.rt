// One clock step of a circuit, good or faulty.
ghost use Rattle.std.specs.Prelude.{◌≡◌, ◌*◌, ◌+◌, ◌<◌, ℕ, List, length, set, true};
ghost use Rattle.values.specs.Lists.{at, every};
ghost use Rattle.values.specs.Inner.Rewriting.{rewritten};
ghost use Rattle.netlist.specs.Netlist.{kind_of, length_of, net_of, node_count, offset_of};
ghost use Rattle.gates.specs.Kind.{function_of, gate, inverted_if, join_of, rule_of};
ghost use Rattle.circuit.specs.Fault.{lines_in};
ghost use Rattle.netlist.specs.Answer.{outcome};
ghost use Rattle.simulator.specs.Clock.{pin_values, seen_by, latched_by, place_fits, slices_fit, simulator_call, simulation, stepped_says};
ghost use Rattle.simulator.specs.Inner.Places.{settled, latched_into};

use circuit::{Circuit, circuit_exists, held, stuck_or};
use gates::{Gate, Kind, Rule, controlling_value, inverted_if, join_of, unit_of};
use netlist::{
    Refusal, is_given, is_of_kind, length_of, node_count, pins_place, read, rule_of, source_at,
};
use values::{byte_at, store};

// The most pins that are few; no answer depends on it. Few pins have a loop of their own: where one loop
// for all gates asked whether the value stays, a report on narrow gates took 6 to 7 in a hundred
// instructions more.
const FEW_PINS: u16 = 8;

// A node of a circuit, and the seen values that its pins read from.
#[derive(Clone, Copy)]
struct Node<'a> {
    netlist: &'a [u8],
    circuit: Circuit,
    seen: &'a [u8],
    number: u16,
}

// A node's pins: their sources stand from the place on.
#[derive(Clone, Copy)]
struct Pins<'a> {
    node: Node<'a>,
    place: u32,
    ghost placed: { place ≡ 4 + 5 * node_count node.netlist.now + 2 * offset_of node.netlist.now node.number },
}

// The same pins, one of which is taken to read the assumption, whatever it reads.
#[derive(Clone, Copy)]
struct AssumedPins<'a> {
    pins: Pins<'a>,
    assumed: u16,
    assumption: u8,
}

// What a gate's function is made of: the values that a node's pins read, in their order. A value is promised
// of the pins below the count; of a pin that is not there any number may be given.
pub trait PinValues {
    ghost values: { Self → List ℕ };

    fn count(&self) -> u16
        ensures { result ≡ length (values self.now) };

    fn value(&self, pin: u16) -> u8
        ensures { pin < length (values self.now) → result ≡ at (values self.now) pin };
}

impl PinValues for Pins<'_> {
    ghost values = { λ p. let n = p.node in pin_values (net_of n.netlist.now) (lines_in n.circuit) (at n.seen.now) n.number };

    #[tactic(auto, using(crate::proofs::PinLaws::pin_laws))]
    fn count(&self) -> u16 {
        length_of(self.node.netlist, self.node.number)
    }

    #[tactic(auto, using(crate::proofs::PinLaws::pin_laws, netlist::proofs::NetlistLaws::source_place))]
    fn value(&self, pin: u16) -> u8 {
        let node = self.node;
        let source = source_at(node.netlist, self.place, pin) as usize;
        let value = byte_at(node.seen, source);
        stuck_or(node.circuit.stuck_pin(node.number, pin), value)
    }
}

impl<'a> PinValues for AssumedPins<'a> {
    ghost values = { λ p. set (⟦<Pins<'a> as PinValues>⟧.values p.pins) p.assumed p.assumption };

    fn count(&self) -> u16 {
        self.pins.count()
    }

    fn value(&self, pin: u16) -> u8 {
        if pin == self.assumed {
            return self.assumption;
        }
        self.pins.value(pin)
    }
}

// Whether a gate's value stays whatever the pins in front read: an AND's 0, an OR's 1.
#[tactic(auto, using(crate::proofs::PinLaws::settled_stays))]
fn value_stays(gate: Gate, value: u8) -> bool
    ensures { result ≡ true → (v : ℕ) → join_of gate v value ≡ value }
{
    controlling_value(gate) == Some(value)
}

// A gate's function of pins' values, which are joined from the last pin on. Where it stops early, pins in
// front of a value that stays are not looked at: that it may stop is why it is a loop and no fold.
fn function_of<const STOPS: bool, P: PinValues>(pins: &P, gate: Gate) -> u8
    ensures { result ≡ function_of gate (P.values pins.now) }
{
    let mut value = unit_of(gate);
    for pin in (0..pins.count()).rev() {
        if STOPS && value_stays(gate, value) {
            return value;
        }
        let read = pins.value(pin);
        value = join_of(gate, read, value);
    }
    value
}

// What a node of a kind with this rule makes of its pins' values.
pub fn gate_of<P: PinValues>(rule: Rule, pins: &P) -> u8
    ensures { result ≡ inverted_if rule.inverted (function_of rule.gate (P.values pins.now)) }
{
    let value = if FEW_PINS < pins.count() {
        function_of::<true, P>(pins, rule.gate)
    } else {
        function_of::<false, P>(pins, rule.gate)
    };
    inverted_if(rule.inverted, value)
}

impl<'a> Node<'a> {
    fn of(netlist: &'a [u8], circuit: Circuit, seen: &'a [u8], number: u16) -> Self
        ensures netlist { result.netlist.now ≡ netlist.now }
        ensures circuit { result.circuit ≡ circuit }
        ensures seen { result.seen.now ≡ seen.now }
        ensures number { result.number ≡ number }
    {
        Node {
            netlist,
            circuit,
            seen,
            number,
        }
    }

    fn rule(&self) -> Rule
        ensures { result ≡ rule_of (kind_of self.now.netlist.now self.now.number) }
    {
        rule_of(self.netlist, self.number)
    }

    fn pins(&self) -> Pins<'a>
        ensures { result.node ≡ self.now }
    {
        Pins {
            node: *self,
            place: pins_place(self.netlist, self.number),
        }
    }

    // The node's seen value, from its own place and its sources' places.
    #[tactic(auto, using(crate::proofs::ClockLaws::seen_cases), unfolding(netlist::specs::Netlist::net_of))]
    fn seen_value(&self) -> u8
        ensures { let n = self.now in result ≡ seen_by (net_of n.netlist.now) (lines_in n.circuit) (at n.seen.now) (at n.seen.now) n.number }
    {
        match held(self.circuit.stuck_node(self.number)) {
            Some(value) => value,
            None if is_given(self.netlist, self.number) => {
                byte_at(self.seen, self.number as usize)
            }
            None => gate_value(self.netlist, self.circuit, self.seen, self.number),
        }
    }

    // What the node latches: what a flip-flop's pin reads, 0 at other nodes.
    #[tactic(auto, unfolding(crate::specs::Clock::latched_by, netlist::specs::Netlist::net_of))]
    fn latched_value(&self) -> u8
        ensures { let n = self.now in result ≡ latched_by (net_of n.netlist.now) (lines_in n.circuit) (at n.seen.now) n.number }
    {
        if !is_of_kind(self.netlist, self.number, Kind::FlipFlop) {
            return 0;
        }
        let pins = self.pins();
        // the definition gives 0 at a flip-flop without a pin
        if pins.count() == 0 {
            return 0;
        }
        pins.value(0)
    }
}

// What a node makes of its pins' values, where the assumed pin is taken to read the assumption. The node's
// parts are parameters, as in gate_value: they pass in registers.
#[tactic(auto, unfolding(gates::specs::Kind::gate))]
pub fn gate_assuming(
    netlist: &[u8],
    circuit: Circuit,
    seen: &[u8],
    node: u16,
    assumed: u16,
    assumption: u8,
) -> u8
    ensures { result ≡ gate (kind_of netlist.now node) (set (pin_values (net_of netlist.now) (lines_in circuit) (at seen.now) node) assumed assumption) }
{
    let node = Node::of(netlist, circuit, seen, node);
    let pins = AssumedPins {
        pins: node.pins(),
        assumed,
        assumption,
    };
    gate_of(node.rule(), &pins)
}

// What a node makes of its pins' values. No method of Node: its parts pass in registers, where a node passes
// through memory, which cost 15 instructions a call.
#[tactic(auto, unfolding(gates::specs::Kind::gate))]
pub fn gate_value(netlist: &[u8], circuit: Circuit, seen: &[u8], node: u16) -> u8
    ensures { result ≡ gate (kind_of netlist.now node) (pin_values (net_of netlist.now) (lines_in circuit) (at seen.now) node) }
{
    let node = Node::of(netlist, circuit, seen, node);
    gate_of(node.rule(), &node.pins())
}

// Puts into the first n places what is worked out for each from the slice as it then stands, by rising number. The
// loop reads what it has written, so there is no iterator over the slice.
#[tactic(auto, using(values::proofs::ListLaws::rewritten_more), unfolding(values::specs::Inner::Rewriting::rewritten))]
fn rewrite<F: Fn(&[u8], u16) -> u8>(n: u16, bytes: &mut [u8], value: F)
    requires { F.IsAlwaysCallable value }
    ensures { (f : List ℕ → ℕ → ℕ) → ((s : _) (k r : ℕ) → F.post value s k r → r ≡ f s.now k) → bytes.new ≡ rewritten f n bytes.old }
{
    for number in 0..n {
        let put = value(bytes, number);
        store(bytes, number as usize, put);
    }
}

// Puts the seen values of the first n nodes into their places, by rising node number: each from its
// own place and its sources' places.
#[tactic(auto, unfolding(crate::specs::Inner::Places::settled))]
pub fn settle(netlist: &[u8], n: u16, circuit: Circuit, first: &mut [u8])
    ensures { first.new ≡ settled (net_of netlist.now) (lines_in circuit) n first.old }
{
    rewrite(
        n,
        first,
        |seen, number| Node::of(netlist, circuit, seen, number).seen_value(),
    );
}

// Puts what each of the first n nodes latches into its place.
#[tactic(auto, unfolding(crate::specs::Inner::Places::latched_into))]
pub fn latch(netlist: &[u8], n: u16, circuit: Circuit, seen: &[u8], second: &mut [u8])
    ensures { second.new ≡ latched_into (net_of netlist.now) (lines_in circuit) (at seen.now) n second.old }
{
    rewrite(
        n,
        second,
        |_, number| Node::of(netlist, circuit, seen, number).latched_value(),
    );
}

// The places of inputs and flip-flops are read, and have to hold 0 or 1.
#[tactic(auto, unfolding(crate::specs::Clock::place_fits, netlist::specs::Netlist::net_of))]
fn place_fits(netlist: &[u8], first: &[u8], node: u16) -> bool
    ensures { result ≡ place_fits (net_of netlist.now) first.now node }
{
    !is_given(netlist, node) || byte_at(first, node as usize) <= 1
}

fn places_fit(netlist: &[u8], n: u16, first: &[u8]) -> bool
    ensures { result ≡ every (place_fits (net_of netlist.now) first.now) n }
{
    (0..n).all(|node| place_fits(netlist, first, node))
}

// Both slices have a place for each node, and the places that are read hold 0 or 1.
#[tactic(auto, using(crate::proofs::SimulatorLaws::slices_parts), unfolding(netlist::specs::Netlist::net_of))]
fn slices_fit(netlist: &[u8], first: &[u8], second: &[u8]) -> bool
    ensures { result ≡ slices_fit (net_of netlist.now) first.now second.now }
{
    let n = node_count(netlist);
    first.len() == n as usize && (second.len() == n as usize && places_fit(netlist, n, first))
}

// One clock step. Once it is done the first slice holds the seen values, the second what is latched;
// a refusal alters neither.
pub fn simulate(
    netlist: &[u8],
    circuit: Circuit,
    first: &mut [u8],
    second: &mut [u8],
) -> Result<(), Refusal>
    ensures { outcome (stepped_says result) first.new second.new ≡ simulation (simulator_call netlist.now circuit first.old second.old) }
{
    // by let .. else, as document 01 asks
    let answer = read(netlist);
    let Ok(size) = answer else {
        return Err(answer.unwrap_err());
    };
    let n = size.nodes;
    if !circuit_exists(netlist, circuit) {
        return Err(Refusal::NoSuchFault);
    }
    if !slices_fit(netlist, first, second) {
        return Err(Refusal::SlicesUnfit);
    }
    settle(netlist, n, circuit, first);
    latch(netlist, n, circuit, first, second);
    Ok(())
}
