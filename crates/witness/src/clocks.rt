// Clocks of a circuit on lent bytes, and of the faulty and the good circuit side by side. A clock is
// given its inputs at the places of inputs, and leaves the seen values of all nodes. The two slices of a
// circuit go side by side: as one struct that lends both on, the borrow checker had no proof of them.
ghost use Rattle.std.specs.Prelude.{◌≡◌};
ghost use Rattle.values.specs.Lists.{any};
ghost use Rattle.simulator.specs.ClockLists.{clock_start};
ghost use Rattle.circuit.specs.Fault.{lines_in, lines_of};
ghost use Rattle.netlist.specs.Netlist.{net_of};
ghost use Rattle.witness.specs.Inner.Clocks.{both_step, clocked, compared, holding, output_differs, started};

use circuit::{Circuit, Fault};
use gates::Kind;
use values::{byte_at, copy, store};

// What a clock step is given at a node's place: the latched value of a flip-flop, else what is there.
#[tactic(auto, unfolding(simulator::specs::ClockLists::clock_start, netlist::specs::Netlist::net_of))]
fn start_value(netlist: &[u8], latched: &[u8], values: &[u8], node: u16) -> u8
    ensures { result ≡ clock_start (net_of netlist.now) values.now latched.now node }
{
    if netlist::is_of_kind(netlist, node, Kind::FlipFlop) {
        byte_at(latched, node as usize)
    } else {
        byte_at(values, node as usize)
    }
}

// Puts the latched values of the first n nodes into the places of flip-flops. A loop of its own beside the
// simulator's: a public function that takes what is put as a closure would ask something of its callers.
#[tactic(auto, using(values::proofs::ListLaws::rewritten_more), unfolding(values::specs::Inner::Rewriting::rewritten, crate::specs::Inner::Clocks::started))]
fn start_clock(netlist: &[u8], n: u16, latched: &[u8], values: &mut [u8])
    ensures { values.new ≡ started (net_of netlist.now) latched.now n values.old }
{
    for node in 0..n {
        let value = start_value(netlist, latched, values, node);
        store(values, node as usize, value);
    }
}

// A clock of a circuit. At the places of inputs the values are the clock's; afterwards they are the
// seen values of all nodes, and what is latched is the next clock's.
#[tactic(auto, using(crate::proofs::WitnessLaws::clocks_by), unfolding(netlist::specs::Netlist::net_of))]
pub fn run_clock(netlist: &[u8], circuit: Circuit, latched: &mut [u8], values: &mut [u8])
    ensures { holding values.new latched.new ≡ clocked (net_of netlist.now) (lines_in circuit) (holding values.old latched.old) }
{
    let n = netlist::node_count(netlist);
    start_clock(netlist, n, latched, values);
    simulator::settle(netlist, n, circuit, values);
    simulator::latch(netlist, n, circuit, values, latched);
}

// Whether a node is an output at which the two circuits differ.
#[tactic(auto, unfolding(crate::specs::Inner::Clocks::output_differs, netlist::specs::Netlist::net_of))]
fn output_differs(netlist: &[u8], faulty: &[u8], good: &[u8], node: u16) -> bool
    ensures { result ≡ output_differs (net_of netlist.now) faulty.now good.now node }
{
    netlist::is_of_kind(netlist, node, Kind::Output)
        && byte_at(faulty, node as usize) != byte_at(good, node as usize)
}

// Whether any is.
fn outputs_differ(netlist: &[u8], faulty: &[u8], good: &[u8]) -> bool
    ensures { result ≡ any (output_differs (net_of netlist.now) faulty.now good.now) (net_of netlist.now).size }
{
    let n = netlist::node_count(netlist);
    (0..n).any(|node| output_differs(netlist, faulty, good, node))
}

// Both circuits take a clock with the inputs that stand in the first values, the faulty circuit's; they are
// copied to the good one's. Says whether an output differs.
#[tactic(auto, using(crate::proofs::WitnessLaws::both_by), unfolding(circuit::specs::Fault::lines_in))]
pub fn step_both(
    netlist: &[u8],
    fault: Fault,
    values: &mut [u8],
    latched: &mut [u8],
    good_values: &mut [u8],
    good_latched: &mut [u8],
) -> bool
    ensures { compared result (holding values.new latched.new) (holding good_values.new good_latched.new) ≡ both_step (net_of netlist.now) (lines_of fault) (holding values.old latched.old) (holding good_values.old good_latched.old) }
{
    copy(values, good_values);
    run_clock(netlist, Circuit::Faulty(fault), latched, values);
    run_clock(netlist, Circuit::Good, good_latched, good_values);
    outputs_differ(netlist, values, good_values)
}
