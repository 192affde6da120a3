// The effect trace: which lines may show the fault's effect, frame by frame from c on. What is touched
// in one frame lies in a slice with a byte for each node: 1 for a touched node and 0 for another. The slice is
// the caller's, and the definition hands on whatever number lies there, so what a node has is a byte and no bool.
ghost use Rattle.std.specs.Prelude.{◌≡◌, ◌++◌, [], ◌*◌, ◌+◌, ◌≤◌, drop, length, replicate, take};
ghost use Rattle.circuit.specs.Fault.{lines_of};
ghost use Rattle.values.specs.Lists.{at, every};
ghost use Rattle.netlist.specs.Netlist.{net_of};
ghost use Rattle.knowledge.specs.Inner.Slice.{known_in};
ghost use Rattle.trace.specs.Trace.{effect_dies, gate_touched, latched_touched, latched_touched_list, latched_untouched, touched_list, node_touched};
ghost use Rattle.trace.specs.Trace.{one_if, output_untouched};
ghost use Rattle.trace.specs.Inner.Tracing.{frame_known, frame_lines, frame_net, traced, tracing, window_known, window_net};

use crate::frame::Frame;
use crate::pins::site_touched;
use circuit::{Circuit, Fault};
use gates::{Kind, UNKNOWN};
use knowledge::place_of;
use simulator::gate_of;

impl Frame<'_> {
    // A node with a touched pin is touched unless its untouched pins settle its value.
    #[tactic(auto, using(crate::proofs::TouchedLaws::gate_untouched, crate::proofs::TouchedLaws::gate_by), unfolding(netlist::specs::Netlist::net_of, gates::specs::Kind::gate))]
    fn gate_touched(&self, touched: &[u8], node: u16) -> bool
        ensures { one_if result ≡ gate_touched (frame_net self.now) (frame_lines self.now) (frame_known self.now) (at touched.now) node }
    {
        let pins = self.pins(touched, node);
        pins.some_touched() && UNKNOWN <= gate_of(netlist::rule_of(self.netlist, node), &pins)
    }

    // Whether a node is touched, where its own place holds what its flip-flop latched, and the places below
    // it hold what is touched in this frame.
    #[tactic(auto, unfolding(crate::specs::Trace::node_touched, netlist::specs::Netlist::net_of))]
    fn node_touched(&self, touched: &[u8], node: u16) -> u8
        requires { node ≤ length touched.now }
        ensures { result ≡ node_touched (frame_net self.now) (frame_lines self.now) (frame_known self.now) (at touched.now) (at (take node touched.now)) node }
    {
        let stuck = self.circuit.stuck_node(node);
        let value = values::byte_at(self.values, node as usize);
        if netlist::is_of_kind(self.netlist, node, Kind::FlipFlop) {
            return site_touched(stuck, value, values::byte_at(touched, node as usize));
        }
        if netlist::is_given(self.netlist, node) {
            return site_touched(stuck, value, 0);
        }
        let touched_by_pins = self.gate_touched(&touched[..node as usize], node);
        site_touched(stuck, value, touched_by_pins as u8)
    }

    // Puts into each node's place whether it is touched, by rising node number. A node reads what has been
    // written below it, so the loop goes by the number. A loop of its own, as the next, beside the simulator's: a
    // public function that takes what is put as a closure would ask something of its callers.
    #[tactic(auto, using(crate::proofs::TouchedLaws::touched_turn, crate::proofs::TouchedLaws::touched_end), unfolding(netlist::specs::Netlist::net_of, values::specs::Lists::build))]
    fn touch_nodes(&self, touched: &mut [u8])
        requires { (frame_net self.now).size ≡ length touched.old }
        ensures { touched.new ≡ touched_list (frame_net self.now) (frame_lines self.now) (frame_known self.now) (at touched.old) }
    {
        for node in 0..netlist::node_count(self.netlist) {
            touched[node as usize] = self.node_touched(touched, node);
        }
    }

    // Whether a node is no output, or an output that is not touched.
    #[tactic(auto, unfolding(netlist::specs::Netlist::net_of))]
    fn output_untouched(&self, touched: &[u8], node: u16) -> bool
        ensures { result ≡ output_untouched (frame_net self.now) touched.now node }
    {
        !netlist::is_of_kind(self.netlist, node, Kind::Output)
            || values::byte_at(touched, node as usize) == 0
    }

    // Whether no output is touched.
    #[tactic(auto, unfolding(netlist::specs::Netlist::net_of))]
    fn outputs_untouched(&self, touched: &[u8]) -> bool
        ensures { result ≡ every (output_untouched (frame_net self.now) touched.now) (frame_net self.now).size }
    {
        (0..netlist::node_count(self.netlist)).all(|node| self.output_untouched(touched, node))
    }

    // Whether a flip-flop is touched in the next frame: its pin is in this one. No other node is touched so.
    #[tactic(auto, using(crate::proofs::TouchedLaws::not_latched, crate::proofs::TouchedLaws::latched_by), unfolding(netlist::specs::Netlist::net_of))]
    fn latched_touched(&self, touched: &[u8], node: u16) -> bool
        ensures { one_if result ≡ latched_touched (frame_net self.now) (frame_lines self.now) (frame_known self.now) (at touched.now) node }
    {
        netlist::is_of_kind(self.netlist, node, Kind::FlipFlop)
            && self.pins(touched, node).some_touched()
    }

    // Puts the flip-flops touched in the next frame into the slice, which holds what is touched in this one.
    // They are worked out in the next slice, since a flip-flop's source may be a flip-flop.
    #[tactic(auto, using(values::proofs::ListLaws::filled_more, crate::proofs::TouchedLaws::latched_filled), unfolding(netlist::specs::Netlist::net_of))]
    fn latch_touched(&self, touched: &mut [u8], next: &mut [u8])
        requires touched_length { (frame_net self.now).size ≡ length touched.old }
        requires next_length { (frame_net self.now).size ≤ length next.old }
        ensures { touched.new ≡ latched_touched_list (frame_net self.now) (frame_lines self.now) (frame_known self.now) (at touched.old) }
    {
        let n = netlist::node_count(self.netlist);
        // no zip with next.iter_mut(): it lends the slice out, which the loop's invariant cannot name then
        for node in 0..n {
            next[node as usize] = self.latched_touched(touched, node) as u8;
        }
        // place by place: copied as a whole, two parts of one slice need memmove, which a caller in C may not have
        for node in 0..n {
            touched[node as usize] = next[node as usize];
        }
    }

    // Whether no flip-flop's pin is touched.
    #[tactic(auto, unfolding(netlist::specs::Netlist::net_of))]
    fn pins_untouched(&self, touched: &[u8]) -> bool
        ensures { result ≡ every (latched_untouched (latched_touched_list (frame_net self.now) (frame_lines self.now) (frame_known self.now) (at touched.now))) (frame_net self.now).size }
    {
        (0..netlist::node_count(self.netlist)).all(|node| !self.latched_touched(touched, node))
    }
}

// A window: the fault whose effect may start at frame c, with f frames behind that one, and what is known,
// frame by frame, a byte for each node. A window of its own: it asks nothing of the netlist, where the
// checker's knows that its netlist is sound.
#[derive(Clone, Copy)]
struct Window<'a> {
    netlist: &'a [u8],
    fault: Fault,
    c: u8,
    f: u8,
    known: &'a [u8],
}

impl<'a> Window<'a> {
    // A frame of the window, with the circuit that is in it.
    #[tactic(auto, using(knowledge::proofs::WindowLaws::frame_values), unfolding(netlist::specs::Netlist::net_of))]
    fn frame(&self, circuit: Circuit, frame: u16) -> Frame<'a>
        ensures netlist { result.netlist.now ≡ self.now.netlist.now }
        ensures circuit { result.circuit ≡ circuit }
        ensures values { at result.values.now ≡ (λ m. window_known self.now m frame) }
    {
        let n = netlist::node_count(self.netlist);
        Frame {
            netlist: self.netlist,
            circuit,
            values: values::tail(self.known, place_of(n, 0, frame)),
        }
    }

    // Whether the effect dies, where the first bytes, one for each node, hold the flip-flops touched at
    // frame c.
    #[tactic(auto, unfolding(netlist::specs::Netlist::net_of, circuit::specs::Fault::lines_in))]
    fn dies_from(&self, touched: &mut [u8]) -> bool
        requires { (window_net self.now).size * (self.now.f + 1) ≤ length touched.old }
        ensures { result ≡ effect_dies (window_net self.now) (window_known self.now) self.now.f self.now.c (lines_of self.now.fault) (take (window_net self.now).size touched.old) }
    {
        let n = netlist::node_count(self.netlist) as usize;
        let (now, next) = touched.split_at_mut(n);
        let first = self.c as u16;
        let last = first + self.f as u16;
        let mut circuit = Circuit::Faulty(self.fault);
        for t in first..last {
            let frame = self.frame(circuit, t);
            frame.touch_nodes(now);
            if !frame.outputs_untouched(now) {
                return false;
            }
            frame.latch_touched(now, next);
            circuit = Circuit::Good;
        }
        // apart from the loop: this frame's flip-flop pins are asked, and no frame follows it
        let frame = self.frame(circuit, last);
        frame.touch_nodes(now);
        frame.outputs_untouched(now) && frame.pins_untouched(now)
    }

    // The same from the fault frame on, where no flip-flop is touched yet. The lent bytes are cleared
    // afterwards.
    #[tactic(auto, using(crate::proofs::TouchedLaws::dies_cleared))]
    fn trace(&self, touched: &mut [u8]) -> bool
        requires { (window_net self.now).size * (self.now.f + 1) ≡ length touched.old }
        ensures value { result ≡ effect_dies (window_net self.now) (window_known self.now) self.now.f self.now.c (lines_of self.now.fault) [] }
        ensures cleared { touched.new ≡ replicate (length touched.old) 0 }
    {
        touched.fill(0);
        let dies = self.dies_from(touched);
        touched.fill(0);
        dies
    }
}

// Whether the fault's effect dies: no output is touched from frame c on, and no flip-flop's pin in
// the last frame, c + f. What is known lies in bytes, frame by frame, one for each node; a place past
// the end counts as known to be 0, which no caller may lean on: it says nothing of the circuit, and
// a window has a byte for each of its places. The last slice has to have a byte for each
// node and each frame from c on; a shorter one stays as it is and is answered false, since the definition says
// that nothing is shown to die then. Netlist, fault, c and f go side by side as for `knowledge::conclude`.
#[tactic(auto, using(crate::proofs::TouchedLaws::tracing_short, crate::proofs::TouchedLaws::tracing_done), unfolding(netlist::specs::Netlist::net_of))]
pub fn effect_dies(
    netlist: &[u8],
    fault: Fault,
    c: u8,
    f: u8,
    known: &[u8],
    touched: &mut [u8],
) -> bool
    ensures { traced result touched.new ≡ tracing (net_of netlist.now) (lines_of fault) c f (known_in known.now (net_of netlist.now).size) touched.old }
{
    let size = netlist::node_count(netlist) as usize * (f as usize + 1);
    if touched.len() < size {
        return false;
    }
    let window = Window {
        netlist,
        fault,
        c,
        f,
        known,
    };
    window.trace(&mut touched[..size])
}
