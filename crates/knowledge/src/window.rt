// A window of frames in a work slice: frame by frame, a byte for each node, which holds what is known
// of the node at that frame. A byte of 2 or more says that nothing is.
ghost use Rattle.std.specs.Prelude.{◌≡◌, ◌+◌, ◌*◌, Err, Ok, cond, leb, length, replicate, set};
ghost use Rattle.circuit.specs.Fault.{lines_of};
ghost use Rattle.netlist.specs.Netlist.{net_of};
ghost use Rattle.netlist.specs.declared.refusal.Refusal.TheVariants.{WindowTooLong};
ghost use Rattle.knowledge.specs.Window.{most_frames};
ghost use Rattle.knowledge.specs.Inner.Slice.{begin_in, enter_at, entered, hold_frames};

use circuit::{Circuit, Fault};
use gates::UNKNOWN;
use netlist::Refusal;

// The most frames of a window.
pub const MOST_FRAMES: u16 = 15;

// How many frames the window of c has, where f frames lie behind its fault frame; refused where that is too
// many.
pub fn frames_of(c: u8, f: u8) -> Result<u8, Refusal>
    ensures { result ≡ cond (leb (c + f + 1) most_frames) (Ok (c + f + 1)) (Err WindowTooLong) }
{
    let frames = c as u16 + f as u16 + 1;
    if frames > MOST_FRAMES {
        return Err(Refusal::WindowTooLong);
    }
    Ok(frames as u8)
}

// The place of a node at a frame, in a circuit of n nodes.
pub fn place_of(n: u16, node: u16, frame: u16) -> usize
    ensures { result ≡ frame * n + node }
{
    frame as usize * n as usize + node as usize
}

// Holds a faulted node at its stuck value in a frame.
#[tactic(auto, unfolding(circuit::specs::Fault::lines_in))]
fn hold_frame(n: u16, fault: Fault, frame: u16, known: &mut [u8])
    ensures { known.new ≡ set known.old (frame * n + fault.node) ((lines_of fault).node fault.node) }
{
    let node = fault.node;
    let stuck = Circuit::Faulty(fault).stuck_node(node);
    values::store(known, place_of(n, node, frame), stuck.unwrap_or(UNKNOWN));
}

// Puts what is known at the start: below frame c a faulted node is held at its stuck value.
#[tactic(auto, unfolding(crate::specs::Inner::Slice::hold_frames))]
fn hold_fault(n: u16, fault: Fault, c: u8, known: &mut [u8])
    ensures { known.new ≡ hold_frames n fault c (replicate (length known.old) 2) }
{
    known.fill(UNKNOWN);
    for frame in 0..c as u16 {
        hold_frame(n, fault, frame, known);
    }
}

// Begins a branch, whatever stood in the slice: the split has the value v, a byte as it is stored. Says whether
// that contradicts a held value: a yes or no, since a contradiction is no failure, but what closes a branch.
// Netlist, fault and c go side by side as for `conclude`.
#[tactic(auto, unfolding(netlist::specs::Netlist::net_of, crate::specs::Inner::Slice::begin_in, crate::specs::Inner::Slice::begin_at))]
pub fn begin_branch(
    netlist: &[u8],
    fault: Fault,
    c: u8,
    node: u16,
    frame: u8,
    v: u8,
    known: &mut [u8],
) -> bool
    ensures { entered result known.new ≡ begin_in (net_of netlist.now).size fault c (length known.old) node frame v }
{
    let n = netlist::node_count(netlist);
    hold_fault(n, fault, c, known);
    let place = place_of(n, node, frame as u16);
    if gates::values_differ(values::byte_at(known, place), v) {
        return true;
    }
    values::store(known, place, v);
    false
}

// Enters a value that was concluded. Says whether the place held a known value, which then stays: a
// contradiction, since the caller has seen that it is not the same. A yes or no, as a branch's beginning.
pub fn enter_value(known: &mut [u8], place: usize, value: u8) -> bool
    ensures { entered result known.new ≡ enter_at known.old place value }
{
    if values::byte_at(known, place) < UNKNOWN {
        return true;
    }
    values::store(known, place, value);
    false
}
