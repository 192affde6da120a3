// One frame of the trace, and a node's pins in it.
ghost use Rattle.std.specs.Prelude.{◌≡◌, ◌*◌, ◌+◌};
ghost use Rattle.netlist.specs.Netlist.{node_count, offset_of};

use circuit::Circuit;

// One frame: the circuit in it, and what is known there of each node.
#[derive(Clone, Copy)]
pub(crate) struct Frame<'a> {
    pub netlist: &'a [u8],
    pub circuit: Circuit,
    pub values: &'a [u8],
}

// A node's pins in a frame, with what is touched in it. Their sources stand from the place on: worked out for
// each pin, it took the trace an eighth more instructions. Not the simulator's `Pins`, which know their place so
// too: these read what is touched.
#[derive(Clone, Copy)]
pub(crate) struct FramePins<'a> {
    pub frame: Frame<'a>,
    pub touched: &'a [u8],
    pub node: u16,
    pub place: u32,
    ghost placed: { place ≡ 4 + 5 * node_count frame.netlist.now + 2 * offset_of frame.netlist.now node },
}
