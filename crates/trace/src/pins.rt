// A node's pins in a frame: which are touched, and what the others are known to read.
ghost use Rattle.std.specs.Prelude.{◌≡◌, eqb, length, not};
ghost use Rattle.circuit.specs.Fault.{stuck_value};
ghost use Rattle.values.specs.Lists.{at};
ghost use Rattle.netlist.specs.Netlist.{source_of};
ghost use Rattle.trace.specs.Trace.{pin_touched, site_touched, some_touched};
ghost use Rattle.trace.specs.Inner.Tracing.{frame_known, frame_lines, frame_net, read_pins, touched_pins};

use crate::frame::{Frame, FramePins};
use circuit::held;
use gates::UNKNOWN;
use netlist::source_at;
use simulator::PinValues;

// A faulted line is touched unless its value is known to be the stuck one; any other as it is said.
#[tactic(auto, using(crate::proofs::TouchedLaws::site_held, crate::proofs::TouchedLaws::site_free))]
pub(crate) fn site_touched(stuck: Option<u8>, value: u8, otherwise: u8) -> u8
    ensures { result ≡ site_touched (stuck_value stuck) value otherwise }
{
    held(stuck).map_or(otherwise, |held| (value != held) as u8)
}

impl FramePins<'_> {
    #[tactic(auto, using(netlist::proofs::NetlistLaws::source_place))]
    fn source(&self, pin: u16) -> u16
        ensures { let p = self.now in result ≡ source_of p.frame.netlist.now p.node pin }
    {
        source_at(self.frame.netlist, self.place, pin)
    }

    // A pin is touched if its source is, and a faulted one by the rule for faulted lines.
    #[tactic(auto, unfolding(crate::specs::Trace::pin_touched))]
    fn is_touched(&self, pin: u16, source: u16) -> bool
        ensures { let p = self.now in result ≡ not (eqb (pin_touched (frame_net p.frame) (frame_lines p.frame) (frame_known p.frame) (at p.touched.now) p.node pin source) 0) }
    {
        let stuck = self.frame.circuit.stuck_pin(self.node, pin);
        let value = values::byte_at(self.frame.values, source as usize);
        site_touched(stuck, value, values::byte_at(self.touched, source as usize)) != 0
    }

    // Whether one of them is touched. A call for each node took a tenth more instructions.
    #[inline]
    pub(crate) fn some_touched(&self) -> bool
        ensures { result ≡ some_touched (touched_pins self.now) }
    {
        (0..self.count()).any(|pin| self.is_touched(pin, self.source(pin)))
    }
}

// What the pins are known to read if they are untouched; a touched one is unknown.
impl PinValues for FramePins<'_> {
    ghost values = { read_pins };

    #[tactic(auto, using(crate::proofs::TouchedLaws::read_laws))]
    fn count(&self) -> u16 {
        netlist::length_of(self.frame.netlist, self.node)
    }

    #[tactic(auto, using(crate::proofs::TouchedLaws::read_laws))]
    fn value(&self, pin: u16) -> u8 {
        let source = self.source(pin);
        if self.is_touched(pin, source) {
            return UNKNOWN;
        }
        values::byte_at(self.frame.values, source as usize)
    }
}

impl<'a> Frame<'a> {
    pub(crate) fn pins(&self, touched: &'a [u8], node: u16) -> FramePins<'a>
        ensures frame { result.frame ≡ self.now }
        ensures touched { result.touched.now ≡ touched.now }
        ensures node { result.node ≡ node }
    {
        FramePins {
            frame: *self,
            touched,
            node,
            place: netlist::pins_place(self.netlist, node),
        }
    }
}
