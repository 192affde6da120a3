// Sets of values that keep each of their values open as a split.
ghost use Rattle.std.specs.Prelude.{◌≡◌};
ghost use Rattle.sweeps.specs.Inner.Trials.{has_held, opening, tried};

use crate::window::Window;
use circuit::{Circuit, Fault};

impl Window<'_> {
    // Whether a set has what is known from the start: below frame c a faulted node has its stuck value.
    #[tactic(auto, unfolding(circuit::specs::Fault::lines_in))]
    fn holds_fault(self, known: &[u8]) -> bool
        ensures { result ≡ has_held self.entry.n self.entry.fault self.entry.c known.now }
    {
        let node = self.fault.node;
        let Some(stuck) = circuit::held(Circuit::Faulty(self.fault).stuck_node(node)) else {
            return true;
        };
        (0..self.c).all(|frame| {
            let place = knowledge::place_of(self.n, node, frame as u16);
            values::byte_at(known, place) == stuck
        })
    }
}

// Whether a set, wherever it is from, keeps each of its values open as a split: it has the values that
// the fault holds, nothing is concluded from it that it has not, and in it the effect does not die. False where
// the window is too long or a slice is not of its size: the set is not shown to be open. The parameters stand
// side by side, as those of knowledge::conclude do.
#[tactic(auto, using(crate::proofs::TrialLaws::fitting_laws), unfolding(crate::specs::Inner::Trials::following, crate::specs::Inner::Trials::opening, crate::specs::Inner::Trials::work_fits, netlist::specs::Netlist::net_of))]
pub fn is_open_set(
    netlist: &[u8],
    fault: Fault,
    c: u8,
    f: u8,
    known: &mut [u8],
    touched: &mut [u8],
) -> bool
    ensures { tried result known.new touched.new ≡ opening netlist.now fault c f known.old touched.old }
{
    let Some(window) = Window::of(netlist, fault, c, f) else {
        return false;
    };
    let places = window.places();
    known.len() == places
        && touched.len() == places
        && window.holds_fault(known)
        && window.sweep_once(known).steps == 0
        && !trace::effect_dies(netlist, fault, c, f, known, touched)
}
