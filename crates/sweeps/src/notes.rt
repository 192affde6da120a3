// Open sets are noted: each of their values stays open as a split.
ghost use Rattle.std.specs.Prelude.{◌≡◌};
ghost use Rattle.sweeps.specs.Inner.Trials.{noting, noting_open, tried};

use crate::open::is_open_set;
use circuit::Fault;
use splits::note_known;

// Notes a set where it keeps its values open, and says whether it does: the search goes on either way, but the
// answer is promised with what is noted. The parameters stand side by side, as those of knowledge::conclude do.
#[tactic(auto, unfolding(crate::specs::Inner::Trials::noting_open))]
pub fn note_open(
    netlist: &[u8],
    fault: Fault,
    c: u8,
    f: u8,
    known: &mut [u8],
    touched: &mut [u8],
    noted: &mut [u8],
) -> bool
    ensures { noting (tried result known.new touched.new) noted.new ≡ noting_open netlist.now fault c f known.old touched.old noted.old }
{
    let open = is_open_set(netlist, fault, c, f, known, touched);
    if open {
        note_known(known, c, noted);
    }
    open
}
