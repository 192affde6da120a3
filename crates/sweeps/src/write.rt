// The certificate of a split.
ghost use Rattle.std.specs.Prelude.{◌≡◌, ◌*◌, ◌+◌, ◌≤◌, length};
ghost use Rattle.netlist.specs.Netlist.{net_of};
ghost use Rattle.sweeps.specs.Inner.Windows.{places_in};
ghost use Rattle.sweeps.specs.Inner.Trials.{certified, certifying};
ghost use Rattle.sweeps.specs.Splits.{certificate_for, head_for, step_count};
ghost use Rattle.certificate.specs.Written.{written};
ghost use Rattle.certificate.specs.Certificate.{head_length};

use crate::window::Trial;
use certificate::{HEAD_LENGTH, Head, STEP_LENGTH, write_head};
use circuit::Fault;
use splits::Split;

impl Trial<'_> {
    // What the certificate names.
    fn head(self) -> Head
        ensures { result ≡ head_for self.entry.window.fault self.entry.f self.entry.split }
    {
        let Split { c, frame, node } = self.split;
        Head {
            fault: self.window.fault,
            c,
            f: self.f,
            node,
            frame,
        }
    }

    // Writes the certificate: branch 1's steps straight after branch 0's, and then what stands before them.
    // Says how many steps there are.
    #[tactic(auto, unfolding(crate::specs::Splits::step_count))]
    fn write_branches(self, known: &mut [u8], certificate: &mut [u8]) -> u32
        requires fits { length known.old ≡ places_in self.window }
        requires has_room { head_length + 14 * places_in self.window ≤ length certificate.old }
        ensures counted { result ≡ step_count (net_of self.entry.window.netlist.now) self.entry.window.fault self.entry.f self.entry.split }
        ensures few { result ≤ 2 * places_in self.entry.window }
        ensures written { certificate.new ≡ written (certificate_for (net_of self.entry.window.netlist.now) self.entry.window.fault self.entry.f self.entry.split) certificate.old }
    {
        let zero = self.work_branch(0, known, &mut certificate[HEAD_LENGTH..]);
        let first_steps = zero.steps;
        let one = self.work_branch(
            1,
            known,
            &mut certificate[HEAD_LENGTH + STEP_LENGTH * first_steps..],
        );
        write_head(
            certificate,
            self.head(),
            zero.steps as u16,
            one.steps as u16,
        );
        (zero.steps + one.steps) as u32
    }
}

// Writes the certificate of a split, clears the slice of values, and says how many steps there are. Nothing is
// written where the split may not be tried in so many values, or where the certificate's slice has no room for
// every certificate of the window. The parameters stand side by side, as those of knowledge::conclude do.
#[tactic(auto, unfolding(crate::specs::Inner::Trials::certifying))]
pub fn write_certificate(
    netlist: &[u8],
    fault: Fault,
    f: u8,
    split: Split,
    known: &mut [u8],
    certificate: &mut [u8],
) -> Option<u32>
    ensures { certified result known.new certificate.new ≡ certifying netlist.now fault f split known.old certificate.old }
{
    let trial = Trial::of(netlist, fault, f, split, known.len())?;
    if certificate.len() < HEAD_LENGTH + 2 * STEP_LENGTH * trial.window.places() {
        return None;
    }
    let steps = trial.write_branches(known, certificate);
    known.fill(0);
    Some(steps)
}
