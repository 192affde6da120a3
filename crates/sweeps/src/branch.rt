// A branch of a split: worked out by sweeps, and whether it closes.
ghost use Rattle.std.specs.Prelude.{◌≡◌, ◌<◌, ◌≤◌, length};
ghost use Rattle.std.proofs.lemmas.List.Edits.{sets};
ghost use Rattle.sweeps.specs.Inner.Trials.{tried, trying};
ghost use Rattle.certificate.specs.Written.{run_bytes};
ghost use Rattle.sweeps.specs.Inner.Windows.{places_in};
ghost use Rattle.sweeps.specs.Inner.Branches.{HoldsBranch, branch_in, closes_in, last_bytes, bytes_in, split_closes_in};

use crate::sweep::Progress;
use crate::window::{Trial, Window};
use circuit::Fault;
use splits::Split;

impl Trial<'_> {
    // Works out the branch that has the value v, and writes its steps into the run, as far as that has
    // room. A sweep without a step ends it, and so does a contradiction. The value is a byte, 0 or 1, as
    // knowledge::begin_branch takes it. The lengths of the slices are asked for in each method of a
    // trial: the slices are the caller's, and are measured once, where the trial is made.
    #[tactic(auto, using(crate::proofs::BranchLaws::trial_reads))]
    pub(crate) fn work_branch(self, v: u8, known: &mut [u8], run: &mut [u8]) -> Progress
        requires is_value { v < 2 }
        requires fits { length known.old ≡ places_in self.window }
        ensures closed { result.closed ≡ (branch_in self.entry v).closed }
        ensures counted { result.steps ≡ length (branch_in self.entry v).steps }
        ensures written { run.new ≡ sets run.old 0 (run_bytes (branch_in self.entry v).steps) }
        ensures holds { HoldsBranch self.entry v known.new }
        ensures few { result.steps ≤ places_in self.entry.window }
    {
        let Window { netlist, fault, .. } = self.window;
        let Split { c, frame, node } = self.split;
        let closed = knowledge::begin_branch(netlist, fault, c, node, frame, v, known);
        self.window
            .sweep_to_end(known, run, Progress { steps: 0, closed })
    }

    // Whether branch v closes: by contradiction, or because the fault's effect dies. No step is written: the run
    // is empty, and one function works a branch out for both, as docs/DECISIONS.md tells.
    #[tactic(auto, using(crate::proofs::BranchLaws::branch_ends))]
    fn branch_closes(self, v: u8, known: &mut [u8], touched: &mut [u8]) -> bool
        requires is_value { v < 2 }
        requires fits { (length known.old ≡ places_in self.window) × (length touched.old ≡ places_in self.window) }
        ensures closes { result ≡ closes_in self.entry v }
        ensures known_in_branch { known.new ≡ bytes_in self.entry v }
    {
        if self.work_branch(v, known, &mut touched[..0]).closed {
            return true;
        }
        let Window { netlist, fault, .. } = self.window;
        trace::effect_dies(netlist, fault, self.split.c, self.f, known, touched)
    }

    // Whether both branches close, in slices of the window's size. Branch 1 is worked out only where branch 0
    // closes.
    #[tactic(auto, unfolding(crate::specs::Splits::split_closes, crate::specs::Inner::Trials::last_branch))]
    fn branches_close(self, known: &mut [u8], touched: &mut [u8]) -> bool
        requires fits { (length known.old ≡ places_in self.window) × (length touched.old ≡ places_in self.window) }
        ensures closes { result ≡ split_closes_in self.entry }
        ensures known_in_last { known.new ≡ last_bytes self.entry }
    {
        self.branch_closes(0, known, touched) && self.branch_closes(1, known, touched)
    }
}

// Whether both branches of a split close. What is known in the branch worked out last is left in the one
// slice, the other is cleared. Both have to be of the window's size. False where the split may not be tried in
// such slices: it is not shown to close. The parameters stand side by side, as those of knowledge::conclude do.
#[tactic(auto, using(crate::proofs::TrialLaws::tried_same), unfolding(crate::specs::Inner::Trials::trying))]
pub fn both_close(
    netlist: &[u8],
    fault: Fault,
    f: u8,
    split: Split,
    known: &mut [u8],
    touched: &mut [u8],
) -> bool
    ensures { tried result known.new touched.new ≡ trying netlist.now fault f split known.old touched.old }
{
    let Some(trial) = Trial::of(netlist, fault, f, split, known.len()) else {
        return false;
    };
    if touched.len() != known.len() {
        return false;
    }
    let both = trial.branches_close(known, touched);
    touched.fill(0);
    both
}
