// Clocks with pseudo-random inputs: an output of the faulty circuit that differs from the good
// circuit's at or after clock b shows that no split closes for b or below, so none need be tried.
ghost use Rattle.std.specs.Prelude.{◌≡◌, true, ◌≤◌, length};
ghost use Rattle.circuit.specs.Fault.{lines_of};
ghost use Rattle.netlist.specs.Netlist.{net_of};
ghost use Rattle.simulator.specs.Statement.{Redundant};
ghost use Rattle.witness.specs.Inner.Alike.{Alike, AlikeFrom};

use crate::question::Question;
use crate::quick;
use crate::random::Run;
use circuit::Circuit;
use gates::Kind;
use netlist::MOST_NODES;
use values::copy;
use witness::{run_clock, step_both};

// A sound netlist has no more nodes.
pub(crate) const NODES_AT_MOST: usize = MOST_NODES as usize;

// How many clocks the good circuit takes beside the faulty one.
pub(crate) const CLOCKS: u8 = 16;

// The faulty circuit and the good one beside it. Of each there is a byte for each node: the values seen in the
// last clock, and what it has latched.
#[derive(Drop)]
struct Circuits<'a> {
    question: Question<'a>,
    values: &'a mut [u8],
    latched: &'a mut [u8],
    good_values: &'a mut [u8],
    good_latched: &'a mut [u8],
    ghost faulty_fits: { (length values.now ≡ question.n) × (length latched.now ≡ question.n) },
    ghost good_fits: { (length good_values.now ≡ question.n) × (length good_latched.now ≡ question.n) },
}

impl Circuits<'_> {
    // The faulty circuit takes b clocks.
    fn lead_in(&mut self, run: &mut Run)
        ensures alike { AlikeFrom (net_of self.old.question.netlist.now) (lines_of self.old.question.fault) self.old.question.b self.old.latched.now → Alike (net_of self.old.question.netlist.now) (lines_of self.old.question.fault) self.new.latched.now self.new.latched.now }
        ensures same_question { self.new.question ≡ self.old.question }
    {
        let question = self.question;
        for _ in 0..question.b {
            run.draw(question.netlist, Kind::Input, self.values);
            run_clock(
                question.netlist,
                Circuit::Faulty(question.fault),
                self.latched,
                self.values,
            );
        }
    }

    // Whether an output differs while both circuits take clocks with the same pseudo-random inputs, each
    // from what it has latched. No `any`: nothing is known behind it of what its closure altered, as at
    // `Search::frame_open`.
    fn run_both(&mut self, run: &mut Run) -> bool
        ensures { result ≡ true → Alike (net_of self.old.question.netlist.now) (lines_of self.old.question.fault) self.old.latched.now self.old.good_latched.now → ⊥ }
    {
        let question = self.question;
        for _ in 0..CLOCKS {
            run.draw(question.netlist, Kind::Input, self.values);
            if step_both(
                question.netlist,
                question.fault,
                self.values,
                self.latched,
                self.good_values,
                self.good_latched,
            ) {
                return true;
            }
        }
        false
    }

    // Whether an output differs once: the faulty circuit takes b clocks from a pseudo-random start, then
    // the good one takes over what it has latched, and both go on.
    fn trial(&mut self, run: &mut Run) -> bool
        ensures { result ≡ true → Redundant self.old.question.netlist.now self.old.question.fault self.old.question.b → ⊥ }
    {
        run.draw(self.question.netlist, Kind::FlipFlop, self.latched);
        self.lead_in(run);
        let latched = &mut *self.latched;
        copy(latched, self.good_latched);
        self.run_both(run)
    }

    // Whether a run shows the fault at an output at or after clock b, whatever the circuits hold at first.
    fn is_seen(&mut self) -> bool
        ensures { result ≡ true → Redundant self.old.question.netlist.now self.old.question.fault self.old.question.b → ⊥ }
    {
        let question = self.question;
        let Some(lane) = quick::find_run(question.netlist, question.n, question.fault, question.b)
        else {
            return false;
        };
        self.trial(&mut Run::new(lane))
    }
}

impl Question<'_> {
    // Whether a trial shows the fault at or after clock b. The first n bytes of both work slices are used.
    #[tactic(auto, using(netlist::proofs::SoundLaws::facts))]
    pub(crate) fn rules_out(&self, known: &mut [u8], spare: &mut [u8]) -> bool
        requires { (self.now.n ≤ length known.old) × (self.now.n ≤ length spare.old) }
        ensures { result ≡ true → Redundant self.now.netlist.now self.now.fault self.now.b → ⊥ }
    {
        let mut values = [0u8; NODES_AT_MOST];
        let mut latched = [0u8; NODES_AT_MOST];
        let end = self.n as usize;
        let mut circuits = Circuits {
            question: *self,
            values: &mut known[..end],
            latched: &mut spare[..end],
            good_values: &mut values[..end],
            good_latched: &mut latched[..end],
        };
        circuits.is_seen()
    }
}
