// The step reader: hands out the steps of one branch's run, one after the other.
ghost use Rattle.std.specs.Prelude.{◌≡◌, ◌/◌, ◌≤◌, length};
ghost use Rattle.std.specs.Iterator.{YieldsFirst, item_count};
ghost use Rattle.certificate.specs.Certificate.{steps_in};
ghost use Rattle.certificate.specs.Inner.Reading.{steps_left};

use crate::step::{STEP_LENGTH, Step, step_at};

// A branch's run, and the position of the step that comes next: the thin reader that document 01 names.
#[derive(Clone, Copy)]
pub struct StepReader<'a> {
    run: &'a [u8],
    at: usize,
    ghost within: { at ≤ length run.now },
}

impl<'a> Iterator for StepReader<'a> {
    type Item = Step;

    ghost next_gives = { YieldsFirst (λ s. steps_left s.run.now s.at) };

    ghost remaining = { item_count (λ s. steps_left s.run.now s.at) };

    #[tactic(auto, using(crate::proofs::ReadingLaws::steps_more, crate::proofs::ReadingLaws::steps_none))]
    fn next(&mut self) -> Option<Step> {
        if self.run.len() - self.at < STEP_LENGTH {
            return None;
        }
        let step = step_at(&self.run[self.at..]);
        self.at += STEP_LENGTH;
        Some(step)
    }
}

// The steps of a run, from its start on.
pub fn steps(run: &[u8]) -> StepReader<'_>
    ensures { steps_left result.run.now result.at ≡ steps_in (length run.now / 7) run.now }
{
    StepReader { run, at: 0 }
}
