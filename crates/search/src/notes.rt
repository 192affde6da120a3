// Notes of splits that stay open, from sets that are proposed or guessed. Beside the note a byte holds a
// guessed value, 0, 1 or unknown.
ghost use Rattle.std.specs.Prelude.{ℕ, ◌≡◌, ◌<◌, ◌≤◌};
ghost use Rattle.values.specs.Lists.{at};

use crate::quick;
use crate::search::Search;
use gates::UNKNOWN;
use splits::{Split, guess_in};
use values::{copy, tail};

// Whether one of the first values is guessed.
fn some_guess(noted: &[u8], size: usize) -> bool {
    noted
        .iter()
        .take(size)
        .any(|byte| guess_in(*byte) < UNKNOWN)
}

// Takes the note out of every byte. What stays in it is the guessed value, 0 or 1, or unknown.
pub(crate) fn keep_small(values: &mut [u8])
    ensures { (p : ℕ) → at values.new p < 4 }
{
    for value in values.iter_mut() {
        *value = guess_in(*value);
    }
}

impl Search<'_> {
    // Whether the window of b is worth asking before those of smaller c: there are such, and something is
    // guessed.
    pub(crate) fn asks_first(&self) -> bool {
        let question = &self.question;
        question.b > 0 && some_guess(self.noted, question.places(question.b))
    }

    // Notes the set that stands in the first places of `known`, for the window of c, where it keeps its values
    // open.
    fn note_open(&mut self, c: u8)
        requires { c ≤ self.old.question.b }
        ensures { self.new.question ≡ self.old.question }
    {
        let question = self.question;
        let size = question.places(c);
        let known = &mut self.known[..size];
        let spare = &mut self.spare[..size];
        let noted = &mut *self.noted;
        sweeps::note_open(
            question.netlist,
            question.fault,
            c,
            question.f,
            known,
            spare,
            noted,
        );
    }

    // Looks for an open set that has a value of the split, and notes it.
    pub(crate) fn note_proposed(&mut self, split: Split)
        requires { split.c ≤ self.old.question.b }
        ensures { self.new.question ≡ self.old.question }
    {
        let question = self.question;
        let c = split.c;
        let known = &mut self.known[..question.places(c)];
        let noted = &mut *self.noted;
        let window = question.window(c);
        if quick::propose(question.netlist, window, split, self.scratch, known, noted) {
            self.note_open(c);
        }
    }

    // Before the first split of a window is tried, notes the set that is guessed for it, where it keeps its
    // values open. The guess is for the window of b: its last c + f + 1 frames lie around the fault frame as
    // those of the window of c do.
    pub(crate) fn note_window(&mut self, split: Split)
        requires { split.c ≤ self.old.question.b }
        ensures { self.new.question ≡ self.old.question }
    {
        let c = split.c;
        if split.frame > 0 || split.node > 0 {
            return;
        }
        let question = self.question;
        let from = question.n as usize * (question.b as usize - c as usize);
        let known = &mut self.known[..question.places(c)];
        let noted = &mut *self.noted;
        copy(tail(noted, from), known);
        keep_small(known);
        self.note_open(c);
    }
}
