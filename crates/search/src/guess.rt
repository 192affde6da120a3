// A guess at values of a window in which the fault's effect does not die. Whether it is right is
// checked where it is used: here nothing is promised but small bytes.
ghost use Rattle.std.specs.Prelude.{ℕ, ◌<◌};
ghost use Rattle.values.specs.Lists.{at};

use crate::notes::keep_small;
use crate::question::Question;
use crate::quick::{self, Scratch};
use gates::UNKNOWN;
use values::copy;

impl Question<'_> {
    // Guesses values for the window of b: n for each frame, frame by frame, in the first bytes of `values`.
    // All bytes behind them are unknown. Every byte is 0, 1 or unknown at the end, with no note in it.
    pub(crate) fn grow(&self, values: &mut [u8], trial: &mut [u8], scratch: &mut Scratch)
        ensures { (p : ℕ) → at values.new p < 4 }
    {
        values.fill(UNKNOWN);
        // `values` is passed as what is noted: all of it is unknown, so nothing is noted yet
        quick::guess(self.netlist, self.window(self.b), scratch, trial, values);
        copy(trial, values);
        keep_small(values);
    }
}
