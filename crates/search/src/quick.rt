// The quick search: fan-out lists, a worklist with a trail, and 64 runs in the bits of words look for a
// run that shows the fault, or for a set of values that keeps splits open. Nothing rests on it: of what
// it finds nothing is promised, and no answer is given before a function with a full contract has
// verified it (`Circuits::trial`, `sweeps::note_open`, `sweeps::both_close`). So a mistake here costs
// time and never an answer, and all that is proved of it is that it is safe and ends.
mod effect;
mod extend;
mod fan;
mod lanes;
mod relation;
mod scratch;
mod set;
mod spread;
mod trail;
mod window;

pub(crate) use extend::{guess, propose};
pub(crate) use lanes::find_run;
pub(crate) use scratch::Scratch;
pub(crate) use window::Window;
