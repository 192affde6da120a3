// Clocks of the faulty circuit and of the good one, side by side: a clock at which an output differs is a
// witness that the fault is not redundant.
#![tactic(auto)]

mod clocks;

pub use clocks::{run_clock, step_both};
