// The report on a circuit's faults as text: a line for each mark, then the total, made one after the other
// for a program that writes them out.
#![tactic(auto)]

mod lines;
mod progress;

pub use progress::{LINE_LENGTH, Progress, Stage};
