// Splits: the order in which they are tried, and the notes of those that stay open.
#![tactic(auto)]

mod notes;
mod split;

pub use notes::{guess_in, note_known, noted_c};
pub use split::{Split, first_of};
