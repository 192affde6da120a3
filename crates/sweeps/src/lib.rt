// Splits worked out by sweeps: whether both branches close, whether a set of values is open, and the
// certificate of a split.
#![tactic(auto)]

mod branch;
mod notes;
mod open;
mod sweep;
mod window;
mod write;

pub use branch::both_close;
pub use notes::note_open;
pub use open::is_open_set;
pub use write::write_certificate;
