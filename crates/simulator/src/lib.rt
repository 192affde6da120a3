// The simulator: one clock step of a circuit. Its definitions go on to lists of clocks, and end with
// THE STATEMENT of what an accepted certificate means.
#![tactic(auto)]

mod clock;

pub use clock::{PinValues, gate_assuming, gate_of, gate_value, latch, settle, simulate};
