// What is known in a window of frames, and what the relation of a node at a frame concludes.
#![tactic(auto)]

mod relation;
mod window;

pub use relation::{circuit_in, conclude, in_force, pin_frame, pin_frame_of, pin_source};
pub use window::{MOST_FRAMES, begin_branch, enter_value, frames_of, place_of};
