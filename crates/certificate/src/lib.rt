// A certificate's bytes: head, pairs and steps; and the room that it takes. Other crates know how long head
// and step are, not where in them something stands.
#![tactic(auto)]

mod layout;
mod reader;
mod room;
mod step;
mod writer;

pub use layout::{HEAD_LENGTH, Head, head_of, layout_right, run_length, run_offset};
pub use reader::{StepReader, steps};
pub use room::{check_slices, check_work_slices};
pub use step::{STEP_LENGTH, Step};
pub use writer::{put_step, write_head};
