// The effect trace: whether the fault's effect dies in a window of frames.
#![tactic(auto)]

mod effect;
mod frame;
mod pins;

pub use effect::effect_dies;
