// A circuit's fault list, one fault after the other, and decimal text, written into a slice: what every
// program that names faults in lines of text needs.
#![tactic(auto)]

mod faults;
mod text;

pub use faults::{fault_after, first_of, listed_after};
pub use text::{put_decimal, put_field, put_text};
