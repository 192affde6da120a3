// The netlist: what its bytes say, and whether they are a sound netlist.
#![tactic(auto)]

mod reader;
mod refusal;

pub use reader::{
    MOST_NODES, MOST_PINS_IN_ALL, Size, is_given, is_of_kind, kind_number, kind_of, length_of,
    node_count, pins_place, read, rule_of, source_at, source_of,
};
pub use refusal::Refusal;
