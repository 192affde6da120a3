// The values of a line, 0, 1 and unknown; what gates make of them; and what a kind decides.
#![tactic(auto)]

mod kind;

pub use kind::{
    Gate, Kind, Rule, UNKNOWN, UnknownKind, controlling_value, inverted_if, join_of, negation,
    rule_of, unit_of, values_differ,
};
