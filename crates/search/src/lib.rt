// The search: the first split whose two branches close. Splits that are shown to stay open are left out; of
// what looks for such (`quick`) nothing is promised.
#![tactic(auto)]

mod answer;
mod branch;
mod guess;
mod notes;
mod question;
mod quick;
mod random;
mod search;
mod trial;
mod walk;

pub use answer::first_split;
