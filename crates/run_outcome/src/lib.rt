//! What a run ends with: the lines of its actors and of its append streams, as `machine` defines them.
#![tactic(auto)]

mod ending;

pub use ending::outcome_of;
