//! Recycled gates: the cell that keeps what one run leaves, for the next run to begin with.
#![tactic(auto)]

mod kept;
mod laws;
mod object;

pub use kept::Kept;
pub use laws::next_begins_with_what_was_left;
