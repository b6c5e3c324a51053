//! The cell of a slot: the tag that lives there, its bytes and its blocks.
#![tactic(auto)]

mod laws;
mod rights;
mod segment;
mod state;

pub use laws::{
    accesses_want_rights, blocks_are_placed_first_fit, copies_give_no_access,
    opened_tags_are_zeroed,
};
pub use state::SlotState;
