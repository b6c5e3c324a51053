//! A stable sort, and the order of what an image lists by name.
#![tactic(auto)]

mod entries;
mod order;

pub use entries::byte_order;
pub use order::{Sortable, sort};
