//! Memory in pages that are shared until they are written, and an actor's private memory in such pages.
#![tactic(auto)]

mod laws;
mod page_list;
mod paged_range;
mod pages;
mod private_view;

pub use laws::{
    equal_memory_is_the_same, snaps_are_the_bytes, store_after_snapshot, store_into_snapshot,
};
pub use paged_range::PagedRange;
pub use pages::Pages;
pub use private_view::PrivateView;
