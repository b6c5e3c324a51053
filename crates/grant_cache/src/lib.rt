//! A bounded cache of the rights that a sheet gives on tags, beside which an actor looks up the tags that it made.
#![tactic(auto)]

mod cache;
mod count;

pub use cache::{CAPACITY, GrantCache};
pub use count::{CacheCount, CacheLine};
