//! How an actor on its thread learns how those ended that it created, and how it ends itself.
#![tactic(auto)]

mod finishing;
mod joining;

pub use finishing::{finish_locked, finish_unlocked};
pub use joining::{join_child, resume};
