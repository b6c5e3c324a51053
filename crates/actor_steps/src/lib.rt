//! The steps that an actor on its thread makes alone: its local events, and its events on cells.
#![tactic(auto)]

mod stepping;

pub use stepping::step;
