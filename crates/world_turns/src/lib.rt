//! The world of a run and its turns, in one thread. What a turn makes of a world is defined in `machine`.
#![tactic(auto)]

mod error;
mod residents;
mod turns;
mod world;

pub use error::{NoTurn, ReplayFault, Why};
pub use residents::Residents;
pub use turns::{Taken, Went, advance, go_on, turn};
pub use world::{World, open_world};
