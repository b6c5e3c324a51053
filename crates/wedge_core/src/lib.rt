//! The core: runs of a world on one thread, in serial order or by a schedule, and the outcome of each.
#![tactic(auto)]

mod ending;
mod replaying;
mod serially;

pub use ending::outcome;
pub use replaying::{complete_runs_replay, replay};
pub use serially::{serial, serial_order_goes_on};
pub use world_cells::Cells;
pub use world_turns::{NoTurn, ReplayFault, Taken, Why, World, open_world, turn};
