//! The cells of a run, each under a lock of its own: how an actor enters them, and the histories that they leave.
#![tactic(auto)]

mod enter;
mod entries;
mod gate_cells;
mod gates;
mod histories;
mod locked_cell;
mod opening;
mod slot_maker;
mod tag_cells;

pub use enter::is_of_cell;
pub use gate_cells::GateCells;
pub use gates::{enter_gate, leave_gate};
pub use locked_cell::{LockedCell, Named};
pub use opening::{RunCells, open_tags};
pub use tag_cells::{TableOf, TagCells, TagPass};
