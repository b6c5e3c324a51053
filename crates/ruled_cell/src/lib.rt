//! Cells that are locked by tickets: the locks of declared tags. Each thread has a pass, which knows what it has
//! seen and entered, so that the history of each cell is known at the end, and needs no audit.
#![tactic(auto)]

mod bells;
mod cells;
mod enter;
mod order;
mod passes;
mod visits;

pub use cells::RuledCells;
pub use enter::AskMaker;
pub use passes::{PassOrigin, PassTurn, PassView, RuledPass};
pub use visits::{OwnVisit, Visit};
