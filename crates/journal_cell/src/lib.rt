//! Cells that keep their history: the state of an object, and all that it was asked and replied, in order.
//! It is generic in the object, and serves all six kinds of cell. Where it is known otherwise that a history is that of
//! the logs, nobody has to read it, and a cell has it for proofs alone.
#![tactic(auto)]

mod entry;
mod ghost_journaled;
mod ghost_list;
mod journaled;
mod run;

pub use entry::{Entry, Pass};
pub use ghost_journaled::GhostJournaled;
pub use ghost_list::GhostList;
pub use journaled::{JournalParts, Journaled};
pub use run::RunOf;
