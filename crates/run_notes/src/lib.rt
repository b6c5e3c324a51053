//! What is noted of a run: each access that succeeded, with the chain of calls under which it was made. Chains and notes
//! are kept beside the actors, which know nothing of them.
#![tactic(auto)]

mod chain;
mod context;
mod doer;
mod events;
mod items;
mod note;
mod procedures;
mod resting;

pub use chain::{CallChain, Frames};
pub use context::Context;
pub use doer::Doer;
pub use events::note_event;
pub use items::{Makings, NoteItem, Origin};
pub use note::Note;
pub use procedures::Procedures;
pub use resting::note_rest;
