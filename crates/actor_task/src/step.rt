//! What an actor comes to.

use wedge_base::{ActorName, End, GateId};
use wedge_events::SavedView;

/// What an actor came to.
#[derive(Debug, Drop)]
pub enum Step {
    /// It did an event of a cell that no other actor has part in.
    Went,
    /// It waits for the run of a gate, its start of this number.
    Waits { number: u32 },
    /// It starts a child of this name.
    Start { child: ActorName },
    /// It joins its child of this number.
    Join { number: u32 },
    /// It enters a fresh gate, in a run of this name.
    Enter { run: ActorName },
    /// It enters a recycled gate.
    EnterRecycled(GateEntry),
    /// It has come to its end.
    AtEnd(Last),
}

/// The entry of a recycled gate, in a run of this name; the memory is that with which the first run begins.
#[derive(Debug, Drop)]
pub struct GateEntry {
    pub gate: GateId,
    pub run: ActorName,
    pub memory: SavedView,
}

/// What is left to do of an actor at its end.
#[derive(Debug, Drop)]
pub enum Last {
    /// Nothing: it has ended.
    Ended,
    /// It leaves a fresh gate.
    Leave {
        end: End,
    },
    /// It leaves a recycled gate, and leaves its private memory there.
    LeaveRecycled {
        gate: GateId,
        end: End,
        memory: SavedView,
    },
}
