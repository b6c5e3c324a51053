//! What an actor at rest is at.

use wedge_base::End;
use wedge_events::Want;

/// What an actor at rest is at.
#[derive(Debug, Drop)]
pub enum Next {
    /// It wants this event.
    Shared(Want),
    /// It has ended.
    Ended(End),
    /// It waits for the run of a gate: that of this number among its starts.
    Waiting { run: u32 },
}
