//! What an actor is at.

use crate::entrance::Entrance;
use crate::opening::FileOpening;
use crate::preparation::Preparation;
use wedge_base::{End, Slot, TagNo};
use wedge_events::Want;

/// What an actor is at.
#[derive(Debug, Drop)]
pub enum Phase {
    /// It runs instructions.
    Running,
    /// It is within a load, a store or a service call, and wants this event.
    Within(Want),
    /// A life is claimed for a child: it wants the copies of tags with which the child begins, one after another, and then
    /// the child's start.
    Starting(Preparation),
    /// It makes a gate: it wants the copies of tags with which the gate's runs begin, one after another.
    MakingGate(Preparation),
    /// A slot is claimed for a new tag, and it wants to open the tag there.
    Opening { slot: Slot, tag: TagNo },
    /// The tag that lived in a slot is closed, and it wants to release the slot.
    Releasing { slot: Slot },
    /// It opens a file: it wants a number for the descriptor, and then to open the descriptor's
    /// stream.
    OpeningFile(FileOpening),
    /// It is about to enter a gate.
    Entering(Entrance),
    /// It has entered a gate, and waits for the run of this number among its starts.
    Waiting { run: u32 },
    /// Its end is decided: it joins the children that it has not joined, and wants the event that ends it.
    Ending(End),
    /// It has ended.
    Ended(End),
}
