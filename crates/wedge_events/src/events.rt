//! Shared events, and the journal of a run.

ghost use Rattle.std.specs.Prelude.{◌≡◌, IfOk};
ghost use Rattle.wedge_events.specs.Journals.{cell_of};
ghost use Rattle.wedge_events.specs.Wants.{slot_ask_with};

use crate::boxed::Boxed;
use crate::cells::{
    DirectoryAsk, DirectoryReply, GateAsk, GateReply, Live, LivesAsk, LivesReply, SlotAsk,
    SlotReply, StreamAsk, StreamReply,
};
use std::mem;
use wedge_base::{ActorName, End, FdNo, GateId, Items, NoMemory, Slot, Stamp, TagNo};

/// A cell: a piece of shared state on which one event happens at a time.
#[derive(Debug, PartialEq, Drop)]
pub enum CellName {
    /// The directory that assigns slots and tag numbers.
    Slots,
    /// A slot, and the tag that lives there.
    Slot { slot: Slot },
    /// The directory that assigns descriptors.
    Fds,
    /// The stream behind a descriptor.
    Fd { fd: FdNo },
    /// The count of live sthreads.
    Lives,
    /// A recycled gate.
    Gate { gate: GateId },
}

impl CellName {
    /// An equal name.
    pub fn copy(&self) -> Result<CellName, NoMemory>
        ensures { IfOk result (λ n. n ≡ self.now) }
    {
        Ok(match self {
            CellName::Slots => CellName::Slots,
            CellName::Slot { slot } => CellName::Slot { slot: *slot },
            CellName::Fds => CellName::Fds,
            CellName::Fd { fd } => CellName::Fd { fd: *fd },
            CellName::Lives => CellName::Lives,
            CellName::Gate { gate } => CellName::Gate { gate: gate.copy()? },
        })
    }
}

/// What an actor wants of a slot: what it will ask, without the tag that will live there then. An offset is
/// in bytes from the start of the window.
#[derive(Clone, Copy, Debug, PartialEq, Eq)]
pub enum SlotWant {
    /// To begin a tag of 1 to 16 pages there.
    Open { tag: TagNo, pages: u32 },
    /// To end a tag.
    Close { tag: TagNo },
    /// To load 1, 2 or 4 bytes.
    Load { offset: u32, width: u8 },
    /// To store the low 1, 2 or 4 bytes of a value.
    Store { offset: u32, width: u8, value: u32 },
    /// To place a block of at least so many bytes in a tag.
    Smalloc { tag: TagNo, size: u32 },
    /// To free the block that begins at an offset.
    Sfree { offset: u32 },
    /// To copy the pages of a tag.
    Snap { tag: TagNo },
}

impl SlotWant {
    /// What is asked where this tag lives in the slot, on which the actor has this right.
    #[inline(always)]
    pub fn with(self, live: Option<Live>) -> SlotAsk
        ensures { result ≡ slot_ask_with self live }
    {
        match self {
            SlotWant::Open { tag, pages } => SlotAsk::Open { tag, pages },
            SlotWant::Close { tag } => SlotAsk::Close { tag },
            SlotWant::Load { offset, width } => SlotAsk::Load {
                offset,
                width,
                live,
            },
            SlotWant::Store {
                offset,
                width,
                value,
            } => SlotAsk::Store {
                offset,
                width,
                value,
                live,
            },
            SlotWant::Smalloc { tag, size } => SlotAsk::Smalloc { tag, size },
            SlotWant::Sfree { offset } => SlotAsk::Sfree { offset, live },
            SlotWant::Snap { tag } => SlotAsk::Snap { tag },
        }
    }
}

/// The event that an actor wants: what it will ask, without the tag that will live in a slot then. All but
/// the last four are of a cell.
#[derive(Debug, Drop)]
pub enum Want {
    Slots(DirectoryAsk),
    Slot { slot: Slot, want: SlotWant },
    Fds(DirectoryAsk),
    Fd { fd: FdNo, ask: StreamAsk },
    Lives(LivesAsk),
    Gate { gate: GateId, ask: GateAsk },
    /// To start an sthread of this name.
    Start { child: ActorName },
    /// To take the end of its k-th start.
    Join { child: u32 },
    /// To enter a fresh gate, in a run of this name.
    Enter { run: ActorName },
    /// To leave a fresh gate.
    Leave { end: End },
}

/// What an actor asks, and of which cell.
#[derive(Debug, Drop)]
pub enum Ask {
    Slots(DirectoryAsk),
    Slot { slot: Slot, ask: SlotAsk },
    Fds(DirectoryAsk),
    Fd { fd: FdNo, ask: StreamAsk },
    Lives(LivesAsk),
    Gate { gate: GateId, ask: GateAsk },
    Start { child: ActorName },
    Join { child: u32 },
    Enter { run: ActorName },
    Leave { end: End },
}

/// A shared event: an ask with the cell's reply, or one of the four events that are of no cell.
#[derive(Debug, PartialEq, Drop)]
pub enum Event {
    Slots {
        ask: DirectoryAsk,
        reply: DirectoryReply,
    },
    Slot {
        slot: Slot,
        ask: SlotAsk,
        reply: SlotReply,
    },
    Fds {
        ask: DirectoryAsk,
        reply: DirectoryReply,
    },
    Fd {
        fd: FdNo,
        ask: StreamAsk,
        reply: StreamReply,
    },
    Lives {
        ask: LivesAsk,
        reply: LivesReply,
    },
    /// What is boxed here is seldom there: so an event takes 48 bytes.
    Gate {
        gate: Boxed<GateId>,
        ask: Boxed<GateAsk>,
        reply: GateReply,
    },
    /// An sthread of this name starts.
    Start {
        child: ActorName,
    },
    /// The k-th start has ended so, with so many units of fuel left, and is joined.
    Join {
        child: u32,
        end: End,
        fuel: u32,
    },
    /// A run of this name enters a fresh gate.
    Enter {
        run: ActorName,
    },
    /// A run of a fresh gate has ended so.
    Leave {
        end: End,
    },
}

impl Event {
    /// Whether it is a load or a store that took place.
    #[inline(always)]
    fn is_access(&self) -> bool {
        matches!(
            self,
            Event::Slot {
                ask: SlotAsk::Load { .. } | SlotAsk::Store { .. },
                reply: SlotReply::Loaded { .. } | SlotReply::Stored,
                ..
            }
        )
    }

    /// The cell of the event; none of a start, a join, and the enter and leave of a fresh gate.
    pub fn cell(&self) -> Result<Option<CellName>, NoMemory>
        ensures { IfOk result (λ c. c ≡ cell_of self.now) }
    {
        Ok(match self {
            Event::Slots { .. } => Some(CellName::Slots),
            Event::Slot { slot, .. } => Some(CellName::Slot { slot: *slot }),
            Event::Fds { .. } => Some(CellName::Fds),
            Event::Fd { fd, .. } => Some(CellName::Fd { fd: *fd }),
            Event::Lives { .. } => Some(CellName::Lives),
            Event::Gate { gate, .. } => Some(CellName::Gate { gate: gate.copy()? }),
            Event::Start { .. } | Event::Join { .. } | Event::Enter { .. } | Event::Leave { .. } =>
                None,
        })
    }
}

/// A turn of a run: an actor, and the shared event that it did.
#[derive(Debug, Drop)]
pub struct Turn {
    pub actor: ActorName,
    pub event: Event,
}

/// An event of a run: when, by whom, and what. Its cell is that of the event.
#[derive(Debug, PartialEq)]
pub struct LogEntry {
    pub stamp: Stamp,
    pub actor: ActorName,
    pub event: Event,
}

// By hand: a derived drop would be proved again in each function that drops one.
impl Drop for LogEntry {
    #[inline(always)]
    fn drop(self) {
        if self.event.is_access() {
            // It holds nothing: so what an event may hold is not looked for.
            let Self {
                stamp: _,
                actor: _,
                event,
            } = self;
            mem::forget(event);
        } else {
            // Moved here, so that an access is put in no memory for this.
            let rare = self;
            rare.drop_any();
        }
    }
}

impl LogEntry {
    /// Consumes an entry, and returns its stamp, its actor and its event.
    #[inline(always)]
    pub fn into_parts(self) -> (Stamp, ActorName, Event)
        ensures stamp { result.0 ≡ self.stamp }
        ensures actor { result.1 ≡ self.actor }
        ensures event { result.2 ≡ self.event }
    {
        let Self {
            stamp,
            actor,
            event,
        } = self;
        (stamp, actor, event)
    }

    /// Drops an entry of any event. Out of line, since most are loads and stores.
    #[inline(never)]
    fn drop_any(self) {
        let Self {
            stamp: _,
            actor: _,
            event: _,
        } = self;
    }
}

/// The events of a run, in order.
#[derive(Debug, Drop)]
pub struct Journal {
    pub entries: Items<LogEntry>,
}
