//! What a run on threads leaves: the logs of its actors, and the histories of its cells.

ghost use Rattle.std.specs.Prelude.{◌≡◌};

use grant_cache::CacheCount;
use journal_cell::{Entry, GhostList};
use machine::StreamLabel;
use wedge_base::{ActorName, DenialAt, End, FdNo, GateId, Items, Slot, Stamp};
use wedge_events::{
    DirectoryAsk, DirectoryReply, GateAsk, GateReply, LivesAsk, LivesReply, LogEntry, SlotAsk,
    SlotReply, StreamAsk, StreamReply,
};

/// The log of an actor: how it ended, and its entries, the oldest first. What a log keeps of them is for the run to say.
#[derive(Debug)]
pub struct ActorLog {
    pub name: ActorName,
    /// The address of the procedure at which it began, in bytes.
    pub compartment: u32,
    pub end: End,
    /// The address, in bytes, of the instruction or fetch that ended it.
    pub pc: u32,
    /// The units of fuel that were left.
    pub fuel: u32,
    /// Its denials, in order.
    pub denials: Items<DenialAt>,
    /// The paths of the files that it opened.
    pub labels: Items<StreamLabel>,
    /// All its entries. Only proofs read them.
    pub entries: GhostList<LogEntry>,
    /// Those of its entries that are kept.
    pub kept: Items<LogEntry>,
    /// How many entries it has in all.
    pub count: u64,
    /// The counts of its cache of rights.
    pub cache: CacheCount,
}

// By hand: a derived drop would be proved again in each function that drops one.
impl Drop for ActorLog {
    fn drop(self) {
        let Self {
            name: _,
            compartment: _,
            end: _,
            pc: _,
            fuel: _,
            denials: _,
            labels: _,
            entries: _,
            kept: _,
            count: _,
            cache: _,
        } = self;
    }
}

impl ActorLog {
    /// Consumes a log, and returns those of its entries that it keeps.
    pub fn into_kept(self) -> Items<LogEntry>
        ensures { result ≡ self.kept }
    {
        let Self {
            name: _name,
            compartment: _compartment,
            end: _end,
            pc: _pc,
            fuel: _fuel,
            denials: _denials,
            labels: _labels,
            entries: _entries,
            kept,
            count: _count,
            cache: _cache,
        } = self;
        kept
    }
}

/// The history of a cell, as the cell kept it: its entries, the oldest first.
#[derive(Debug)]
pub enum CellHistory {
    Slots {
        entries: Items<Entry<DirectoryAsk, DirectoryReply>>,
    },
    Slot {
        slot: Slot,
        entries: Items<Entry<SlotAsk, SlotReply>>,
    },
    Fds {
        entries: Items<Entry<DirectoryAsk, DirectoryReply>>,
    },
    Fd {
        fd: FdNo,
        entries: Items<Entry<StreamAsk, StreamReply>>,
    },
    Lives {
        entries: Items<Entry<LivesAsk, LivesReply>>,
    },
    Gate {
        gate: GateId,
        entries: Items<Entry<GateAsk, GateReply>>,
    },
}

// By hand: a derived drop would be proved again in each function that drops one.
impl Drop for CellHistory {
    fn drop(self) {
        match self {
            CellHistory::Slots { entries: _entries } => {}
            CellHistory::Slot {
                slot: _slot,
                entries: _entries,
            } => {}
            CellHistory::Fds { entries: _entries } => {}
            CellHistory::Fd {
                fd: _fd,
                entries: _entries,
            } => {}
            CellHistory::Lives { entries: _entries } => {}
            CellHistory::Gate {
                gate: _gate,
                entries: _entries,
            } => {}
        }
    }
}

/// The logs of all actors, that of the root first, and the histories of the cells.
#[derive(Debug, Drop)]
pub struct Gathered {
    pub logs: Items<ActorLog>,
    /// Those of the slots of declared tags, which are the first ones, in their order. Only proofs read them.
    pub declared: Items<GhostList<Entry<SlotAsk, SlotReply>>>,
    /// Those of the other cells.
    pub others: Items<CellHistory>,
}

/// What an actor learns of one that it created: how it ended, the units of fuel that were left, and the
/// stamp of its last entry.
#[derive(Clone, Copy, Debug)]
pub struct ActorEnd {
    pub how: End,
    pub fuel: u32,
    pub last: Stamp,
}
