//! Logs and histories to be audited.

ghost use Rattle.std.specs.Prelude.{◌≡◌, take};
ghost use Rattle.thread_laws.specs.KeptEntries.{IsKept};

use cow_pages::PrivateView;
use grant_cache::CacheCount;
use image_form::{Image, ImageParts, finish_image};
use journal_cell::{Entry, GhostList};
use std::alloc::Global;
use std::test::Fail;
use thread_laws::{ActorLog, CellHistory};
use wedge_base::{
    ActorName, Bytes, End, FdBits, FdEntry, FdNo, GateId, Items, MemoryRange, NoMemory, Procedure,
    Slot, Stamp, StreamKind, TagEntry, TagNo,
};
use wedge_events::{
    Boxed, DirectoryAsk, DirectoryReply, Event, GateAsk, GateReply, LivesAsk, LivesReply, LogEntry,
    SavedView, SlotAsk, SlotReply, StreamAsk, StreamReply,
};

/// An image with a procedure `main` at 0x1_0000, and a descriptor 0 that takes bytes.
pub fn image(alloc: Global) -> Result<Image, Fail> {
    let mut procedures = Vec::new(alloc);
    procedures.push(Procedure {
        name: Bytes::from_slice(alloc, b"main")?,
        address: 0x1_0000,
    })?;
    let mut fds = Vec::new(alloc);
    fds.push(FdEntry {
        name: Bytes::from_slice(alloc, b"out")?,
        kind: StreamKind::Append,
        bits: FdBits {
            read: false,
            append: true,
        },
        content: Items::new(Vec::new(alloc)),
    })?;
    let parts = ImageParts {
        fuel: 100,
        base: 0x1_0000,
        words: Items::new(Vec::from_slice(alloc, &[0x13])?),
        procedures: Items::new(procedures),
        entry: 0x1_0000,
        ranges: Items::<MemoryRange>::new(Vec::new(alloc)),
        tags: Items::<TagEntry>::new(Vec::new(alloc)),
        fds: Items::new(fds),
        files: Items::new(Vec::new(alloc)),
        user: 0,
        root: Bytes::from_slice(alloc, b"/")?,
    };
    Ok(finish_image(alloc, parts).ok().ok_or("an image")?)
}

/// Entries, as contracts see them.
fn seen(entries: &[LogEntry]) -> GhostList<LogEntry>
    ensures { result ≡ entries.now }
{
    let mut all = GhostList::new();
    for entry in entries {
        all.push(entry);
    }
    all
}

/// The log of an actor that began at `main`, looked up no tag, and exited with so much fuel left. It keeps all its
/// entries.
pub fn log(alloc: Global, name: ActorName, fuel: u32, entries: Vec<LogEntry>) -> ActorLog
    ensures { IsKept 0 result }
{
    let all = seen(entries.as_slice());
    let count = entries.len() as u64;
    ActorLog {
        name,
        compartment: 0x1_0000,
        end: End::Exited(0),
        pc: 0x1_0000,
        fuel,
        denials: Items::new(Vec::new(alloc)),
        labels: Items::new(Vec::new(alloc)),
        entries: all,
        kept: Items::new(entries),
        count,
        cache: CacheCount {
            lookups: 0,
            hits: 0,
            refused: 0,
        },
    }
}

/// Private memory that is all zero.
fn memory(alloc: Global) -> Result<SavedView, NoMemory> {
    SavedView::of(alloc, &PrivateView::new(alloc, &[])?)
}

/// An event of one of the six kinds of cell, by number, with this reply or another.
pub fn event_of(alloc: Global, kind: u32, other: bool) -> Result<Event, NoMemory> {
    let directory = if other {
        DirectoryReply::Full
    } else {
        DirectoryReply::Claimed {
            place: 3,
            number: 7,
        }
    };
    Ok(match kind {
        0 => Event::Slots {
            ask: DirectoryAsk::Claim,
            reply: directory,
        },
        1 => Event::Slot {
            slot: Slot(3),
            ask: SlotAsk::Close { tag: TagNo(7) },
            reply: if other {
                SlotReply::NoSuch
            } else {
                SlotReply::Closed
            },
        },
        2 => Event::Fds {
            ask: DirectoryAsk::Claim,
            reply: directory,
        },
        3 => append(alloc, if other { b"d" } else { b"c" })?,
        4 => Event::Lives {
            ask: LivesAsk::Claim,
            reply: if other {
                LivesReply::Full
            } else {
                LivesReply::Claimed
            },
        },
        _ => leave(alloc, if other { 1 } else { 0 })?,
    })
}

/// Bytes are added to descriptor 0.
pub fn append(alloc: Global, bytes: &[u8; 1]) -> Result<Event, NoMemory> {
    Ok(Event::Fd {
        fd: FdNo(0),
        ask: StreamAsk::Append {
            bits: FdBits {
                read: false,
                append: true,
            },
            bytes: Boxed::new(alloc, Bytes::from_slice(alloc, bytes.as_slice())?)?,
        },
        reply: StreamReply::Appended,
    })
}

/// A run of the root's first recycled gate ends so.
fn leave(alloc: Global, code: u32) -> Result<Event, NoMemory> {
    let ask = GateAsk::Leave {
        end: End::Exited(code),
        memory: memory(alloc)?,
    };
    let gate = GateId {
        maker: ActorName::root(alloc)?,
        number: 1,
    };
    Ok(Event::Gate {
        gate: Boxed::new(alloc, gate)?,
        ask: Boxed::new(alloc, ask)?,
        reply: GateReply::Left,
    })
}

/// The histories of one cell of each kind.
#[derive(Drop)]
pub struct Histories {
    slots: Items<Entry<DirectoryAsk, DirectoryReply>>,
    slot: Items<Entry<SlotAsk, SlotReply>>,
    fds: Items<Entry<DirectoryAsk, DirectoryReply>>,
    fd: Items<Entry<StreamAsk, StreamReply>>,
    lives: Items<Entry<LivesAsk, LivesReply>>,
    gate: Items<Entry<GateAsk, GateReply>>,
}

impl Histories {
    /// Histories without entries.
    pub fn new(alloc: Global) -> Histories {
        Histories {
            slots: Items::new(Vec::new(alloc)),
            slot: Items::new(Vec::new(alloc)),
            fds: Items::new(Vec::new(alloc)),
            fd: Items::new(Vec::new(alloc)),
            lives: Items::new(Vec::new(alloc)),
            gate: Items::new(Vec::new(alloc)),
        }
    }

    /// Adds an event to the history of its kind.
    pub fn add(
        &mut self,
        alloc: Global,
        stamp: u64,
        actor: ActorName,
        event: Event,
    ) -> Result<(), NoMemory> {
        let stamp = Stamp(stamp);
        match event {
            Event::Slots { ask, reply } => self.slots.push(Entry {
                stamp,
                actor,
                ask,
                reply,
            }),
            Event::Slot { ask, reply, .. } => self.slot.push(Entry {
                stamp,
                actor,
                ask,
                reply,
            }),
            Event::Fds { ask, reply } => self.fds.push(Entry {
                stamp,
                actor,
                ask,
                reply,
            }),
            Event::Fd { ask, reply, .. } => self.fd.push(Entry {
                stamp,
                actor,
                ask,
                reply,
            }),
            Event::Lives { ask, reply } => self.lives.push(Entry {
                stamp,
                actor,
                ask,
                reply,
            }),
            Event::Gate { ask, reply, .. } => {
                let ask = ask.copy(alloc)?;
                self.gate.push(Entry {
                    stamp,
                    actor,
                    ask,
                    reply,
                })
            }
            _ => Ok(()),
        }
    }

    /// The histories, in none of the orders in which they are compared.
    pub fn into_cells(self, alloc: Global) -> Result<Items<CellHistory>, NoMemory> {
        let mut cells = Vec::new(alloc);
        cells.push(CellHistory::Gate {
            gate: GateId {
                maker: ActorName::root(alloc)?,
                number: 1,
            },
            entries: self.gate,
        })?;
        cells.push(CellHistory::Fd {
            fd: FdNo(0),
            entries: self.fd,
        })?;
        cells.push(CellHistory::Slots {
            entries: self.slots,
        })?;
        cells.push(CellHistory::Lives {
            entries: self.lives,
        })?;
        cells.push(CellHistory::Slot {
            slot: Slot(3),
            entries: self.slot,
        })?;
        cells.push(CellHistory::Fds { entries: self.fds })?;
        Ok(Items::new(cells))
    }
}
