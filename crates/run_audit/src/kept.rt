//! The entries that cells kept.

ghost use Rattle.std.specs.Prelude.{◌≡◌, ◌++◌, map, IfOk};
ghost use Rattle.thread_laws.specs.Replaying.{logged_as, logged};
ghost use Rattle.wedge_events.specs.declared.events.Event.TheVariants as event;
ghost use Rattle.run_audit.specs.HistoryEntries.{kept_as};

use journal_cell::Entry;
use std::alloc::Global;
use thread_laws::CellHistory;
use wedge_base::{FdNo, GateId, NoMemory, Slot};
use wedge_events::{
    Boxed, DirectoryAsk, DirectoryReply, Event, GateAsk, GateReply, LivesAsk, LivesReply, LogEntry,
    SlotAsk, SlotReply, StreamAsk, StreamReply,
};

/// An entry that a cell kept, with its cell.
#[derive(Clone, Copy)]
pub(crate) enum KeptEntry<'a> {
    Slots {
        entry: &'a Entry<DirectoryAsk, DirectoryReply>,
    },
    Slot {
        slot: Slot,
        entry: &'a Entry<SlotAsk, SlotReply>,
    },
    Fds {
        entry: &'a Entry<DirectoryAsk, DirectoryReply>,
    },
    Fd {
        fd: FdNo,
        entry: &'a Entry<StreamAsk, StreamReply>,
    },
    Lives {
        entry: &'a Entry<LivesAsk, LivesReply>,
    },
    Gate {
        gate: &'a GateId,
        entry: &'a Entry<GateAsk, GateReply>,
    },
}

fn add_slots<'a>(
    mut all: Vec<KeptEntry<'a>>,
    entries: &'a [Entry<DirectoryAsk, DirectoryReply>],
) -> Result<Vec<KeptEntry<'a>>, NoMemory>
    ensures { IfOk result (λ v. map kept_as v.items
        ≡ map kept_as all.entry.items ++ logged_as event.Slots entries.now) }
{
    for entry in entries {
        all.reserve(1)?;
        all.push_reserved(KeptEntry::Slots { entry });
    }
    Ok(all)
}

fn add_slot<'a>(
    mut all: Vec<KeptEntry<'a>>,
    slot: Slot,
    entries: &'a [Entry<SlotAsk, SlotReply>],
) -> Result<Vec<KeptEntry<'a>>, NoMemory>
    ensures { IfOk result (λ v. map kept_as v.items
        ≡ map kept_as all.entry.items ++ logged_as (event.Slot slot) entries.now) }
{
    for entry in entries {
        all.reserve(1)?;
        all.push_reserved(KeptEntry::Slot { slot, entry });
    }
    Ok(all)
}

fn add_fds<'a>(
    mut all: Vec<KeptEntry<'a>>,
    entries: &'a [Entry<DirectoryAsk, DirectoryReply>],
) -> Result<Vec<KeptEntry<'a>>, NoMemory>
    ensures { IfOk result (λ v. map kept_as v.items
        ≡ map kept_as all.entry.items ++ logged_as event.Fds entries.now) }
{
    for entry in entries {
        all.reserve(1)?;
        all.push_reserved(KeptEntry::Fds { entry });
    }
    Ok(all)
}

fn add_fd<'a>(
    mut all: Vec<KeptEntry<'a>>,
    fd: FdNo,
    entries: &'a [Entry<StreamAsk, StreamReply>],
) -> Result<Vec<KeptEntry<'a>>, NoMemory>
    ensures { IfOk result (λ v. map kept_as v.items
        ≡ map kept_as all.entry.items ++ logged_as (event.Fd fd) entries.now) }
{
    for entry in entries {
        all.reserve(1)?;
        all.push_reserved(KeptEntry::Fd { fd, entry });
    }
    Ok(all)
}

fn add_lives<'a>(
    mut all: Vec<KeptEntry<'a>>,
    entries: &'a [Entry<LivesAsk, LivesReply>],
) -> Result<Vec<KeptEntry<'a>>, NoMemory>
    ensures { IfOk result (λ v. map kept_as v.items
        ≡ map kept_as all.entry.items ++ logged_as event.Lives entries.now) }
{
    for entry in entries {
        all.reserve(1)?;
        all.push_reserved(KeptEntry::Lives { entry });
    }
    Ok(all)
}

fn add_gate<'a>(
    mut all: Vec<KeptEntry<'a>>,
    gate: &'a GateId,
    entries: &'a [Entry<GateAsk, GateReply>],
) -> Result<Vec<KeptEntry<'a>>, NoMemory>
    ensures { IfOk result (λ v. map kept_as v.items
        ≡ map kept_as all.entry.items ++ logged_as (event.Gate gate.now) entries.now) }
{
    for entry in entries {
        all.reserve(1)?;
        all.push_reserved(KeptEntry::Gate { gate, entry });
    }
    Ok(all)
}

/// Adds the entries of a history after others.
pub(crate) fn add_history<'a>(
    all: Vec<KeptEntry<'a>>,
    history: &'a CellHistory,
) -> Result<Vec<KeptEntry<'a>>, NoMemory>
    ensures { IfOk result (λ v. map kept_as v.items
        ≡ map kept_as all.entry.items ++ logged history.now) }
{
    match history {
        CellHistory::Slots { entries } => add_slots(all, entries.as_slice()),
        CellHistory::Slot { slot, entries } => add_slot(all, *slot, entries.as_slice()),
        CellHistory::Fds { entries } => add_fds(all, entries.as_slice()),
        CellHistory::Fd { fd, entries } => add_fd(all, *fd, entries.as_slice()),
        CellHistory::Lives { entries } => add_lives(all, entries.as_slice()),
        CellHistory::Gate { gate, entries } => add_gate(all, gate, entries.as_slice()),
    }
}

/// Returns an equal entry of the journal.
pub(crate) fn logged_entry(alloc: Global, kept: &KeptEntry<'_>) -> Result<LogEntry, NoMemory>
    ensures { IfOk result (λ e. e ≡ kept_as kept.now) }
{
    Ok(match kept {
        KeptEntry::Slots { entry } => LogEntry {
            stamp: entry.stamp,
            actor: entry.actor.copy()?,
            event: Event::Slots {
                ask: entry.ask,
                reply: entry.reply,
            },
        },
        KeptEntry::Slot { slot, entry } => LogEntry {
            stamp: entry.stamp,
            actor: entry.actor.copy()?,
            event: Event::Slot {
                slot: *slot,
                ask: entry.ask,
                reply: entry.reply.copy()?,
            },
        },
        KeptEntry::Fds { entry } => LogEntry {
            stamp: entry.stamp,
            actor: entry.actor.copy()?,
            event: Event::Fds {
                ask: entry.ask,
                reply: entry.reply,
            },
        },
        KeptEntry::Fd { fd, entry } => LogEntry {
            stamp: entry.stamp,
            actor: entry.actor.copy()?,
            event: Event::Fd {
                fd: *fd,
                ask: entry.ask.copy()?,
                reply: entry.reply.copy()?,
            },
        },
        KeptEntry::Lives { entry } => LogEntry {
            stamp: entry.stamp,
            actor: entry.actor.copy()?,
            event: Event::Lives {
                ask: entry.ask,
                reply: entry.reply,
            },
        },
        KeptEntry::Gate { gate, entry } => LogEntry {
            stamp: entry.stamp,
            actor: entry.actor.copy()?,
            event: Event::Gate {
                gate: Boxed::new(alloc, gate.copy()?)?,
                ask: Boxed::new(alloc, entry.ask.copy(alloc)?)?,
                reply: entry.reply.copy(alloc)?,
            },
        },
    })
}
