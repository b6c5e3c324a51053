//! Entries of cells as entries of logs: ask and reply make the event.

ghost use Rattle.std.specs.Prelude.{◌≡◌, IfOk};
ghost use Rattle.run_cells.specs.Entries.{slot_entry_of, stream_entry_of, lives_entry_of, slot_directory_entry_of, fd_directory_entry_of, gate_entry_of};

use journal_cell::Entry;
use std::alloc::Global;
use wedge_base::{FdNo, GateId, NoMemory, Slot};
use wedge_events::{
    Boxed, DirectoryAsk, DirectoryReply, Event, GateAsk, GateReply, LivesAsk, LivesReply, LogEntry,
    SlotAsk, SlotReply, StreamAsk, StreamReply,
};

/// Consumes an entry of a slot, and returns it as one of a log.
#[inline(always)]
pub(crate) fn slot_entry(slot: Slot, entry: Entry<SlotAsk, SlotReply>) -> LogEntry
    ensures { result ≡ slot_entry_of slot entry }
{
    let Entry {
        stamp,
        actor,
        ask,
        reply,
    } = entry;
    LogEntry {
        stamp,
        actor,
        event: Event::Slot { slot, ask, reply },
    }
}

/// Consumes an entry of a stream, and returns it as one of a log.
pub(crate) fn stream_entry(fd: FdNo, entry: Entry<StreamAsk, StreamReply>) -> LogEntry
    ensures { result ≡ stream_entry_of fd entry }
{
    let Entry {
        stamp,
        actor,
        ask,
        reply,
    } = entry;
    LogEntry {
        stamp,
        actor,
        event: Event::Fd { fd, ask, reply },
    }
}

/// Consumes an entry of the count of live sthreads, and returns it as one of a log.
pub(crate) fn lives_entry(entry: Entry<LivesAsk, LivesReply>) -> LogEntry
    ensures { result ≡ lives_entry_of entry }
{
    let Entry {
        stamp,
        actor,
        ask,
        reply,
    } = entry;
    LogEntry {
        stamp,
        actor,
        event: Event::Lives { ask, reply },
    }
}

/// Consumes an entry of the directory of slots, and returns it as one of a log.
pub(crate) fn slot_directory_entry(entry: Entry<DirectoryAsk, DirectoryReply>) -> LogEntry
    ensures { result ≡ slot_directory_entry_of entry }
{
    let Entry {
        stamp,
        actor,
        ask,
        reply,
    } = entry;
    LogEntry {
        stamp,
        actor,
        event: Event::Slots { ask, reply },
    }
}

/// Consumes an entry of the directory of descriptors, and returns it as one of a log.
pub(crate) fn fd_directory_entry(entry: Entry<DirectoryAsk, DirectoryReply>) -> LogEntry
    ensures { result ≡ fd_directory_entry_of entry }
{
    let Entry {
        stamp,
        actor,
        ask,
        reply,
    } = entry;
    LogEntry {
        stamp,
        actor,
        event: Event::Fds { ask, reply },
    }
}

/// Consumes an entry of a recycled gate, and returns it as one of a log.
pub(crate) fn gate_entry(
    alloc: Global,
    gate: GateId,
    entry: Entry<GateAsk, GateReply>,
) -> Result<LogEntry, NoMemory>
    ensures { IfOk result (λ e. e ≡ gate_entry_of gate entry) }
{
    let Entry {
        stamp,
        actor,
        ask,
        reply,
    } = entry;
    let gate = Boxed::new(alloc, gate)?;
    let ask = Boxed::new(alloc, ask)?;
    Ok(LogEntry {
        stamp,
        actor,
        event: Event::Gate { gate, ask, reply },
    })
}
