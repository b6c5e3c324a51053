//! The journal, made of the entries themselves that the logs keep.

ghost use Rattle.std.specs.Prelude.{◌≡◌, ◌+◌, ◌≤◌, ◌++◌, [], length, map, slice_index_or, slice_set};
ghost use Rattle.std.specs.Prelude.{Some, None, IfOk, vec_len, vec_capacity};
ghost use Rattle.thread_laws.specs.KeptEntries.{all_kept};
ghost use Rattle.thread_laws.specs.Sorting.{in_order};
ghost use Rattle.run_audit.specs.IndexedEntries.{indices_of, indexed_journal, taken_by};
ghost use Rattle.run_audit.specs.Rooms.{IsRoomFor};

use crate::merging::{ByStamp, entries_in_order};
use std::alloc::Global;
use thread_laws::ActorLog;
use wedge_base::{Items, NoMemory};
use wedge_events::{Journal, LogEntry};

/// The order of a journal, as indices of its entries among those that all logs keep, log by log, and
/// the memory that it takes to move them.
#[derive(Debug, Drop)]
struct Room {
    order: Vec<usize>,
    slots: Vec<Option<LogEntry>>,
    entries: Vec<LogEntry>,
}

/// Returns the indices of entries.
fn indices(alloc: Global, sorted: &[ByStamp<'_>]) -> Result<Vec<usize>, NoMemory>
    ensures { IfOk result (λ v. v.items ≡ indices_of sorted.now) }
{
    let mut all = Vec::with_capacity(alloc, sorted.len())?;
    for item in sorted {
        all.push(item.index)?;
    }
    Ok(all)
}

/// Returns the memory for a journal, and its order.
fn room_for(alloc: Global, sorted: &[ByStamp<'_>]) -> Result<Room, NoMemory>
    ensures { IfOk result (λ r. IsRoomFor sorted.now r) }
{
    Ok(Room {
        order: indices(alloc, sorted)?,
        slots: Vec::with_capacity(alloc, sorted.len())?,
        entries: Vec::with_capacity(alloc, sorted.len())?,
    })
}

/// Puts each of these entries, in their order, into a slot after others. The capacity is there.
fn add_slots(mut entries: Vec<LogEntry>, slots: &mut Vec<Option<LogEntry>>)
    requires { vec_len slots.old + length entries.items ≤ vec_capacity slots.old }
    ensures items { slots.new.items ≡ slots.old.items ++ map Some entries.items }
    ensures len { vec_len slots.new ≡ vec_len slots.old + length entries.items }
    ensures capacity { vec_capacity slots.new ≡ vec_capacity slots.old }
{
    entries.reverse();
    while let Some(entry) = entries.pop() {
        slots.push_reserved(Some(entry));
    }
}

/// Puts each entry that these logs keep, log by log, into a slot after others. The capacity is there.
fn slots_of(mut logs: Vec<ActorLog>, mut slots: Vec<Option<LogEntry>>) -> Vec<Option<LogEntry>>
    requires { vec_len slots + length (all_kept logs.items) ≤ vec_capacity slots }
    ensures { result.items ≡ slots.items ++ map Some (all_kept logs.items) }
{
    logs.reverse();
    while let Some(log) = logs.pop() {
        add_slots(log.into_kept().into_vec(), &mut slots);
    }
    slots
}

/// Takes what is in a slot, if there is one of this index.
fn take_entry(slots: &mut Vec<Option<LogEntry>>, index: usize) -> Option<LogEntry>
    ensures taken { result ≡ slice_index_or slots.old.items index None }
    ensures left { slots.new.items ≡ slice_set slots.old.items index None }
{
    if index >= slots.len() {
        return None;
    }
    slots[index].take()
}

/// Takes what is in the slots of these indices, in their order, each once, and puts it after other
/// entries. The capacity is there.
fn take_all(
    order: &[usize],
    mut slots: Vec<Option<LogEntry>>,
    mut entries: Vec<LogEntry>,
) -> Vec<LogEntry>
    requires { vec_len entries + length order.now ≤ vec_capacity entries }
    ensures { result.items ≡ entries.items ++ taken_by order.now slots.items }
{
    for index in order {
        if let Some(entry) = take_entry(&mut slots, *index) {
            entries.push_reserved(entry);
        }
    }
    entries
}

/// Returns what it takes to move the entries that logs keep into the order of the journal.
fn room_of(alloc: Global, logs: &[ActorLog]) -> Result<Room, NoMemory>
    ensures { IfOk result (λ r. IsRoomFor (indexed_journal logs.now) r) }
{
    let sorted = entries_in_order(alloc, logs)?;
    room_for(alloc, sorted.as_slice())
}

/// Makes a journal of the entries that logs keep. It moves each entry twice, and copies none.
fn entries_moved(logs: Items<ActorLog>, room: Room) -> Journal
    requires { IsRoomFor (indexed_journal logs) room }
    ensures { result.entries ≡ in_order (all_kept logs) }
{
    let Room {
        order,
        slots,
        entries,
    } = room;
    let slots = slots_of(logs.into_vec(), slots);
    Journal {
        entries: Items::new(take_all(order.as_slice(), slots, entries)),
    }
}

/// Puts the entries that logs keep in the order of the journal. Where it fails, out of memory, they are lost.
pub(crate) fn journal_moved(alloc: Global, logs: Items<ActorLog>) -> Result<Journal, NoMemory>
    ensures { IfOk result (λ j. j.entries ≡ in_order (all_kept logs)) }
{
    let room = room_of(alloc, logs.as_slice())?;
    Ok(entries_moved(logs, room))
}
