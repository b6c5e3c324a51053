//! Tests of wedge_events.

use cow_pages::{Pages, PrivateView};
use std::alloc::Global;
use std::test::Fail;
use wedge_base::{ActorName, End, GateId, NoMemory, PRIVATE_BASE, Slot, Stamp, TagNo};
use wedge_events::{Boxed, Event, GateAsk, GateReply, LogEntry, SavedView, SlotAsk, SlotReply};

/// Private memory that begins with 7, and has a copy at slot 3.
fn memory(alloc: Global) -> Result<PrivateView, NoMemory> {
    let mut view = PrivateView::new(alloc, &[])?;
    view.store(PRIVATE_BASE, 4, 7)?;
    view.put_copy(Slot(3), Pages::new(alloc, &[5], 1)?)?;
    Ok(view)
}

/// Whether saved memory begins with 7, and has a copy at slot 3.
fn is_as_saved(saved: &SavedView) -> bool {
    saved.view().load(PRIVATE_BASE, 4) == Some(7) && saved.view().copy_at(Slot(3)).is_some()
}

/// Whether what was saved of memory stays, and a copy of it too, when 8 is written into the memory and its
/// copy at slot 3 is dropped.
fn stays(alloc: Global, view: &mut PrivateView) -> Result<[bool; 2], NoMemory> {
    let saved = SavedView::of(alloc, view)?;
    view.store(PRIVATE_BASE, 4, 8)?;
    view.drop_copy(Slot(3));
    let copy = saved.copy(saved.allocator())?;
    Ok([is_as_saved(&saved), is_as_saved(&copy)])
}

/// What was saved stays as it was, whatever is written afterwards, and so does a copy of it.
#[test]
fn saved_memory_stays(rt: HostRuntime) -> Result<(), Fail> {
    let mut view = memory(rt.alloc())?;
    let [saved, copy] = stays(rt.alloc(), &mut view)?;
    assert!(rt; saved, "what was saved");
    assert!(rt; copy, "a copy of it");
    Ok(())
}

/// The ask to leave a gate with memory that begins with a word.
fn leave_ask(alloc: Global, word: u32) -> Result<GateAsk, NoMemory> {
    let mut view = PrivateView::new(alloc, &[])?;
    view.store(PRIVATE_BASE, 4, word)?;
    let end = End::Exited(0);
    let memory = SavedView::of(alloc, &view)?;
    Ok(GateAsk::Leave { end, memory })
}

/// The gate 1 of the root.
fn gate(alloc: Global) -> Result<GateId, NoMemory> {
    let maker = ActorName::root(alloc)?;
    Ok(GateId { maker, number: 1 })
}

/// The event of a gate that is left with this word in a run's memory.
fn left_event(alloc: Global, word: u32) -> Result<Event, NoMemory> {
    let ask = Boxed::new(alloc, leave_ask(alloc, word)?)?;
    let gate = Boxed::new(alloc, gate(alloc)?)?;
    let reply = GateReply::Left;
    Ok(Event::Gate { gate, ask, reply })
}

/// An entry of a gate, which a run of the root leaves with this word in its memory.
fn left_with(alloc: Global, stamp: u64, word: u32) -> Result<LogEntry, NoMemory> {
    let event = left_event(alloc, word)?;
    Ok(LogEntry {
        stamp: Stamp(stamp),
        actor: ActorName::root(alloc)?,
        event,
    })
}

/// The event in which a tag's pages are copied, the last byte of which is this one.
fn snap_event(alloc: Global, last: u8) -> Result<Event, NoMemory> {
    let mut pages = Pages::new(alloc, &[1], 2)?;
    if pages.len() == 8192 {
        pages.store(8191, 1, u32::from(last))?;
    }
    let pages = Boxed::new(alloc, pages.list(alloc)?)?;
    Ok(Event::Slot {
        slot: Slot(2),
        ask: SlotAsk::Snap { tag: TagNo(1) },
        reply: SlotReply::Snapped { pages },
    })
}

/// An entry in which a tag's pages are copied, the last byte of which is this one.
fn snapped(alloc: Global, last: u8) -> Result<LogEntry, NoMemory> {
    let event = snap_event(alloc, last)?;
    Ok(LogEntry {
        stamp: Stamp(1),
        actor: ActorName::root(alloc)?,
        event,
    })
}

/// Whether an entry is the same as one of a gate that is left.
fn is_left_with(alloc: Global, entry: &LogEntry, stamp: u64, word: u32) -> Result<bool, NoMemory> {
    let other = left_with(alloc, stamp, word)?;
    Ok(entry.is_same(&other))
}

/// Whether an entry is the same as one in which a tag's pages are copied, and whether it is equal.
fn is_snapped(alloc: Global, entry: &LogEntry, last: u8) -> Result<[bool; 2], NoMemory> {
    let other = snapped(alloc, last)?;
    Ok([entry.is_same(&other), *entry == other])
}

/// Entries are the same where all that they hold is, memory included.
#[test]
fn entries_compared(rt: HostRuntime) -> Result<(), Fail> {
    let alloc = rt.alloc();
    let entry = left_with(alloc, 1, 7)?;
    assert!(rt; is_left_with(alloc, &entry, 1, 7)?);
    assert!(rt; !is_left_with(alloc, &entry, 2, 7)?, "another stamp");
    assert!(rt; !is_left_with(alloc, &entry, 1, 8)?, "another memory");
    let [same, _] = is_snapped(alloc, &entry, 0)?;
    assert!(rt; !same, "another event");
    Ok(())
}

/// Entries of a slot are the same where the pages are.
#[test]
fn entries_of_slots_compared(rt: HostRuntime) -> Result<(), Fail> {
    let entry = snapped(rt.alloc(), 0)?;
    let [same, equal] = is_snapped(rt.alloc(), &entry, 0)?;
    assert!(rt; same && equal);
    let [same, _] = is_snapped(rt.alloc(), &entry, 9)?;
    assert!(rt; !same, "another last byte");
    Ok(())
}

/// Whether the event of an entry is the same as a copy of it.
fn is_copied(alloc: Global, entry: &LogEntry) -> Result<bool, NoMemory> {
    let copy = entry.event.copy(alloc)?;
    Ok(entry.event.is_same(&copy))
}

/// Whether the cell of an entry is the same as a copy of it, and is not that of another entry, where
/// both are of a cell.
fn are_cells_told_apart(entry: &LogEntry, other: &LogEntry) -> Result<bool, NoMemory> {
    let (Some(cell), Some(another)) = (entry.event.cell()?, other.event.cell()?) else {
        return Ok(false);
    };
    let copy = cell.copy()?;
    Ok(cell.is_same(&copy) && !cell.is_same(&another))
}

/// Whether the cell of an entry is not that of an entry in which a tag's pages are copied.
fn is_cell_told_apart(alloc: Global, entry: &LogEntry) -> Result<bool, NoMemory> {
    let other = snapped(alloc, 0)?;
    are_cells_told_apart(entry, &other)
}

/// An event is the same as a copy of it; the cells of a gate and of a slot differ.
#[test]
fn events_and_cells_compared(rt: HostRuntime) -> Result<(), Fail> {
    let entry = left_with(rt.alloc(), 1, 7)?;
    assert!(rt; is_copied(rt.alloc(), &entry)?);
    assert!(rt; is_cell_told_apart(rt.alloc(), &entry)?);
    Ok(())
}
