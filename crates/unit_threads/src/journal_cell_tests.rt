//! Tests of journal_cell: a cell over each of the six objects.

ghost use Rattle.std.specs.Prelude.{◌≡◌, IfOk};
ghost use Rattle.wedge_events.specs.Slots as slots;

use cow_pages::PrivateView;
use fd_table::Stream;
use journal_cell::{Entry, Journaled, Pass, RunOf};
use machine::Lives;
use recycled_gate::Kept;
use std::alloc::Global;
use std::process::Abort;
use std::test::Fail;
use tag_directory::{FdDirectory, SlotDirectory};
use tag_segment::SlotState;
use wedge_base::{
    ActorName, Bytes, End, FdBits, FdNo, GateId, NoMemory, PRIVATE_BASE, Slot, Stamp, StreamKind,
    TagNo,
};
use wedge_events::{
    Boxed, CellName, DirectoryAsk, DirectoryReply, GateAsk, GateReply, LivesAsk, LivesReply,
    Object, SavedView, SlotAsk, SlotReply, StreamAsk, StreamReply,
};

/// A run of an image that declares nothing.
pub(crate) struct Bare;

impl RunOf for Bare {
    ghost use Rattle.std.specs.Prelude.{[]};
    ghost use Rattle.wedge_base.specs.Images.{Image};

    ghost image = { record {
      fuel = 0;
      base = 0;
      words = [];
      procedures = [];
      entry = 0;
      ranges = [];
      tags = [];
      fds = [];
      files = [];
      user = 0;
      root = [];
    } };

    ghost unkept = { 0 };
}

/// The count of live sthreads, with its history.
type LivesCell = Journaled<Lives, Bare>;

/// The directory of slots, with its history.
type SlotsCell = Journaled<SlotDirectory, Bare>;

/// The directory of descriptors, with its history.
type FdsCell = Journaled<FdDirectory, Bare>;

/// A slot, with its history.
type SlotCell = Journaled<SlotState, Bare>;

/// The stream of a descriptor, with its history.
type StreamCell = Journaled<Stream, Bare>;

/// A recycled gate, with its history.
type GateCell = Journaled<Kept, Bare>;

/// An entry of the count of live sthreads.
type LivesEntry = Entry<LivesAsk, LivesReply>;

/// An entry of either directory.
type DirectoryEntry = Entry<DirectoryAsk, DirectoryReply>;

/// An entry of a slot.
pub(crate) type SlotEntry = Entry<SlotAsk, SlotReply>;

/// An entry of a stream.
type StreamEntry = Entry<StreamAsk, StreamReply>;

/// An entry of a recycled gate.
type GateEntry = Entry<GateAsk, GateReply>;

/// Returns the entry of an actor with this stamp, ask and reply.
pub(crate) fn entry_of<Q: Drop, R: Drop>(
    actor: &ActorName,
    stamp: u64,
    ask: Q,
    reply: R,
) -> Result<Entry<Q, R>, NoMemory>
    ensures { IfOk result (λ e. e.ask ≡ ask) }
{
    let actor = actor.copy()?;
    let stamp = Stamp(stamp);
    Ok(Entry {
        stamp,
        actor,
        ask,
        reply,
    })
}

/// Returns whether two entries are equal.
pub(crate) fn is_same<Q: PartialEq, R: PartialEq>(a: &Entry<Q, R>, b: &Entry<Q, R>) -> bool {
    a.stamp == b.stamp && a.actor == b.actor && a.ask == b.ask && a.reply == b.reply
}

/// Returns whether a history has these entries, and no other.
pub(crate) fn has_entries<Q: PartialEq, R: PartialEq>(
    history: &[Entry<Q, R>],
    wanted: &[Entry<Q, R>],
) -> bool {
    history.len() == wanted.len() && history.iter().zip(wanted).all(|(a, b)| is_same(a, b))
}

/// Returns the count of live sthreads as a run begins.
fn new_lives(alloc: Global) -> LivesCell {
    Journaled::new(alloc, CellName::Lives, Lives::new())
}

/// Enters the count of live sthreads by a pass with this clock. The entry has to be the wanted one, and
/// its stamp the clock of the pass then.
fn enters_lives(
    rt: &impl Abort,
    cell: &mut LivesCell,
    clock: u64,
    wanted: &LivesEntry,
) -> Result<(), NoMemory> {
    let mut pass = Pass {
        name: &wanted.actor,
        clock: Stamp(clock),
    };
    let entry = cell.enter(&mut pass, wanted.ask)?;
    assert!(rt; is_same(&entry, wanted));
    assert!(rt; pass.clock == wanted.stamp && *pass.name == wanted.actor);
    Ok(())
}

/// Fails to enter the count of live sthreads by a pass with this clock. The pass has to stay as it was.
fn fails_to_enter(rt: &impl Abort, cell: &mut LivesCell, clock: u64, actor: &ActorName) {
    let mut pass = Pass {
        name: actor,
        clock: Stamp(clock),
    };
    assert!(rt; cell.enter(&mut pass, LivesAsk::Claim).is_err());
    assert!(rt; pass.clock == Stamp(clock) && *pass.name == *actor);
}

/// Returns the entries of two actors: the root creates an sthread, which ends.
fn lives_entries(alloc: Global) -> Result<[LivesEntry; 2], Fail> {
    let root = ActorName::root(alloc)?;
    let child = root.child(alloc, 1)?;
    let claim = entry_of(&root, 7, LivesAsk::Claim, LivesReply::Claimed)?;
    let end = End::Denied;
    let release = entry_of(&child, 8, LivesAsk::Release { end }, LivesReply::Released)?;
    Ok([claim, release])
}

/// A stamp is one above the clock of the pass where that is the greater one, as at first, and one above
/// the clock of the cell where that is, as then.
#[test]
fn lives_are_counted(rt: HostRuntime) -> Result<(), Fail> {
    let alloc = rt.alloc();
    let wanted = lives_entries(alloc)?;
    let mut cell = new_lives(alloc);
    enters_lives(&rt, &mut cell, 6, &wanted[0])?;
    enters_lives(&rt, &mut cell, 2, &wanted[1])?;
    let parts = cell.into_parts();
    assert!(rt; parts.name == CellName::Lives);
    assert!(rt; has_entries(&parts.history, &wanted));
    Ok(())
}

/// Returns an entry in which the root claims.
fn claim_of_root(alloc: Global, stamp: u64) -> Result<LivesEntry, NoMemory> {
    let root = ActorName::root(alloc)?;
    entry_of(&root, stamp, LivesAsk::Claim, LivesReply::Claimed)
}

/// A pass with the highest clock enters nothing: the pass, the clock of the cell and the history stay
/// as they were.
#[test]
fn highest_clock_enters_nothing(rt: HostRuntime) -> Result<(), Fail> {
    let alloc = rt.alloc();
    let first = claim_of_root(alloc, 1)?;
    let second = claim_of_root(alloc, 2)?;
    let mut cell = new_lives(alloc);
    enters_lives(&rt, &mut cell, 0, &first)?;
    fails_to_enter(&rt, &mut cell, u64::MAX, &first.actor);
    enters_lives(&rt, &mut cell, 0, &second)?;
    assert!(rt; has_entries(&cell.into_parts().history, &[first, second]));
    Ok(())
}

/// The highest stamp is given, and there is none above it.
#[test]
fn highest_stamp_is_the_last(rt: HostRuntime) -> Result<(), Fail> {
    let alloc = rt.alloc();
    let last = claim_of_root(alloc, u64::MAX)?;
    let mut cell = new_lives(alloc);
    enters_lives(&rt, &mut cell, u64::MAX - 1, &last)?;
    fails_to_enter(&rt, &mut cell, u64::MAX, &last.actor);
    fails_to_enter(&rt, &mut cell, 0, &last.actor);
    assert!(rt; has_entries(&cell.into_parts().history, &[last]));
    Ok(())
}

/// Returns the directory of slots as a run begins.
fn new_slots(alloc: Global) -> Result<SlotsCell, NoMemory> {
    let slots = SlotDirectory::new(alloc, 0)?;
    Ok(Journaled::new(alloc, CellName::Slots, slots))
}

/// Enters the directory of slots, and compares what `enters_lives` does.
fn enters_slots(
    rt: &impl Abort,
    cell: &mut SlotsCell,
    clock: u64,
    wanted: &DirectoryEntry,
) -> Result<(), NoMemory> {
    let mut pass = Pass {
        name: &wanted.actor,
        clock: Stamp(clock),
    };
    let entry = cell.enter(&mut pass, wanted.ask)?;
    assert!(rt; is_same(&entry, wanted));
    assert!(rt; pass.clock == wanted.stamp && *pass.name == wanted.actor);
    Ok(())
}

/// Returns the entries in which the root claims the first slot, and releases it.
fn slots_entries(alloc: Global) -> Result<[DirectoryEntry; 2], NoMemory> {
    let root = ActorName::root(alloc)?;
    let assigned = DirectoryReply::Claimed {
        place: 0,
        number: 0,
    };
    let claim = entry_of(&root, 1, DirectoryAsk::Claim, assigned)?;
    let release = DirectoryAsk::Release { place: 0 };
    let release = entry_of(&root, 2, release, DirectoryReply::Released)?;
    Ok([claim, release])
}

/// The directory of slots assigns the first one, and takes it back.
#[test]
fn slot_is_claimed_and_released(rt: HostRuntime) -> Result<(), Fail> {
    let alloc = rt.alloc();
    let wanted = slots_entries(alloc)?;
    let mut cell = new_slots(alloc)?;
    enters_slots(&rt, &mut cell, 0, &wanted[0])?;
    enters_slots(&rt, &mut cell, 1, &wanted[1])?;
    let parts = cell.into_parts();
    assert!(rt; parts.name == CellName::Slots);
    assert!(rt; has_entries(&parts.history, &wanted));
    Ok(())
}

/// Returns the directory of descriptors as a run begins.
fn new_fds(alloc: Global) -> Result<FdsCell, NoMemory> {
    let fds = FdDirectory::new(alloc, 0)?;
    Ok(Journaled::new(alloc, CellName::Fds, fds))
}

/// Enters the directory of descriptors, and compares what `enters_lives` does.
fn enters_fds(
    rt: &impl Abort,
    cell: &mut FdsCell,
    clock: u64,
    wanted: &DirectoryEntry,
) -> Result<(), NoMemory> {
    let mut pass = Pass {
        name: &wanted.actor,
        clock: Stamp(clock),
    };
    let entry = cell.enter(&mut pass, wanted.ask)?;
    assert!(rt; is_same(&entry, wanted));
    assert!(rt; pass.clock == wanted.stamp && *pass.name == wanted.actor);
    Ok(())
}

/// Returns the entries in which the root claims the first two descriptors.
fn fds_entries(alloc: Global) -> Result<[DirectoryEntry; 2], NoMemory> {
    let root = ActorName::root(alloc)?;
    let assigned = DirectoryReply::Claimed {
        place: 0,
        number: 0,
    };
    let first = entry_of(&root, 4, DirectoryAsk::Claim, assigned)?;
    let assigned = DirectoryReply::Claimed {
        place: 1,
        number: 1,
    };
    let second = entry_of(&root, 10, DirectoryAsk::Claim, assigned)?;
    Ok([first, second])
}

/// The directory of descriptors assigns the first two.
#[test]
fn descriptors_are_claimed(rt: HostRuntime) -> Result<(), Fail> {
    let alloc = rt.alloc();
    let wanted = fds_entries(alloc)?;
    let mut cell = new_fds(alloc)?;
    enters_fds(&rt, &mut cell, 3, &wanted[0])?;
    enters_fds(&rt, &mut cell, 9, &wanted[1])?;
    let parts = cell.into_parts();
    assert!(rt; parts.name == CellName::Fds);
    assert!(rt; has_entries(&parts.history, &wanted));
    Ok(())
}

/// Returns slot 3 as a run begins.
fn new_slot(alloc: Global) -> SlotCell {
    let name = CellName::Slot { slot: Slot(3) };
    Journaled::new(alloc, name, SlotState::empty(alloc))
}

/// Enters a slot, and compares what `enters_lives` does.
fn enters_slot(
    rt: &impl Abort,
    cell: &mut SlotCell,
    clock: u64,
    wanted: &SlotEntry,
) -> Result<(), NoMemory>
    requires { slots.SlotFits cell.old.state wanted.now.ask }
{
    let mut pass = Pass {
        name: &wanted.actor,
        clock: Stamp(clock),
    };
    let entry = cell.enter(&mut pass, wanted.ask)?;
    assert!(rt; is_same(&entry, wanted));
    assert!(rt; pass.clock == wanted.stamp && *pass.name == wanted.actor);
    Ok(())
}

/// The tag that is opened in a slot.
const TAG: TagNo = TagNo(7);

/// Opens the tag in a slot by the root, and returns the entry.
fn opens_tag(rt: &impl Abort, alloc: Global, cell: &mut SlotCell) -> Result<SlotEntry, NoMemory> {
    let root = ActorName::root(alloc)?;
    let open_ = SlotAsk::Open { tag: TAG, pages: 1 };
    let wanted = entry_of(&root, 1, open_, SlotReply::Opened)?;
    enters_slot(rt, cell, 0, &wanted)?;
    Ok(wanted)
}

/// Places a block in the tag by the root, and returns the entry.
fn places_block(
    rt: &impl Abort,
    alloc: Global,
    cell: &mut SlotCell,
) -> Result<SlotEntry, NoMemory> {
    let root = ActorName::root(alloc)?;
    let smalloc = SlotAsk::Smalloc { tag: TAG, size: 16 };
    let wanted = entry_of(&root, 2, smalloc, SlotReply::Placed { offset: 0 })?;
    enters_slot(rt, cell, 1, &wanted)?;
    Ok(wanted)
}

/// Compares the name and the history of slot 3.
fn compares_slot(rt: &impl Abort, cell: SlotCell, wanted: &[SlotEntry]) {
    let parts = cell.into_parts();
    assert!(rt; parts.name == CellName::Slot { slot: Slot(3) });
    assert!(rt; has_entries(&parts.history, wanted));
}

/// A tag is opened in a slot, and a block is placed there.
#[test]
fn slot_holds_a_tag(rt: HostRuntime) -> Result<(), Fail> {
    let alloc = rt.alloc();
    let mut cell = new_slot(alloc);
    let first = opens_tag(&rt, alloc, &mut cell)?;
    let second = places_block(&rt, alloc, &mut cell)?;
    assert!(rt; cell.state().live() == Some(TAG));
    compares_slot(&rt, cell, &[first, second]);
    Ok(())
}

/// Returns the stream of descriptor 9 as a run begins.
fn new_stream(alloc: Global) -> StreamCell {
    let name = CellName::Fd { fd: FdNo(9) };
    Journaled::new(alloc, name, Stream::unopened())
}

/// Enters a stream, and compares what `enters_lives` does.
fn enters_stream(
    rt: &impl Abort,
    cell: &mut StreamCell,
    clock: u64,
    wanted: &StreamEntry,
) -> Result<(), NoMemory> {
    let ask = Stream::copy_ask(&wanted.ask)?;
    let mut pass = Pass {
        name: &wanted.actor,
        clock: Stamp(clock),
    };
    let entry = cell.enter(&mut pass, ask)?;
    assert!(rt; is_same(&entry, wanted));
    assert!(rt; pass.clock == wanted.stamp && *pass.name == wanted.actor);
    Ok(())
}

/// Returns bytes as asks and replies have them.
fn boxed_bytes(alloc: Global, bytes: &[u8]) -> Result<Boxed<Bytes>, NoMemory> {
    Ok(Boxed::new(alloc, Bytes::from_slice(alloc, bytes)?)?)
}

/// Returns the entries in which the root opens a source of three bytes, and reads two of them.
fn stream_entries(alloc: Global) -> Result<[StreamEntry; 2], NoMemory> {
    let root = ActorName::root(alloc)?;
    let kind = StreamKind::Source;
    let bytes = boxed_bytes(alloc, b"abc")?;
    let open_ = StreamAsk::Open { kind, bytes };
    let first = entry_of(&root, 1, open_, StreamReply::Opened)?;
    let bits = FdBits {
        read: true,
        append: false,
    };
    let read = StreamAsk::Read { bits, count: 2 };
    let bytes = boxed_bytes(alloc, b"ab")?;
    let second = entry_of(&root, 2, read, StreamReply::Given { bytes })?;
    Ok([first, second])
}

/// A stream is opened, and read.
#[test]
fn stream_is_read(rt: HostRuntime) -> Result<(), Fail> {
    let alloc = rt.alloc();
    let wanted = stream_entries(alloc)?;
    let mut cell = new_stream(alloc);
    enters_stream(&rt, &mut cell, 0, &wanted[0])?;
    enters_stream(&rt, &mut cell, 1, &wanted[1])?;
    let parts = cell.into_parts();
    assert!(rt; parts.name == CellName::Fd { fd: FdNo(9) });
    assert!(rt; has_entries(&parts.history, &wanted));
    Ok(())
}

/// Returns private memory that begins with a number.
fn memory_of(alloc: Global, number: u32) -> Result<SavedView, NoMemory> {
    let mut view = PrivateView::new(alloc, &[])?;
    view.store(PRIVATE_BASE, 4, number)?;
    SavedView::of(alloc, &view)
}

/// Returns the name of the first gate that the root makes.
fn gate_name(alloc: Global) -> Result<CellName, NoMemory> {
    let maker = ActorName::root(alloc)?;
    let gate = GateId { maker, number: 1 };
    Ok(CellName::Gate { gate })
}

/// Returns that gate as it is made.
fn new_gate(alloc: Global) -> Result<GateCell, NoMemory> {
    let name = gate_name(alloc)?;
    Ok(Journaled::new(alloc, name, Kept::new(alloc)))
}

/// Enters a recycled gate, and compares what `enters_lives` does. The ask has to fit: a run enters where
/// none is in the gate, and leaves where one is.
fn enters_gate(
    rt: &impl Abort,
    cell: &mut GateCell,
    clock: u64,
    wanted: &GateEntry,
) -> Result<(), NoMemory> {
    let ask = Kept::copy_ask(&wanted.ask)?;
    let fits = match &ask {
        GateAsk::Enter { .. } => !cell.state().entered(),
        GateAsk::Leave { .. } => cell.state().entered(),
    };
    assert!(rt; fits);
    if fits {
        let mut pass = Pass {
            name: &wanted.actor,
            clock: Stamp(clock),
        };
        let entry = cell.enter(&mut pass, ask)?;
        assert!(rt; is_same(&entry, wanted));
        assert!(rt; pass.clock == wanted.stamp && *pass.name == wanted.actor);
    }
    Ok(())
}

/// Returns the entry in which the root enters a gate that keeps nothing, for a run of this name.
fn enter_entry(alloc: Global, root: &ActorName, run: &ActorName) -> Result<GateEntry, NoMemory> {
    let run = run.copy()?;
    let memory = memory_of(alloc, 5)?;
    let ask = GateAsk::Enter { run, memory };
    let memory = memory_of(alloc, 5)?;
    entry_of(root, 1, ask, GateReply::Entered { memory })
}

/// Returns that entry, and the one in which the run leaves the gate.
fn gate_entries(alloc: Global) -> Result<[GateEntry; 2], Fail> {
    let root = ActorName::root(alloc)?;
    let run = root.child(alloc, 1)?;
    let first = enter_entry(alloc, &root, &run)?;
    let end = End::Denied;
    let memory = memory_of(alloc, 6)?;
    let leave = GateAsk::Leave { end, memory };
    let second = entry_of(&run, 2, leave, GateReply::Left)?;
    Ok([first, second])
}

/// A run enters a recycled gate, with the memory of its ask, and leaves it.
#[test]
fn gate_is_entered_and_left(rt: HostRuntime) -> Result<(), Fail> {
    let alloc = rt.alloc();
    let wanted = gate_entries(alloc)?;
    let mut cell = new_gate(alloc)?;
    enters_gate(&rt, &mut cell, 0, &wanted[0])?;
    enters_gate(&rt, &mut cell, 1, &wanted[1])?;
    assert!(rt; !cell.state().entered());
    let parts = cell.into_parts();
    assert!(rt; parts.name == gate_name(alloc)?);
    assert!(rt; has_entries(&parts.history, &wanted));
    Ok(())
}
