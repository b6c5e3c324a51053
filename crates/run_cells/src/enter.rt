//! One event of an actor on its cell.

ghost use Rattle.std.specs.Prelude.{◌≡◌, ◌<◌, ◌++◌, ◌∷◌, ◌↔◌, [], IfOk, OnErr, Some, true};
ghost use Rattle.wedge_base.specs.Images.{slots as most_slots};
ghost use Rattle.wedge_events.specs.Directories.{directory_reply};
ghost use Rattle.wedge_events.specs.Slots.{SlotFits, slot_reply};
ghost use Rattle.wedge_events.specs.declared.events.Event.{Event as AnEvent};
ghost use Rattle.wedge_events.specs.declared.events.SlotWant.{SlotWant as ASlotWant};
ghost use Rattle.wedge_events.specs.declared.events.Want.{Want as AWant};
ghost use Rattle.machine.specs.Between.{IsInBounds, WantFits};
ghost use Rattle.machine.specs.Take.{current_want};
ghost use Rattle.tag_laws.specs.DeclaredTags.{entries_on_declared};
ghost use Rattle.run_cells.specs.Entries.{IsPlainEntry, IsOfCell, IsNoSlot, IsOnSlot, IsOnNoSlot};

use crate::entries::{
    fd_directory_entry, lives_entry, slot_directory_entry, slot_entry, stream_entry,
};
use crate::locked_cell::LockedCell;
use crate::opening::RunCells;
use crate::tag_cells::{TableOf, TagPass};
use actor_run::ActorRun;
use fd_table::Stream;
use journal_cell::{Pass, RunOf};
use machine::Lives;
use std::sync::{Mutex, Wait};
use tag_directory::{FdDirectory, SlotDirectory};
use tag_segment::SlotState;
use wedge_base::{FdNo, NoMemory, Slot};
use wedge_events::{DirectoryAsk, LivesAsk, LogEntry, SlotAsk, SlotWant, StreamAsk, Want};

impl<I: RunOf, T: TableOf> RunCells<I, T> {
    /// Asks the cell of what an actor at rest wants, and returns the entry that the cell keeps of it. The cell is
    /// locked while it is asked; the slot of a declared tag is entered by the actor's pass, which then has one entry
    /// more, and which `into_gathered` asks for at the end. Fails only where out of memory, or where no stamp is left;
    /// then nothing is entered.
    #[inline(always)]
    pub fn enter<R: Wait>(
        &self,
        rt: &R,
        run: &ActorRun<I>,
        pass: &mut TagPass<I, T>,
        want: Want,
    ) -> Result<LogEntry, NoMemory>
        requires wants { current_want run.now.progress.state ≡ Some want }
        requires fits { WantFits run.now.progress.state want }
        requires of_cell { IsOfCell want }
        ensures plain { IfOk result (IsPlainEntry I.image run.now.progress) }
        ensures entered { IfOk result (λ e.
            pass.new ≡ pass.old ++ entries_on_declared T.table.slots (e ∷ [])) }
        ensures err { OnErr result (pass.new ≡ pass.old) }
    {
        match want {
            Want::Slot { slot, want } => {
                let index = slot.0 as usize;
                let declared = self.tags.count();
                if index < declared {
                    return self.tags.enter(rt, pass, run, slot, want);
                }
                enter_locked_slot(rt, &self.slots[index - declared], run, slot, want)
            }
            _ => self.enter_other(rt, run, want),
        }
    }

    /// The same of a cell that is no slot: kept out of line, as slots are entered most often.
    #[inline(never)]
    fn enter_other<R: Wait>(
        &self,
        rt: &R,
        run: &ActorRun<I>,
        want: Want,
    ) -> Result<LogEntry, NoMemory>
        requires wants { current_want run.now.progress.state ≡ Some want }
        requires fits { WantFits run.now.progress.state want }
        requires of_cell { IsOfCell want }
        requires no_slot { IsNoSlot want }
        ensures plain { IfOk result (IsPlainEntry I.image run.now.progress) }
        ensures no_slot { IfOk result IsOnNoSlot }
    {
        match want {
            Want::Fd { fd, ask } => {
                let cell = &self.streams[fd.0 as usize];
                enter_stream(rt, cell, run, fd, ask)
            }
            Want::Lives(ask) => enter_lives(rt, &self.lives, run, ask),
            Want::Slots(ask) => enter_slot_directory(rt, &self.slot_directory, run, ask),
            Want::Fds(ask) => enter_fd_directory(rt, &self.fd_directory, run, ask),
            Want::Slot { .. }
            | Want::Gate { .. }
            | Want::Start { .. }
            | Want::Join { .. }
            | Want::Enter { .. }
            | Want::Leave { .. } => unreachable!(),
        }
    }
}

/// Whether a want is of one cell that is no recycled gate, so that no other actor has part in it.
#[inline(always)]
pub fn is_of_cell(want: &Want) -> bool
    ensures { (result ≡ true) ↔ IsOfCell want.now }
{
    match want {
        Want::Slot { .. } | Want::Fd { .. } | Want::Lives(_) | Want::Slots(_) | Want::Fds(_) =>
            true,
        Want::Gate { .. }
        | Want::Start { .. }
        | Want::Join { .. }
        | Want::Enter { .. }
        | Want::Leave { .. } => false,
    }
}

/// Returns the name and the clock of an actor, with which it comes to a cell.
#[inline(always)]
pub(crate) fn pass_of<I: RunOf>(run: &ActorRun<I>) -> Pass<'_>
    ensures name { result.name.now ≡ run.now.progress.state.name }
    ensures clock { result.clock ≡ run.now.progress.clock }
{
    Pass {
        name: run.name(),
        clock: run.clock(),
    }
}

/// An event on a slot of no declared tag. A load and a store, which are the most, have functions of their own, in which
/// the compiler knows what is asked.
#[inline(always)]
fn enter_locked_slot<I: RunOf, R: Wait>(
    rt: &R,
    cell: &Mutex<LockedCell<SlotState, I>>,
    run: &ActorRun<I>,
    slot: Slot,
    want: SlotWant,
) -> Result<LogEntry, NoMemory>
    requires wants { current_want run.now.progress.state ≡ Some (AWant.Slot slot want) }
    requires fits { WantFits run.now.progress.state (AWant.Slot slot want) }
    ensures plain { IfOk result (IsPlainEntry I.image run.now.progress) }
    ensures slot { IfOk result (IsOnSlot slot) }
{
    match want {
        SlotWant::Load { offset, width } => load_locked(rt, cell, run, slot, offset, width),
        SlotWant::Store {
            offset,
            width,
            value,
        } => store_locked(rt, cell, run, slot, offset, width, value),
        _ => ask_locked(rt, cell, run, slot, want),
    }
}

/// A load.
#[inline(never)]
fn load_locked<I: RunOf, R: Wait>(
    rt: &R,
    cell: &Mutex<LockedCell<SlotState, I>>,
    run: &ActorRun<I>,
    slot: Slot,
    offset: u32,
    width: u8,
) -> Result<LogEntry, NoMemory>
    requires wants { current_want run.now.progress.state
        ≡ Some (AWant.Slot slot (ASlotWant.Load offset width)) }
    requires fits { WantFits run.now.progress.state
        (AWant.Slot slot (ASlotWant.Load offset width)) }
    ensures plain { IfOk result (IsPlainEntry I.image run.now.progress) }
    ensures slot { IfOk result (IsOnSlot slot) }
{
    enter_locked(rt, cell, run, slot, SlotWant::Load { offset, width })
}

/// A store.
#[inline(never)]
fn store_locked<I: RunOf, R: Wait>(
    rt: &R,
    cell: &Mutex<LockedCell<SlotState, I>>,
    run: &ActorRun<I>,
    slot: Slot,
    offset: u32,
    width: u8,
    value: u32,
) -> Result<LogEntry, NoMemory>
    requires wants { current_want run.now.progress.state
        ≡ Some (AWant.Slot slot (ASlotWant.Store offset width value)) }
    requires fits { WantFits run.now.progress.state
        (AWant.Slot slot (ASlotWant.Store offset width value)) }
    ensures plain { IfOk result (IsPlainEntry I.image run.now.progress) }
    ensures slot { IfOk result (IsOnSlot slot) }
{
    let want = SlotWant::Store {
        offset,
        width,
        value,
    };
    enter_locked(rt, cell, run, slot, want)
}

/// Any event.
#[inline(never)]
fn ask_locked<I: RunOf, R: Wait>(
    rt: &R,
    cell: &Mutex<LockedCell<SlotState, I>>,
    run: &ActorRun<I>,
    slot: Slot,
    want: SlotWant,
) -> Result<LogEntry, NoMemory>
    requires wants { current_want run.now.progress.state ≡ Some (AWant.Slot slot want) }
    requires fits { WantFits run.now.progress.state (AWant.Slot slot want) }
    ensures plain { IfOk result (IsPlainEntry I.image run.now.progress) }
    ensures slot { IfOk result (IsOnSlot slot) }
{
    enter_locked(rt, cell, run, slot, want)
}

/// Asks the slot. A load, a store or a free is checked against the tag that lives there while the lock is held.
#[inline(always)]
fn enter_locked<I: RunOf, R: Wait>(
    rt: &R,
    cell: &Mutex<LockedCell<SlotState, I>>,
    run: &ActorRun<I>,
    slot: Slot,
    want: SlotWant,
) -> Result<LogEntry, NoMemory>
    requires wants { current_want run.now.progress.state ≡ Some (AWant.Slot slot want) }
    requires fits { WantFits run.now.progress.state (AWant.Slot slot want) }
    ensures plain { IfOk result (IsPlainEntry I.image run.now.progress) }
    ensures slot { IfOk result (IsOnSlot slot) }
{
    let mut pass = pass_of(run);
    let mut guard = cell.lock(rt);
    let locked = &mut *guard;
    let live = locked.state().live();
    let ask = want.with(run.pair(live));
    is_in_bounds(locked.state(), slot, &ask);
    let entry = locked.enter(&mut pass, ask)?;
    Ok(slot_entry(slot, entry))
}

/// For proofs alone: a block that is placed in a slot begins inside its window, and a copy of a tag has as many
/// pages as a tag may have.
#[tactic(auto, using(run_laws::proofs::Placing::others_inside))]
#[inline(always)]
pub(crate) fn is_in_bounds(state: &SlotState, slot: Slot, ask: &SlotAsk)
    requires inside { slot < most_slots }
    requires fits { SlotFits state.now ask.now }
    ensures { IsInBounds (AnEvent.Slot slot ask.now (slot_reply state.now ask.now)) }
{
    // The tag is read here, so that what its type keeps is at hand.
    match ask {
        SlotAsk::Smalloc { .. } => {
            let _ = state.blocks();
            let _ = state.size();
        }
        SlotAsk::Snap { .. } => {
            let _ = state.size();
        }
        _ => {}
    }
}

/// An event on the stream of a descriptor.
fn enter_stream<I: RunOf, R: Wait>(
    rt: &R,
    cell: &Mutex<LockedCell<Stream, I>>,
    run: &ActorRun<I>,
    fd: FdNo,
    ask: StreamAsk,
) -> Result<LogEntry, NoMemory>
    requires wants { current_want run.now.progress.state ≡ Some (AWant.Fd fd ask) }
    requires fits { WantFits run.now.progress.state (AWant.Fd fd ask) }
    ensures plain { IfOk result (IsPlainEntry I.image run.now.progress) }
    ensures no_slot { IfOk result IsOnNoSlot }
{
    let mut pass = pass_of(run);
    let mut guard = cell.lock(rt);
    let locked = &mut *guard;
    let entry = locked.enter(&mut pass, ask)?;
    Ok(stream_entry(fd, entry))
}

/// An event on the count of live sthreads.
fn enter_lives<I: RunOf, R: Wait>(
    rt: &R,
    cell: &Mutex<LockedCell<Lives, I>>,
    run: &ActorRun<I>,
    ask: LivesAsk,
) -> Result<LogEntry, NoMemory>
    requires wants { current_want run.now.progress.state ≡ Some (AWant.Lives ask) }
    requires fits { WantFits run.now.progress.state (AWant.Lives ask) }
    ensures plain { IfOk result (IsPlainEntry I.image run.now.progress) }
    ensures no_slot { IfOk result IsOnNoSlot }
{
    let mut pass = pass_of(run);
    let mut guard = cell.lock(rt);
    let locked = &mut *guard;
    let entry = locked.enter(&mut pass, ask)?;
    Ok(lives_entry(entry))
}

/// An event on the directory of slots.
fn enter_slot_directory<I: RunOf, R: Wait>(
    rt: &R,
    cell: &Mutex<LockedCell<SlotDirectory, I>>,
    run: &ActorRun<I>,
    ask: DirectoryAsk,
) -> Result<LogEntry, NoMemory>
    requires wants { current_want run.now.progress.state ≡ Some (AWant.Slots ask) }
    requires fits { WantFits run.now.progress.state (AWant.Slots ask) }
    ensures plain { IfOk result (IsPlainEntry I.image run.now.progress) }
    ensures no_slot { IfOk result IsOnNoSlot }
{
    let mut pass = pass_of(run);
    let mut guard = cell.lock(rt);
    let locked = &mut *guard;
    assigns_slots(locked.state(), &ask);
    let entry = locked.enter(&mut pass, ask)?;
    Ok(slot_directory_entry(entry))
}

/// For proofs alone: what the directory of slots assigns is a slot.
#[tactic(auto, using(run_laws::proofs::Placing::place_in_bounds))]
#[inline(always)]
fn assigns_slots(state: &SlotDirectory, ask: &DirectoryAsk)
    ensures { IsInBounds (AnEvent.Slots ask.now (directory_reply state.now ask.now)) }
{
    state.gives_slots();
}

/// An event on the directory of descriptors.
fn enter_fd_directory<I: RunOf, R: Wait>(
    rt: &R,
    cell: &Mutex<LockedCell<FdDirectory, I>>,
    run: &ActorRun<I>,
    ask: DirectoryAsk,
) -> Result<LogEntry, NoMemory>
    requires wants { current_want run.now.progress.state ≡ Some (AWant.Fds ask) }
    requires fits { WantFits run.now.progress.state (AWant.Fds ask) }
    ensures plain { IfOk result (IsPlainEntry I.image run.now.progress) }
    ensures no_slot { IfOk result IsOnNoSlot }
{
    let mut pass = pass_of(run);
    let mut guard = cell.lock(rt);
    let locked = &mut *guard;
    assigns_fds(locked.state(), &ask);
    let entry = locked.enter(&mut pass, ask)?;
    Ok(fd_directory_entry(entry))
}

/// For proofs alone: what the directory of descriptors assigns is a descriptor.
#[tactic(auto, using(run_laws::proofs::Placing::number_in_bounds))]
#[inline(always)]
fn assigns_fds(state: &FdDirectory, ask: &DirectoryAsk)
    ensures { IsInBounds (AnEvent.Fds ask.now (directory_reply state.now ask.now)) }
{
    state.gives_fds();
}
