//! The histories of the cells of a run, once all its threads are done.

ghost use Rattle.std.specs.Prelude.{◌≡◌, ◌<◌, ◌≤◌, ◌++◌, ◌∷◌, [], All, IfOk, OnOk, length};
ghost use Rattle.wedge_base.specs.Images.{slots as most_slots};
ghost use Rattle.wedge_events.specs.declared.events.CellName.TheVariants.{Slot as SlotName};
ghost use Rattle.thread_laws.specs.Replaying.{AreLegalHistories, IsLegalHistory};
ghost use Rattle.thread_laws.specs.Replaying.{all_histories, slot_histories};
ghost use Rattle.tag_laws.specs.DeclaredTags.{AreRuled};
ghost use Rattle.run_cells.specs.Prefixes.{IsPrefixOf};
ghost use Rattle.run_cells.specs.TagPasses.{all_entered, histories_in, AreNamedFrom};

use crate::locked_cell::LockedCell;
use crate::opening::RunCells;
use crate::tag_cells::{TableOf, TagPass};
use fd_table::Stream;
use journal_cell::{Entry, GhostJournaled, GhostList, JournalParts, RunOf};
use machine::Lives;
use std::alloc::Global;
use std::sync::Mutex;
use tag_directory::{FdDirectory, SlotDirectory};
use tag_segment::SlotState;
use thread_laws::{ActorLog, CellHistory, Gathered};
use wedge_base::{Items, NoMemory};
use wedge_events::{CellName, SlotAsk, SlotReply};

impl<I: RunOf, T: TableOf> RunCells<I, T> {
    /// Consumes the cells, and returns with these logs the histories of the slots of declared tags, and of all other
    /// cells in which something happened, these of recycled gates first: each as its cell kept it. Those of declared
    /// tags have just what these passes entered. Fails only where out of memory, and where a pass is missing.
    pub fn into_gathered(
        self,
        alloc: Global,
        logs: Items<ActorLog>,
        gates: Vec<CellHistory>,
        passes: Vec<TagPass<I, T>>,
    ) -> Result<Gathered, NoMemory>
        requires { All (IsLegalHistory I.image) gates.items }
        ensures logs { IfOk result (λ g. g.logs ≡ logs) }
        ensures count { IfOk result (λ g. length g.declared ≡ T.table.slots) }
        ensures gates { IfOk result (λ g. IsPrefixOf gates.items g.others) }
        ensures kept { IfOk result (λ g. AreLegalHistories I.image (all_histories g)) }
        ensures ruled { IfOk result (λ g.
            AreRuled T.table.slots (all_entered passes.items) (all_histories g)) }
    {
        let RunCells {
            slot_directory,
            tags,
            slots,
            fd_directory,
            streams,
            lives,
            ..
        } = self;
        let mut others = gates;
        add_slot_directory(&mut others, slot_directory)?;
        add_slots(&mut others, slots)?;
        add_fd_directory(&mut others, fd_directory)?;
        add_streams(&mut others, streams)?;
        add_lives(&mut others, lives)?;
        Ok(Gathered {
            logs,
            declared: Items::new(tag_histories(alloc, tags.close(passes)?)?),
            others: Items::new(others),
        })
    }
}

/// Returns the histories of the slots of declared tags, in their order.
fn tag_histories<I: RunOf>(
    alloc: Global,
    cells: Vec<GhostJournaled<SlotState, I>>,
) -> Result<Vec<GhostList<Entry<SlotAsk, SlotReply>>>, NoMemory>
    requires few { length cells.items ≤ most_slots }
    requires named { AreNamedFrom 0 cells.items }
    ensures histories { IfOk result (λ v. v.items ≡ histories_in cells.items) }
    ensures kept { IfOk result (λ v. All (IsLegalHistory I.image) (slot_histories 0 v.items)) }
{
    let mut all = Vec::with_capacity(alloc, cells.len())?;
    for cell in cells {
        add_tag(&mut all, cell)?;
    }
    Ok(all)
}

/// Adds the history of the slot of a declared tag, behind those before it.
fn add_tag<I: RunOf>(
    all: &mut Vec<GhostList<Entry<SlotAsk, SlotReply>>>,
    cell: GhostJournaled<SlotState, I>,
) -> Result<(), NoMemory>
    requires inside { length all.old.items < most_slots }
    requires named { cell.name ≡ SlotName (length all.old.items) }
    requires kept { All (IsLegalHistory I.image) (slot_histories 0 all.old.items) }
    ensures history { OnOk result (all.new.items ≡ all.old.items ++ cell.history ∷ []) }
    ensures kept { OnOk result (All (IsLegalHistory I.image) (slot_histories 0 all.new.items)) }
{
    all.push(cell.into_history())?;
    Ok(())
}

/// Adds the history of the directory of slots.
fn add_slot_directory<I: RunOf>(
    cells: &mut Vec<CellHistory>,
    cell: Mutex<LockedCell<SlotDirectory, I>>,
) -> Result<(), NoMemory>
    requires { All (IsLegalHistory I.image) cells.old.items }
    ensures legal { OnOk result (All (IsLegalHistory I.image) cells.new.items) }
    ensures prefix { OnOk result (IsPrefixOf cells.old.items cells.new.items) }
{
    let JournalParts { history, .. } = cell.into_inner().into_parts();
    if history.is_empty() {
        return Ok(());
    }
    cells.push(CellHistory::Slots {
        entries: Items::new(history),
    })?;
    Ok(())
}

/// Adds the histories of slots.
fn add_slots<I: RunOf>(
    cells: &mut Vec<CellHistory>,
    slots: Vec<Mutex<LockedCell<SlotState, I>>>,
) -> Result<(), NoMemory>
    requires { All (IsLegalHistory I.image) cells.old.items }
    ensures legal { OnOk result (All (IsLegalHistory I.image) cells.new.items) }
    ensures prefix { OnOk result (IsPrefixOf cells.old.items cells.new.items) }
{
    for cell in slots {
        add_slot(cells, cell)?;
    }
    Ok(())
}

/// Adds the history of a slot, under the name that its cell kept.
fn add_slot<I: RunOf>(
    cells: &mut Vec<CellHistory>,
    cell: Mutex<LockedCell<SlotState, I>>,
) -> Result<(), NoMemory>
    requires { All (IsLegalHistory I.image) cells.old.items }
    ensures legal { OnOk result (All (IsLegalHistory I.image) cells.new.items) }
    ensures prefix { OnOk result (IsPrefixOf cells.old.items cells.new.items) }
{
    let JournalParts { name, history } = cell.into_inner().into_parts();
    if history.is_empty() {
        return Ok(());
    }
    let CellName::Slot { slot } = name else {
        unreachable!()
    };
    cells.push(CellHistory::Slot {
        slot,
        entries: Items::new(history),
    })?;
    Ok(())
}

/// Adds the history of the directory of descriptors.
fn add_fd_directory<I: RunOf>(
    cells: &mut Vec<CellHistory>,
    cell: Mutex<LockedCell<FdDirectory, I>>,
) -> Result<(), NoMemory>
    requires { All (IsLegalHistory I.image) cells.old.items }
    ensures legal { OnOk result (All (IsLegalHistory I.image) cells.new.items) }
    ensures prefix { OnOk result (IsPrefixOf cells.old.items cells.new.items) }
{
    let JournalParts { history, .. } = cell.into_inner().into_parts();
    if history.is_empty() {
        return Ok(());
    }
    cells.push(CellHistory::Fds {
        entries: Items::new(history),
    })?;
    Ok(())
}

/// Adds the histories of streams.
fn add_streams<I: RunOf>(
    cells: &mut Vec<CellHistory>,
    streams: Vec<Mutex<LockedCell<Stream, I>>>,
) -> Result<(), NoMemory>
    requires { All (IsLegalHistory I.image) cells.old.items }
    ensures legal { OnOk result (All (IsLegalHistory I.image) cells.new.items) }
    ensures prefix { OnOk result (IsPrefixOf cells.old.items cells.new.items) }
{
    for cell in streams {
        add_stream(cells, cell)?;
    }
    Ok(())
}

/// Adds the history of a stream, under the name that its cell kept.
fn add_stream<I: RunOf>(
    cells: &mut Vec<CellHistory>,
    cell: Mutex<LockedCell<Stream, I>>,
) -> Result<(), NoMemory>
    requires { All (IsLegalHistory I.image) cells.old.items }
    ensures legal { OnOk result (All (IsLegalHistory I.image) cells.new.items) }
    ensures prefix { OnOk result (IsPrefixOf cells.old.items cells.new.items) }
{
    let JournalParts { name, history } = cell.into_inner().into_parts();
    if history.is_empty() {
        return Ok(());
    }
    let CellName::Fd { fd } = name else {
        unreachable!()
    };
    cells.push(CellHistory::Fd {
        fd,
        entries: Items::new(history),
    })?;
    Ok(())
}

/// Adds the history of the count of live sthreads.
fn add_lives<I: RunOf>(
    cells: &mut Vec<CellHistory>,
    cell: Mutex<LockedCell<Lives, I>>,
) -> Result<(), NoMemory>
    requires { All (IsLegalHistory I.image) cells.old.items }
    ensures legal { OnOk result (All (IsLegalHistory I.image) cells.new.items) }
    ensures prefix { OnOk result (IsPrefixOf cells.old.items cells.new.items) }
{
    let JournalParts { history, .. } = cell.into_inner().into_parts();
    if history.is_empty() {
        return Ok(());
    }
    cells.push(CellHistory::Lives {
        entries: Items::new(history),
    })?;
    Ok(())
}
