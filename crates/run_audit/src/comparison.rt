//! The first difference between what cells kept and what actors logged.

ghost use Rattle.std.specs.Prelude.{◌≡◌, ◌≤◌, ◌++◌, length, map, take, drop, Some, None, IfOk};
ghost use Rattle.wedge_events.specs.Journals.{cell_of};
ghost use Rattle.thread_laws.specs.Histories.{is_of, entries_on};
ghost use Rattle.run_audit.specs.CellOrder.{cell_order};
ghost use Rattle.run_audit.specs.HistoryEntries.{kept_as};
ghost use Rattle.run_audit.specs.ListDifferences.{IsDifferenceAt, IsEntryAt, IsLoggedOnly};
ghost use Rattle.run_audit.specs.ListDifferences.{AreInCellOrder, IsListDifference, DifferHere};

use crate::equality::same_entry;
use crate::fault::Difference;
use crate::kept::{KeptEntry, logged_entry};
use crate::keys::{event_key, kept_key, key_order};
use crate::sorts::ByCell;
use std::alloc::Global;
use std::cmp::Ordering;
use wedge_base::NoMemory;
use wedge_events::{CellName, LogEntry};

/// Compares the cells of two entries.
fn order_of(kept: &KeptEntry<'_>, logged: &ByCell<'_>) -> Ordering
    ensures { result ≡ cell_order (cell_of (kept_as kept.now).event) (cell_of logged.now.event) }
{
    key_order(&kept_key(kept), &event_key(&logged.entry.event))
}

/// Returns the cell of a kept entry.
fn kept_cell(kept: &KeptEntry<'_>) -> Result<CellName, NoMemory>
    ensures { IfOk result (λ c. cell_of (kept_as kept.now).event ≡ Some c) }
{
    Ok(match kept {
        KeptEntry::Slots { .. } => CellName::Slots,
        KeptEntry::Slot { slot, .. } => CellName::Slot { slot: *slot },
        KeptEntry::Fds { .. } => CellName::Fds,
        KeptEntry::Fd { fd, .. } => CellName::Fd { fd: *fd },
        KeptEntry::Lives { .. } => CellName::Lives,
        KeptEntry::Gate { gate, .. } => CellName::Gate { gate: gate.copy()? },
    })
}

/// Tells whether a kept entry is of a cell.
fn is_kept_of(kept: &KeptEntry<'_>, cell: &CellName) -> bool
    ensures { result ≡ is_of cell.now (kept_as kept.now).event }
{
    match kept {
        KeptEntry::Slots { .. } => matches!(cell, CellName::Slots),
        KeptEntry::Slot { slot, .. } => match cell {
            CellName::Slot { slot: other } => slot.0 == other.0,
            _ => false,
        },
        KeptEntry::Fds { .. } => matches!(cell, CellName::Fds),
        KeptEntry::Fd { fd, .. } => match cell {
            CellName::Fd { fd: other } => fd.0 == other.0,
            _ => false,
        },
        KeptEntry::Lives { .. } => matches!(cell, CellName::Lives),
        KeptEntry::Gate { gate, .. } => match cell {
            CellName::Gate { gate: other } => gate.is_same(other),
            _ => false,
        },
    }
}

/// Counts the entries of a cell.
#[tactic(auto, using(crate::proofs::Counting::counts_own, crate::proofs::Counting::counts_other, crate::proofs::Counting::counts_within))]
fn count_on(entries: &[KeptEntry<'_>], cell: &CellName) -> usize
    ensures count { result ≡ length (entries_on cell.now (map kept_as entries.now)) }
    ensures below { result ≤ length entries.now }
{
    let mut count = 0;
    for entry in entries {
        if is_kept_of(entry, cell) {
            count += 1;
        }
    }
    count
}

/// Returns the length of the longest common prefix.
#[tactic(auto, using(crate::proofs::Counting::alike_more, crate::proofs::Counting::apart_here, crate::proofs::Counting::kept_ended, crate::proofs::Counting::logged_ended))]
fn common_prefix(kept: &[KeptEntry<'_>], logged: &[ByCell<'_>]) -> usize
    ensures kept { result ≤ length kept.now }
    ensures logged { result ≤ length logged.now }
    ensures same { take result (map kept_as kept.now) ≡ take result logged.now }
    ensures differ { DifferHere (drop result (map kept_as kept.now)) (drop result logged.now) }
{
    let mut index = 0;
    while index < kept.len() && index < logged.len() {
        let item = &logged[index];
        if !same_entry(&kept[index], item.entry) {
            return index;
        }
        index += 1;
    }
    index
}

/// Returns a difference at a cell, after the entries of it among these.
fn difference(
    before: &[KeptEntry<'_>],
    cell: CellName,
    kept: Option<LogEntry>,
    logged: Option<LogEntry>,
) -> Difference
    ensures { IsDifferenceAt (map kept_as before.now) result cell kept logged }
{
    let index = count_on(before, &cell);
    Difference {
        cell,
        index,
        kept,
        logged,
    }
}

/// Returns the difference at a kept entry where the journal has none of its cell any more.
fn kept_alone(
    alloc: Global,
    before: &[KeptEntry<'_>],
    kept: &KeptEntry<'_>,
) -> Result<Difference, NoMemory>
    ensures { IfOk result (λ d. IsEntryAt (map kept_as before.now) d (kept_as kept.now)
        (Some (kept_as kept.now)) None) }
{
    let cell = kept_cell(kept)?;
    let entry = logged_entry(alloc, kept)?;
    Ok(difference(before, cell, Some(entry), None))
}

/// Returns the difference at a logged entry where the history of its cell has ended, if it is of a
/// cell.
fn logged_alone(
    alloc: Global,
    before: &[KeptEntry<'_>],
    logged: &LogEntry,
) -> Result<Option<Difference>, NoMemory>
    ensures { IfOk result (λ r. IsLoggedOnly (map kept_as before.now) logged.now r) }
{
    match logged.event.cell()? {
        None => Ok(None),
        Some(cell) => {
            let entry = copy_entry(alloc, logged)?;
            Ok(Some(difference(before, cell, None, Some(entry))))
        }
    }
}

/// Returns the difference at two entries of one cell.
fn both_there(
    alloc: Global,
    before: &[KeptEntry<'_>],
    kept: &KeptEntry<'_>,
    logged: &LogEntry,
) -> Result<Difference, NoMemory>
    ensures { IfOk result (λ d. IsEntryAt (map kept_as before.now) d (kept_as kept.now)
        (Some (kept_as kept.now)) (Some logged.now)) }
{
    let cell = kept_cell(kept)?;
    let entry = logged_entry(alloc, kept)?;
    let other = copy_entry(alloc, logged)?;
    Ok(difference(before, cell, Some(entry), Some(other)))
}

/// Returns an equal entry.
fn copy_entry(alloc: Global, entry: &LogEntry) -> Result<LogEntry, NoMemory>
    ensures { IfOk result (λ e. e ≡ entry.now) }
{
    Ok(LogEntry {
        stamp: entry.stamp,
        actor: entry.actor.copy()?,
        event: entry.event.copy(alloc)?,
    })
}

/// Returns the first difference of two lists after equal entries, where their heads differ or one
/// has ended.
fn difference_at_heads(
    alloc: Global,
    before: &[KeptEntry<'_>],
    kept: &[KeptEntry<'_>],
    logged: &[ByCell<'_>],
) -> Result<Option<Difference>, NoMemory>
    requires kept { AreInCellOrder (map kept_as kept.now) }
    requires logged { AreInCellOrder logged.now }
    requires differ { DifferHere (map kept_as kept.now) logged.now }
    ensures { IfOk result (λ r. IsListDifference (map kept_as before.now ++ map kept_as kept.now)
        (map kept_as before.now ++ logged.now) r) }
{
    match kept {
        [] => match logged {
            [] => Ok(None),
            [y, ..] => logged_alone(alloc, before, y.entry),
        },
        [x, ..] => match logged {
            [] => Ok(Some(kept_alone(alloc, before, x)?)),
            [y, ..] => match order_of(x, y) {
                Ordering::Less => Ok(Some(kept_alone(alloc, before, x)?)),
                Ordering::Equal => Ok(Some(both_there(alloc, before, x, y.entry)?)),
                Ordering::Greater => logged_alone(alloc, before, y.entry),
            },
        },
    }
}

/// Returns the first difference between two lists in the order of cells, or none where the entries
/// of each cell are the same in both.
#[tactic(auto, using(crate::proofs::Whole::order_behind, crate::proofs::Whole::order_dropped, crate::proofs::Whole::part_behind))]
pub(crate) fn first_difference(
    alloc: Global,
    kept: &[KeptEntry<'_>],
    logged: &[ByCell<'_>],
) -> Result<Option<Difference>, NoMemory>
    requires kept { AreInCellOrder (map kept_as kept.now) }
    requires logged { AreInCellOrder logged.now }
    ensures { IfOk result (λ r. IsListDifference (map kept_as kept.now) logged.now r) }
{
    let index = common_prefix(kept, logged);
    let (before, after) = kept.split_at(index);
    let (_, others) = logged.split_at(index);
    difference_at_heads(alloc, before, after, others)
}
