//! Lists of entries and of histories in the order of cells.

ghost use Rattle.std.specs.Prelude.{◌≡◌, ◌++◌, length, map, OnOk, IfOk};
ghost use Rattle.std.specs.List.Sorted.{IsSortedBy, IsStableBy};
ghost use Rattle.std.specs.Option.{option_copied};
ghost use Rattle.run_audit.specs.CellOrder.{by_cell};
ghost use Rattle.run_audit.specs.ComparedCells.{compared_histories};
ghost use Rattle.run_audit.specs.IndexedEntries.{entries_without_index};
ghost use Rattle.run_audit.specs.HistoryEntries.{entries_kept, history_first, kept_as, new_after};

use crate::declared_slots::is_of_declared;
use crate::kept::{KeptEntry, add_history};
use crate::keys::{CellKey, event_key, history_key, key_order};
use crate::merging::ByStamp;
use stable_sort::Sortable;
use std::alloc::Global;
use std::cmp::Ordering;
use std::marker::Model;
use thread_laws::CellHistory;
use wedge_base::NoMemory;
use wedge_events::LogEntry;

/// An entry of the journal by reference. Contracts see it as the entry.
#[derive(Drop)]
pub(crate) struct JournalEntry<'a> {
    pub entry: &'a LogEntry,
}

impl<'a> Model for JournalEntry<'a> {
    ghost use Rattle.wedge_events.specs.declared.events.LogEntry.{LogEntry as Plain};

    ghost Value = { Plain };

    ghost view = { λ p. p.entry.now };
}

/// An entry that is sorted by its cell. The key of the cell is beside it, so that a comparison reads
/// no entry. Contracts see it as the entry.
#[derive(Drop)]
pub(crate) struct ByCell<'a> {
    key: CellKey<'a>,
    pub entry: &'a LogEntry,
}

impl<'a> Model for ByCell<'a> {
    ghost use Rattle.wedge_events.specs.Journals.{cell_of};
    ghost use Rattle.wedge_events.specs.declared.events.LogEntry.{LogEntry as Plain};
    ghost use Rattle.run_audit.specs.CellOrder.{IsKeyOf};

    ghost Value = { Plain };

    ghost view = { λ p. p.entry.now };

    ghost invariant = { λ p. IsKeyOf p.key (cell_of p.entry.now.event) };
}

/// A history that is sorted by its cell. Contracts see it as the history.
#[derive(Drop)]
pub(crate) struct HistoryByCell<'a> {
    pub history: &'a CellHistory,
}

impl<'a> Model for HistoryByCell<'a> {
    ghost use Rattle.thread_laws.specs.declared.gathered.CellHistory.{CellHistory as Plain};

    ghost Value = { Plain };

    ghost view = { λ p. p.history.now };
}

impl<'a> Sortable for ByCell<'a> {
    ghost use Rattle.run_audit.specs.CellOrder.{by_cell};
    ghost use Rattle.run_audit.specs.Orders.{entries_ordered};

    ghost comes_before = { by_cell };

    fn compare(&self, other: &Self) -> Ordering {
        key_order(&self.key, &other.key)
    }

    ghost is_order = { entries_ordered };
}

impl<'a> Sortable for HistoryByCell<'a> {
    ghost use Rattle.run_audit.specs.HistoryEntries.{history_first};
    ghost use Rattle.run_audit.specs.Orders.{histories_ordered};

    ghost comes_before = { history_first };

    fn compare(&self, other: &Self) -> Ordering {
        key_order(&history_key(self.history), &history_key(other.history))
    }

    ghost is_order = { histories_ordered };
}

/// Sorts items by a stable sort.
pub(crate) fn sort_stably<T: Sortable + Drop>(items: &mut Vec<T>) -> Result<(), NoMemory>
    ensures sorted { OnOk result (IsSortedBy T.comes_before items.new.items) }
    ensures stable { OnOk result (IsStableBy T.comes_before items.old.items items.new.items) }
    ensures len { length items.new.items ≡ length items.old.items }
{
    items.sort_by(|a, b| a.compare(b))?;
    Ok(())
}

/// Returns references to entries, in their order.
pub(crate) fn journal_references<'a>(
    alloc: Global,
    sorted: &[ByStamp<'a>],
) -> Result<Vec<JournalEntry<'a>>, NoMemory>
    ensures { IfOk result (λ v. v.items ≡ entries_without_index sorted.now) }
{
    let mut all = Vec::with_capacity(alloc, sorted.len())?;
    for item in sorted {
        all.push(JournalEntry { entry: item.entry })?;
    }
    Ok(all)
}

/// Returns references to entries, in their order.
fn entry_references<'a>(
    alloc: Global,
    entries: &[JournalEntry<'a>],
) -> Result<Vec<ByCell<'a>>, NoMemory>
    ensures { IfOk result (λ v. v.items ≡ entries.now) }
{
    let mut all = Vec::with_capacity(alloc, entries.len())?;
    for item in entries {
        all.push(ByCell {
            key: event_key(&item.entry.event),
            entry: item.entry,
        })?;
    }
    Ok(all)
}

/// Returns references to the histories but those of the first `declared` slots, in their order.
#[tactic(auto, using(crate::proofs::ComparedCells::histories_more, crate::proofs::ComparedCells::histories_over))]
fn history_references<'a>(
    alloc: Global,
    declared: usize,
    cells: &'a [CellHistory],
) -> Result<Vec<HistoryByCell<'a>>, NoMemory>
    ensures { IfOk result (λ v. v.items ≡ compared_histories declared cells.now) }
{
    let mut all = Vec::new(alloc);
    for history in cells {
        if !is_of_declared(declared, history) {
            all.push(HistoryByCell { history })?;
        }
    }
    Ok(all)
}

/// Returns entries in the order of their cells: those of each cell stay in their order.
pub(crate) fn logged_by_cell<'a>(
    alloc: Global,
    entries: &[JournalEntry<'a>],
) -> Result<Vec<ByCell<'a>>, NoMemory>
    ensures sorted { IfOk result (λ v. IsSortedBy by_cell v.items) }
    ensures stable { IfOk result (λ v. IsStableBy by_cell entries.now v.items) }
{
    let mut all = entry_references(alloc, entries)?;
    sort_stably(&mut all)?;
    Ok(all)
}

/// Returns the histories but those of the first `declared` slots, in the order of their cells.
pub(crate) fn histories_by_cell<'a>(
    alloc: Global,
    declared: usize,
    cells: &'a [CellHistory],
) -> Result<Vec<HistoryByCell<'a>>, NoMemory>
    ensures sorted { IfOk result (λ v. IsSortedBy history_first v.items) }
    ensures stable { IfOk result
        (λ v. IsStableBy history_first (compared_histories declared cells.now) v.items) }
{
    let mut all = history_references(alloc, declared, cells)?;
    sort_stably(&mut all)?;
    Ok(all)
}

/// Tells whether the cell of a history comes after that of the one before, if there is one.
fn is_new(before: Option<&HistoryByCell<'_>>, listed: &HistoryByCell<'_>) -> bool
    ensures { result ≡ new_after (option_copied before.entry) listed.now }
{
    match before {
        None => true,
        Some(before) => key_order(
            &history_key(before.history),
            &history_key(listed.history),
        ).is_lt(),
    }
}

/// Returns the entries of histories that are in the order of their cells, of each cell those of the
/// first history alone.
#[tactic(auto, using(crate::proofs::Histories::entries_more, crate::proofs::Histories::entries_over, crate::proofs::Histories::entries_end))]
pub(crate) fn kept_of_histories<'a>(
    alloc: Global,
    histories: &[HistoryByCell<'a>],
) -> Result<Vec<KeptEntry<'a>>, NoMemory>
    ensures { IfOk result (λ v. map kept_as v.items ≡ entries_kept histories.now) }
{
    let mut all = Vec::new(alloc);
    let mut last = None;
    for listed in histories {
        if is_new(last, listed) {
            all = add_history(all, listed.history)?;
            last = Some(listed);
        }
    }
    Ok(all)
}
