//! References to the entries that logs keep, or to those of them that are compared, merged in the order of their stamps.

ghost use Rattle.std.specs.Prelude.{◌≡◌, ◌+◌, ◌++◌, length, IfOk};
ghost use Rattle.thread_laws.specs.Joining.{journal_of};
ghost use Rattle.thread_laws.specs.KeptEntries.{all_kept, entries_elsewhere};
ghost use Rattle.run_audit.specs.ComparedCells.{KeepCompared};
ghost use Rattle.run_audit.specs.IndexedEntries.{indexed, indexed_before, indexed_journal};
ghost use Rattle.run_audit.specs.IndexedEntries.{AreInOrder, compared_indexed};
ghost use Rattle.run_audit.specs.IndexedEntries.{entries_without_index};
ghost use Rattle.run_audit.specs.Merges.{merged};

use crate::sorts::sort_stably;
use stable_sort::Sortable;
use std::alloc::Global;
use std::cmp::Ordering;
use std::marker::Model;
use thread_laws::{ActorLog, is_on_declared};
use wedge_base::{NoMemory, Stamp};
use wedge_events::LogEntry;

/// An entry by reference, with its index among the entries that the logs keep, log by log. Its stamp is
/// beside it, so that most comparisons read no entry. Contracts see it as the entry with its index.
#[derive(Drop)]
pub(crate) struct ByStamp<'a> {
    stamp: Stamp,
    pub entry: &'a LogEntry,
    pub index: usize,
}

impl<'a> Model for ByStamp<'a> {
    ghost use Rattle.std.specs.Prelude.{◌≡◌};
    ghost use Rattle.run_audit.specs.IndexedEntries.{IndexedEntry};

    ghost Value = { IndexedEntry };

    ghost view = { λ p. record { entry = p.entry.now; index = p.index } };

    ghost invariant = { λ p. p.stamp ≡ p.entry.now.stamp };
}

impl<'a> Sortable for ByStamp<'a> {
    ghost use Rattle.run_audit.specs.IndexedEntries.{indexed_before, indexed_ordered};

    ghost comes_before = { indexed_before };

    fn compare(&self, other: &Self) -> Ordering {
        match self.stamp.0.cmp(&other.stamp.0) {
            Ordering::Equal => self.entry.actor.parts().cmp(other.entry.actor.parts()),
            order => order,
        }
    }

    ghost is_order = { indexed_ordered };
}

impl<'a> ByStamp<'a> {
    /// Returns the same reference.
    fn again(&self) -> ByStamp<'a>
        ensures { result ≡ self.now }
    {
        ByStamp {
            stamp: self.stamp,
            entry: self.entry,
            index: self.index,
        }
    }
}

/// Returns references to those entries that are not on the first `declared` slots, in their order. The
/// indices of all entries are from a number on.
#[tactic(auto, using(crate::proofs::IndexedEntries::compared_more, crate::proofs::IndexedEntries::compared_over))]
fn references_from<'a>(
    alloc: Global,
    declared: usize,
    entries: &'a [LogEntry],
    first: usize,
) -> Result<Vec<ByStamp<'a>>, NoMemory>
    ensures { IfOk result (λ v. v.items ≡ compared_indexed declared (indexed first entries.now)) }
{
    let room = if declared == 0 { entries.len() } else { 0 };
    let mut all = Vec::with_capacity(alloc, room)?;
    let mut index = first;
    for entry in entries {
        if !is_on_declared(declared, &entry.event) {
            all.push(ByStamp {
                stamp: entry.stamp,
                entry,
                index,
            })?;
        }
        index = index.checked_add(1).ok_or(NoMemory)?;
    }
    Ok(all)
}

/// Returns the same references in the order of their stamps. The sort is one pass where the entries are
/// in it.
fn log_in_order<'a>(
    alloc: Global,
    declared: usize,
    log: &'a ActorLog,
    first: usize,
) -> Result<Vec<ByStamp<'a>>, NoMemory>
    ensures { IfOk result (λ v. AreInOrder declared first log.now.kept v.items) }
{
    let mut all = references_from(alloc, declared, log.kept.as_slice(), first)?;
    sort_stably(&mut all)?;
    Ok(all)
}

/// Adds references after others, in their order.
fn add_all<'a>(
    mut all: Vec<ByStamp<'a>>,
    items: &[ByStamp<'a>],
) -> Result<Vec<ByStamp<'a>>, NoMemory>
    ensures { IfOk result (λ v. v.items ≡ all.entry.items ++ items.now) }
{
    for item in items {
        all.push(item.again())?;
    }
    Ok(all)
}

/// Merges two lists: where the stamp and the actor of two entries are the same, that of the first
/// list comes first.
fn merge<'a>(
    alloc: Global,
    first: &[ByStamp<'a>],
    second: &[ByStamp<'a>],
) -> Result<Vec<ByStamp<'a>>, NoMemory>
    ensures { IfOk result (λ v. v.items ≡ merged indexed_before first.now second.now) }
{
    let mut all = Vec::with_capacity(alloc, first.len().saturating_add(second.len()))?;
    let mut i = 0;
    let mut j = 0;
    while i < first.len() && j < second.len() {
        if second[j].compare(&first[i]).is_lt() {
            all.push(second[j].again())?;
            j += 1;
        } else {
            all.push(first[i].again())?;
            i += 1;
        }
    }
    all = add_all(all, &first[i..])?;
    add_all(all, &second[j..])
}

/// Returns the index after those of all entries that logs keep, which begin at one.
#[tactic(auto, using(crate::proofs::IndexedEntries::kept_more))]
fn index_after(first: usize, logs: &[ActorLog]) -> Result<usize, NoMemory>
    ensures { IfOk result (λ n. n ≡ first + length (all_kept logs.now)) }
{
    let mut index = first;
    for log in logs {
        index = index
            .checked_add(log.kept.as_slice().len())
            .ok_or(NoMemory)?;
    }
    Ok(index)
}

/// Returns references to the entries that logs keep and that are not on the first `declared` slots, in the
/// order of their stamps: those of each half of the logs, merged. The indices of all kept entries are from a
/// number on.
///
/// std's stable sort of all references would give the same list, but it merges only those runs that
/// are at least as long as the square root of their number, and sorts shorter logs from nothing.
fn logs_merged<'a>(
    alloc: Global,
    declared: usize,
    logs: &'a [ActorLog],
    first: usize,
) -> Result<Vec<ByStamp<'a>>, NoMemory>
    ensures { IfOk result (λ v. AreInOrder declared first (all_kept logs.now) v.items) }
{
    match logs {
        [] => Ok(Vec::new(alloc)),
        [log] => log_in_order(alloc, declared, log, first),
        _ => {
            let (half, others) = logs.split_at(logs.len() / 2);
            let left = logs_merged(alloc, declared, half, first)?;
            let next = index_after(first, half)?;
            let right = logs_merged(alloc, declared, others, next)?;
            merge(alloc, left.as_slice(), right.as_slice())
        }
    }
}

/// Returns references to all entries that logs keep, in the order of the journal.
pub(crate) fn entries_in_order<'a>(
    alloc: Global,
    logs: &'a [ActorLog],
) -> Result<Vec<ByStamp<'a>>, NoMemory>
    ensures { IfOk result (λ v. v.items ≡ indexed_journal logs.now) }
{
    logs_merged(alloc, 0, logs, 0)
}

/// Returns references to the logged entries that are not on the first `declared` slots, in the order of the
/// journal. The logs keep all of these.
pub(crate) fn compared_in_order<'a>(
    alloc: Global,
    declared: usize,
    logs: &'a [ActorLog],
) -> Result<Vec<ByStamp<'a>>, NoMemory>
    requires { KeepCompared declared logs.now }
    ensures { IfOk result (λ v. entries_without_index v.items
        ≡ entries_elsewhere declared (journal_of logs.now)) }
{
    logs_merged(alloc, declared, logs, 0)
}
