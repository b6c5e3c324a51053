//! The logs of actors by name, and in the order in which their actors were created.

ghost use Rattle.std.specs.Prelude.{◌≡◌, ◌++◌, ◌∷◌, [], List, ℕ, OnOk, IfOk};
ghost use Rattle.std.specs.List.Sorted.{IsSortedBy, IsStableBy};
ghost use Rattle.std.specs.Option.{option_copied};
ghost use Rattle.wedge_base.specs.Names.{root_name};
ghost use Rattle.thread_laws.specs.Executions as executions;
ghost use Rattle.thread_laws.specs.Executions.{with_named, names_begun};
ghost use Rattle.thread_laws.specs.Joining as joining;
ghost use Rattle.thread_laws.specs.Joining.{with_log, logs_named};
ghost use Rattle.run_audit.specs.LogOrder.{log_before, IsCountBefore, name_asked};

use crate::sorts::{JournalEntry, sort_stably};
use stable_sort::Sortable;
use std::alloc::Global;
use std::cmp::Ordering;
use std::marker::Model;
use thread_laws::ActorLog;
use wedge_base::{ActorName, NoMemory};
use wedge_events::{Event, GateAsk};

/// A log by reference. Contracts see it as the log.
#[derive(Drop)]
pub(crate) struct LogReference<'a> {
    pub log: &'a ActorLog,
}

impl<'a> Model for LogReference<'a> {
    ghost use Rattle.thread_laws.specs.declared.gathered.ActorLog.{ActorLog as Plain};

    ghost Value = { Plain };

    ghost view = { λ p. p.log.now };
}

impl<'a> Sortable for LogReference<'a> {
    ghost use Rattle.run_audit.specs.LogOrder.{log_before, logs_sortable};

    ghost comes_before = { log_before };

    fn compare(&self, other: &Self) -> Ordering {
        self.log.name.parts().cmp(other.log.name.parts())
    }

    ghost is_order = { logs_sortable };
}

/// Returns references to logs, in their order.
fn log_references<'a>(
    alloc: Global,
    logs: &'a [ActorLog],
) -> Result<Vec<LogReference<'a>>, NoMemory>
    ensures { IfOk result (λ v. v.items ≡ logs.now) }
{
    let mut all = Vec::new(alloc);
    for log in logs {
        all.push(LogReference { log })?;
    }
    Ok(all)
}

/// Returns logs in the order of their names; those of one name stay in their order.
pub(crate) fn logs_by_name<'a>(
    alloc: Global,
    logs: &'a [ActorLog],
) -> Result<Vec<LogReference<'a>>, NoMemory>
    ensures sorted { IfOk result (λ v. IsSortedBy log_before v.items) }
    ensures stable { IfOk result (λ v. IsStableBy log_before logs.now v.items) }
{
    let mut all = log_references(alloc, logs)?;
    sort_stably(&mut all)?;
    Ok(all)
}

/// Returns the number of logs whose names come before a name, among logs in the order of their
/// names: by binary search.
fn count_before(sorted: &[LogReference<'_>], name: &ActorName) -> usize
    requires { IsSortedBy log_before sorted.now }
    ensures { IsCountBefore sorted.now name.now result }
{
    sorted.partition_point(|item| item.log.name.parts().cmp(name.parts()).is_lt())
}

/// Returns the first log of a name, among logs in the order of their names.
pub(crate) fn log_named<'a>(sorted: &[LogReference<'a>], name: &ActorName) -> Option<&'a ActorLog>
    requires { IsSortedBy log_before sorted.now }
    ensures { option_copied result ≡ joining.log_named sorted.now name.now }
{
    let index = count_before(sorted, name);
    if index >= sorted.len() {
        return None;
    }
    let item = &sorted[index];
    if item.log.name.is_same(name) {
        Some(item.log)
    } else {
        None
    }
}

/// Adds the first log of a name, if there is one, after others.
fn add_named<'a>(
    sorted: &[LogReference<'a>],
    name: &ActorName,
    mut ordered: Vec<LogReference<'a>>,
) -> Result<Vec<LogReference<'a>>, NoMemory>
    requires { IsSortedBy log_before sorted.now }
    ensures { IfOk result (λ v. v.items
        ≡ ordered.entry.items ++ with_log (joining.log_named sorted.now name.now) []) }
{
    match log_named(sorted, name) {
        Some(log) => {
            ordered.push(LogReference { log })?;
            Ok(ordered)
        }
        None => Ok(ordered),
    }
}

/// Returns the name of the run that an ask begins.
fn name_entered(ask: &GateAsk) -> Option<&ActorName>
    ensures { option_copied result ≡ name_asked ask.now }
{
    match ask {
        GateAsk::Enter { run, .. } => Some(run),
        GateAsk::Leave { .. } => None,
    }
}

/// Returns the name of the actor that an event creates.
fn name_begun(event: &Event) -> Option<&ActorName>
    ensures { option_copied result ≡ executions.name_begun event.now }
{
    match event {
        Event::Start { child } => Some(child),
        Event::Enter { run } => Some(run),
        Event::Gate { ask, .. } => name_entered(ask),
        _ => None,
    }
}

/// Adds the first log of the actor that an event creates, if it creates one, after others.
fn add_begun<'a>(
    sorted: &[LogReference<'a>],
    event: &Event,
    ordered: Vec<LogReference<'a>>,
) -> Result<Vec<LogReference<'a>>, NoMemory>
    requires { IsSortedBy log_before sorted.now }
    ensures { IfOk result (λ v. (ns : List (List ℕ)) → v.items ++ logs_named sorted.now ns
        ≡ ordered.entry.items
        ++ logs_named sorted.now (with_named (executions.name_begun event.now) ns)) }
{
    match name_begun(event) {
        Some(name) => add_named(sorted, name, ordered),
        None => Ok(ordered),
    }
}

/// Returns the logs of the root and of all actors that the entries of a journal create, in that
/// order: of several logs of one name the first.
pub(crate) fn logs_in_order<'a>(
    alloc: Global,
    logs: &'a [ActorLog],
    journal: &[JournalEntry<'_>],
) -> Result<Vec<LogReference<'a>>, NoMemory>
    ensures { IfOk result (λ v. v.items
        ≡ joining.logs_named logs.now (root_name ∷ names_begun journal.now)) }
{
    let sorted = logs_by_name(alloc, logs)?;
    let root = ActorName::root(alloc)?;
    let mut ordered = add_named(sorted.as_slice(), &root, Vec::new(alloc))?;
    for item in journal {
        ordered = add_begun(sorted.as_slice(), &item.entry.event, ordered)?;
    }
    Ok(ordered)
}
