//! Two actors do two events of each kind of cell, in turns.

ghost use Rattle.std.specs.Prelude.{◌≡◌, All, IfOk};
ghost use Rattle.thread_laws.specs.KeptEntries.{AreKept, IsKept};

use crate::gathering::{Histories, event_of, image, log};
use run_audit::{AuditFault, AuditRefusal, Audited, Difference, audit};
use std::alloc::Global;
use std::process::Abort;
use std::test::Fail;
use thread_laws::Gathered;
use wedge_base::{ActorName, Items, NoMemory, Stamp};
use wedge_events::{CellName, Event, LogEntry};

/// What is changed of the history of a kind of cell.
#[derive(Clone, Copy, Debug, PartialEq, Eq)]
enum Change {
    /// Its last entry has another event.
    Other,
    /// Its last entry is missing.
    Missing,
    /// Its last entry is there twice.
    Twice,
}

/// The name of the root for an odd stamp, and of its first child for an even one.
fn actor_at(alloc: Global, stamp: u64) -> Result<ActorName, NoMemory> {
    if stamp % 2 == 1 {
        ActorName::root(alloc)
    } else {
        ActorName::of_parts(alloc, &[0, 1])
    }
}

/// The event of a stamp. At stamp 1 the root starts its child; at stamps 2 to 13 there are two of each
/// kind, one by each actor.
fn event_at(alloc: Global, stamp: u64, other: bool) -> Result<Event, NoMemory> {
    if stamp < 2 {
        let child = ActorName::of_parts(alloc, &[0, 1])?;
        return Ok(Event::Start { child });
    }
    event_of(alloc, kind_at(stamp), other)
}

/// The kind of the event of a stamp.
fn kind_at(stamp: u64) -> u32 {
    match stamp {
        2 | 3 => 0,
        4 | 5 => 1,
        6 | 7 => 2,
        8 | 9 => 3,
        10 | 11 => 4,
        _ => 5,
    }
}

/// Adds the entry of a stamp to a log.
fn add_entry(alloc: Global, entries: &mut Vec<LogEntry>, stamp: u64) -> Result<(), NoMemory> {
    entries.push(LogEntry {
        stamp: Stamp(stamp),
        actor: actor_at(alloc, stamp)?,
        event: event_at(alloc, stamp, false)?,
    })?;
    Ok(())
}

/// Adds the event of a stamp to the histories, with a change of the last of a kind.
fn add_kept(
    alloc: Global,
    histories: &mut Histories,
    stamp: u64,
    kind: u32,
    change: Option<Change>,
) -> Result<(), NoMemory> {
    let changed = if stamp % 2 == 1 && kind_at(stamp) == kind {
        change
    } else {
        None
    };
    if changed == Some(Change::Missing) {
        return Ok(());
    }
    let event = event_at(alloc, stamp, changed == Some(Change::Other))?;
    histories.add(alloc, stamp, actor_at(alloc, stamp)?, event)?;
    if changed == Some(Change::Twice) {
        let event = event_at(alloc, stamp, false)?;
        histories.add(alloc, stamp, actor_at(alloc, stamp)?, event)?;
    }
    Ok(())
}

/// Logs and histories of both actors, with a change of the history of a kind. The logs keep all.
fn gathered(alloc: Global, kind: u32, change: Option<Change>) -> Result<Gathered, NoMemory>
    ensures { IfOk result (λ g. All (IsKept 0) g.logs) }
{
    let mut own = Vec::new(alloc);
    let mut others = Vec::new(alloc);
    let mut histories = Histories::new(alloc);
    for stamp in 1..14 {
        if stamp % 2 == 1 {
            add_entry(alloc, &mut own, stamp)?;
        } else {
            add_entry(alloc, &mut others, stamp)?;
        }
        add_kept(alloc, &mut histories, stamp, kind, change)?;
    }
    let mut logs = Vec::new(alloc);
    logs.push(log(alloc, ActorName::of_parts(alloc, &[0, 1])?, 40, others))?;
    logs.push(log(alloc, ActorName::root(alloc)?, 50, own))?;
    Ok(Gathered {
        logs: Items::new(logs),
        declared: Items::new(Vec::new(alloc)),
        others: histories.into_cells(alloc)?,
    })
}

/// The answer of an audit over the image.
fn audit_of(alloc: Global, gathered: Gathered) -> Result<Result<Audited, AuditRefusal>, Fail>
    requires { All (IsKept 0) gathered.logs }
    ensures { IfOk result (λ r. IfOk r (λ a. a.journal.kept ≡ a.journal.entries)) }
{
    let image = image(alloc)?;
    Ok(audit(alloc, &image, gathered))
}

/// What an audit gives of histories that agree.
fn agreed(alloc: Global) -> Result<Audited, Fail>
    ensures { IfOk result (λ a. a.journal.kept ≡ a.journal.entries) }
{
    Ok(
        audit_of(alloc, gathered(alloc, 0, None)?)?
            .ok()
            .ok_or("an audit")?,
    )
}

/// The journal is in the order of stamps.
#[test]
fn histories_that_agree_have_a_journal(rt: HostRuntime) -> Result<(), Fail> {
    let Audited { journal, .. } = agreed(rt.alloc())?;
    let mut stamps = Vec::new(rt.alloc());
    assert_eq!(rt; journal.len()?, 13);
    let ordered = journal.into_journal(rt.alloc())?;
    for entry in ordered.entries.as_slice() {
        stamps.push(entry.stamp.0)?;
    }
    assert_eq!(rt;
        stamps.as_slice(),
        [1, 2, 3, 4, 5, 6, 7, 8, 9, 10, 11, 12, 13].as_slice()
    );
    Ok(())
}

/// The lines are in the order of names: the root's is the first.
#[test]
fn histories_that_agree_have_lines_of_actors(rt: HostRuntime) -> Result<(), Fail> {
    let Audited { outcome, .. } = agreed(rt.alloc())?;
    let mut fuels = Vec::new(rt.alloc());
    for line in outcome.actors.as_slice() {
        fuels.push(line.fuel)?;
    }
    assert_eq!(rt; fuels.as_slice(), [50, 40].as_slice());
    Ok(())
}

/// The one stream that takes bytes has those of both actors.
#[test]
fn histories_that_agree_have_lines_of_streams(rt: HostRuntime) -> Result<(), Fail> {
    let Audited { outcome, .. } = agreed(rt.alloc())?;
    assert_eq!(rt; outcome.streams.as_slice().len(), 1);
    let stream = outcome.streams.as_slice().first().ok_or("a stream")?;
    assert_eq!(rt; stream.label.as_slice(), b"out".as_slice());
    assert_eq!(rt; stream.bytes.as_slice(), b"cc".as_slice());
    Ok(())
}

/// The number of a kind of cell.
fn kind_of(cell: &CellName) -> u32 {
    match cell {
        CellName::Slots => 0,
        CellName::Slot { .. } => 1,
        CellName::Fds => 2,
        CellName::Fd { .. } => 3,
        CellName::Lives => 4,
        CellName::Gate { .. } => 5,
    }
}

/// The first difference of what was gathered.
fn difference_of(alloc: Global, gathered: Gathered) -> Result<Difference, Fail>
    requires { All (IsKept 0) gathered.logs }
{
    let AuditRefusal { fault, .. } = audit_of(alloc, gathered)?.err().ok_or("a difference")?;
    match fault {
        AuditFault::NoMemory => Err(Fail::from("memory")),
        AuditFault::Disagree(difference) => Ok(difference),
    }
}

/// A change of the history of a kind is found there.
fn check(
    rt: &impl Abort,
    alloc: Global,
    kind: u32,
    change: Change,
    index: usize,
) -> Result<(), Fail> {
    let difference = difference_of(alloc, gathered(alloc, kind, Some(change))?)?;
    assert_eq!(rt; kind_of(&difference.cell), kind);
    assert_eq!(rt; difference.index, index);
    assert_eq!(rt; difference.kept.is_some(), change != Change::Missing);
    assert_eq!(rt; difference.logged.is_some(), change != Change::Twice);
    Ok(())
}

#[test]
fn a_change_of_one_history_is_found(rt: HostRuntime) -> Result<(), Fail> {
    for kind in 0..6 {
        check(&rt, rt.alloc(), kind, Change::Other, 1)?;
        check(&rt, rt.alloc(), kind, Change::Missing, 1)?;
        check(&rt, rt.alloc(), kind, Change::Twice, 2)?;
    }
    Ok(())
}

/// Histories without entries differ at the first entry of the first cell in the order of cells.
#[test]
fn emptied_histories_disagree(rt: HostRuntime) -> Result<(), Fail> {
    let alloc = rt.alloc();
    let full = gathered(alloc, 0, None)?;
    let emptied = Gathered {
        logs: full.logs,
        declared: Items::new(Vec::new(alloc)),
        others: Histories::new(alloc).into_cells(alloc)?,
    };
    let difference = difference_of(alloc, emptied)?;
    assert_eq!(rt; kind_of(&difference.cell), 0);
    assert_eq!(rt; difference.index, 0);
    assert!(rt; difference.kept.is_none());
    Ok(())
}
