//! Runs on threads, audited, and checked by replays in the core.

ghost use Rattle.std.specs.Prelude.{All};
ghost use Rattle.thread_laws.specs.KeptEntries.{AreKept, IsKept};

use gate_runner::run_image;
use image_form::Image;
use meeting_pace::Meeting;
use part_toml::read_partition;
use report_text::report;
use run_audit::{Audited, audit};
use std::alloc::Global;
use std::sync::Wait;
use std::test::Fail;
use std::thread::Threads;
use std::time::Clock;
use thread_laws::Gathered;
use wedge_base::{ActorName, End, NoMemory, Outcome};
use wedge_core::{ReplayFault, outcome, replay};
use wedge_events::{Journal, LogEntry};

/// The journal and the outcome of a run on threads that is audited and replayed.
#[derive(Drop)]
pub struct CheckedRun {
    pub journal: Journal,
    pub outcome: Outcome,
}

/// Returns the image of a program that begins with so much fuel, and of the tables beside it.
pub fn image_of(alloc: Global, fuel: u32, text: &str, tables: &str) -> Result<Image, Fail> {
    let head = "entry = \"main\"\nuser = 0\nroot = \"/\"\n";
    let part = format!(in alloc; "fuel = {fuel}\n{head}text = \"\"\"\n{text}\"\"\"\n{tables}")?;
    match read_partition(alloc, part.as_str()) {
        Ok(image) => Ok(image),
        Err(_) => Err("no image".into()),
    }
}

/// Returns the names of the actors of a journal, in its order.
fn names_of(alloc: Global, entries: &[LogEntry]) -> Result<Vec<ActorName>, NoMemory> {
    let mut names = Vec::new(alloc);
    for entry in entries {
        names.push(entry.actor.copy()?)?;
    }
    Ok(names)
}

/// Whether two entries are of one event of one actor, whatever their stamps.
fn is_same_turn(a: &LogEntry, b: &LogEntry) -> bool {
    a.actor.is_same(&b.actor) && a.event.is_same(&b.event)
}

/// Whether two journals have the same turns in the same order.
fn are_same_turns(journal: &[LogEntry], replayed: &[LogEntry]) -> bool {
    journal.len() == replayed.len()
        && journal
            .iter()
            .zip(replayed)
            .all(|(a, b)| is_same_turn(a, b))
}

/// Whether two outcomes have the same report.
fn is_same_outcome(alloc: Global, a: &Outcome, b: &Outcome) -> Result<bool, NoMemory> {
    let a = report(alloc, a)?;
    let b = report(alloc, b)?;
    Ok(a.as_slice() == b.as_slice())
}

/// What a replay leaves.
#[derive(Drop)]
struct Ending {
    outcome: Outcome,
    entries: Vec<LogEntry>,
}

/// Returns what the replay of a schedule leaves.
fn ending_of(alloc: Global, image: &Image, names: &[ActorName]) -> Result<Ending, ReplayFault> {
    let world = replay(alloc, image, names)?;
    let outcome = outcome(alloc, &world)?;
    let entries = world.into_entries();
    Ok(Ending { outcome, entries })
}

/// Whether what was audited is a run: the names of its journal replay in the core, to its outcome, by its turns.
fn is_a_run(alloc: Global, image: &Image, run: &CheckedRun) -> Result<bool, Fail> {
    let entries = run.journal.entries.as_slice();
    let names = names_of(alloc, entries)?;
    let replayed = ending_of(alloc, image, names.as_slice())?;
    let is_same = is_same_outcome(alloc, &replayed.outcome, &run.outcome)?;
    Ok(is_same && are_same_turns(entries, replayed.entries.as_slice()))
}

/// Audits what was gathered of a run, and checks that it is one.
fn checked(alloc: Global, image: &Image, gathered: Gathered) -> Result<CheckedRun, Fail>
    requires kept { AreKept gathered }
    requires whole { All (IsKept 0) gathered.logs }
{
    let Ok(audited) = audit(alloc, image, gathered) else {
        return Err("no audit".into());
    };
    let Audited {
        journal,
        outcome,
        ..
    } = audited;
    let run = CheckedRun {
        journal: journal.into_journal(alloc)?,
        outcome,
    };
    if is_a_run(alloc, image, &run)? {
        Ok(run)
    } else {
        Err("no run".into())
    }
}

/// Runs an image on threads. So many of its actors meet before their first shared events, whatever the root does
/// meanwhile.
pub fn run_at_once<R: Threads + Wait + Clock + Sync>(
    rt: &R,
    alloc: Global,
    image: &Image,
    wanted: u32,
) -> Result<CheckedRun, Fail> {
    let meeting = Meeting::new(rt, wanted);
    let gathered = run_image(rt, alloc, image, &meeting, true)?;
    if meeting.took_place() {
        checked(alloc, image, gathered)
    } else {
        Err("actors that did not meet".into())
    }
}

/// Returns how many actors ended so.
pub fn ended(run: &CheckedRun, end: End) -> usize {
    let lines = run.outcome.actors.as_slice();
    lines.iter().filter(|line| line.end == end).count()
}

/// Returns the value with which the root exited.
pub fn exit_of_root(run: &CheckedRun) -> Option<u32> {
    let root = run.outcome.actors.as_slice().first()?;
    match root.end {
        End::Exited(value) => Some(value),
        _ => None,
    }
}

/// Returns how many entries the journal has.
pub fn length(run: &CheckedRun) -> usize {
    run.journal.entries.as_slice().len()
}
