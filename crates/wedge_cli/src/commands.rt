//! What each command makes of its files.

ghost use Rattle.std.specs.Prelude.{◌≡◌, ◌≤◌, ◌++◌, ℕ, List, Some, None, true, IfOk, IfErr, OnOk};
ghost use Rattle.cli_inputs.specs.Words as asking;
ghost use Rattle.cli_inputs.specs.Loading.{IsRefusedBy, image_from_bytes};
ghost use Rattle.run_audit.specs.RunJournals.{RunEntries};
ghost use Rattle.audited_run.specs.Texts.{difference_text};
ghost use Rattle.command_texts.specs.Answers.{RunsNothing, IsTextOf};
ghost use Rattle.refusal_lines.specs.Lines as lines;
ghost use Rattle.wedge_cli.specs.Causes.{IsRefused};
ghost use Rattle.wedge_cli.specs.Ended.{on_out, run_texts, differs_texts, no_run, IsAnswered, IsReported, IsEnoughFor, IsScheduleReadAgain, RunsImage, IsCommandOutput};

use crate::workloads::run_workload;
use crate::writing::{KeptRun, Ready, SinkName, Text};
use audited_run::{AuditedRun, Differs, run_audited, write_difference};
use cli_inputs::{Command, Refusal, RunFlag, load_image};
use command_texts::command_text;
use grant_cache::CacheLine;
use host_io::{Files, Pace};
use image_form::Image;
use report_text::{report, write_caches, write_schedule};
use run_audit::{Difference, RunJournal};
use std::alloc::Global;
use std::sync::Wait;
use std::thread::Threads;
use wedge_base::{Bytes, Items, NoMemory, Outcome};

/// The texts of a command: all of them are made before the first is written.
pub(crate) fn prepare<R: Threads + Wait + Sync, F: Files, P: Pace + Sync>(
    rt: &R,
    alloc: Global,
    command: Command<'_>,
    files: &mut F,
    pace: &P,
) -> Result<Ready, Refusal>
    requires workers { asking.HasFitWorkers (asking.asked_by command) }
    ensures made { IfOk result (λ r. IsCommandOutput (asking.asked_by command.entry)
        (F.content files.old) r.kept r.texts.items) }
    ensures refused { IfErr result (IsRefused (asking.asked_by command.entry) (F.content files.old)
        (F.faults files.old) (F.faults files.new)) }
    ensures content { (other : List ℕ) → F.content files.new other
        ≡ F.content files.old other }
    ensures rises { (other : List ℕ) → F.faults files.old other ≤ F.faults files.new other }
{
    match command {
        Command::Run { image, flag } => run(rt, alloc, files, image, flag, pace),
        Command::Gen { workers } => {
            let ready = run_workload(rt, alloc, workers, pace)?;
            Ok(ready)
        }
        Command::Show { .. }
        | Command::Build { .. }
        | Command::Link { .. }
        | Command::Replay { .. }
        | Command::Log { .. }
        | Command::Emulate { .. }
        | Command::Enforce { .. }
        | Command::Derive { .. }
        | Command::Analyze { .. } => one_text(alloc, command, files),
    }
}

/// The text of a command that runs nothing on threads.
fn one_text<F: Files>(alloc: Global, command: Command<'_>, files: &mut F) -> Result<Ready, Refusal>
    requires { RunsNothing (asking.asked_by command) }
    ensures made { IfOk result (λ r. IsAnswered
        (IsTextOf (asking.asked_by command.entry) (F.content files.old)) r.kept r.texts.items) }
    ensures refused { IfErr result (IsRefused (asking.asked_by command.entry) (F.content files.old)
        (F.faults files.old) (F.faults files.new)) }
    ensures content { (other : List ℕ) → F.content files.new other
        ≡ F.content files.old other }
    ensures rises { (other : List ℕ) → F.faults files.old other ≤ F.faults files.new other }
{
    let text = command_text(alloc, command, files)?;
    let ready = on_out(alloc, text)?;
    Ok(ready)
}

/// Runs an image on threads.
fn run<R: Threads + Wait + Sync, F: Files, P: Pace + Sync>(
    rt: &R,
    alloc: Global,
    files: &mut F,
    name: &str,
    flag: RunFlag,
    pace: &P,
) -> Result<Ready, Refusal>
    ensures made { IfOk result
        (λ r. RunsImage flag (F.content files.old name.now) r.kept r.texts.items) }
    ensures refused { IfErr result
        (IsRefusedBy image_from_bytes name.now (F.content files.old name.now)
        (F.faults files.old name.now) (F.faults files.new name.now)) }
    ensures content { (other : List ℕ) → F.content files.new other
        ≡ F.content files.old other }
    ensures rises { (other : List ℕ) → F.faults files.old other ≤ F.faults files.new other }
{
    let image = load_image(alloc, files, name)?;
    let ready = run_image(rt, alloc, &image, flag, pace)?;
    Ok(ready)
}

/// The texts of a run of an image, with its journal.
fn run_image<R: Threads + Wait + Sync, P: Pace + Sync>(
    rt: &R,
    alloc: Global,
    image: &Image,
    flag: RunFlag,
    pace: &P,
) -> Result<Ready, NoMemory>
    ensures { IfOk result
        (λ r. IsReported image.now flag r.kept r.texts.items) }
{
    let AuditedRun {
        journal,
        outcome,
        caches,
        differs,
    } = run_audited(rt, alloc, image, pace, needs_all(flag))?;
    let (journal, mut texts) = texts_of(alloc, journal, &outcome, &caches, flag)?;
    add_difference(alloc, &mut texts, &differs)?;
    let kept = KeptRun {
        journal: Some(journal),
        differs,
    };
    Ok(Ready { kept, texts })
}

/// Returns whether the texts of a run need all entries of its journal.
fn needs_all(flag: RunFlag) -> bool
    ensures { (journal : RunEntries) → (result ≡ true → journal.kept ≡ journal.entries)
        → IsEnoughFor flag journal }
{
    match flag {
        RunFlag::Schedule => true,
        RunFlag::Plain | RunFlag::Stats => false,
    }
}

/// The texts of a run with this journal, this outcome and these counts of its caches; and the journal, whose entries are
/// put in its order where the schedule is asked for.
fn texts_of(
    alloc: Global,
    journal: RunJournal,
    outcome: &Outcome,
    caches: &Items<CacheLine>,
    flag: RunFlag,
) -> Result<(RunJournal, Vec<Text>), NoMemory>
    requires { IsEnoughFor flag journal }
    ensures same { IfOk result (λ t. t.0 ≡ journal) }
    ensures texts { IfOk result
        (λ t. t.1.items ≡ run_texts flag journal outcome.now caches.now) }
    ensures again { IfOk result (λ t. IsScheduleReadAgain flag journal.entries) }
{
    let mut report = report(alloc, outcome)?;
    match flag {
        RunFlag::Plain => {
            let texts = vec![in alloc; text_on(SinkName::Out, report)]?;
            Ok((journal, texts))
        }
        RunFlag::Schedule => {
            let ordered = journal.into_journal(alloc)?;
            let schedule = write_schedule(alloc, &ordered)?;
            let texts = vec![in alloc;
                text_on(SinkName::Out, schedule),
                text_on(SinkName::Err, report),
            ]?;
            Ok((RunJournal::ordered(alloc, ordered), texts))
        }
        RunFlag::Stats => {
            write_caches(&mut report, caches.as_slice())?;
            let texts = vec![in alloc; text_on(SinkName::Out, report)]?;
            Ok((journal, texts))
        }
    }
}

/// Adds the line of what differs, if anything does.
pub(crate) fn add_difference(
    alloc: Global,
    texts: &mut Vec<Text>,
    differs: &Option<Differs>,
) -> Result<(), NoMemory>
    ensures { OnOk result (texts.new.items ≡ texts.old.items ++ differs_texts differs.now) }
{
    if let Some(differs) = differs {
        let line = difference_line(alloc, &differs.disagree)?;
        texts.push(text_on(SinkName::Err, line))?;
    }
    Ok(())
}

/// Returns the line of a run whose logs and histories differ.
fn difference_line(alloc: Global, difference: &Difference) -> Result<Vec<u8>, NoMemory>
    ensures { IfOk result (λ v. v.items ≡ lines.line (difference_text difference.now)) }
{
    let mut line = Vec::from_slice(alloc, b"wedge: ")?;
    write_difference(&mut line, difference)?;
    line.push(b'\n')?;
    Ok(line)
}

/// One text, on the output, of a command that runs nothing.
pub(crate) fn on_out(alloc: Global, bytes: Vec<u8>) -> Result<Ready, NoMemory>
    ensures kept { IfOk result (λ r. r.kept ≡ no_run) }
    ensures texts { IfOk result (λ r. r.texts.items ≡ on_out bytes.items) }
{
    let texts = vec![in alloc; text_on(SinkName::Out, bytes)]?;
    let kept = KeptRun {
        journal: None,
        differs: None,
    };
    Ok(Ready { kept, texts })
}

/// A text for a sink.
pub(crate) fn text_on(sink: SinkName, bytes: Vec<u8>) -> Text
    ensures { result ≡ record { sink = sink; bytes = bytes.items } }
{
    Text {
        sink,
        bytes: Bytes::new(bytes),
    }
}
