//! The run of a workload.

ghost use Rattle.std.specs.Prelude.{◌≡◌, ◌≤◌, IfOk};
ghost use Rattle.workload.specs.Workload.{workload};
ghost use Rattle.wedge_cli.specs.Ended.{on_out, summary_line, IsSummary, IsSummed};

use crate::commands::{add_difference, text_on};
use crate::writing::{KeptRun, Ready, SinkName, Text};
use audited_run::{AuditedRun, run_audited};
use host_io::Pace;
use image_form::Image;
use report_text::summary;
use run_audit::RunJournal;
use std::alloc::Global;
use std::sync::Wait;
use std::thread::Threads;
use wedge_base::{NoMemory, Outcome};
use workload::generate;

/// Runs the workload of 1 to 200 workers on threads, and returns the line that sums the run up, with its journal. Fails
/// only where out of memory.
pub(crate) fn run_workload<R: Threads + Wait + Sync, P: Pace + Sync>(
    rt: &R,
    alloc: Global,
    workers: u32,
    pace: &P,
) -> Result<Ready, NoMemory>
    requires some { 1 ≤ workers }
    requires few { workers ≤ 200 }
    ensures { IfOk result (λ r. IsSummed workers r.kept r.texts.items) }
{
    let image = generate(alloc, workers)?;
    run_summed(rt, alloc, &image, workers, pace)
}

/// Runs the image of a workload.
fn run_summed<R: Threads + Wait + Sync, P: Pace + Sync>(
    rt: &R,
    alloc: Global,
    image: &Image,
    workers: u32,
    pace: &P,
) -> Result<Ready, NoMemory>
    ensures { IfOk result
        (λ r. IsSummary image.now workers r.kept r.texts.items) }
{
    let AuditedRun {
        journal,
        outcome,
        differs,
        ..
    } = run_audited(rt, alloc, image, pace, false)?;
    let mut texts = summary_texts(alloc, workers, &journal, &outcome)?;
    add_difference(alloc, &mut texts, &differs)?;
    let kept = KeptRun {
        journal: Some(journal),
        differs,
    };
    Ok(Ready { kept, texts })
}

/// The one text of a run of a workload with this journal and this outcome.
fn summary_texts(
    alloc: Global,
    workers: u32,
    journal: &RunJournal,
    outcome: &Outcome,
) -> Result<Vec<Text>, NoMemory>
    ensures { IfOk result
        (λ t. t.items ≡ on_out (summary_line workers journal.now outcome.now)) }
{
    let entries = journal.len()? as u64;
    let line = summary(alloc, workers, outcome, entries)?;
    let texts = vec![in alloc; text_on(SinkName::Out, line)]?;
    Ok(texts)
}
