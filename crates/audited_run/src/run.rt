//! A run on threads, its audit, and the run that is made again.

ghost use Rattle.std.specs.Prelude.{◌≡◌, true, All, IfOk, Some, None};
ghost use Rattle.thread_laws.specs.KeptEntries.{IsKept};
ghost use Rattle.gate_runner.specs.Gathering.{IsGathered};
ghost use Rattle.audited_run.specs.AuditedRuns.{IsAudited, IsAuditedRun, IsDiffering};

use gate_runner::run_image;
use grant_cache::CacheLine;
use host_io::Pace;
use image_form::Image;
use run_audit::{AuditFault, AuditRefusal, Audited, Difference, RunJournal, audit};
use std::alloc::Global;
use std::sync::Wait;
use std::thread::Threads;
use thread_laws::Gathered;
use wedge_base::{Items, NoMemory, Outcome};
use wedge_core::serial;

/// What a run on threads left, where the histories that its cells kept differ from the logs of its actors, and the
/// first difference.
#[derive(Debug)]
pub struct Differs {
    pub gathered: Gathered,
    pub disagree: Difference,
}

// By hand: a derived drop would be proved again in each function that drops one.
impl Drop for Differs {
    fn drop(self) {
        let Self {
            gathered: _,
            disagree: _,
        } = self;
    }
}

/// The journal and the outcome of a run. Where the threads' logs and histories differ, they are those of a run on one
/// thread, and `differs` says what differed.
#[derive(Debug, Drop)]
pub struct AuditedRun {
    pub journal: RunJournal,
    pub outcome: Outcome,
    /// The counts of the caches of rights of its actors, in the order of their names. A run on one thread has none.
    pub caches: Items<CacheLine>,
    pub differs: Option<Differs>,
}

/// Runs an image on threads, and compares the logs of its actors with the histories of its cells. Where all agree, the
/// journal is all that was logged, in the order of stamps and names; it is that of a complete run, with this outcome.
/// Where they differ, the image is run again on one thread, each turn that of the actor that was started last and has
/// not ended, and `differs` has what differed.
///
/// `is_whole` says whether the logs keep all entries, so that the journal can be asked for. If not, they need not keep those
/// on the slots of declared tags.
///
/// Fails only where out of memory or of stamps, after all threads have ended.
pub fn run_audited<R: Threads + Wait + Sync, P: Pace + Sync>(
    rt: &R,
    alloc: Global,
    image: &Image,
    pace: &P,
    is_whole: bool,
) -> Result<AuditedRun, NoMemory>
    ensures run { IfOk result (IsAuditedRun image.now) }
    ensures whole { is_whole ≡ true → IfOk result (λ r. r.journal.kept ≡ r.journal.entries) }
{
    let gathered = run_image(rt, alloc, image, pace, is_whole)?;
    audited(alloc, image, gathered)
}

/// Audits what a run of an image on threads left. Where it disagrees with itself, the image is run on one thread.
pub fn audited(alloc: Global, image: &Image, gathered: Gathered) -> Result<AuditedRun, NoMemory>
    requires { IsGathered image.now gathered }
    ensures run { IfOk result (IsAuditedRun image.now) }
    ensures of { IfOk result (λ r. IsAudited gathered r.differs) }
    ensures whole { All (IsKept 0) gathered.logs
        → IfOk result (λ r. r.journal.kept ≡ r.journal.entries) }
{
    match audit(alloc, image, gathered) {
        Ok(audited) => Ok(without_difference(audited)),
        Err(AuditRefusal { fault, gathered }) => match fault {
            AuditFault::NoMemory => Err(NoMemory),
            AuditFault::Disagree(disagree) => again(alloc, image, Differs { gathered, disagree }),
        },
    }
}

/// Returns a run of which logs and histories agree.
fn without_difference(audited: Audited) -> AuditedRun
    ensures { result ≡ record {
      journal = audited.journal;
      outcome = audited.outcome;
      caches = audited.caches;
      differs = None;
    } }
{
    let Audited {
        journal,
        outcome,
        caches,
    } = audited;
    AuditedRun {
        journal,
        outcome,
        caches,
        differs: None,
    }
}

/// Runs an image on one thread, since what its threads left differs.
fn again(alloc: Global, image: &Image, differs: Differs) -> Result<AuditedRun, NoMemory>
    requires { IsDiffering image.now differs }
    ensures run { IfOk result (IsAuditedRun image.now) }
    ensures differs { IfOk result (λ r. r.differs ≡ Some differs) }
    ensures whole { IfOk result (λ r. r.journal.kept ≡ r.journal.entries) }
{
    let (journal, outcome) = serial(alloc, image)?;
    Ok(AuditedRun {
        journal: RunJournal::ordered(alloc, journal),
        outcome,
        caches: Items::new(Vec::new(alloc)),
        differs: Some(differs),
    })
}
