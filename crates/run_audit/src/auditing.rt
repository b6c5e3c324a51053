//! The audit.

ghost use Rattle.std.specs.Prelude.{◌≡◌, All, IfErr, IfOk};
ghost use Rattle.std.specs.Result.{MatchResult};
ghost use Rattle.thread_laws.specs.Joining.{AreWalked, IsJournalOfRun};
ghost use Rattle.thread_laws.specs.Joining.{journal_of};
ghost use Rattle.thread_laws.specs.KeptEntries.{all_kept, entries_elsewhere, AreKept, IsKept};
ghost use Rattle.thread_laws.specs.LookUps.{AreCountsOf};
ghost use Rattle.thread_laws.specs.Replaying.{all_histories, Legal};
ghost use Rattle.run_audit.specs.Audits.{IsAudit, IsCompared};
ghost use Rattle.thread_laws.specs.Sorting.{in_order};
ghost use Rattle.run_audit.specs.ComparedCells.{compared_histories, DeclaredAgree};
ghost use Rattle.run_audit.specs.ComparedCells.{IsAtCompared, KeepCompared};
ghost use Rattle.run_audit.specs.Differences.{IsComparison, IsFault};

use crate::caches::counts_of;
use crate::comparison::first_difference;
use crate::fault::{AuditFault, Difference};
use crate::merging::compared_in_order;
use crate::outcome::outcome_gathered;
use crate::run_journal::RunJournal;
use crate::sorts::{
    JournalEntry, histories_by_cell, journal_references, kept_of_histories, logged_by_cell,
};
use grant_cache::CacheLine;
use image_form::Image;
use std::alloc::Global;
use thread_laws::{ActorLog, CellHistory, Gathered};
use wedge_base::{Items, NoMemory, Outcome};

/// The journal and the outcome of a run on threads.
#[derive(Debug, Drop)]
pub struct Audited {
    pub journal: RunJournal,
    pub outcome: Outcome,
    /// The counts of the caches of its actors, in the order of their names.
    pub caches: Items<CacheLine>,
}

/// Says why there is no audit, and hands back what was to be audited.
#[derive(Drop)]
pub struct AuditRefusal {
    pub fault: AuditFault,
    pub gathered: Gathered,
}

/// What an audit finds before it moves anything.
#[derive(Drop)]
pub(crate) struct Compared {
    outcome: Outcome,
    caches: Items<CacheLine>,
}

/// Returns references to the logged entries that are compared, which are those that are not on the first
/// `declared` slots, in the order of their stamps, those of one stamp by the names of their actors. The logs keep
/// all of these.
fn compared_journal<'a>(
    alloc: Global,
    declared: usize,
    logs: &'a [ActorLog],
) -> Result<Vec<JournalEntry<'a>>, NoMemory>
    requires { KeepCompared declared logs.now }
    ensures { IfOk result (λ v. v.items ≡ entries_elsewhere declared (journal_of logs.now)) }
{
    let sorted = compared_in_order(alloc, declared, logs)?;
    journal_references(alloc, sorted.as_slice())
}

/// Returns the first difference between histories and the entries of a journal that are compared, or none
/// where all cells agree that are compared: all but the first `declared` slots.
#[tactic(auto, using(crate::proofs::Comparing::kept_ordered, crate::proofs::Comparing::sorted_ordered))]
fn compare_cells(
    alloc: Global,
    declared: usize,
    journal: &[JournalEntry<'_>],
    cells: &[CellHistory],
) -> Result<Option<Difference>, NoMemory>
    ensures { IfOk result (λ r.
        IsComparison (compared_histories declared cells.now) journal.now r) }
{
    let histories = histories_by_cell(alloc, declared, cells)?;
    let kept = kept_of_histories(alloc, histories.as_slice())?;
    let logged = logged_by_cell(alloc, journal)?;
    first_difference(alloc, kept.as_slice(), logged.as_slice())
}

/// Returns the outcome of logs with which the histories of all cells agree that are compared, all
/// but the slots of declared tags. With it come the counts of their caches.
fn compare_gathered(
    alloc: Global,
    image: &Image,
    gathered: &Gathered,
) -> Result<Compared, AuditFault>
    requires { AreKept gathered.now }
    ensures found { MatchResult result (λ c. IsCompared image.now gathered.now c)
        (λ f. DeclaredAgree gathered.now
        → IsFault gathered.now.logs (all_histories gathered.now) f) }
    ensures cell { IfErr result (λ f. IsAtCompared gathered.now f) }
{
    let declared = gathered.declared.as_slice().len();
    let journal = compared_journal(alloc, declared, gathered.logs.as_slice())?;
    let entries = journal.as_slice();
    if let Some(difference) = compare_cells(alloc, declared, entries, gathered.others.as_slice())? {
        return Err(AuditFault::Disagree(difference));
    }
    let outcome = outcome_gathered(alloc, image, entries, gathered)?;
    let caches = counts_of(alloc, gathered.logs.as_slice(), outcome.actors.as_slice())?;
    Ok(Compared {
        outcome,
        caches: Items::new(caches),
    })
}

/// Returns the journal and the outcome of what a run on threads left: the journal is all logged
/// entries in the order of their stamps, those of one stamp by the names of their actors, and the
/// outcome is read off logs and histories, as are the counts of the caches. Fails with `Disagree`
/// exactly where the history of a cell that is compared differs from the logged entries of that
/// cell, at the first such difference in the order of cells, and hands back what it was given.
///
/// The slots of declared tags are not compared: only proofs know their histories, which need no
/// audit. Where these agree with the logs, which the caller has to know, Ok says that all
/// cells do, and `Disagree` is the first difference of all cells.
///
/// Where moreover the logs are those of whole executions and the histories are legal, Ok says that
/// the journal is a complete run of the image, with this outcome. Of logs of whole executions it
/// says that there are counts for each actor of the outcome, which are those for its entries in the
/// journal.
///
/// The logs may keep less than all their entries, but have to keep all that is compared, and to count all. Where they
/// keep all entries, the journal has them all in memory, and can be asked for.
pub fn audit(alloc: Global, image: &Image, gathered: Gathered) -> Result<Audited, AuditRefusal>
    requires { AreKept gathered }
    ensures result { DeclaredAgree gathered → MatchResult result
        (λ a. IsAudit image.now gathered.logs (all_histories gathered) a)
        (λ r. (r.gathered ≡ gathered)
        × IsFault gathered.logs (all_histories gathered) r.fault) }
    ensures given { IfErr result (λ r. r.gathered ≡ gathered) }
    ensures cell { IfErr result (λ r. IsAtCompared gathered r.fault) }
    ensures run { AreWalked image.now gathered.logs → Legal image.now (all_histories gathered)
        → DeclaredAgree gathered
        → IfOk result (λ a. IsJournalOfRun image.now a.journal.entries a.outcome) }
    ensures caches { AreWalked image.now gathered.logs
        → IfOk result (λ a. AreCountsOf a.journal.entries a.outcome.actors a.caches) }
    ensures kept { IfOk result (λ a. a.journal.kept ≡ in_order (all_kept gathered.logs)) }
    ensures whole { All (IsKept 0) gathered.logs
        → IfOk result (λ a. a.journal.kept ≡ a.journal.entries) }
{
    match compare_gathered(alloc, image, &gathered) {
        Ok(compared) => {
            let Compared { outcome, caches } = compared;
            let Gathered { logs, .. } = gathered;
            Ok(Audited {
                journal: RunJournal::of_logs(alloc, logs),
                outcome,
                caches,
            })
        }
        Err(fault) => Err(AuditRefusal { fault, gathered }),
    }
}
