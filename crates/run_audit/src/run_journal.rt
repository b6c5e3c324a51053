//! The journal of a run, whose entries stay in the logs of its actors until it is asked for.

ghost use Rattle.std.specs.Prelude.{◌≡◌, length, take, All, IfOk};
ghost use Rattle.thread_laws.specs.Joining.{all_logged, journal_of};
ghost use Rattle.thread_laws.specs.KeptEntries.{all_kept};
ghost use Rattle.thread_laws.specs.Sorting.{in_order};
ghost use Rattle.run_audit.specs.RunJournals.{CountsAll};

use crate::moving::journal_moved;
use std::alloc::Global;
use std::marker::Model;
use thread_laws::ActorLog;
use wedge_base::{Items, NoMemory};
use wedge_events::{Journal, LogEntry};

/// The journal of a run. Its entries are in its order, or still in the logs of the actors, which may keep some of them
/// alone. Where they keep all, they are put in order when the journal is asked for. Contracts see it as all entries of
/// the journal, and those that are in memory.
#[derive(Debug)]
pub struct RunJournal {
    ordered: Items<LogEntry>,
    logs: Items<ActorLog>,
}

// By hand: a derived drop would be proved again in each function that drops one.
impl Drop for RunJournal {
    fn drop(self) {
        let Self {
            ordered: _,
            logs: _,
        } = self;
    }
}

impl Model for RunJournal {
    ghost use Rattle.std.specs.Prelude.{◌≡◌, ◌++◌, ◌⊎◌, [], All};
    ghost use Rattle.thread_laws.specs.Joining.{journal_of};
    ghost use Rattle.thread_laws.specs.KeptEntries.{all_kept};
    ghost use Rattle.thread_laws.specs.Sorting.{in_order};
    ghost use Rattle.run_audit.specs.RunJournals.{RunEntries, CountsAll};

    ghost Value = { RunEntries };

    ghost view = { λ p. record {
      entries = p.ordered ++ journal_of p.logs;
      kept = p.ordered ++ in_order (all_kept p.logs);
    } };

    ghost invariant = { λ p. ((p.logs ≡ []) ⊎ (p.ordered ≡ [])) × All CountsAll p.logs };
}

/// Returns the number of all entries of logs, by their counts. Fails where it is 2^64 or more.
#[tactic(auto, using(crate::proofs::RunJournals::counted_more))]
fn count_logged(logs: &[ActorLog]) -> Result<usize, NoMemory>
    requires { All CountsAll logs.now }
    ensures { IfOk result (λ n. n ≡ length (all_logged logs.now)) }
{
    let mut count: usize = 0;
    for log in logs {
        count = count.checked_add(log.count as usize).ok_or(NoMemory)?;
    }
    Ok(count)
}

impl RunJournal {
    /// Returns a journal whose entries are in its order. It takes no memory.
    pub fn ordered(alloc: Global, journal: Journal) -> RunJournal
        ensures { result ≡ record { entries = journal.entries; kept = journal.entries } }
    {
        RunJournal {
            ordered: journal.entries,
            logs: Items::new(Vec::new(alloc)),
        }
    }

    /// Returns the journal of the entries of logs, each with its count. It takes no memory.
    pub(crate) fn of_logs(alloc: Global, logs: Items<ActorLog>) -> RunJournal
        requires { All CountsAll logs }
        ensures entries { result.entries ≡ journal_of logs }
        ensures kept { result.kept ≡ in_order (all_kept logs) }
    {
        RunJournal {
            ordered: Items::new(Vec::new(alloc)),
            logs,
        }
    }

    /// Returns the number of all entries, kept or not. Fails where it is 2^64 or more.
    pub fn len(&self) -> Result<usize, NoMemory>
        ensures { IfOk result (λ n. n ≡ length self.now.entries) }
    {
        if self.logs.as_slice().is_empty() {
            Ok(self.ordered.as_slice().len())
        } else {
            count_logged(self.logs.as_slice())
        }
    }

    /// Consumes the journal, and returns it with its entries in its order. It can be asked for only where all its entries
    /// were kept. Fails only where out of memory; then it is lost.
    pub fn into_journal(self, alloc: Global) -> Result<Journal, NoMemory>
        requires { self.kept ≡ self.entries }
        ensures { IfOk result (λ j. j.entries ≡ self.entries) }
    {
        let RunJournal { ordered, logs } = self;
        if logs.as_slice().is_empty() {
            Ok(Journal { entries: ordered })
        } else {
            journal_moved(alloc, logs)
        }
    }
}
