//! The counts of the caches of actors, read off their logs.

ghost use Rattle.std.specs.Prelude.{◌≡◌, ◌++◌, ◌∷◌, List, ℕ, map, IfOk};
ghost use Rattle.std.specs.List.Sorted.{IsSortedBy};
ghost use Rattle.thread_laws.specs.CacheLines.{counts_named};
ghost use Rattle.run_audit.specs.LogOrder.{log_before};

use crate::logs::{LogReference, log_named, logs_by_name};
use grant_cache::CacheLine;
use std::alloc::Global;
use thread_laws::ActorLog;
use wedge_base::{ActorLine, ActorName, NoMemory};

/// Adds the counts in the first log of a name, if there is one, after others.
fn add_counts(
    sorted: &[LogReference<'_>],
    name: &ActorName,
    mut counts: Vec<CacheLine>,
) -> Result<Vec<CacheLine>, NoMemory>
    requires { IsSortedBy log_before sorted.now }
    ensures { IfOk result (λ v. (ns : List (List ℕ)) → v.items ++ counts_named sorted.now ns
        ≡ counts.items ++ counts_named sorted.now (name.now ∷ ns)) }
{
    match log_named(sorted, name) {
        Some(log) => {
            let name = name.copy()?;
            let count = log.cache;
            counts.push(CacheLine { name, count })?;
            Ok(counts)
        }
        None => Ok(counts),
    }
}

/// Returns the counts of the caches of the actors of these lines, in their order. An actor that has no log has
/// none.
pub(crate) fn counts_of(
    alloc: Global,
    logs: &[ActorLog],
    lines: &[ActorLine],
) -> Result<Vec<CacheLine>, NoMemory>
    ensures { IfOk result
        (λ v. v.items ≡ counts_named logs.now (map (λ l. l.name) lines.now)) }
{
    let sorted = logs_by_name(alloc, logs)?;
    let mut counts = Vec::new(alloc);
    for line in lines {
        counts = add_counts(sorted.as_slice(), &line.name, counts)?;
    }
    Ok(counts)
}
