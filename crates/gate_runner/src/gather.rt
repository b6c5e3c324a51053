//! What a run on threads leaves.

ghost use Rattle.std.specs.Prelude.{◌≡◌, ◌≤◌, ◌∷◌, All, IfOk, length};
ghost use Rattle.machine.specs.Actors.{root};
ghost use Rattle.actor_task.specs.Returning.{IsReturned};
ghost use Rattle.thread_laws.specs.KeptEntries.{IsKept};
ghost use Rattle.gate_runner.specs.Gathering.{IsGathered};

use actor_run::KeptLog;
use actor_task::Returned;
use journal_cell::RunOf;
use run_cells::{RunCells, TableOf};
use std::alloc::Global;
use thread_laws::{ActorLog, Gathered};
use wedge_base::{Items, NoMemory};

/// Returns what a run left: the log of the root, those of all that it created, and the histories of the cells.
pub(crate) fn gathered<I: RunOf, T: TableOf>(
    alloc: Global,
    returned: Returned<I, T>,
    cells: RunCells<I, T>,
) -> Result<Gathered, NoMemory>
    requires returned { IsReturned I.image T.table.slots (root I.image) 0 returned }
    requires count { T.table.slots ≡ length I.image.tags }
    requires kept { I.unkept ≤ length I.image.tags }
    ensures gathered { IfOk result (IsGathered I.image) }
    ensures kept { IfOk result (λ g. All (IsKept I.unkept) g.logs) }
{
    let Returned {
        log,
        others,
        gates,
        passes,
        ..
    } = returned;
    let logs = logs_of(alloc, log, others)?;
    cells.into_gathered(alloc, Items::new(logs), gates, passes)
}

/// Returns the logs of a run: this one, and the others in their order.
fn logs_of<I: RunOf>(
    alloc: Global,
    log: KeptLog<I>,
    others: Vec<KeptLog<I>>,
) -> Result<Vec<ActorLog>, NoMemory>
    ensures is { IfOk result (λ v. v.items ≡ log ∷ others.items) }
    ensures kept { IfOk result (λ v. All (IsKept I.unkept) v.items) }
{
    let mut logs = Vec::new(alloc);
    logs.push(log.into_log())?;
    for one in others {
        logs.push(one.into_log())?;
    }
    Ok(logs)
}
