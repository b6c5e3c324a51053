//! The leave of a gate, and what is returned of an actor that has ended.

ghost use Rattle.std.specs.Prelude.{◌≡◌, ◌++◌, ◌∷◌, All, IfOk, OnOk, true, false};
ghost use Rattle.machine.specs.Local.{has_ended};
ghost use Rattle.thread_laws.specs.ActorProgresses.{ActorProgress};
ghost use Rattle.thread_laws.specs.Replaying.{IsLegalHistory};
ghost use Rattle.wedge_events.specs.declared.cells.GateAsk.TheVariants as gate_ask;
ghost use Rattle.wedge_events.specs.declared.events.Want.{Want as AWant};
ghost use Rattle.actor_task.specs.Returning.{IsReturned};
ghost use Rattle.actor_task.specs.Steps.{IsLast};
ghost use Rattle.actor_task.specs.Tasks.{IsTask, IsTracked, IsUnlocked, Wants, HasFamilies};
ghost use Rattle.tag_laws.specs.DeclaredTags.{entries_on_declared};
ghost use Rattle.run_cells.specs.TagPasses.{all_entered};
ghost use Rattle.thread_laws.specs.Joining.{all_logged};
ghost use Rattle.actor_ends.specs.Leaving.{HasLeftGate, LeavesCell};

use actor_run::KeptLog;
use actor_task::{ActorTask, Created, Last, Returned, cellless_entry};
use host_io::Pace;
use journal_cell::RunOf;
use ready_text::Program;
use recycled_gate::Kept;
use run_cells::{LockedCell, TableOf, TagPass, leave_gate};
use std::alloc::Global;
use std::thread::Threads;
use thread_laws::CellHistory;
use wedge_base::{End, GateId, NoMemory};
use wedge_events::{Event, SavedView};

/// The logs of all that an actor created, the histories of the recycled gates that these made, and the passes of the
/// actor and of these.
#[derive(Drop)]
struct Gathering<I: RunOf, T: TableOf> {
    others: Vec<KeptLog<I>>,
    gates: Vec<CellHistory>,
    passes: Vec<TagPass<I, T>>,
}

/// What is left to do of an actor at its end that is the run of no recycled gate. Returns what its run returns. Fails where
/// it, or an actor that it created, ran out of memory, and where no stamp is left.
pub fn finish_unlocked<I: RunOf, T: TableOf, R: Threads, P: Pace>(
    task: ActorTask<I, T>,
    pass: TagPass<I, T>,
    rt: &R,
    program: &Program<'_>,
    pace: &P,
    last: Last,
) -> Result<Returned<I, T>, NoMemory>
    requires image { program.now ≡ I.image }
    requires last { IsLast task last }
    requires unlocked { IsUnlocked task.progress.began }
    requires tracked { IsTracked T.table.slots pass task.progress }
    ensures { IfOk result (IsReturned I.image T.table.slots task.progress.began task.progress.low) }
{
    match last {
        Last::Ended => finish(task, pass, rt),
        Last::Leave { end } => leave_fresh(task, pass, rt, program, pace, end),
        Last::LeaveRecycled { .. } => {
            keeps_run(&task);
            unreachable!()
        }
    }
}

/// The same of the run of a recycled gate, whose lock its caller holds. Fails as `finish_unlocked` does.
pub fn finish_locked<I: RunOf, T: TableOf, R: Threads, P: Pace>(
    task: ActorTask<I, T>,
    pass: TagPass<I, T>,
    rt: &R,
    program: &Program<'_>,
    pace: &P,
    last: Last,
    locked: &mut LockedCell<Kept, I>,
) -> Result<Returned<I, T>, NoMemory>
    requires image { program.now ≡ I.image }
    requires last { IsLast task last }
    requires entered { locked.old.state.entered ≡ true }
    requires tracked { IsTracked T.table.slots pass task.progress }
    ensures returned { IfOk result
        (IsReturned I.image T.table.slots task.progress.began task.progress.low) }
    ensures left { IfOk result (λ t. LeavesCell last task.progress t.log locked.old locked.new) }
{
    match last {
        Last::Ended => finish(task, pass, rt),
        Last::Leave { end } => leave_fresh(task, pass, rt, program, pace, end),
        Last::LeaveRecycled { gate, end, memory } => {
            pace.before(task.name());
            leave_recycled(task, pass, rt, program, locked, gate, end, memory)
        }
    }
}

/// For proofs alone: an actor is the run of the gate of which it began as the run.
fn keeps_run<I: RunOf, T: TableOf>(task: &ActorTask<I, T>)
    requires { task.now.stopped ≡ false }
    ensures { task.now.progress.state.run_of ≡ task.now.progress.began.run_of }
{
    // The actor is read here, so that what its type keeps is at hand.
    let _ = task.run.clock();
}

/// The actor leaves a fresh gate.
fn leave_fresh<I: RunOf, T: TableOf, R: Threads, P: Pace>(
    task: ActorTask<I, T>,
    pass: TagPass<I, T>,
    rt: &R,
    program: &Program<'_>,
    pace: &P,
    end: End,
) -> Result<Returned<I, T>, NoMemory>
    requires image { program.now ≡ I.image }
    requires wants { Wants task (AWant.Leave end) }
    requires tracked { IsTracked T.table.slots pass task.progress }
    ensures { IfOk result (IsReturned I.image T.table.slots task.progress.began task.progress.low) }
{
    let mut leaving = task;
    pace.before(leaving.name());
    let entry = cellless_entry(&leaving.run, Event::Leave { end })?;
    leaving.take_plain(program, entry)?;
    finish(leaving, pass, rt)
}

/// The actor leaves a recycled gate whose lock its caller holds.
fn leave_recycled<I: RunOf, T: TableOf, R: Threads>(
    task: ActorTask<I, T>,
    pass: TagPass<I, T>,
    rt: &R,
    program: &Program<'_>,
    locked: &mut LockedCell<Kept, I>,
    gate: GateId,
    end: End,
    memory: SavedView,
) -> Result<Returned<I, T>, NoMemory>
    requires image { program.now ≡ I.image }
    requires wants { Wants task (AWant.Gate gate (gate_ask.Leave end memory)) }
    requires entered { locked.old.state.entered ≡ true }
    requires tracked { IsTracked T.table.slots pass task.progress }
    ensures returned { IfOk result
        (IsReturned I.image T.table.slots task.progress.began task.progress.low) }
    ensures left { IfOk result (λ t.
        HasLeftGate gate end memory task.progress t.log locked.old locked.new) }
{
    let mut leaving = task;
    let entry = leave_gate(leaving.alloc, locked, &leaving.run, gate, end, memory)?;
    leaving.take_plain(program, entry)?;
    finish(leaving, pass, rt)
}

/// Consumes an actor that has ended, and returns what its run returns.
fn finish<I: RunOf, T: TableOf, R: Threads>(
    task: ActorTask<I, T>,
    pass: TagPass<I, T>,
    rt: &R,
) -> Result<Returned<I, T>, NoMemory>
    requires going { task.stopped ≡ false }
    requires ended { has_ended task.progress.state.phase ≡ true }
    requires tracked { IsTracked T.table.slots pass task.progress }
    ensures returned { IfOk result
        (IsReturned I.image T.table.slots task.progress.began task.progress.low) }
    ensures log { IfOk result (λ t. t.log.entries ≡ task.progress.entries) }
{
    let ActorTask {
        alloc,
        run,
        created,
        gates,
    } = task;
    let (log, end) = run.finish();
    let Gathering {
        others,
        gates: mut histories,
        passes,
    } = gather(rt, alloc, created, pass)?;
    gates.into_histories(&mut histories)?;
    Ok(Returned {
        log,
        end,
        others,
        gates: histories,
        passes,
    })
}

/// Consumes all that an actor created, in the order of their numbers, and returns their logs, each followed by
/// those of all that it created, and the passes behind that of the actor.
fn gather<I: RunOf, T: TableOf, R: Threads>(
    rt: &R,
    alloc: Global,
    created: Vec<Created<I, T>>,
    pass: TagPass<I, T>,
) -> Result<Gathering<I, T>, NoMemory>
    ensures families { IfOk result (λ g. (r : ActorProgress) → IsTask I.image r created.items
        → HasFamilies I.image r g.others.items) }
    ensures gates { IfOk result (λ g. All (IsLegalHistory I.image) g.gates.items) }
    ensures passes { IfOk result (λ g. all_entered g.passes.items
        ≡ pass ++ entries_on_declared T.table.slots (all_logged g.others.items)) }
{
    let mut all = Gathering {
        others: Vec::new(alloc),
        gates: Vec::new(alloc),
        passes: Vec::new(alloc),
    };
    all.passes.push(pass)?;
    for one in created {
        add(&mut all, one.into_returned(rt)?)?;
    }
    Ok(all)
}

/// Adds what one of them returned.
fn add<I: RunOf, T: TableOf>(
    all: &mut Gathering<I, T>,
    returned: Returned<I, T>,
) -> Result<(), NoMemory>
    requires old { All (IsLegalHistory I.image) all.old.gates.items }
    requires own { All (IsLegalHistory I.image) returned.gates.items }
    ensures others { OnOk result (all.new.others.items
        ≡ all.old.others.items ++ returned.log ∷ returned.others.items) }
    ensures gates { OnOk result (all.new.gates.items
        ≡ all.old.gates.items ++ returned.gates.items) }
    ensures legal { OnOk result (All (IsLegalHistory I.image) all.new.gates.items) }
    ensures passes { OnOk result (all.new.passes.items
        ≡ all.old.passes.items ++ returned.passes.items) }
{
    let Returned {
        log,
        mut others,
        mut gates,
        mut passes,
        ..
    } = returned;
    all.others.push(log)?;
    all.others.append(&mut others)?;
    all.gates.append(&mut gates)?;
    all.passes.append(&mut passes)?;
    Ok(())
}
