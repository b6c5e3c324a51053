//! How an actor learns how those ended that it created.

ghost use Rattle.std.specs.Prelude.{◌≡◌, ◌<◌, ◌+◌, IfOk, OnOk, OnErr, true, false, length};
ghost use Rattle.machine.specs.Children.{is_child};
ghost use Rattle.wedge_events.specs.declared.events.Want.{Want as AWant};
ghost use Rattle.thread_laws.specs.ActorProgresses.{after_entry};
ghost use Rattle.actor_task.specs.Tasks.{IsBesideSlots, Wants, Waits, IsIndexed, HasLearned, IsJoinEntry, IsJoinOf};
ghost use Rattle.actor_task.specs.Tasks.{going_on};
ghost use Rattle.actor_ends.specs.Joins.{LearnsJust, HasJoined, HasResumed};

use actor_run::ActorRun;
use actor_task::{ActorTask, Created};
use journal_cell::RunOf;
use ready_text::Program;
use run_cells::TableOf;
use std::thread::Threads;
use thread_laws::ActorEnd;
use wedge_base::{NoMemory, Stamp};
use wedge_events::{Event, LogEntry};

/// Waits for the end of a child of the actor, its start of this number, and makes the actor's join of it. Fails where the
/// child, or an actor that it created, ran out of memory, where this one does, and where no stamp is left.
pub fn join_child<I: RunOf, T: TableOf, R: Threads>(
    task: &mut ActorTask<I, T>,
    rt: &R,
    program: &Program<'_>,
    number: u32,
) -> Result<(), NoMemory>
    requires image { program.now ≡ I.image }
    requires wants { Wants task.old (AWant.Join number) }
    ensures beside { OnOk result (IsBesideSlots task.old.progress task.new.progress) }
    ensures joined { OnOk result (HasJoined I.image number task.old task.new) }
{
    let end = learn_child(task, rt, number)?;
    let entry = join_entry(&task.run, number, end)?;
    take_join(task, program, number, entry)
}

/// Waits for the end of one that the actor has not joined, and returns how it ended.
fn learn_child<I: RunOf, T: TableOf, R: Threads>(
    task: &mut ActorTask<I, T>,
    rt: &R,
    number: u32,
) -> Result<ActorEnd, NoMemory>
    requires going { task.old.stopped ≡ false }
    requires child { is_child task.old.progress.state.unjoined number ≡ true }
    ensures progress { OnOk result (task.new.progress ≡ task.old.progress) }
    ensures going { OnOk result (task.new.stopped ≡ false) }
    ensures learned { IfOk result (LearnsJust number task.old.created task.new.created) }
{
    let index = index_of(task.created.as_slice(), number);
    learn(rt, &mut task.created, index)
}

/// The actor's part of the join of a child whose end it has learned.
fn take_join<I: RunOf, T: TableOf>(
    task: &mut ActorTask<I, T>,
    program: &Program<'_>,
    number: u32,
    entry: LogEntry,
) -> Result<(), NoMemory>
    requires image { program.now ≡ I.image }
    requires wants { Wants task.old (AWant.Join number) }
    requires joins { IsJoinOf task.old number entry }
    ensures beside { OnOk result (IsBesideSlots task.old.progress task.new.progress) }
    ensures takes { OnOk result (task.new
        ≡ going_on (after_entry I.image task.old.progress entry) task.old.created) }
{
    task.run.take_alone(program, entry)
}

/// The actor goes on from the run of a gate for which it waits, its start of this number. Fails where that run, or an
/// actor that it created, ran out of memory.
pub fn resume<I: RunOf, T: TableOf, R: Threads>(
    task: ActorTask<I, T>,
    rt: &R,
    number: u32,
) -> Result<ActorTask<I, T>, NoMemory>
    requires { Waits task number }
    ensures beside { IfOk result (λ k. IsBesideSlots task.progress k.progress) }
    ensures resumed { IfOk result (HasResumed number task) }
{
    let ActorTask {
        alloc,
        mut run,
        mut created,
        gates,
    } = task;
    let index = index_of(created.as_slice(), number);
    let end = learn(rt, &mut created, index)?;
    run.resume(number, end);
    Ok(ActorTask {
        alloc,
        run,
        created,
        gates,
    })
}

/// Returns the index of the one with a number, counted from 1.
fn index_of<I: RunOf, T: TableOf>(created: &[Created<I, T>], number: u32) -> usize
    requires { IsIndexed (length created.now) number }
    ensures is { number ≡ result + 1 }
    ensures below { result < length created.now }
{
    (number - 1) as usize
}

/// Waits for the end of the one at an index, and returns how it ended.
fn learn<I: RunOf, T: TableOf, R: Threads>(
    rt: &R,
    created: &mut Vec<Created<I, T>>,
    index: usize,
) -> Result<ActorEnd, NoMemory>
    requires { index < length created.old.items }
    ensures learned { IfOk result (HasLearned created.old.items created.new.items index) }
    ensures err { OnErr result (created.new.items ≡ created.old.items) }
{
    let one = &mut created[index];
    one.wait(rt)
}

/// Returns the entry of a join, one above the greater of the actor's clock and the child's last stamp. Fails
/// where out of memory, and where no stamp is left.
fn join_entry<I: RunOf>(run: &ActorRun<I>, number: u32, end: ActorEnd) -> Result<LogEntry, NoMemory>
    ensures { IfOk result (IsJoinEntry run.now.progress number end) }
{
    let own = run.clock().0;
    let last = end.last.0;
    let clock = if own < last { last } else { own };
    if clock == u64::MAX {
        return Err(NoMemory);
    }
    Ok(LogEntry {
        stamp: Stamp(clock + 1),
        actor: run.name().copy()?,
        event: Event::Join {
            child: number,
            end: end.how,
            fuel: end.fuel,
        },
    })
}
