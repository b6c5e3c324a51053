//! What an actor comes to, and the events that it does alone.

ghost use Rattle.std.specs.Prelude.{◌≡◌, false, IfOk, OnOk};
ghost use Rattle.wedge_events.specs.declared.events.SlotWant.{SlotWant as ASlotWant};
ghost use Rattle.wedge_events.specs.declared.events.Want.{Want as AWant};
ghost use Rattle.machine.specs.Local.{is_running};
ghost use Rattle.run_cells.specs.Entries.{IsOfCell};
ghost use Rattle.machine.specs.declared.next.Next.TheVariants as next;
ghost use Rattle.actor_task.specs.Steps.{IsStep, IsAtRest, IsJoint, WantsNone};
ghost use Rattle.actor_task.specs.Tasks.{TaskState, IsSame, IsTracked, going_on};
ghost use Rattle.thread_laws.specs.ActorProgresses.{ActorProgress, after_rest};
ghost use Rattle.wedge_base.specs.Images.{Image};
ghost use Rattle.actor_steps.specs.Logged.{HasLogged, HasStepped, IsLoggedBy};

use actor_task::{ActorTask, GateEntry, Last, Step};
use host_io::Pace;
use journal_cell::RunOf;
use machine::Next;
use ready_text::Program;
use run_cells::{RunCells, TableOf, TagPass, is_of_cell};
use std::sync::Wait;
use wedge_base::{NoMemory, Slot};
use wedge_events::{GateAsk, SlotWant, Want};

/// Makes the actor's local events and its next shared event, if no other actor has part in that: all loads and stores of
/// slots one after another, and then one other event, or none. Loads and stores, which are the most, are made while the actor
/// still runs: nothing is written of what it wants. Out of line, so that what a caller holds is not in the way of them.
#[inline(never)]
pub fn step<I: RunOf, T: TableOf, R: Wait, P: Pace>(
    task: &mut ActorTask<I, T>,
    pass: &mut TagPass<I, T>,
    rt: &R,
    program: &Program<'_>,
    cells: &RunCells<I, T>,
    pace: &P,
) -> Result<Step, NoMemory>
    requires image { program.now ≡ I.image }
    requires tracked { IsTracked T.table.slots pass.old task.old.progress }
    ensures same { OnOk result (IsSame task.old.progress task.new.progress) }
    ensures tracked { OnOk result (IsTracked T.table.slots pass.new task.new.progress) }
    ensures step { IfOk result (IsStep task.new) }
    ensures logged { IfOk result (λ s. HasStepped s I.image task.old.progress
        task.new.progress) }
{
    for _ in rt.forever() {
        rest(task, program)?;
        if let Some(access) = task.run.access() {
            let slot = access.slot;
            match access.want {
                SlotWant::Load { offset, width } => {
                    load(task, pass, rt, program, cells, pace, slot, offset, width)?;
                    continue;
                }
                SlotWant::Store {
                    offset,
                    width,
                    value,
                } => {
                    store(
                        task, pass, rt, program, cells, pace, slot, offset, width, value,
                    )?;
                    continue;
                }
                _ => {}
            }
        }
        return step_next(task, pass, rt, program, cells, pace);
    }
    unreachable!()
}

/// The actor makes its local events, up to its next shared event. Out of line, so that the loop over instructions has the
/// registers of the processor to itself.
#[inline(never)]
fn rest<I: RunOf, T: TableOf>(
    task: &mut ActorTask<I, T>,
    program: &Program<'_>,
) -> Result<(), NoMemory>
    requires { program.now ≡ I.image }
    ensures rests { OnOk result (task.new
        ≡ going_on (after_rest I.image task.old.progress) task.old.created) }
    ensures still { OnOk result (is_running task.new.progress.state.phase ≡ false) }
{
    task.rest(program)
}

/// Makes the next shared event of an actor at rest, if no other actor has part in that.
#[inline(never)]
fn step_next<I: RunOf, T: TableOf, R: Wait, P: Pace>(
    task: &mut ActorTask<I, T>,
    pass: &mut TagPass<I, T>,
    rt: &R,
    program: &Program<'_>,
    cells: &RunCells<I, T>,
    pace: &P,
) -> Result<Step, NoMemory>
    requires image { program.now ≡ I.image }
    requires still { is_running task.old.progress.state.phase ≡ false }
    requires going { task.old.stopped ≡ false }
    requires tracked { IsTracked T.table.slots pass.old task.old.progress }
    ensures same { OnOk result (IsSame task.old.progress task.new.progress) }
    ensures tracked { OnOk result (IsTracked T.table.slots pass.new task.new.progress) }
    ensures step { IfOk result (IsStep task.new) }
    ensures logged { IfOk result (λ s. IsLoggedBy s I.image
        task.old.progress task.new.progress) }
{
    match task.next()? {
        Next::Shared(want) => {
            if is_of_cell(&want) {
                do_event(task, pass, rt, program, cells, pace, want)?;
                return Ok(Step::Went);
            }
            Ok(step_of_want(want))
        }
        next => Ok(step_at(&next)),
    }
}

/// A load, with the kind of what is wanted known: so the compiler leaves out of the most frequent events what only others
/// need.
#[inline(always)]
fn load<I: RunOf, T: TableOf, R: Wait, P: Pace>(
    task: &mut ActorTask<I, T>,
    pass: &mut TagPass<I, T>,
    rt: &R,
    program: &Program<'_>,
    cells: &RunCells<I, T>,
    pace: &P,
    slot: Slot,
    offset: u32,
    width: u8,
) -> Result<(), NoMemory>
    requires image { program.now ≡ I.image }
    requires rest { IsAtRest task.old
        (next.Shared (AWant.Slot slot (ASlotWant.Load offset width))) }
    requires tracked { IsTracked T.table.slots pass.old task.old.progress }
    ensures same { OnOk result (IsSame task.old.progress task.new.progress) }
    ensures tracked { OnOk result (IsTracked T.table.slots pass.new task.new.progress) }
    ensures logged { OnOk result
        (HasLogged I.image task.old.progress task.new.progress) }
{
    let want = SlotWant::Load { offset, width };
    do_event(
        task,
        pass,
        rt,
        program,
        cells,
        pace,
        Want::Slot { slot, want },
    )
}

/// A store, by itself for the same reason.
#[inline(always)]
fn store<I: RunOf, T: TableOf, R: Wait, P: Pace>(
    task: &mut ActorTask<I, T>,
    pass: &mut TagPass<I, T>,
    rt: &R,
    program: &Program<'_>,
    cells: &RunCells<I, T>,
    pace: &P,
    slot: Slot,
    offset: u32,
    width: u8,
    value: u32,
) -> Result<(), NoMemory>
    requires image { program.now ≡ I.image }
    requires rest { IsAtRest task.old
        (next.Shared (AWant.Slot slot (ASlotWant.Store offset width value))) }
    requires tracked { IsTracked T.table.slots pass.old task.old.progress }
    ensures same { OnOk result (IsSame task.old.progress task.new.progress) }
    ensures tracked { OnOk result (IsTracked T.table.slots pass.new task.new.progress) }
    ensures logged { OnOk result
        (HasLogged I.image task.old.progress task.new.progress) }
{
    let want = SlotWant::Store {
        offset,
        width,
        value,
    };
    do_event(
        task,
        pass,
        rt,
        program,
        cells,
        pace,
        Want::Slot { slot, want },
    )
}

/// The event that the actor wants, done and logged.
#[inline(always)]
fn do_event<I: RunOf, T: TableOf, R: Wait, P: Pace>(
    task: &mut ActorTask<I, T>,
    pass: &mut TagPass<I, T>,
    rt: &R,
    program: &Program<'_>,
    cells: &RunCells<I, T>,
    pace: &P,
    want: Want,
) -> Result<(), NoMemory>
    requires image { program.now ≡ I.image }
    requires rest { IsAtRest task.old (next.Shared want) }
    requires of_cell { IsOfCell want }
    requires tracked { IsTracked T.table.slots pass.old task.old.progress }
    ensures same { OnOk result (IsSame task.old.progress task.new.progress) }
    ensures tracked { OnOk result (IsTracked T.table.slots pass.new task.new.progress) }
    ensures logged { OnOk result
        (HasLogged I.image task.old.progress task.new.progress) }
{
    pace.before(task.run.name());
    let entry = cells.enter(rt, &task.run, pass, want)?;
    task.take_plain(program, entry)
}

/// Returns what an actor at rest came to that wants nothing.
fn step_at(next: &Next) -> Step
    requires { WantsNone next.now }
    ensures step { (k : TaskState) → IsAtRest k next.now → IsStep k result }
    ensures logged { (i : Image) (old new : ActorProgress) → new ≡ old
        → IsLoggedBy result i old new }
{
    match next {
        Next::Ended(_) => Step::AtEnd(Last::Ended),
        Next::Waiting { run } => Step::Waits { number: *run },
        Next::Shared(_) => unreachable!(),
    }
}

/// Returns what an actor came to that wants an event of no cell alone.
fn step_of_want(want: Want) -> Step
    requires { IsJoint want }
    ensures step { (k : TaskState) → IsAtRest k (next.Shared want) → IsStep k result }
    ensures logged { (i : Image) (old new : ActorProgress) → new ≡ old
        → IsLoggedBy result i old new }
{
    match want {
        Want::Start { child } => Step::Start { child },
        Want::Join { child } => Step::Join { number: child },
        Want::Enter { run } => Step::Enter { run },
        Want::Leave { end } => Step::AtEnd(Last::Leave { end }),
        Want::Gate { gate, ask } => match ask {
            GateAsk::Enter { run, memory } => Step::EnterRecycled(GateEntry { gate, run, memory }),
            GateAsk::Leave { end, memory } => {
                Step::AtEnd(Last::LeaveRecycled { gate, end, memory })
            }
        },
        Want::Slot { .. } | Want::Fd { .. } | Want::Lives(_) | Want::Slots(_) | Want::Fds(_) => {
            unreachable!()
        }
    }
}
