//! The threads of a run.

ghost use Rattle.std.specs.Prelude.{◌≡◌, ◌≤◌, All, IfOk, true, false, length};
ghost use Rattle.ruled_cell.specs.Passes.{first_view};
ghost use Rattle.wedge_events.specs.declared.events.Want.{Want as AWant};
ghost use Rattle.thread_laws.specs.KeptEntries.{IsKept};
ghost use Rattle.gate_runner.specs.Gathering.{IsGathered};
ghost use Rattle.actor_task.specs.Returning.{IsReturned};
ghost use Rattle.gate_runner.specs.Endings.{IsAtEnd};
ghost use Rattle.gate_runner.specs.Joints.{HasStarted, HasEntered, IsAdopted, IsAdoptedEnded, IsJointDone};
ghost use Rattle.actor_ends.specs.Joins.{HasJoined};
ghost use Rattle.actor_task.specs.Steps.{IsStep, IsJointStep};
ghost use Rattle.actor_task.specs.Tasks.{IsBesideSlots, IsUnlocked, Wants, WantsEntry};

use crate::gather::gathered;
use actor_ends::{finish_locked, finish_unlocked, join_child, resume};
use actor_steps::step;
use actor_task::{
    ActorTask, Created, Creating, GateEntry, Last, NewActor, Returned, ReturnsFamily, Step,
};
use host_io::Pace;
use image_form::Image;
use journal_cell::RunOf;
use machine::{Actor, Resident};
use ready_text::Program;
use recycled_gate::Kept;
use ruled_cell::{RuledCells, RuledPass};
use run_cells::{GateCells, LockedCell, RunCells, TableOf, TagCells, TagPass, open_tags};
use std::alloc::Global;
use std::marker::{Brand, PhantomData};
use std::snapshot::Snapshot;
use std::sync::{Arc, Mutex, Wait};
use std::thread;
use std::thread::{Scope, Threads};
use tag_segment::SlotState;
use thread_laws::Gathered;
use wedge_base::{ActorName, NoMemory, Stamp};

/// The program of the image of a run.
#[derive(Drop)]
pub(crate) struct RunProgram<'e, I: RunOf> {
    pub ready: &'e Program<'e>,
    pub run: PhantomData<I>,
    pub ghost of_image: { ready.now ≡ I.image },
}

/// What all threads of a run share.
#[derive(Drop)]
pub(crate) struct Shared<'e, I: RunOf, T: TableOf, R, P> {
    pub rt: &'e R,
    pub alloc: Global,
    pub program: &'e RunProgram<'e, I>,
    pub cells: &'e RunCells<I, T>,
    pub pace: &'e P,
}

/// An actor that has come to its end, and what is left to do of it.
#[derive(Drop)]
pub(crate) struct AtEnd<I: RunOf, T: TableOf> {
    pub task: ActorTask<I, T>,
    pub pass: TagPass<I, T>,
    pub last: Last,
}

/// Runs an actor until it has ended or is to leave its gate, in a scope for the threads of its children.
#[cycle(run)]
fn run_to_end<
    'e,
    I: RunOf + Send + Sync,
    T: TableOf + Send + Sync,
    R: Threads + Wait + Sync,
    P: Pace + Sync,
>(all: &'e Shared<'e, I, T, R, P>, new: NewActor<I>) -> Result<AtEnd<I, T>, NoMemory>
    ensures { IfOk result (IsAtEnd T.table.slots new.resident new.stamp) }
{
    thread::scope(
        thread::scope_env(),
        all.rt,
        move |scope| -> Result<AtEnd<I, T>, NoMemory>
            ensures { IfOk result (IsAtEnd T.table.slots new.resident new.stamp) }
        { act(scope, all, new) },
    )
}

/// Does all that an actor does until it has ended or is to leave its gate.
#[cycle(run)]
#[tactic(auto, using(crate::proofs::BesideSlots::beside_then, crate::proofs::BesideSlots::beside_same, crate::proofs::BesideSlots::tracked_beside))]
fn act<
    's,
    'e,
    I: RunOf + Send + Sync,
    T: TableOf + Send + Sync,
    R: Threads + Wait + Sync,
    P: Pace + Sync,
>(
    scope: &'s Scope<'s, &'e ()>,
    all: &'e Shared<'e, I, T, R, P>,
    new: NewActor<I>,
) -> Result<AtEnd<I, T>, NoMemory>
    ensures { IfOk result (IsAtEnd T.table.slots new.resident new.stamp) }
{
    let mut task = ActorTask::new(all.alloc, new)?;
    let mut pass = all.cells.pass(all.rt)?;
    for _ in all.rt.forever() {
        match step(
            &mut task,
            &mut pass,
            all.rt,
            all.program.ready,
            all.cells,
            all.pace,
        )? {
            Step::Went => {}
            Step::AtEnd(last) => return Ok(AtEnd { task, pass, last }),
            step => task = do_joint(scope, all, task, step)?,
        }
    }
    unreachable!()
}

/// An event of an actor in which another has part.
#[cycle(run)]
fn do_joint<
    's,
    'e,
    I: RunOf + Send + Sync,
    T: TableOf + Send + Sync,
    R: Threads + Wait + Sync,
    P: Pace + Sync,
>(
    scope: &'s Scope<'s, &'e ()>,
    all: &'e Shared<'e, I, T, R, P>,
    task: ActorTask<I, T>,
    step: Step,
) -> Result<ActorTask<I, T>, NoMemory>
    requires step { IsStep task step }
    requires joint { IsJointStep step }
    ensures beside { IfOk result (λ k. IsBesideSlots task.progress k.progress) }
    ensures done { IfOk result (IsJointDone I.image task step) }
{
    match step {
        Step::Waits { number } => resume(task, all.rt, number),
        Step::Join { number } => join(all, task, number),
        Step::Start { child } => start(scope, all, task, child),
        Step::Enter { run } => enter_fresh(all, task, run),
        Step::EnterRecycled(entry) => enter_recycled(all, task, entry),
        Step::Went | Step::AtEnd(_) => unreachable!(),
    }
}

/// The join of a child.
fn join<'e, I: RunOf, T: TableOf, R: Threads, P: Pace>(
    all: &'e Shared<'e, I, T, R, P>,
    task: ActorTask<I, T>,
    number: u32,
) -> Result<ActorTask<I, T>, NoMemory>
    requires { Wants task (AWant.Join number) }
    ensures beside { IfOk result (λ k. IsBesideSlots task.progress k.progress) }
    ensures joined { IfOk result (HasJoined I.image number task) }
{
    let mut task = task;
    all.pace.before(task.name());
    join_child(&mut task, all.rt, all.program.ready, number)?;
    Ok(task)
}

/// The start of a child.
#[cycle(run)]
#[tactic(auto, using(crate::proofs::BesideSlots::beside_then, crate::proofs::BesideSlots::beside_same, crate::proofs::BesideSlots::tracked_beside))]
fn start<
    's,
    'e,
    I: RunOf + Send + Sync,
    T: TableOf + Send + Sync,
    R: Threads + Wait + Sync,
    P: Pace + Sync,
>(
    scope: &'s Scope<'s, &'e ()>,
    all: &'e Shared<'e, I, T, R, P>,
    task: ActorTask<I, T>,
    child: ActorName,
) -> Result<ActorTask<I, T>, NoMemory>
    requires { Wants task (AWant.Start child) }
    ensures beside { IfOk result (λ k. IsBesideSlots task.progress k.progress) }
    ensures started { IfOk result (HasStarted I.image task) }
{
    all.pace.before(task.name());
    let (creating, new) = task.start(all.program.ready, child)?;
    launch(scope, all, creating, new)
}

/// Runs a child on a thread of its own; where none can be made, here.
#[cycle(run)]
#[tactic(auto, using(crate::proofs::BesideSlots::beside_then, crate::proofs::BesideSlots::beside_same, crate::proofs::BesideSlots::tracked_beside, crate::proofs::Crossing::Returned_send, crate::proofs::Crossing::Shared_sync, crate::proofs::Adopting::adopted_running, crate::proofs::Adopting::adopted_some))]
fn launch<
    's,
    'e,
    I: RunOf + Send + Sync,
    T: TableOf + Send + Sync,
    R: Threads + Wait + Sync,
    P: Pace + Sync,
>(
    scope: &'s Scope<'s, &'e ()>,
    all: &'e Shared<'e, I, T, R, P>,
    creating: Creating<I, T>,
    new: NewActor<I>,
) -> Result<ActorTask<I, T>, NoMemory>
    requires born { creating.born ≡ new.resident }
    requires stamp { creating.stamp ≡ new.stamp }
    requires unlocked { IsUnlocked new.resident }
    ensures beside { IfOk result (λ k. IsBesideSlots creating.progress k.progress) }
    ensures adopted { IfOk result (IsAdopted creating) }
{
    let stamp = new.stamp;
    let began = Snapshot::of(&new.resident);
    let promise: ReturnsFamily<I, T> = ReturnsFamily {
        began: Snapshot::of(&new.resident),
        stamp,
        run: PhantomData,
        table: PhantomData,
    };
    let job = move || -> Result<Returned<I, T>, NoMemory>
        requires { IsUnlocked new.resident }
        ensures { IfOk result (IsReturned I.image T.table.slots new.resident new.stamp) }
    { run_whole(all, new) };
    match scope.spawn_with(promise, job) {
        Ok(handle) => creating.adopt(Created::running(began, stamp, handle)),
        Err(refused) => creating.adopt_ended((refused.value)()?),
    }
}

/// Runs an actor to its end that is the run of no recycled gate.
#[cycle(run)]
fn run_whole<
    'e,
    I: RunOf + Send + Sync,
    T: TableOf + Send + Sync,
    R: Threads + Wait + Sync,
    P: Pace + Sync,
>(all: &'e Shared<'e, I, T, R, P>, new: NewActor<I>) -> Result<Returned<I, T>, NoMemory>
    requires { IsUnlocked new.resident }
    ensures { IfOk result (IsReturned I.image T.table.slots new.resident new.stamp) }
{
    let AtEnd { task, pass, last } = run_to_end(all, new)?;
    finish_unlocked(task, pass, all.rt, all.program.ready, all.pace, last)
}

/// The entry of a fresh gate, and its run on this thread.
#[cycle(run)]
#[tactic(auto, using(crate::proofs::BesideSlots::beside_then, crate::proofs::BesideSlots::beside_same, crate::proofs::BesideSlots::tracked_beside))]
fn enter_fresh<
    'e,
    I: RunOf + Send + Sync,
    T: TableOf + Send + Sync,
    R: Threads + Wait + Sync,
    P: Pace + Sync,
>(
    all: &'e Shared<'e, I, T, R, P>,
    task: ActorTask<I, T>,
    run: ActorName,
) -> Result<ActorTask<I, T>, NoMemory>
    requires { Wants task (AWant.Enter run) }
    ensures beside { IfOk result (λ k. IsBesideSlots task.progress k.progress) }
    ensures entered { IfOk result (HasEntered I.image task) }
{
    all.pace.before(task.name());
    let (creating, new) = task.enter_fresh(all.program.ready, run)?;
    let returned = run_whole(all, new)?;
    creating.adopt_ended(returned)
}

/// The entry of a recycled gate, and its run on this thread.
#[cycle(run)]
fn enter_recycled<
    'e,
    I: RunOf + Send + Sync,
    T: TableOf + Send + Sync,
    R: Threads + Wait + Sync,
    P: Pace + Sync,
>(
    all: &'e Shared<'e, I, T, R, P>,
    task: ActorTask<I, T>,
    entry: GateEntry,
) -> Result<ActorTask<I, T>, NoMemory>
    requires { WantsEntry task entry }
    ensures beside { IfOk result (λ k. IsBesideSlots task.progress k.progress) }
    ensures entered { IfOk result (HasEntered I.image task) }
{
    let (task, cell) = with_cell(all, task, &entry)?;
    run_locked(all, task, cell, entry)
}

/// The same, where this is the gate's cell. Its lock is held from the entry to the leave.
#[cycle(run)]
fn run_locked<
    'e,
    I: RunOf + Send + Sync,
    T: TableOf + Send + Sync,
    R: Threads + Wait + Sync,
    P: Pace + Sync,
>(
    all: &'e Shared<'e, I, T, R, P>,
    task: ActorTask<I, T>,
    cell: Arc<Mutex<LockedCell<Kept, I>>>,
    entry: GateEntry,
) -> Result<ActorTask<I, T>, NoMemory>
    requires { WantsEntry task entry }
    ensures beside { IfOk result (λ k. IsBesideSlots task.progress k.progress) }
    ensures entered { IfOk result (HasEntered I.image task) }
{
    let mut guard = cell.lock(all.rt);
    run_inside(all, task, &mut *guard, entry)
}

/// The same, while the lock is held.
#[cycle(run)]
#[tactic(auto, using(crate::proofs::BesideSlots::beside_then, crate::proofs::BesideSlots::beside_same, crate::proofs::BesideSlots::tracked_beside))]
fn run_inside<
    'e,
    I: RunOf + Send + Sync,
    T: TableOf + Send + Sync,
    R: Threads + Wait + Sync,
    P: Pace + Sync,
>(
    all: &'e Shared<'e, I, T, R, P>,
    task: ActorTask<I, T>,
    locked: &mut LockedCell<Kept, I>,
    entry: GateEntry,
) -> Result<ActorTask<I, T>, NoMemory>
    requires { WantsEntry task entry }
    ensures beside { IfOk result (λ k. IsBesideSlots task.progress k.progress) }
    ensures entered { IfOk result (HasEntered I.image task) }
{
    let (creating, new) = task.enter_recycled(all.program.ready, locked, entry)?;
    let at_end = run_to_end(all, new)?;
    leave_inside(all, locked, creating, at_end)
}

/// Returns the cell of the recycled gate that an actor is about to enter.
fn with_cell<'e, I: RunOf, T: TableOf, R, P: Pace>(
    all: &'e Shared<'e, I, T, R, P>,
    task: ActorTask<I, T>,
    entry: &GateEntry,
) -> Result<(ActorTask<I, T>, Arc<Mutex<LockedCell<Kept, I>>>), NoMemory>
    requires { WantsEntry task entry.now }
    ensures { IfOk result (λ p. p.0 ≡ task) }
{
    all.pace.before(task.name());
    let mut task = task;
    let cell = task.gate_cell(entry)?;
    Ok((task, cell))
}

/// The leave of a recycled gate whose lock is held, and what it leaves for the caller.
#[tactic(auto, using(crate::proofs::BesideSlots::beside_then, crate::proofs::BesideSlots::beside_same, crate::proofs::BesideSlots::tracked_beside, crate::proofs::Adopting::adopted_ended))]
fn leave_inside<'e, I: RunOf, T: TableOf, R: Threads, P: Pace>(
    all: &'e Shared<'e, I, T, R, P>,
    locked: &mut LockedCell<Kept, I>,
    creating: Creating<I, T>,
    at_end: AtEnd<I, T>,
) -> Result<ActorTask<I, T>, NoMemory>
    requires entered { locked.old.state.entered ≡ true }
    requires at_end { IsAtEnd T.table.slots creating.born creating.stamp at_end }
    ensures beside { IfOk result (λ k. IsBesideSlots creating.progress k.progress) }
    ensures adopted { IfOk result (IsAdoptedEnded creating) }
{
    let AtEnd { task, pass, last } = at_end;
    let returned = finish_locked(
        task,
        pass,
        all.rt,
        all.program.ready,
        all.pace,
        last,
        locked,
    )?;
    creating.adopt_ended(returned)
}

/// Returns the logs and the histories of a run of an image on threads. The logs keep no entries on the first `unkept` slots.
fn run_of<'x, I: RunOf + Send + Sync, R: Threads + Wait + Sync, P: Pace + Sync>(
    rt: &'x R,
    alloc: Global,
    image: &'x Image,
    pace: &'x P,
    unkept: usize,
) -> Result<Gathered, NoMemory>
    requires image { image.now ≡ I.image }
    requires unkept { (unkept ≡ I.unkept) × (unkept ≤ length image.now.tags) }
    ensures gathered { IfOk result (IsGathered image.now) }
    ensures kept { IfOk result (λ g. All (IsKept unkept) g.logs) }
{
    let (cells, first) = open_tags::<I>(alloc, image)?;
    run_over::<I, Brand, R, P>(rt, alloc, image, pace, unkept, cells, first)
}

/// The same, over these slots of its declared tags.
fn run_over<
    'x,
    I: RunOf + Send + Sync,
    T: TableOf + Send + Sync,
    R: Threads + Wait + Sync,
    P: Pace + Sync,
>(
    rt: &'x R,
    alloc: Global,
    image: &'x Image,
    pace: &'x P,
    unkept: usize,
    tags: RuledCells<SlotState, I>,
    first: RuledPass<SlotState, I>,
) -> Result<Gathered, NoMemory>
    requires image { image.now ≡ I.image }
    requires unkept { (unkept ≡ I.unkept) × (unkept ≤ length image.now.tags) }
    requires table { (tags ≡ T.table) × (first.table ≡ T.table) }
    requires first { first.view ≡ first_view }
    requires count { tags.slots ≡ length image.now.tags }
    ensures gathered { IfOk result (IsGathered image.now) }
    ensures kept { IfOk result (λ g. All (IsKept unkept) g.logs) }
{
    let ready = Program::new(alloc, image)?;
    let cells: RunCells<I, T> = RunCells::new(alloc, image, TagCells::new(tags, first))?;
    let program = RunProgram {
        ready: &ready,
        run: PhantomData,
    };
    let all = Shared {
        rt,
        alloc,
        program: &program,
        cells: &cells,
        pace,
    };
    let (actor, memory) = Actor::root(alloc, &ready)?;
    let root = NewActor {
        resident: Resident { actor, memory },
        stamp: Stamp(0),
        gates: GateCells::none(alloc),
        unkept,
    };
    let returned = run_whole(&all, root)?;
    gathered(alloc, returned, cells)
}

/// Runs an image on threads: the root and each child on a thread of its own, each run of a gate on the thread of its
/// caller. Where no thread can be made, the creator runs the child to its end before it goes on. Returns the logs of
/// all actors, that of the root first, each followed by those of all that it created, and the histories of the slots
/// of declared tags and of all other cells in which something happened.
///
/// The logs keep all entries where `is_whole` says so. Where not, they keep all but those on the slots of declared tags, which
/// no audit reads: so the many loads and stores of these take no memory.
///
/// `pace` is called before each shared event. Fails only where out of memory or of stamps, or where the pass of an actor
/// is missing at the end, after all threads have ended.
pub fn run_image<R: Threads + Wait + Sync, P: Pace + Sync>(
    rt: &R,
    alloc: Global,
    image: &Image,
    pace: &P,
    is_whole: bool,
) -> Result<Gathered, NoMemory>
    ensures gathered { IfOk result (IsGathered image.now) }
    ensures whole { is_whole ≡ true → IfOk result (λ g. All (IsKept 0) g.logs) }
    ensures elsewhere { is_whole ≡ false
        → IfOk result (λ g. All (IsKept (length image.now.tags)) g.logs) }
{
    let unkept = if is_whole { 0 } else { image.tags().len() };
    run_of::<Brand, R, P>(rt, alloc, image, pace, unkept)
}
