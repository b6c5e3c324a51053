//! Starts, and entries of gates.

ghost use Rattle.std.specs.Prelude.{◌≡◌, ◌<◌, IfOk, IsErr, OnOk, Some, None, true, false, length};
ghost use Rattle.wedge_events.specs.declared.events.Want.{Want as AWant};
ghost use Rattle.run_cells.specs.Entries.{IsCreatingEntry};
ghost use Rattle.thread_laws.specs.ActorProgresses.{created_actor, after_entry};
ghost use Rattle.actor_task.specs.Returning.{IsReturned};
ghost use Rattle.machine.specs.Take.{actor_begun};
ghost use Rattle.run_cells.specs.RecycledGates.{HasCells};
ghost use Rattle.actor_task.specs.Tasks.{IsNew, IsPairOf, IsUnlocked, Wants, WantsEntry, with_created, cellless_entry_of};
ghost use Rattle.actor_task.specs.Tasks.{HasEnteredGate};

use crate::created::{Created, Returned};
use crate::step::GateEntry;
use crate::task::ActorTask;
use actor_run::ActorRun;
use journal_cell::RunOf;
use machine::Resident;
use ready_text::Program;
use recycled_gate::Kept;
use run_cells::{GateCells, LockedCell, TableOf, enter_gate};
use std::alloc::Global;
use std::marker::Model;
use std::snapshot::Snapshot;
use wedge_base::{ActorName, NoMemory, Stamp};
use wedge_events::{Event, LogEntry};

/// An actor as it is created: with the stamp of the event that creates it, the cells of the recycled gates that it knows, and
/// on how many slots, the first ones, its log keeps no entries.
#[derive(Drop)]
pub struct NewActor<I: RunOf> {
    pub resident: Resident,
    pub stamp: Stamp,
    pub gates: GateCells<I>,
    pub unkept: usize,
    pub ghost of_run: { unkept ≡ I.unkept },
    pub ghost begins: { IsNew resident },
    pub ghost cells: { HasCells gates resident.gates },
    pub ghost few: { length resident.name < 33 },
}

/// What the thread of an actor has in hand that has just created another, which is not yet among those that it
/// created.
#[derive(Drop)]
pub struct Creating<I: RunOf, T: TableOf> {
    alloc: Global,
    run: ActorRun<I>,
    created: Vec<Created<I, T>>,
    gates: GateCells<I>,
    born: Snapshot<Resident>,
    stamp: Stamp,
}

impl<I: RunOf, T: TableOf> Model for Creating<I, T> {
    ghost use Rattle.std.specs.Prelude.{◌≡◌, false};
    ghost use Rattle.run_cells.specs.RecycledGates.{HasCells};
    ghost use Rattle.actor_task.specs.Tasks.{CreatingState, HasCreated};

    ghost Value = { CreatingState };

    ghost view = { λ c. record {
      progress = c.run.progress;
      created = c.created.items;
      born = c.born.value;
      stamp = c.stamp;
    } };

    ghost invariant = { λ c. record {
      going : c.run.stopped ≡ false;
      created : HasCreated I.image (record {
        progress = c.run.progress;
        created = c.created.items;
        born = c.born.value;
        stamp = c.stamp;
      });
      cells : HasCells c.gates c.run.progress.state.gates;
    } };
}

impl<I: RunOf, T: TableOf> Creating<I, T> {
    /// Puts the actor that it created among those that it created, on its thread.
    pub fn adopt(self, one: Created<I, T>) -> Result<ActorTask<I, T>, NoMemory>
        requires { one ≡ created_actor self.born self.stamp None }
        ensures { IfOk result (λ k. k ≡ with_created self None) }
    {
        let Creating {
            alloc,
            run,
            mut created,
            gates,
            ..
        } = self;
        created.push(one)?;
        Ok(ActorTask {
            alloc,
            run,
            created,
            gates,
        })
    }

    /// Puts the actor that it created among those that it created, which has ended.
    pub fn adopt_ended(self, returned: Returned<I, T>) -> Result<ActorTask<I, T>, NoMemory>
        requires { IsReturned I.image T.table.slots self.born self.stamp returned }
        ensures { IfOk result (λ k. k ≡ with_created self (Some returned.end)) }
    {
        let Creating {
            alloc,
            run,
            mut created,
            gates,
            born,
            stamp,
        } = self;
        created.push(Created::ended(born, stamp, returned))?;
        Ok(ActorTask {
            alloc,
            run,
            created,
            gates,
        })
    }
}

impl<I: RunOf, T: TableOf> ActorTask<I, T> {
    /// The actor starts a child.
    pub fn start(
        self,
        program: &Program<'_>,
        child: ActorName,
    ) -> Result<(Creating<I, T>, NewActor<I>), NoMemory>
        requires image { program.now ≡ I.image }
        requires wants { Wants self (AWant.Start child) }
        ensures pair { IfOk result (λ p. IsPairOf I.image self p.0 p.1.resident p.1.stamp) }
        ensures unlocked { IfOk result (λ p. IsUnlocked p.1.resident) }
    {
        let entry = cellless_entry(&self.run, Event::Start { child })?;
        self.create(program, entry)
    }

    /// The actor enters a fresh gate.
    pub fn enter_fresh(
        self,
        program: &Program<'_>,
        run: ActorName,
    ) -> Result<(Creating<I, T>, NewActor<I>), NoMemory>
        requires image { program.now ≡ I.image }
        requires wants { Wants self (AWant.Enter run) }
        ensures pair { IfOk result (λ p. IsPairOf I.image self p.0 p.1.resident p.1.stamp) }
        ensures unlocked { IfOk result (λ p. IsUnlocked p.1.resident) }
    {
        self.run.affords_gate();
        let entry = cellless_entry(&self.run, Event::Enter { run })?;
        self.create(program, entry)
    }

    /// The actor enters a recycled gate whose lock it holds. Where a run is in the gate, that run ran out of memory
    /// there; then the actor is out of memory too.
    pub fn enter_recycled(
        self,
        program: &Program<'_>,
        locked: &mut LockedCell<Kept, I>,
        entry: GateEntry,
    ) -> Result<(Creating<I, T>, NewActor<I>), NoMemory>
        requires image { program.now ≡ I.image }
        requires wants { WantsEntry self entry }
        ensures pair { IfOk result (λ p. IsPairOf I.image self p.0 p.1.resident p.1.stamp) }
        ensures kept { IfOk result (λ p.
            HasEnteredGate I.image entry self.progress p.0.progress locked.old locked.new) }
        ensures entered { OnOk result (locked.new.state.entered ≡ true) }
        ensures closed { locked.old.state.entered ≡ true → IsErr result }
    {
        if locked.state().entered() {
            return Err(NoMemory);
        }
        let GateEntry { gate, run, memory } = entry;
        let entry = enter_gate(self.alloc, locked, &self.run, gate, run, memory)?;
        self.create(program, entry)
    }

    /// The actor's part of an event that creates another.
    fn create(
        self,
        program: &Program<'_>,
        entry: LogEntry,
    ) -> Result<(Creating<I, T>, NewActor<I>), NoMemory>
        requires image { program.now ≡ I.image }
        requires going { self.stopped ≡ false }
        requires creates { IsCreatingEntry I.image self.progress entry }
        ensures pair { IfOk result (λ p. IsPairOf I.image self p.0 p.1.resident p.1.stamp) }
        ensures begun { IfOk result (λ p.
            actor_begun I.image self.progress.state entry.event ≡ Some p.1.resident) }
        ensures progress { IfOk result (λ p.
            p.0.progress ≡ after_entry I.image self.progress entry) }
    {
        let mut task = self;
        let cells = task.share_cells()?;
        task.create_with(program, entry, cells)
    }

    /// Returns the cells of the recycled gates that the actor knows, for one that it creates.
    fn share_cells(&mut self) -> Result<GateCells<I>, NoMemory>
        requires { self.old.stopped ≡ false }
        ensures same { OnOk result (self.new ≡ self.old) }
        ensures cells { IfOk result (λ c. HasCells c self.old.progress.state.gates) }
    {
        self.gates.create_for(self.run.gates())?;
        self.gates.share()
    }

    /// The same, where the other knows these cells.
    fn create_with(
        self,
        program: &Program<'_>,
        entry: LogEntry,
        cells: GateCells<I>,
    ) -> Result<(Creating<I, T>, NewActor<I>), NoMemory>
        requires image { program.now ≡ I.image }
        requires going { self.stopped ≡ false }
        requires creates { IsCreatingEntry I.image self.progress entry }
        requires cells { HasCells cells self.progress.state.gates }
        ensures pair { IfOk result (λ p. IsPairOf I.image self p.0 p.1.resident p.1.stamp) }
        ensures begun { IfOk result (λ p.
            actor_begun I.image self.progress.state entry.event ≡ Some p.1.resident) }
        ensures progress { IfOk result (λ p.
            p.0.progress ≡ after_entry I.image self.progress entry) }
    {
        let ActorTask {
            alloc,
            mut run,
            created,
            gates,
        } = self;
        let stamp = entry.stamp;
        let resident = run.take_creating(program, entry)?;
        has_few_parts(&resident);
        let born = Snapshot::of(&resident);
        let new = NewActor {
            resident,
            stamp,
            gates: cells,
            unkept: run.unkept(),
        };
        let creating = Creating {
            alloc,
            run,
            created,
            gates,
            born,
            stamp,
        };
        Ok((creating, new))
    }
}

/// For proofs alone: the name of an actor has 32 parts at most.
fn has_few_parts(resident: &Resident)
    ensures { length resident.now.name < 33 }
{
    // The name is read here, so that what its type keeps is at hand.
    let _ = resident.name().parts();
}

/// Returns the entry of an event of no cell, one above the actor's clock. Fails where out of memory, and where no
/// stamp is left.
pub fn cellless_entry<I: RunOf>(run: &ActorRun<I>, event: Event) -> Result<LogEntry, NoMemory>
    ensures { IfOk result (λ e. e ≡ cellless_entry_of run.now.progress event) }
{
    let clock = run.clock();
    if clock.0 == u64::MAX {
        return Err(NoMemory);
    }
    Ok(LogEntry {
        stamp: Stamp(clock.0 + 1),
        actor: run.name().copy()?,
        event,
    })
}
