//! What the thread of an actor has in hand.

ghost use Rattle.std.specs.Prelude.{◌≡◌, IfOk, OnOk, [], false};
ghost use Rattle.run_cells.specs.Entries.{IsPlainEntry};
ghost use Rattle.machine.specs.Local.{is_running};
ghost use Rattle.thread_laws.specs.ActorProgresses.{at_creation, after_rest, after_entry};
ghost use Rattle.actor_task.specs.Steps.{IsAtRest};
ghost use Rattle.actor_task.specs.Tasks.{WantsEntry, going_on};

use crate::created::Created;
use crate::creating::NewActor;
use crate::step::GateEntry;
use actor_run::ActorRun;
use journal_cell::RunOf;
use machine::Next;
use ready_text::Program;
use recycled_gate::Kept;
use run_cells::{GateCells, LockedCell, TableOf};
use std::alloc::Global;
use std::marker::Model;
use std::sync::{Arc, Mutex};
use wedge_base::{ActorName, NoMemory};
use wedge_events::LogEntry;

/// An actor that a thread runs, those that it created, in the order of their numbers, and the cells of the
/// recycled gates that it knows. Contracts see its progress, and that of those that it created as far as it
/// has learned it.
#[derive(Drop)]
pub struct ActorTask<I: RunOf, T: TableOf> {
    pub alloc: Global,
    pub run: ActorRun<I>,
    pub created: Vec<Created<I, T>>,
    pub gates: GateCells<I>,
}

impl<I: RunOf, T: TableOf> Model for ActorTask<I, T> {
    ghost use Rattle.std.specs.Prelude.{◌≡◌, false};
    ghost use Rattle.actor_task.specs.Tasks.{TaskState, KeepsTask};

    ghost Value = { TaskState };

    ghost view = { λ k. record {
      progress = k.run.progress;
      created = k.created.items;
      stopped = k.run.stopped;
    } };

    ghost invariant = { λ k. k.run.stopped ≡ false
        → KeepsTask I.image k.run.progress k.created.items k.gates };
}

impl<I: RunOf, T: TableOf> ActorTask<I, T> {
    /// Returns an actor as it is created.
    pub fn new(alloc: Global, new: NewActor<I>) -> Result<ActorTask<I, T>, NoMemory>
        ensures progress { IfOk result (λ k. k.progress ≡ at_creation new.resident new.stamp) }
        ensures created { IfOk result (λ k. k.created ≡ []) }
    {
        let NewActor {
            resident,
            stamp,
            gates,
            unkept,
        } = new;
        Ok(ActorTask {
            alloc,
            run: ActorRun::new(alloc, resident, stamp, unkept)?,
            created: Vec::new(alloc),
            gates,
        })
    }

    /// Returns a reference to its name.
    pub fn name(&self) -> &ActorName
        ensures { result.now ≡ self.now.progress.state.name }
    {
        self.run.name()
    }

    /// Makes the actor's local events up to its next shared event.
    #[inline(always)]
    pub fn rest(&mut self, program: &Program<'_>) -> Result<(), NoMemory>
        requires { program.now ≡ I.image }
        ensures rests { OnOk result (self.new
            ≡ going_on (after_rest I.image self.old.progress) self.old.created) }
        ensures still { OnOk result (is_running self.new.progress.state.phase ≡ false) }
    {
        self.run.rest(program)
    }

    /// Returns what an actor at rest is at.
    #[inline(always)]
    pub fn next(&mut self) -> Result<Next, NoMemory>
        requires still { is_running self.old.progress.state.phase ≡ false }
        requires going { self.old.stopped ≡ false }
        ensures same { OnOk result (self.new ≡ self.old) }
        ensures at_rest { IfOk result (IsAtRest self.old) }
    {
        self.run.next()
    }

    /// Returns the cell of the recycled gate that the actor is about to enter.
    pub fn gate_cell(
        &mut self,
        entry: &GateEntry,
    ) -> Result<Arc<Mutex<LockedCell<Kept, I>>>, NoMemory>
        requires { WantsEntry self.old entry.now }
        ensures { OnOk result (self.new ≡ self.old) }
    {
        self.gates.create_for(self.run.gates())?;
        match self.gates.find(&entry.gate)? {
            Some(cell) => Ok(cell),
            None => unreachable!(),
        }
    }

    /// Makes the actor's part of an event that creates no actor and joins none, and adds its entry to the log. Fails where out
    /// of memory.
    #[inline(always)]
    pub fn take_plain(&mut self, program: &Program<'_>, entry: LogEntry) -> Result<(), NoMemory>
        requires image { program.now ≡ I.image }
        requires going { self.old.stopped ≡ false }
        requires entry { IsPlainEntry I.image self.old.progress entry }
        ensures { OnOk result (self.new
            ≡ going_on (after_entry I.image self.old.progress entry) self.old.created) }
    {
        self.run.take_alone(program, entry)
    }
}
