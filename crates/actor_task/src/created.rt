//! An actor that another created: its thread, and what it returned.

ghost use Rattle.std.specs.Prelude.{◌≡◌, IfOk, OnErr, Some, None};
ghost use Rattle.thread_laws.specs.ActorProgresses.{created_actor};
ghost use Rattle.actor_task.specs.Returning.{IsReturned, HasWaited, IsReturnedOf};

use actor_run::KeptLog;
use journal_cell::RunOf;
use machine::Resident;
use run_cells::{TableOf, TagPass};
use std::marker::{Model, PhantomData};
use std::mem;
use std::snapshot::Snapshot;
use std::thread::{Promise, PromisedHandle, Threads};
use thread_laws::{ActorEnd, CellHistory};
use wedge_base::{NoMemory, Stamp};

/// What the run of an actor returns once the actor has ended: its log and how it ended, the logs of all that it
/// created and that these created, the histories of the recycled gates that they made, and the passes with which they
/// came to the slots of declared tags.
#[derive(Drop)]
pub struct Returned<I: RunOf, T: TableOf> {
    pub log: KeptLog<I>,
    pub end: ActorEnd,
    pub others: Vec<KeptLog<I>>,
    pub gates: Vec<CellHistory>,
    /// One for each log.
    pub passes: Vec<TagPass<I, T>>,
}

/// The promise of a thread: what it returns is of the actor that it was given.
#[derive(Drop)]
pub struct ReturnsFamily<I: RunOf, T: TableOf> {
    pub began: Snapshot<Resident>,
    /// The stamp of the event that created the actor.
    pub stamp: Stamp,
    pub run: PhantomData<I>,
    pub table: PhantomData<T>,
}

impl<I: RunOf, T: TableOf> Promise<Result<Returned<I, T>, NoMemory>> for ReturnsFamily<I, T> {
    ghost use Rattle.std.specs.Prelude.{IfOk};
    ghost use Rattle.actor_task.specs.Returning.{IsReturned};

    ghost kept_by = { λ p r.
        IfOk r (IsReturned I.image T.table.slots p.began.value p.stamp) };
}

/// Where a created actor is.
#[derive(Drop)]
enum State<I: RunOf, T: TableOf> {
    /// On its thread.
    Running(PromisedHandle<Result<Returned<I, T>, NoMemory>, ReturnsFamily<I, T>>),
    /// It has ended.
    Ended(Returned<I, T>),
    /// It, or an actor that it created, ran out of memory.
    OutOfMemory,
}

/// A child that an actor started, or the run of a gate that it entered. Contracts see how that began, at which
/// stamp, and how it ended, once the actor has waited for it.
pub struct Created<I: RunOf, T: TableOf> {
    began: Snapshot<Resident>,
    stamp: Stamp,
    state: State<I, T>,
}

// By hand: a derived drop would be proved again in each function that drops one.
impl<I: RunOf, T: TableOf> Drop for Created<I, T> {
    fn drop(self) {
        let Self {
            began: _,
            stamp: _,
            state: _,
        } = self;
    }
}

impl<I: RunOf, T: TableOf> Model for Created<I, T> {
    ghost use Rattle.thread_laws.specs.ActorProgresses.{CreatedActor};
    ghost use Rattle.actor_task.specs.States.{learned_in, IsStateOf};

    ghost Value = { CreatedActor };

    ghost view = { λ c. record {
      began = c.began.value;
      stamp = c.stamp;
      learned = learned_in c.state;
    } };

    ghost invariant = { λ c.
        IsStateOf I.image T.table.slots c.began.value c.stamp c.state };
}

impl<I: RunOf, T: TableOf> Created<I, T> {
    /// Returns one that runs on a thread.
    pub fn running(
        began: Snapshot<Resident>,
        stamp: Stamp,
        handle: PromisedHandle<Result<Returned<I, T>, NoMemory>, ReturnsFamily<I, T>>,
    ) -> Created<I, T>
        requires began { handle.promise.began.value ≡ began.value }
        requires stamp { handle.promise.stamp ≡ stamp }
        ensures { result ≡ created_actor began.value stamp None }
    {
        Created {
            began,
            stamp,
            state: State::Running(handle),
        }
    }

    /// Returns one that has ended.
    pub fn ended(began: Snapshot<Resident>, stamp: Stamp, returned: Returned<I, T>) -> Created<I, T>
        requires { IsReturned I.image T.table.slots began.value stamp returned }
        ensures { result ≡ created_actor began.value stamp (Some returned.end) }
    {
        Created {
            began,
            stamp,
            state: State::Ended(returned),
        }
    }

    /// Waits for its end, and returns how it ended. Fails where it, or an actor that it created, ran out of
    /// memory.
    pub fn wait<R: Threads>(&mut self, rt: &R) -> Result<ActorEnd, NoMemory>
        ensures waited { IfOk result (HasWaited self.old self.new) }
        ensures err { OnErr result (self.new ≡ self.old) }
    {
        if let State::Ended(returned) = &self.state {
            return Ok(returned.end);
        }
        let State::Running(handle) = mem::replace(&mut self.state, State::OutOfMemory) else {
            return Err(NoMemory);
        };
        let returned = handle.join(rt)?;
        let end = returned.end;
        self.state = State::Ended(returned);
        Ok(end)
    }

    /// Consumes it, waits for its end, and returns what it returned. Fails as `wait` does.
    pub fn into_returned<R: Threads>(self, rt: &R) -> Result<Returned<I, T>, NoMemory>
        ensures { IfOk result (IsReturnedOf I.image T.table.slots self) }
    {
        let Created {
            began: _began,
            stamp: _stamp,
            state,
        } = self;
        match state {
            State::Running(handle) => handle.join(rt),
            State::Ended(returned) => Ok(returned),
            State::OutOfMemory => Err(NoMemory),
        }
    }
}
