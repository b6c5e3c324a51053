//! One turn, logged.

ghost use Rattle.std.specs.Prelude.{◌≡◌, ◌<◌, [], ◌↔◌, ◌⊎◌, None, length, false, true, IfOk, OnOk, OnErr, IsErrOf};
ghost use Rattle.machine.specs.Worlds.{actor_named};
ghost use Rattle.run_log.specs.LoggedParts.{IsLogOf, IsLoggedTurn, IsLastEvent, IsTakenBack};
ghost use Rattle.run_log.specs.Logging.{log_rested};
ghost use Rattle.run_log.specs.Logs.{behind};
ghost use Rattle.world_turns.specs.Progress.{HasEnded, IsWaiting, IsBusy, rested};

use crate::advancing::{advance_logged, stop, take_back};
use crate::log::{Log, RunLog};
use run_notes::Note;
use std::mem;
use wedge_base::{ActorName, NoMemory};
use wedge_events::Event;
use world_turns::{NoTurn, Taken, Went, World};

/// Takes a turn, as `turn` does, and adds the notes of the actor's accesses that succeeded. The log has a chain for each
/// actor of the world, and the procedures of its image. Where there is no turn but the actor waits, or finds a gate
/// busy, the accesses that come before are noted. Out of memory the notes and the turns are as they were, and the world
/// has stopped.
pub fn turn_logged(
    world: &mut World<'_>,
    name: &ActorName,
    log: &mut RunLog,
) -> Result<Taken, NoTurn>
    requires { IsLogOf world.old log.old }
    ensures took { IfOk result (λ t. IsLoggedTurn world.old log.old.log name.now t.event world.new
        log.new.log) }
    ensures unknown { IsErrOf result NoTurn.Unknown
        → actor_named world.old.state.actors name.now ≡ None }
    ensures ended { IsErrOf result NoTurn.Ended → HasEnded world.old.state.actors name.now }
    ensures unchanged { IsErrOf result NoTurn.Unknown ⊎ IsErrOf result NoTurn.Ended
        → (world.new ≡ world.old) × (log.new.log ≡ log.old.log) }
    ensures waits { IsErrOf result NoTurn.Waits → IsWaiting world.old.state name.now }
    ensures busy { IsErrOf result NoTurn.Busy → IsBusy world.old.state name.now }
    ensures rests { IsErrOf result NoTurn.Waits ⊎ IsErrOf result NoTurn.Busy
        → (world.new ≡ record world.old { state = rested world.old.state name.now })
        × (log.new.log ≡ log_rested world.old.state log.old.log name.now) }
    ensures procedures { log.new.procedures ≡ log.old.procedures }

    // out of memory
    ensures stops { IsErrOf result NoTurn.NoMemory ↔ (world.new.stopped ≡ true) }
    ensures kept { OnErr result (world.new.turns ≡ world.old.turns) }
    ensures kept_notes { IsErrOf result NoTurn.NoMemory
        → log.new.log.notes ≡ log.old.log.notes }
{
    if world.stopped {
        return Err(NoTurn::NoMemory);
    }
    let Some(index) = world.residents.index_of(name) else {
        return Err(NoTurn::Unknown);
    };
    // The notes of this turn are collected apart, and added once it is over.
    let before = take_notes(&mut log.log);
    match advance_logged(world, name, index, &log.procedures, &mut log.log) {
        Err(NoMemory) => {
            put_notes(&mut log.log, before);
            Err(NoTurn::NoMemory)
        }
        Ok(Went::Ended) => {
            put_notes(&mut log.log, before);
            Err(NoTurn::Ended)
        }
        Ok(Went::Waits) => match add_or_stop(world, &mut log.log, before) {
            Ok(()) => Err(NoTurn::Waits),
            Err(NoMemory) => Err(NoTurn::NoMemory),
        },
        Ok(Went::Busy) => match add_or_stop(world, &mut log.log, before) {
            Ok(()) => Err(NoTurn::Busy),
            Err(NoMemory) => Err(NoTurn::NoMemory),
        },
        Ok(Went::Took) => match add_or_take_back(world, &mut log.log, before) {
            Ok(event) => Ok(Taken { event }),
            Err(NoMemory) => Err(NoTurn::NoMemory),
        },
    }
}

/// Takes the notes out of a log.
fn take_notes(log: &mut Log) -> Vec<Note>
    ensures notes { result.items ≡ log.old.notes }
    ensures log { log.new ≡ record log.old { notes = [] } }
{
    let alloc = *log.notes.allocator();
    mem::replace(&mut log.notes, Vec::new(alloc))
}

/// Puts notes into a log, in place of its own.
fn put_notes(log: &mut Log, notes: Vec<Note>)
    ensures { log.new ≡ record log.old { notes = notes.items } }
{
    log.notes = notes;
}

/// Puts the notes of the turns before a turn in front of its own. Out of memory those before are left alone.
fn add_behind(log: &mut Log, before: Vec<Note>) -> Result<(), NoMemory>
    ensures ok { OnOk result (log.new ≡ behind before.items log.old) }
    ensures err { OnErr result (log.new.notes ≡ before.items) }
{
    let mut notes = before;
    let added = notes.append(&mut log.notes);
    log.notes = notes;
    Ok(added?)
}

/// The same, where no turn was taken: out of memory the world stops.
fn add_or_stop(world: &mut World<'_>, log: &mut Log, before: Vec<Note>) -> Result<(), NoMemory>
    requires { world.old.stopped ≡ false }
    ensures ok { OnOk result ((world.new ≡ world.old) × (log.new ≡ behind before.items log.old)) }
    ensures err { OnErr result (log.new.notes ≡ before.items) }
    ensures stops { OnErr result (world.new ≡ record world.old { stopped = true }) }
{
    let added = add_behind(log, before);
    if added.is_err() {
        stop(world);
    }
    added
}

/// The same, where a turn was taken: out of memory it is taken back, and the world stops. Returns the turn's event.
fn add_or_take_back(
    world: &mut World<'_>,
    log: &mut Log,
    before: Vec<Note>,
) -> Result<Event, NoMemory>
    requires going { world.old.stopped ≡ false }
    requires some { 0 < length world.old.turns }
    ensures ok { OnOk result ((world.new ≡ world.old) × (log.new ≡ behind before.items log.old)) }
    ensures event { IfOk result (IsLastEvent world.old) }
    ensures err { OnErr result (log.new.notes ≡ before.items) }
    ensures stops { OnErr result ((world.new.stopped ≡ true) × IsTakenBack world.old world.new) }
{
    let Ok(event) = world.last_event() else {
        put_notes(log, before);
        take_back(world);
        return Err(NoMemory);
    };
    if let Err(NoMemory) = add_behind(log, before) {
        take_back(world);
        return Err(NoMemory);
    }
    Ok(event)
}
