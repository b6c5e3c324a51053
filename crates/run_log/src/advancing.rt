//! A turn and its notes: the actor comes to rest, noted, and then takes its turn as it stands.

ghost use Rattle.std.specs.Prelude.{◌≡◌, ◌<◌, [], length, slice_get, false, true, IfOk, IfSome, OnOk, OnErr};
ghost use Rattle.run_laws.specs.FamilyTrees.{Family};
ghost use Rattle.run_log.specs.LoggedParts.{IsInStep, IsNotedAt, IsNotedFrom, ComesToRest, TookLogged, IsEventLogged, IsEventNoted, IsLastEvent, IsTakenBack, RestsAlready};
ghost use Rattle.run_log.specs.Logging.{log_rested};
ghost use Rattle.run_notes.specs.Doers.{doer_of};
ghost use Rattle.run_notes.specs.Procedures.{AreProceduresOf};
ghost use Rattle.wedge_events.specs.declared.events.Event.{Event as AnEvent};
ghost use Rattle.world_turns.specs.Indices.{IsNameMap};
ghost use Rattle.world_turns.specs.Progress.{HasEnded, IsIndexOf, IsWaiting, IsBusy, rested};
ghost use Rattle.world_turns.specs.Turning.{StillWaits};

use crate::log::Log;
use machine::Resident;
use ready_text::Program;
use run_notes::{CallChain, Context, Doer, Procedures, note_event, note_rest};
use std::collections::HashMap;
use wedge_base::{ActorName, NoMemory};
use wedge_events::Event;
use world_turns::{Residents, Went, World, advance, go_on};

/// Takes a turn, as `advance` does, of the actor at an index, with its notes.
pub(crate) fn advance_logged(
    world: &mut World<'_>,
    name: &ActorName,
    index: usize,
    procedures: &Procedures,
    log: &mut Log,
) -> Result<Went, NoMemory>
    requires going { world.old.stopped ≡ false }
    requires there { IsIndexOf world.old.state.actors name.now index }
    requires in_step { IsInStep world.old log.old }
    requires procedures { AreProceduresOf world.old.state.image procedures.now }
    ensures took { IfOk result (λ r. r ≡ Went.Took
        → TookLogged world.old log.old name.now world.new log.new) }
    ensures ended { IfOk result (λ r. r ≡ Went.Ended → HasEnded world.old.state.actors name.now
        × (world.new ≡ world.old) × (log.new ≡ log.old)) }
    ensures waits { IfOk result (λ r. r ≡ Went.Waits → IsWaiting world.old.state name.now
        × (world.new ≡ record world.old { state = rested world.old.state name.now })
        × (log.new ≡ log_rested world.old.state log.old name.now)) }
    ensures busy { IfOk result (λ r. r ≡ Went.Busy → IsBusy world.old.state name.now
        × (world.new ≡ record world.old { state = rested world.old.state name.now })
        × (log.new ≡ log_rested world.old.state log.old name.now)) }
    ensures going { OnOk result (world.new.stopped ≡ false) }
    ensures stops { OnErr result (world.new.stopped ≡ true) }
    ensures kept { OnErr result (world.new.turns ≡ world.old.turns) }
{
    if world.residents.has_ended(index) {
        return Ok(Went::Ended);
    }
    if !rest_logged(world, name, index, procedures, log)? {
        return Ok(Went::Waits);
    }
    advance_rested(world, name, index, procedures, log)
}

/// Takes the turn of the actor at an index, which is at rest and waits for no run, with the note of its event.
fn advance_rested(
    world: &mut World<'_>,
    name: &ActorName,
    index: usize,
    procedures: &Procedures,
    log: &mut Log,
) -> Result<Went, NoMemory>
    requires going { world.old.stopped ≡ false }
    requires rests { RestsAlready world.old.state name.now }
    requires there { IsIndexOf world.old.state.actors name.now index }
    requires in_step { IsInStep world.old log.old }
    requires procedures { AreProceduresOf world.old.state.image procedures.now }
    ensures took { IfOk result (λ r. r ≡ Went.Took
        → IsEventLogged world.old log.old name.now index world.new log.new) }
    ensures ended { IfOk result (λ r. r ≡ Went.Ended → HasEnded world.old.state.actors name.now) }
    ensures waits { IfOk result (λ r. r ≡ Went.Waits → IsWaiting world.old.state name.now
        × (world.new ≡ record world.old { state = rested world.old.state name.now })
        × (log.new ≡ log.old)) }
    ensures busy { IfOk result (λ r. r ≡ Went.Busy → IsBusy world.old.state name.now
        × (world.new ≡ record world.old { state = rested world.old.state name.now })
        × (log.new ≡ log.old)) }
    ensures going { OnOk result (world.new.stopped ≡ false) }
    ensures stops { OnErr result (world.new.stopped ≡ true) }
    ensures kept { OnErr result (world.new.turns ≡ world.old.turns) }
{
    let Ok(doer) = doer_at(world.residents.as_slice(), index) else {
        stop(world);
        return Err(NoMemory);
    };
    match advance(world, name, index)? {
        Went::Ended => Ok(Went::Ended),
        Went::Waits => Ok(Went::Waits),
        Went::Busy => Ok(Went::Busy),
        Went::Took => match log_last(world, index, &doer, procedures, log) {
            Ok(()) => Ok(Went::Took),
            Err(NoMemory) => {
                take_back(world);
                Err(NoMemory)
            }
        },
    }
}

/// A world stops.
pub(crate) fn stop(world: &mut World<'_>)
    ensures { world.new ≡ record world.old { stopped = true } }
{
    world.stopped = true;
}

/// Takes back the last turn of a world, which stops.
pub(crate) fn take_back(world: &mut World<'_>)
    requires { 0 < length world.old.turns }
    ensures stops { world.new.stopped ≡ true }
    ensures turns { IsTakenBack world.old world.new }
{
    world.entries.pop();
    world.stopped = true;
}

/// Returns the event of a world's last turn.
fn last_event<'a>(world: &'a World<'_>) -> &'a Event
    requires { 0 < length world.now.turns }
    ensures { IsLastEvent world.now result.now }
{
    let entry = &world.entries[world.entries.len() - 1];
    &entry.event
}

/// The actor at an index, as far as its next event is noted by it.
fn doer_at(actors: &[Resident], index: usize) -> Result<Doer, NoMemory>
    requires { index < length actors.now }
    ensures { IfOk result (λ d. IfSome (slice_get actors.now index) (λ a. d ≡ doer_of a)) }
{
    let resident = &actors[index];
    Doer::of(&resident.actor)
}

/// Logs a world's last event, of the actor that was at an index.
fn log_last(
    world: &World<'_>,
    index: usize,
    doer: &Doer,
    procedures: &Procedures,
    log: &mut Log,
) -> Result<(), NoMemory>
    requires some { 0 < length world.now.turns }
    requires inside { index < length log.old.chains }
    requires there { index < length world.now.state.actors }
    ensures { OnOk result ((e : AnEvent) → IsLastEvent world.now e → IsEventNoted
        world.now.state.image e world.now.state.actors index doer.now log.old log.new) }
{
    let actors = world.residents.as_slice();
    log_event(
        &world.program,
        procedures,
        actors,
        index,
        doer,
        last_event(world),
        log,
    )
}

/// Logs an event of the actor that was at an index, where these are the actors after it.
fn log_event(
    program: &Program<'_>,
    procedures: &Procedures,
    actors: &[Resident],
    index: usize,
    doer: &Doer,
    event: &Event,
    log: &mut Log,
) -> Result<(), NoMemory>
    requires inside { index < length log.old.chains }
    requires there { index < length actors.now }
    ensures { OnOk result
        (IsEventNoted program.now event.now actors.now index doer.now log.old log.new) }
{
    let count = log.chains.len();
    let context = Context {
        program,
        procedures,
        makings: &log.makings,
    };
    note_event(&context, doer, &log.chains[index], &mut log.notes, event)?;
    let resident = &actors[index];
    log.makings
        .add(doer, resident.actor.labels().as_slice(), event)?;
    let Some(begun) = actors.get(count) else {
        return Ok(());
    };
    let chain = CallChain::opening(*log.chains.allocator(), begun.actor.compartment())?;
    log.chains.push(chain)?;
    Ok(())
}

/// The actor at an index goes on if it waited for a run that has ended, and comes to rest, noted. Returns false where it
/// waits still.
fn rest_logged(
    world: &mut World<'_>,
    name: &ActorName,
    index: usize,
    procedures: &Procedures,
    log: &mut Log,
) -> Result<bool, NoMemory>
    requires going { world.old.stopped ≡ false }
    requires there { IsIndexOf world.old.state.actors name.now index }
    requires in_step { IsInStep world.old log.old }
    requires lives { HasEnded world.old.state.actors name.now → ⊥ }
    requires procedures { AreProceduresOf world.old.state.image procedures.now }
    ensures rests { IfOk result (λ r. r ≡ true
        → ComesToRest world.old name.now index log.old world.new log.new) }
    ensures waits { IfOk result (λ r. r ≡ false → IsWaiting world.old.state name.now
        × (world.new ≡ record world.old { state = rested world.old.state name.now })
        × (log.new ≡ log_rested world.old.state log.old name.now)) }
    ensures going { OnOk result (world.new.stopped ≡ false) }
    ensures stops { OnErr result (world.new.stopped ≡ true) }
    ensures kept { OnErr result (world.new.turns ≡ world.old.turns) }
{
    match rest_over(
        &world.program,
        &mut world.residents,
        name,
        index,
        procedures,
        log,
    ) {
        Ok(awake) => Ok(awake),
        Err(NoMemory) => {
            world.stopped = true;
            Err(NoMemory)
        }
    }
}

/// The same over the parts of a world.
fn rest_over(
    program: &Program<'_>,
    residents: &mut Residents,
    name: &ActorName,
    index: usize,
    procedures: &Procedures,
    log: &mut Log,
) -> Result<bool, NoMemory>
    requires there { IsIndexOf residents.old name.now index }
    requires family { Family residents.old }
    requires in_step { length log.old.chains ≡ length residents.old }
    requires procedures { AreProceduresOf program.now procedures.now }
    ensures rests { IfOk result (λ r. r ≡ true → IsNotedFrom program.now residents.old name.now
        index log.old residents.new log.new) }
    ensures waits { IfOk result (λ r. r ≡ false
        → StillWaits residents.old index name.now residents.new × (log.new ≡ log.old)) }
{
    if !go_on(residents, name, index)? {
        return Ok(false);
    }
    note_at(program, residents, index, procedures, log)?;
    Ok(true)
}

/// The actor at an index comes to rest, noted.
fn note_at(
    program: &Program<'_>,
    residents: &mut Residents,
    index: usize,
    procedures: &Procedures,
    log: &mut Log,
) -> Result<(), NoMemory>
    requires inside { index < length residents.old }
    requires in_step { length log.old.chains ≡ length residents.old }
    requires procedures { AreProceduresOf program.now procedures.now }
    ensures { OnOk result
        (IsNotedAt program.now residents.old log.old index residents.new log.new) }
{
    let context = Context {
        program,
        procedures,
        makings: &log.makings,
    };
    let resident = &mut residents.list[index];
    match note_rest(
        &context,
        &mut resident.actor,
        &mut resident.memory,
        &mut log.chains[index],
        &mut log.notes,
    ) {
        Ok(()) => Ok(()),
        Err(NoMemory) => {
            drop_all(&mut residents.list, &mut residents.by_name);
            Err(NoMemory)
        }
    }
}

/// Drops all actors and the map of their names: out of memory not even an actor's name is known.
fn drop_all(list: &mut Vec<Resident>, by_name: &mut HashMap<Vec<u32>, usize>)
    ensures none { list.new.items ≡ [] }
    ensures by_name { IsNameMap by_name.new [] }
{
    let alloc = *list.allocator();
    *list = Vec::new(alloc);
    *by_name = HashMap::new(alloc);
}
