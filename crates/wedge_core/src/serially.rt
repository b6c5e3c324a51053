//! Complete runs on one thread.

ghost use Rattle.std.specs.Prelude.{◌≡◌, ◌<◌, ◌++◌, ◌∷◌, [], length, map, IfOk, OnOk, true, false};
ghost use Rattle.run_laws.specs.Fuel.{work_left};
ghost use Rattle.machine.specs.Worlds as worlds;
ghost use Rattle.wedge_core.specs.Serial.{InSerialOrder, IsSerial, LivesAfter, LivingGoOn, SerialOrderGoesOn};
ghost use Rattle.world_turns.specs.Progress.{IsStampedByIndex};
ghost use Rattle.run_laws.specs.CompleteRuns.{IsJournaledRun};
ghost use Rattle.wedge_events.specs.Journals.{turns_of};

use crate::ending::outcome;
use image_form::Image;
use std::alloc::Global;
use wedge_base::{ActorName, Items, NoMemory, Outcome};
use wedge_events::Journal;
use world_turns::{Went, World, advance, open_world};

/// An actor that has not ended: its name, and its index among the actors.
#[derive(Drop)]
pub(crate) struct LiveActor {
    pub name: ActorName,
    pub index: usize,
}

/// A complete run of an image, on the calling thread: its journal and its outcome. The stamps of the
/// journal are the indices of its entries, counted from 1. Each turn is that of the actor that was started last and
/// has not ended.
pub fn serial(alloc: Global, image: &Image) -> Result<(Journal, Outcome), NoMemory>
    ensures run { IfOk result (λ r. IsJournaledRun image.now r.0.entries r.1) }
    ensures stamps { IfOk result (λ r. IsStampedByIndex r.0.entries) }
    ensures order { IfOk result
        (λ r. InSerialOrder (worlds.initial_state image.now) (turns_of r.0.entries)) }
{
    let mut world = open_world(alloc, image)?;
    let mut live = Vec::new(alloc);
    live.push(LiveActor {
        name: ActorName::root(alloc)?,
        index: 0,
    })?;
    while !live.is_empty() {
        take_turn(&mut world, &mut live)?;
    }
    let outcome = outcome(alloc, &world)?;
    let journal = Journal {
        entries: Items::new(world.into_entries()),
    };
    Ok((journal, outcome))
}

/// A turn of the actor that was started last and has not ended: the last of those that live.
fn take_turn(world: &mut World<'_>, live: &mut Vec<LiveActor>) -> Result<(), NoMemory>
    requires serial { IsSerial world.old.state.image world.old live.old.items }
    requires some { 0 < length live.old.items }
    ensures serial { OnOk result (IsSerial world.new.state.image world.new live.new.items) }
    ensures image { world.new.state.image ≡ world.old.state.image }
    ensures less { OnOk result (work_left world.new.state < work_left world.old.state) }
{
    let newest = &live[live.len() - 1];
    let index = newest.index;
    let count = world.residents.as_slice().len();
    match advance(world, &newest.name, index)? {
        Went::Took => note_lives(world, live, index, count),
        Went::Ended => unreachable!(),
        Went::Waits => unreachable!(),
        Went::Busy => unreachable!(),
    }
}

/// Notes who lives after a turn of the actor at an index, before which there were so many actors.
fn note_lives(
    world: &World<'_>,
    live: &mut Vec<LiveActor>,
    index: usize,
    count: usize,
) -> Result<(), NoMemory>
    requires inside { index < length world.now.state.actors }
    requires some { 0 < length live.old.items }
    ensures { OnOk result
        (LivesAfter world.now.state.actors index count live.old.items live.new.items) }
{
    let actors = world.residents.as_slice();
    if count < actors.len() {
        let name = actors[count].name().copy()?;
        live.push(LiveActor { name, index: count })?;
        return Ok(());
    }
    let resident = &actors[index];
    if resident.actor.has_ended() {
        live.pop();
    }
    Ok(())
}

/// In every run an actor that has not ended has a turn, unless it awaits a child or the run of a gate that has not ended, or is to
/// enter a recycled gate in which a run is. In serial order the actor whose turn it is neither waits nor finds a gate busy.
pub fn serial_order_goes_on()
    ensures living { LivingGoOn }
    ensures serial { SerialOrderGoesOn }
{}
