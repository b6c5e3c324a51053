//! Replaying a schedule over an image.

ghost use Rattle.std.specs.Prelude.{◌≡◌, true, false, IfOk, IfErr, OnOk};
ghost use Rattle.wedge_base.specs.Names.{root_name};
ghost use Rattle.machine.specs.Worlds.{is_complete};
ghost use Rattle.world_turns.specs.Replay.{replay_of, names_of, IsFaultOf, Follows, IsScheduleRejected, CompleteRunsReplay, ReplaysAreComplete, JournalsReplay};
ghost use Rattle.run_laws.specs.CompleteRuns.{IsCompleteRun};

use image_form::Image;
use std::alloc::Global;
use wedge_base::{ActorName, NoMemory};
use world_turns::{ReplayFault, Went, Why, World, advance, open_world};

/// Replays a schedule over an image: the actors that it names take their turns in its order, and the last of
/// these is the end of the root. The turns of the world that is returned are a complete run by these names, and
/// `outcome` answers what it ends with. Each name takes one turn, and the world is never copied.
///
/// A schedule is rejected at its first name of which there is no turn, or which comes after the end of the
/// root; or behind its last name, where the root has not ended.
pub fn replay<'a>(
    alloc: Global,
    image: &'a Image,
    schedule: &[ActorName],
) -> Result<World<'a>, ReplayFault>
    ensures state { IfOk result (λ w. replay_of image.now schedule.now ≡ Ok w.state) }
    ensures turns { IfOk result (λ w. names_of w.turns ≡ schedule.now) }
    ensures run { IfOk result (λ w. IsCompleteRun image.now w.turns w.state) }
    ensures whole { IfOk result (λ w. is_complete w.state ≡ true) }
    ensures going { IfOk result (λ w. w.stopped ≡ false) }
    ensures rejected { IfErr result (λ e. IsFaultOf (replay_of image.now schedule.now) e) }
{
    let root = ActorName::root(alloc)?;
    let mut world = open_world(alloc, image)?;
    for i in 0..schedule.len() {
        follow(&mut world, &root, &schedule[i], i + 1)?;
    }
    if !root_has_ended(&world, &root) {
        return Err(ReplayFault::BadSchedule {
            at: schedule.len() + 1,
            why: Why::Short,
        });
    }
    Ok(world)
}

/// Takes the turn of the actor that a schedule names, by its name of this number.
fn follow(
    world: &mut World<'_>,
    root: &ActorName,
    name: &ActorName,
    at: usize,
) -> Result<(), ReplayFault>
    requires root { root.now ≡ root_name }
    requires going { world.old.stopped ≡ false }
    ensures ok { OnOk result (Follows world.old name.now world.new) }
    ensures rejected { IfErr result (λ e. IsScheduleRejected world.old.state at name.now e) }
{
    if root_has_ended(world, root) {
        return Err(ReplayFault::BadSchedule {
            at,
            why: Why::Extra,
        });
    }
    let Some(index) = world.residents.index_of(name) else {
        return Err(ReplayFault::BadSchedule {
            at,
            why: Why::Unknown,
        });
    };
    match advance(world, name, index) {
        Ok(Went::Took) => Ok(()),
        Ok(Went::Ended) => Err(ReplayFault::BadSchedule {
            at,
            why: Why::Ended,
        }),
        Ok(Went::Waits) => Err(ReplayFault::BadSchedule {
            at,
            why: Why::Waits,
        }),
        Ok(Went::Busy) => Err(ReplayFault::BadSchedule { at, why: Why::Busy }),
        Err(NoMemory) => Err(ReplayFault::NoMemory),
    }
}

/// Whether the root of a world has ended. It is the first of the actors, and is looked up by its name only were it not.
fn root_has_ended(world: &World<'_>, root: &ActorName) -> bool
    requires { root.now ≡ root_name }
    ensures { result ≡ is_complete world.now.state }
{
    let actors = world.residents.as_slice();
    if let Some(first) = actors.first() {
        if first.name().is_same(root) {
            return first.actor.has_ended();
        }
    }
    match world.residents.index_of(root) {
        Some(index) => {
            let resident = &actors[index];
            resident.actor.has_ended()
        }
        None => false,
    }
}

/// The names of each complete run replay to its last state, those in its journal to its outcome; and each schedule
/// that has a replay is the names of a complete run.
pub fn complete_runs_replay()
    ensures runs { CompleteRunsReplay }
    ensures replays { ReplaysAreComplete }
    ensures journals { JournalsReplay }
{}
