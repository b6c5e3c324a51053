//! A schedule, logged.

ghost use Rattle.std.specs.Prelude.{◌≡◌, ◌-◌, ◌≤◌, ◌++◌, length, replicate, false, IsOk, IfOk, IfErr, OnOk};
ghost use Rattle.machine.specs.Worlds.{is_complete};
ghost use Rattle.run_log.specs.LoggedParts.{IsLogOf, TookLogged};
ghost use Rattle.run_log.specs.Logging.{log_of};
ghost use Rattle.run_log.specs.NoteTurns.{note_turns};
ghost use Rattle.wedge_base.specs.Names.{root_name};
ghost use Rattle.world_turns.specs.Replay.{replay_of, IsFaultOf, IsScheduleRejected};

use crate::log::RunLog;
use crate::logging::turn_logged;
use crate::run::LoggedRun;
use image_form::Image;
use std::alloc::Global;
use wedge_base::{ActorName, NoMemory};
use world_turns::{NoTurn, ReplayFault, Why, World, open_world};

/// Replays a schedule over an image, as `replay` does, and returns its log, with the turn of each note. It is rejected
/// exactly where `replay` does so, with the same cause.
pub fn replay_logged(
    alloc: Global,
    image: &Image,
    schedule: &[ActorName],
) -> Result<LoggedRun, ReplayFault>
    ensures log { IfOk result (λ l. l.log.log ≡ log_of image.now schedule.now) }
    ensures turns { IfOk result (λ l. l.turns.items ≡ note_turns image.now schedule.now) }
    ensures each { IfOk result (λ l. length l.turns.items ≡ length l.log.log.notes) }
    ensures replayed { IsOk result → IsOk (replay_of image.now schedule.now) }
    ensures rejected { IfErr result (λ e. IsFaultOf (replay_of image.now schedule.now) e) }
{
    let root = ActorName::root(alloc)?;
    let mut world = open_world(alloc, image)?;
    let mut log = RunLog::opening(alloc, image)?;
    let mut turns = Vec::new(alloc);
    for i in 0..schedule.len() {
        follow_logged(&mut world, &root, &schedule[i], i + 1, &mut log)?;
        number_notes(&mut turns, log.notes().len(), (i + 1) as u64)?;
    }
    if !root_has_ended(&world, &root) {
        return Err(ReplayFault::BadSchedule {
            at: schedule.len() + 1,
            why: Why::Short,
        });
    }
    Ok(LoggedRun { log, turns })
}

/// Gives the notes that have no turn yet the one with this number, where there are now so many notes.
fn number_notes(turns: &mut Vec<u64>, notes: usize, number: u64) -> Result<(), NoMemory>
    requires { length turns.old.items ≤ notes }
    ensures { OnOk result (turns.new.items
        ≡ turns.old.items ++ replicate (notes - length turns.old.items) number) }
{
    turns.resize(notes, number)?;
    Ok(())
}

/// Takes the logged turn of the actor that a schedule names, by its name of this number.
fn follow_logged(
    world: &mut World<'_>,
    root: &ActorName,
    name: &ActorName,
    at: usize,
    log: &mut RunLog,
) -> Result<(), ReplayFault>
    requires root { root.now ≡ root_name }
    requires going { world.old.stopped ≡ false }
    requires of { IsLogOf world.old log.old }
    ensures goes_on { OnOk result (is_complete world.old.state ≡ false) }
    ensures ok { OnOk result
        (TookLogged world.old log.old.log name.now world.new log.new.log) }
    ensures of { OnOk result (IsLogOf world.new log.new) }
    ensures rejected { IfErr result (λ e. IsScheduleRejected world.old.state at name.now e) }
{
    if root_has_ended(world, root) {
        return Err(ReplayFault::BadSchedule {
            at,
            why: Why::Extra,
        });
    }
    match turn_logged(world, name, log) {
        Ok(_) => Ok(()),
        Err(NoTurn::NoMemory) => Err(ReplayFault::NoMemory),
        Err(NoTurn::Unknown) => Err(ReplayFault::BadSchedule {
            at,
            why: Why::Unknown,
        }),
        Err(NoTurn::Ended) => Err(ReplayFault::BadSchedule {
            at,
            why: Why::Ended,
        }),
        Err(NoTurn::Waits) => Err(ReplayFault::BadSchedule {
            at,
            why: Why::Waits,
        }),
        Err(NoTurn::Busy) => Err(ReplayFault::BadSchedule { at, why: Why::Busy }),
    }
}

/// Whether the root of a world has ended.
fn root_has_ended(world: &World<'_>, root: &ActorName) -> bool
    requires { root.now ≡ root_name }
    ensures { result ≡ is_complete world.now.state }
{
    match world.residents.index_of(root) {
        Some(index) => {
            let resident = &world.residents.as_slice()[index];
            resident.actor.has_ended()
        }
        None => false,
    }
}
