//! The report and the trace of a replay.

ghost use Rattle.std.specs.Prelude.{◌≡◌, ◌≤◌, length, IfOk, IfErr, Ok};
ghost use Rattle.report_text.specs.Schedules.{names_in};
ghost use Rattle.world_turns.specs.Replay.{replay_of};
ghost use Rattle.cli_inputs.specs.Loading.{most_of};
ghost use Rattle.cli_inputs.specs.Replaying as replays;
ghost use Rattle.cli_inputs.specs.Replaying.{schedule_by, text_made, report_made, trace_made, IsRefusalIn};

use crate::loading::{FileKind, image_of};
use crate::refusal::{Refusal, refused_form, refused_replay};
use cb_log::log;
use image_form::Image;
use report_text::{read_schedule, report};
use std::alloc::Global;
use wedge_base::ActorName;
use wedge_core::{outcome, replay};

/// The report of the replay of a schedule over an image, of the bytes of both, or what is wrong with the
/// first of them that is wrong.
#[tactic(auto, unfolding(crate::specs::Replaying::text_of_replay))]
pub fn replay_text(alloc: Global, image: &[u8], schedule: &[u8]) -> Result<Vec<u8>, Refusal>
    requires image { length image.now ≤ most_of FileKind.Image }
    requires schedule { length schedule.now ≤ most_of FileKind.Schedule }
    ensures text { IfOk result (λ v. replays.replay_text image.now schedule.now ≡ Ok v.items) }
    ensures rejected { IfErr result (IsRefusalIn (replays.replay_text image.now schedule.now)) }
{
    let image = image_of(alloc, image)?;
    let names = schedule_of(alloc, schedule)?;
    report_of(alloc, &image, names.as_slice())
}

/// The trace of the replay of a schedule over an image, of the bytes of both, or what is wrong with the first
/// of them that is wrong.
#[tactic(auto, unfolding(crate::specs::Replaying::text_of_replay))]
pub fn log_text(alloc: Global, image: &[u8], schedule: &[u8]) -> Result<Vec<u8>, Refusal>
    requires image { length image.now ≤ most_of FileKind.Image }
    requires schedule { length schedule.now ≤ most_of FileKind.Schedule }
    ensures text { IfOk result (λ v. replays.log_text image.now schedule.now ≡ Ok v.items) }
    ensures rejected { IfErr result (IsRefusalIn (replays.log_text image.now schedule.now)) }
{
    let read = image_of(alloc, image)?;
    let actors = schedule_of(alloc, schedule)?;
    trace_of(alloc, &read, actors.as_slice())
}

/// The names of a schedule.
pub(crate) fn schedule_of(alloc: Global, bytes: &[u8]) -> Result<Vec<ActorName>, Refusal>
    ensures names { IfOk result (λ v. schedule_by (names_in bytes.now) ≡ Ok v.items) }
    ensures rejected { IfErr result (IsRefusalIn (schedule_by (names_in bytes.now))) }
{
    match read_schedule(alloc, bytes) {
        Ok(names) => Ok(names),
        Err(fault) => Err(refused_form(fault)),
    }
}

/// The report of the state to which the turns of these actors lead.
pub(crate) fn report_of(
    alloc: Global,
    image: &Image,
    names: &[ActorName],
) -> Result<Vec<u8>, Refusal>
    ensures text { IfOk result
        (λ v. text_made report_made image.now names.now (replay_of image.now names.now)
        ≡ Ok v.items) }
    ensures rejected { IfErr result
        (IsRefusalIn (text_made report_made image.now names.now
        (replay_of image.now names.now))) }
{
    match replay(alloc, image, names) {
        Ok(world) => {
            let outcome = outcome(alloc, &world)?;
            let text = report(alloc, &outcome)?;
            Ok(text)
        }
        Err(fault) => Err(refused_replay(fault)),
    }
}

/// The trace of the turns of these actors.
fn trace_of(alloc: Global, image: &Image, names: &[ActorName]) -> Result<Vec<u8>, Refusal>
    ensures text { IfOk result
        (λ v. text_made trace_made image.now names.now (replay_of image.now names.now)
        ≡ Ok v.items) }
    ensures rejected { IfErr result
        (IsRefusalIn (text_made trace_made image.now names.now
        (replay_of image.now names.now))) }
{
    match log(alloc, image, names) {
        Ok(text) => Ok(text),
        Err(fault) => Err(refused_replay(fault)),
    }
}
