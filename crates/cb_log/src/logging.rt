//! The log of a schedule.

ghost use Rattle.std.specs.Prelude.{◌≡◌, IsOk, IfOk, IfErr, None};
ghost use Rattle.trace_form.specs.FirstFault.{first_fault};
ghost use Rattle.trace_form.specs.Grammar.{IsTraceOf};
ghost use Rattle.world_turns.specs.Replay.{replay_of, IsFaultOf};
ghost use Rattle.cb_log.specs.Logs.{records_of, trace_of};

use crate::texts::trace_text;
use image_form::Image;
use run_log::replay_logged;
use std::alloc::Global;
use wedge_base::ActorName;
use world_turns::ReplayFault;

/// The trace of the run in which the actors that a schedule names take their turns. It is in the grammar of traces, so
/// `Records::new` reads its records again. A schedule is rejected as by `replay`.
pub fn log(alloc: Global, image: &Image, schedule: &[ActorName]) -> Result<Vec<u8>, ReplayFault>
    ensures text { IfOk result (λ v. v.items ≡ trace_of image.now schedule.now) }
    ensures grammar { IfOk result
        (λ v. IsTraceOf v.items (records_of image.now schedule.now)) }
    ensures replayed { IsOk result → IsOk (replay_of image.now schedule.now) }
    ensures sound { IfOk result (λ v. first_fault v.items ≡ None) }
    ensures rejected { IfErr result (λ e. IsFaultOf (replay_of image.now schedule.now) e) }
{
    let run = replay_logged(alloc, image, schedule)?;
    let text = trace_text(alloc, image, run.notes())?;
    Ok(text)
}
