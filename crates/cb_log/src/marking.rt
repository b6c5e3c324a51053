//! The trace of a schedule, and where in the run each of its accesses was made.

ghost use Rattle.std.specs.Prelude.{◌≡◌, length, IsOk, IfOk, IfErr, None};
ghost use Rattle.trace_form.specs.FirstFault.{first_fault};
ghost use Rattle.trace_form.specs.Records as read;
ghost use Rattle.world_turns.specs.Replay.{replay_of, IsFaultOf};
ghost use Rattle.cb_log.specs.Logs.{records_of, trace_of};
ghost use Rattle.cb_log.specs.Marks as marks;

use crate::texts::trace_text;
use image_form::Image;
use run_log::replay_logged;
use run_notes::Note;
use sheet_enforce::Mark;
use std::alloc::Global;
use wedge_base::{ActorName, NoMemory};
use world_turns::ReplayFault;

/// The trace of a run, with a mark for each of its records.
#[derive(Drop)]
pub struct Marked {
    pub trace: Vec<u8>,
    /// Where in the run each record was made, in their order.
    pub marks: Vec<Mark>,
}

/// Returns the trace of the run in which the actors that a schedule names take their turns, as `log` does, and for each
/// of its records the turn, the actor and the instruction of the access. A schedule is rejected as by `replay`.
pub fn log_marked(
    alloc: Global,
    image: &Image,
    schedule: &[ActorName],
) -> Result<Marked, ReplayFault>
    ensures trace { IfOk result (λ m. m.trace.items ≡ trace_of image.now schedule.now) }
    ensures records { IfOk result
        (λ m. read.records_of m.trace.items ≡ records_of image.now schedule.now) }
    ensures marks { IfOk result (λ m. m.marks.items ≡ marks.marks_of image.now schedule.now) }
    ensures marked { IfOk result
        (λ m. length m.marks.items ≡ length (read.records_of m.trace.items)) }
    ensures sound { IfOk result (λ m. first_fault m.trace.items ≡ None) }
    ensures replayed { IsOk result → IsOk (replay_of image.now schedule.now) }
    ensures rejected { IfErr result (λ e. IsFaultOf (replay_of image.now schedule.now) e) }
{
    let run = replay_logged(alloc, image, schedule)?;
    let trace = trace_text(alloc, image, run.notes())?;
    let marks = marks_of_notes(alloc, run.turns(), run.notes())?;
    Ok(Marked { trace, marks })
}

/// Returns the mark of a note that was made in this turn.
fn mark_of(turn: u64, note: &Note) -> Result<Mark, NoMemory>
    ensures { IfOk result (λ m. m ≡ marks.mark_of turn note.now) }
{
    Ok(Mark {
        turn,
        actor: note.actor.copy()?,
        pc: note.pc,
    })
}

/// Returns the marks of notes, by the turns in which they were made.
fn marks_of_notes(alloc: Global, turns: &[u64], notes: &[Note]) -> Result<Vec<Mark>, NoMemory>
    requires { length turns.now ≡ length notes.now }
    ensures { IfOk result (λ v. v.items ≡ marks.marks_of_notes turns.now notes.now) }
{
    let mut marks = Vec::new(alloc);
    for (i, note) in notes.iter().enumerate() {
        marks.push(mark_of(turns[i], note)?)?;
    }
    Ok(marks)
}
