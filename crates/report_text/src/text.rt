//! The report of a run.

ghost use Rattle.std.specs.Prelude.{◌≡◌, ◌++◌, OnOk, IfOk};
ghost use Rattle.report_text.specs.Reports.{actor_lines, report_of};

use crate::lines::{write_actor_line, write_denial_line, write_stream_line};
use std::alloc::Global;
use wedge_base::{ActorLine, NoMemory, Outcome};

/// Adds the line of an actor, and one for each of its denials.
#[tactic(auto, unfolding(crate::specs::Reports::actor_lines))]
fn write_actor(out: &mut Vec<u8>, line: &ActorLine) -> Result<(), NoMemory>
    ensures { OnOk result (out.new.items ≡ out.old.items ++ actor_lines line.now) }
{
    write_actor_line(out, line)?;
    for denial in line.denials.as_slice() {
        write_denial_line(out, &line.name, denial)?;
    }
    Ok(())
}

/// The report of what a run ended with: a line for each actor, followed by its denials, and then a line
/// for each stream. Each line ends with LF.
#[tactic(auto, unfolding(crate::specs::Reports::report_of))]
pub fn report(alloc: Global, outcome: &Outcome) -> Result<Vec<u8>, NoMemory>
    ensures { IfOk result (λ text. text.items ≡ report_of outcome.now) }
{
    let mut out = Vec::new(alloc);
    for line in outcome.actors.as_slice() {
        write_actor(&mut out, line)?;
    }
    for line in outcome.streams.as_slice() {
        write_stream_line(&mut out, line)?;
    }
    Ok(out)
}
