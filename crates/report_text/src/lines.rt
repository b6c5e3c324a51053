//! The lines of a report.

ghost use Rattle.std.specs.Prelude.{◌≡◌, ◌++◌, OnOk};
ghost use Rattle.report_text.specs.Reports.{denial_line, actor_line, stream_line};

use crate::numbers::{write_decimal, write_name, write_pc, write_quoted};
use crate::words::{write_denial, write_end};
use wedge_base::{ActorLine, ActorName, DenialAt, NoMemory, StreamLine};

/// Adds the line of a denial of the actor of this name.
#[tactic(auto, unfolding(crate::specs::Reports::denial_line))]
pub fn write_denial_line(out: &mut Vec<u8>, name: &ActorName, at: &DenialAt) -> Result<(), NoMemory>
    ensures { OnOk result (out.new.items ≡ out.old.items ++ denial_line name.now at.now) }
{
    out.extend_from_slice(b"denied ")?;
    write_name(out, name.parts())?;
    write_pc(out, at.pc)?;
    out.extend_from_slice(b" ")?;
    write_denial(out, &at.denial)?;
    out.extend_from_slice(b"\n")?;
    Ok(())
}

/// Adds the line of an actor.
#[tactic(auto, unfolding(crate::specs::Reports::actor_line))]
pub fn write_actor_line(out: &mut Vec<u8>, line: &ActorLine) -> Result<(), NoMemory>
    ensures { OnOk result (out.new.items ≡ out.old.items ++ actor_line line.now) }
{
    out.extend_from_slice(b"actor ")?;
    write_name(out, line.name.parts())?;
    out.extend_from_slice(b" ")?;
    out.extend_from_slice(line.compartment.as_slice())?;
    out.extend_from_slice(b" ")?;
    write_end(out, line.end)?;
    write_pc(out, line.pc)?;
    out.extend_from_slice(b" fuel ")?;
    write_decimal(out, line.fuel)?;
    out.extend_from_slice(b"\n")?;
    Ok(())
}

/// Adds the line of a stream.
#[tactic(auto, unfolding(crate::specs::Reports::stream_line))]
pub fn write_stream_line(out: &mut Vec<u8>, line: &StreamLine) -> Result<(), NoMemory>
    ensures { OnOk result (out.new.items ≡ out.old.items ++ stream_line line.now) }
{
    out.extend_from_slice(b"stream ")?;
    write_decimal(out, line.number.0)?;
    out.extend_from_slice(b" ")?;
    out.extend_from_slice(line.label.as_slice())?;
    out.extend_from_slice(b" ")?;
    write_quoted(out, line.bytes.as_slice())?;
    out.extend_from_slice(b"\n")?;
    Ok(())
}
