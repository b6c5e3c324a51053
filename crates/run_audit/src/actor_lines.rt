//! The lines of actors, read off their logs.

ghost use Rattle.std.specs.Prelude.{◌≡◌, IfOk};
ghost use Rattle.std.specs.Ordering.{nat_cmp, is_lt};
ghost use Rattle.std.specs.Cmp.Lexicographic.{slice_cmp};
ghost use Rattle.thread_laws.specs.Joining.{line_in, lines_in};

use crate::logs::LogReference;
use image_form::Image;
use std::alloc::Global;
use std::cmp::Ordering;
use thread_laws::ActorLog;
use wedge_base::{ActorLine, NoMemory, copy_denials};

/// Returns the line of an actor.
fn line_in(alloc: Global, image: &Image, log: &ActorLog) -> Result<ActorLine, NoMemory>
    ensures { IfOk result (λ l. l ≡ line_in image.now log.now) }
{
    Ok(ActorLine {
        name: log.name.copy()?,
        compartment: image.procedure_name(alloc, log.compartment)?,
        end: log.end,
        pc: log.pc,
        fuel: log.fuel,
        denials: copy_denials(alloc, &log.denials)?,
    })
}

/// Compares two lines by their names, part by part, a prefix first.
fn by_name(line: &ActorLine, other: &ActorLine) -> Ordering
    ensures { is_lt result ≡ is_lt (slice_cmp nat_cmp line.now.name other.now.name) }
{
    line.name.parts().cmp(other.name.parts())
}

/// Returns the lines of actors in the order of their names, by a stable sort. They are collected
/// from the last log to the first, since of lines with one name that of the later actor comes
/// first.
pub(crate) fn lines_in(
    alloc: Global,
    image: &Image,
    logs: &[LogReference<'_>],
) -> Result<Vec<ActorLine>, NoMemory>
    ensures { IfOk result (λ v. v.items ≡ lines_in image.now logs.now) }
{
    let mut lines = Vec::new(alloc);
    let mut left = logs.len();
    while left > 0 {
        left -= 1;
        let item = &logs[left];
        lines.push(line_in(alloc, image, item.log)?)?;
    }
    lines.sort_by(|a, b| by_name(a, b))?;
    Ok(lines)
}
