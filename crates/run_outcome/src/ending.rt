//! What a run ends with.

ghost use Rattle.std.specs.Prelude.{◌≡◌, ◌≤◌, ◌++◌, List, [], true, false, length, unwrap_or, option_map, IfOk, OnOk};
ghost use Rattle.cow_pages.specs.PrivateMemory.{no_memory};
ghost use Rattle.wedge_events.specs.Streams.{most_fds};
ghost use Rattle.std.specs.Ordering.{nat_cmp, is_lt};
ghost use Rattle.std.specs.Cmp.Lexicographic.{slice_cmp};
ghost use Rattle.machine.specs.Actors.{whole};
ghost use Rattle.std.specs.Option.{option_copied};
ghost use Rattle.machine.specs.Outcomes as outcomes;
ghost use Rattle.machine.specs.declared.opening.StreamLabel.{StreamLabel as ALabel};

use fd_table::Stream;
use image_form::Image;
use machine::{Actor, Phase, Resident, StreamLabel};
use std::alloc::Global;
use std::cmp::Ordering;
use wedge_base::{
    ActorLine, Bytes, End, FdNo, Items, NoMemory, Outcome, PathText, StreamKind, StreamLine,
    copy_denials,
};

/// The outcome of these actors and streams: a line for each actor that has ended, and one for each append stream.
pub fn outcome_of(
    alloc: Global,
    image: &Image,
    residents: &[Resident],
    streams: &[Stream],
) -> Result<Outcome, NoMemory>
    requires { length streams.now ≤ most_fds }
    ensures { IfOk result (λ o. o ≡ record {
      actors = outcomes.lines_of image.now residents.now;
      streams = outcomes.streams_of image.now (outcomes.labels_of residents.now) 0 streams.now;
    }) }
{
    Ok(Outcome {
        actors: Items::new(actor_lines(alloc, image, residents)?),
        streams: Items::new(stream_lines(alloc, image, residents, streams)?),
    })
}

/// The lines of the actors that have ended, in the order of names: sorted by a stable sort, so in n log n.
/// From the last actor to the first, since of lines with one name that of the later actor comes first.
fn actor_lines(
    alloc: Global,
    image: &Image,
    actors: &[Resident],
) -> Result<Vec<ActorLine>, NoMemory>
    ensures { IfOk result (λ v. v.items ≡ outcomes.lines_of image.now actors.now) }
{
    let mut lines = Vec::new(alloc);
    let mut left = actors.len();
    while left > 0 {
        left -= 1;
        add_actor(alloc, image, &actors[left], &mut lines)?;
    }
    lines.sort_by(|a, b| by_name(a, b))?;
    Ok(lines)
}

/// Adds the line of an actor at the end, if it has ended.
fn add_actor(
    alloc: Global,
    image: &Image,
    resident: &Resident,
    lines: &mut Vec<ActorLine>,
) -> Result<(), NoMemory>
    ensures { OnOk result (lines.new.items
        ≡ lines.old.items ++ outcomes.with_actor_line image.now resident.now resident.now.phase []) }
{
    match resident.actor.phase() {
        Phase::Ended(end) => {
            lines.push(line_of(alloc, image, &resident.actor, *end)?)?;
            Ok(())
        }
        _ => Ok(()),
    }
}

/// The line of an actor that ended so.
fn line_of(alloc: Global, image: &Image, actor: &Actor, end: End) -> Result<ActorLine, NoMemory>
    ensures { IfOk result (λ l. l ≡ outcomes.line_of image.now (whole actor.now no_memory) end) }
{
    Ok(ActorLine {
        name: actor.name().copy()?,
        compartment: image.procedure_name(alloc, actor.compartment())?,
        end,
        pc: actor.pc(),
        fuel: actor.fuel(),
        denials: copy_denials(alloc, actor.denials())?,
    })
}

/// The order of lines: that of their names, part by part, a prefix first.
fn by_name(line: &ActorLine, other: &ActorLine) -> Ordering
    ensures { is_lt result ≡ is_lt (slice_cmp nat_cmp line.now.name other.now.name) }
{
    line.name.parts().cmp(other.name.parts())
}

/// The lines of the append streams, by number.
fn stream_lines(
    alloc: Global,
    image: &Image,
    residents: &[Resident],
    streams: &[Stream],
) -> Result<Vec<StreamLine>, NoMemory>
    requires { length streams.now ≤ most_fds }
    ensures { IfOk result (λ v. v.items
        ≡ outcomes.streams_of image.now (outcomes.labels_of residents.now) 0 streams.now) }
{
    let mut lines = Vec::new(alloc);
    let mut number = 0u32;
    for stream in streams {
        add_stream(alloc, image, residents, number, stream, &mut lines)?;
        number += 1;
    }
    Ok(lines)
}

/// Adds the line of a stream, if it is an append stream.
fn add_stream(
    alloc: Global,
    image: &Image,
    residents: &[Resident],
    number: u32,
    stream: &Stream,
    lines: &mut Vec<StreamLine>,
) -> Result<(), NoMemory>
    ensures { OnOk result (lines.new.items
        ≡ lines.old.items ++ outcomes.with_stream image.now (outcomes.labels_of residents.now)
        number stream.now []) }
{
    match stream.kind() {
        None | Some(StreamKind::Source) => Ok(()),
        Some(StreamKind::Append) => {
            lines.push(stream_line(alloc, image, residents, number, stream)?)?;
            Ok(())
        }
    }
}

/// The line of an append stream.
fn stream_line(
    alloc: Global,
    image: &Image,
    residents: &[Resident],
    number: u32,
    stream: &Stream,
) -> Result<StreamLine, NoMemory>
    ensures { IfOk result (λ l. l ≡ record {
      number = number;
      label = outcomes.label_of image.now (outcomes.labels_of residents.now) number;
      bytes = unwrap_or (option_map (λ s. s.bytes) stream.now) [];
    }) }
{
    Ok(StreamLine {
        number: FdNo(number),
        label: label_of(alloc, image, residents, number)?,
        bytes: Bytes::from_slice(alloc, stream.bytes())?,
    })
}

/// The name under which a descriptor was declared, or else the path under which an actor opened it.
fn label_of(
    alloc: Global,
    image: &Image,
    residents: &[Resident],
    number: u32,
) -> Result<Bytes, NoMemory>
    ensures { IfOk result (λ b. b
        ≡ outcomes.label_of image.now (outcomes.labels_of residents.now) number) }
{
    match image.fds().get(number as usize) {
        Some(fd) => Ok(fd.name.clone()?),
        None => opened_path(alloc, residents, number),
    }
}

/// The path under which an actor opened a descriptor; empty if none did.
fn opened_path(alloc: Global, residents: &[Resident], number: u32) -> Result<Bytes, NoMemory>
    ensures { IfOk result (λ b. b ≡ outcomes.path_of (outcomes.labels_of residents.now) number) }
{
    for resident in residents {
        if let Some(path) = path_among(resident.actor.labels().as_slice(), number) {
            return Ok(Bytes::from_slice(alloc, path.as_slice())?);
        }
    }
    Ok(Items::new(Vec::new(alloc)))
}

/// The path of a number among labels.
fn path_among(labels: &[StreamLabel], number: u32) -> Option<&PathText>
    ensures { (others : List ALabel) → outcomes.path_of (labels.now ++ others) number
        ≡ unwrap_or (option_copied result) (outcomes.path_of others number) }
{
    for label in labels {
        if label.number.0 == number {
            return Some(&label.path);
        }
    }
    None
}
