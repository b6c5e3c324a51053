//! The service call that opens a file.

ghost use Rattle.std.specs.Prelude.{◌≡◌, ◌<◌, OnOk, ◌≤◌, length};
ghost use Rattle.cow_pages.specs.PrivateMemory.{PrivateMemory};
ghost use Rattle.machine.specs.declared.phase.Phase.TheVariants as phase;
ghost use Rattle.machine.specs.Take as taking;
ghost use Rattle.machine.specs.Actors.{whole};
ghost use Rattle.machine.specs.Between.{IsInBounds, GivesWithin};
ghost use Rattle.wedge_events.specs.Streams.{most_fds};
ghost use Rattle.wedge_events.specs.declared.events.Event.{Event as AnEvent};

use cow_pages::PrivateView;
use machine::{A1, A2, Actor, Phase, StreamLabel};
use std::mem;
use wedge_base::{Bytes, Code, Denial, FdNo, NoMemory};
use wedge_events::{DirectoryAsk, DirectoryReply, StreamAsk, StreamReply};

/// What the directory of descriptors makes of it: a number that is claimed is for the file that it opens.
pub(crate) fn take_number(actor: &mut Actor, ask: DirectoryAsk, reply: DirectoryReply)
    requires { IsInBounds (AnEvent.Fds ask reply) }
    ensures takes { (m : PrivateMemory) → whole actor.new m
        ≡ taking.takes_number (whole actor.old m) ask reply }
    ensures name { actor.new.name ≡ actor.old.name }
{
    match (ask, reply) {
        (DirectoryAsk::Claim, DirectoryReply::Claimed { place, .. }) => {
            put_number(actor, FdNo(place))
        }
        (DirectoryAsk::Claim, DirectoryReply::Full) => actor.refuse(Code::Full),
        _ => actor.phase = Phase::Running,
    }
}

/// The file that it opens has this number.
fn put_number(actor: &mut Actor, fd: FdNo)
    requires { fd < most_fds }
    ensures takes { (m : PrivateMemory) → whole actor.new m
        ≡ taking.has_number (whole actor.old m) actor.old.phase fd }
    ensures name { actor.new.name ≡ actor.old.name }
{
    match &mut actor.phase {
        Phase::OpeningFile(opening) => opening.set_number(fd),
        _ => actor.phase = Phase::Running,
    }
}

/// The stream of the file is opened: the actor has the bits that it asked for on the descriptor, pays for the path, and is
/// answered the number.
fn take_opened_file(actor: &mut Actor, fd: FdNo) -> Result<(), NoMemory>
    ensures takes { OnOk result ((m : PrivateMemory) → whole actor.new m
        ≡ taking.has_opened_file (whole actor.old m) actor.old.phase fd) }
    ensures name { OnOk result (actor.new.name ≡ actor.old.name) }
{
    let phase = mem::replace(&mut actor.phase, Phase::Running);
    let Phase::OpeningFile(opening) = phase else {
        return Ok(());
    };
    actor.made.put_fd(fd, opening.bits())?;
    let path = opening.into_path();
    actor.labels.push(StreamLabel { number: fd, path })?;
    let length = actor.hart.reg(A1);
    actor.fuel = actor.fuel.saturating_sub(length);
    actor.answer(fd.0, 0);
    Ok(())
}

/// What a stream's reply makes of it.
#[inline(never)]
pub(crate) fn take_stream(
    actor: &mut Actor,
    memory: &mut PrivateView,
    fd: FdNo,
    ask: &StreamAsk,
    reply: &StreamReply,
) -> Result<(), NoMemory>
    requires { IsInBounds (AnEvent.Fd fd ask.now reply.now) }
    ensures takes { OnOk result (whole actor.new memory.new
        ≡ taking.takes_stream (whole actor.old memory.old) fd reply.now) }
    ensures name { OnOk result (actor.new.name ≡ actor.old.name) }
{
    match reply {
        StreamReply::Given { bytes } => take_given(actor, memory, ask, bytes)?,
        StreamReply::Appended => {
            let length = actor.hart.reg(A2);
            actor.phase = Phase::Running;
            actor.fuel = actor.fuel.saturating_sub(length);
            actor.answer(length, 0);
        }
        StreamReply::Closed => actor.answer(0, 0),
        StreamReply::NoSuch => actor.refuse(Code::NoSuch),
        StreamReply::Denied { wants } => {
            actor.note(Denial::Fd { fd, wants: *wants })?;
            actor.refuse(Code::Denied);
        }
        StreamReply::Bad => actor.refuse(Code::Bad),
        StreamReply::Opened => take_opened_file(actor, fd)?,
    }
    Ok(())
}

/// What the bytes that a stream gave make of it.
fn take_given(
    actor: &mut Actor,
    memory: &mut PrivateView,
    ask: &StreamAsk,
    bytes: &Bytes,
) -> Result<(), NoMemory>
    requires { GivesWithin ask.now bytes.now }
    ensures takes { OnOk result (whole actor.new memory.new
        ≡ taking.has_read (whole actor.old memory.old) bytes.now) }
    ensures name { OnOk result (actor.new.name ≡ actor.old.name) }
{
    match ask {
        StreamAsk::Read { count, .. } => read_into(actor, memory, bytes.as_slice(), *count),
        _ => unreachable!(),
    }
}

/// The bytes that it read, so many at most, are written into the buffer of its call, and each costs a unit of fuel.
fn read_into(
    actor: &mut Actor,
    memory: &mut PrivateView,
    bytes: &[u8],
    most: u32,
) -> Result<(), NoMemory>
    requires { length bytes.now ≤ most }
    ensures takes { OnOk result (whole actor.new memory.new
        ≡ taking.has_read (whole actor.old memory.old) bytes.now) }
    ensures name { OnOk result (actor.new.name ≡ actor.old.name) }
{
    memory.write(actor.hart.reg(A1), bytes)?;
    let given = bytes.len() as u32;
    actor.phase = Phase::Running;
    actor.fuel = actor.fuel.saturating_sub(given);
    actor.answer(given, 0);
    Ok(())
}
