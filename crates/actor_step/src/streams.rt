//! Service calls on streams: to read one, to append to one, and to close one.

ghost use Rattle.std.specs.Prelude.{◌≡◌, ◌<◌, length, IfOk, OnOk, true};
ghost use Rattle.cow_pages.specs.PrivateMemory.{PrivateMemory};
ghost use Rattle.machine.specs.declared.phase.Phase.TheVariants as phase;
ghost use Rattle.machine.specs.Calls as calls;
ghost use Rattle.machine.specs.Accesses as accesses;
ghost use Rattle.wedge_events.specs.declared.events.Want.TheVariants as want;
ghost use Rattle.machine.specs.Actors.{ActorState, whole};
ghost use Rattle.wedge_events.specs.Streams.{most_fds};

use cow_pages::PrivateView;
use grant_sheet::bits_on;
use image_form::Image;
use machine::{A0, A1, A2, Actor, Phase};
use wedge_base::{Bytes, Code, FdNo, MOST_BUFFER, MOST_FDS, NoMemory};
use wedge_events::{Boxed, StreamAsk, Want};

/// The call that reads the next bytes of a stream into a buffer, up to the stream.
pub(crate) fn fd_read(actor: &mut Actor, memory: &PrivateView)
    ensures { whole actor.new memory.now ≡ calls.fd_read (whole actor.old memory.now) }
{
    let fd = FdNo(actor.hart.reg(A0));
    let pointer = actor.hart.reg(A1);
    let count = actor.hart.reg(A2);
    if !fits_write(memory, pointer, count) {
        actor.refuse(Code::Bad);
    } else if actor.fuel < count {
        actor.refuse(Code::FuelShort);
    } else if fd.0 >= MOST_FDS {
        actor.refuse(Code::NoSuch);
    } else {
        let bits = bits_on(&actor.sheet, &actor.made, fd);
        let ask = StreamAsk::Read { bits, count };
        want_stream(actor, fd, ask);
    }
}

/// The call that adds the bytes of a buffer to a stream, up to the stream.
pub(crate) fn fd_append(
    actor: &mut Actor,
    image: &Image,
    memory: &PrivateView,
) -> Result<(), NoMemory>
    ensures { OnOk result (whole actor.new memory.now
        ≡ calls.fd_append image.now (whole actor.old memory.now)) }
{
    let fd = FdNo(actor.hart.reg(A0));
    let pointer = actor.hart.reg(A1);
    let length = actor.hart.reg(A2);
    if !fits_read(actor, image, memory, pointer, length) {
        actor.refuse(Code::Bad);
    } else if actor.fuel < length {
        actor.refuse(Code::FuelShort);
    } else if fd.0 >= MOST_FDS {
        actor.refuse(Code::NoSuch);
    } else {
        let bytes = buffer(actor, image, memory, pointer, length)?;
        let bits = bits_on(&actor.sheet, &actor.made, fd);
        let ask = StreamAsk::Append {
            bits,
            bytes: Boxed::new(actor.alloc, bytes)?,
        };
        want_stream(actor, fd, ask);
    }
    Ok(())
}

/// The call that closes a stream, up to the stream.
pub(crate) fn fd_close(actor: &mut Actor)
    ensures { (m : PrivateMemory) → whole actor.new m ≡ calls.fd_close (whole actor.old m) }
{
    let fd = FdNo(actor.hart.reg(A0));
    if fd.0 >= MOST_FDS {
        actor.refuse(Code::NoSuch);
    } else {
        let bits = bits_on(&actor.sheet, &actor.made, fd);
        let ask = StreamAsk::Close { bits };
        want_stream(actor, fd, ask);
    }
}

/// It wants an ask of a stream.
#[tactic(auto, using(machine::proofs::StreamFits::stream_fits))]
fn want_stream(actor: &mut Actor, fd: FdNo, ask: StreamAsk)
    requires { fd < most_fds }
    ensures { actor.new ≡ record actor.old { phase = phase.Within (want.Fd fd ask) } }
{
    actor.phase = Phase::Within(Want::Fd { fd, ask });
}

/// Whether a buffer that is read fits.
pub(crate) fn fits_read(
    actor: &Actor,
    image: &Image,
    memory: &PrivateView,
    pointer: u32,
    length: u32,
) -> bool
    ensures { result
        ≡ accesses.fits_read image.now (whole actor.now memory.now) pointer length }
{
    length <= MOST_BUFFER
        && (length == 0 || memory.holds(pointer, length) || image.is_in_text(pointer, length))
}

/// The bytes of a buffer that fits.
pub(crate) fn buffer(
    actor: &Actor,
    image: &Image,
    memory: &PrivateView,
    pointer: u32,
    length: u32,
) -> Result<Bytes, NoMemory>
    requires { accesses.fits_read image.now
        (whole actor.now memory.now) pointer length ≡ true }
    ensures { IfOk result (λ b. b ≡ accesses.buffer image.now
        (whole actor.now memory.now) pointer length) }
{
    if length == 0 {
        return Ok(Bytes::new(Vec::new(actor.alloc)));
    }
    match memory.copy_of(actor.alloc, pointer, length)? {
        Some(bytes) => Ok(bytes),
        None => image.text_bytes(actor.alloc, pointer, length),
    }
}

/// Whether a buffer that is written fits.
fn fits_write(memory: &PrivateView, pointer: u32, length: u32) -> bool
    ensures { (a : ActorState) → a.memory ≡ memory.now
        → result ≡ accesses.fits_write a pointer length }
{
    length <= MOST_BUFFER && (length == 0 || memory.holds(pointer, length))
}
