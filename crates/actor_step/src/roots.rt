//! The service call that sets a root directory in a draft, and paths in buffers.

ghost use Rattle.std.specs.Prelude.{◌≡◌, slice_get, OnOk, IfOk};
ghost use Rattle.cow_pages.specs.PrivateMemory.{PrivateMemory};
ghost use Rattle.machine.specs.declared.phase.Phase.TheVariants as phase;
ghost use Rattle.machine.specs.Calls as calls;
ghost use Rattle.machine.specs.Actors.{whole};

use crate::streams::{buffer, fits_read};
use cow_pages::PrivateView;
use file_tree::{PathFault, resolve};
use image_form::Image;
use machine::{A0, A1, A2, Actor};
use wedge_base::{Code, NoMemory, PathText};

/// The call that sets the root directory of a draft: the path in a buffer, under the actor's own root directory. Each byte of
/// the path takes a unit of fuel.
pub(crate) fn sc_root(
    actor: &mut Actor,
    image: &Image,
    memory: &PrivateView,
) -> Result<(), NoMemory>
    requires { actor.old.phase ≡ phase.Running }
    ensures { OnOk result (whole actor.new memory.now
        ≡ calls.sc_root image.now (whole actor.old memory.now)) }
{
    let pointer = actor.hart.reg(A1);
    let length = actor.hart.reg(A2);
    let path = path_in(actor, image, memory, pointer, length)?;
    set_root(actor, path);
    Ok(())
}

/// Sets the root directory of the draft that the call names, if there is one, to the path, if its buffer holds one.
fn set_root(actor: &mut Actor, path: Option<PathText>)
    requires { actor.old.phase ≡ phase.Running }
    ensures { (m : PrivateMemory) → whole actor.new m
        ≡ calls.set_root (whole actor.old m) path
        (slice_get actor.old.drafts (calls.a0 (whole actor.old m))) }
{
    let number = actor.hart.reg(A0) as usize;
    let length = actor.hart.reg(A2);
    if number >= actor.drafts.len() {
        actor.refuse(Code::NoSuch);
        return;
    }
    let Some(path) = path else {
        actor.refuse(Code::Bad);
        return;
    };
    if actor.fuel < length {
        actor.refuse(Code::FuelShort);
        return;
    }
    let draft = &mut actor.drafts[number];
    draft.set_root(path);
    actor.fuel = actor.fuel.saturating_sub(length);
    actor.answer(0, 0);
}

/// The path that a buffer holds, under the actor's root directory; none where the buffer does not fit or holds no path.
pub(crate) fn path_in(
    actor: &Actor,
    image: &Image,
    memory: &PrivateView,
    pointer: u32,
    length: u32,
) -> Result<Option<PathText>, NoMemory>
    ensures { IfOk result (λ p. p
        ≡ calls.path_in image.now (whole actor.now memory.now) pointer length) }
{
    if !fits_read(actor, image, memory, pointer, length) {
        return Ok(None);
    }
    let text = buffer(actor, image, memory, pointer, length)?;
    match resolve(actor.alloc, actor.sheet.root_path(), text.as_slice()) {
        Ok(path) => Ok(Some(path)),
        Err(PathFault::Bad) => Ok(None),
        Err(PathFault::NoMemory) => Err(NoMemory),
    }
}
