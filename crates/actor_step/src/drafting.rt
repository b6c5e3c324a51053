//! Service calls on drafts: an actor makes and edits what the sheets of those that it starts are made of.

ghost use Rattle.std.specs.Prelude.{◌≡◌, OnOk};
ghost use Rattle.cow_pages.specs.PrivateMemory.{PrivateMemory};
ghost use Rattle.machine.specs.declared.phase.Phase.TheVariants as phase;
ghost use Rattle.machine.specs.Calls as calls;
ghost use Rattle.machine.specs.Actors.{whole};

use crate::roots::sc_root;
use cow_pages::PrivateView;
use grant_sheet::{Draft, DraftFault};
use image_form::Image;
use machine::{A0, A1, A2, Actor};
use wedge_base::{Code, FdBits, FdNo, NoMemory, Right, Service, TagNo};

/// The most drafts of an actor.
const MOST_DRAFTS: usize = 64;

/// The call on drafts of this number; any other number is refused.
pub(crate) fn draft_call(
    actor: &mut Actor,
    image: &Image,
    memory: &PrivateView,
    number: u32,
) -> Result<(), NoMemory>
    requires { actor.old.phase ≡ phase.Running }
    ensures { OnOk result (whole actor.new memory.now
        ≡ calls.draft_call image.now (whole actor.old memory.now) number) }
{
    if number == Service::ScNew.number() {
        sc_new(actor)?;
    } else if number == Service::ScMemAdd.number() {
        sc_mem_add(actor)?;
    } else if number == Service::ScFdAdd.number() {
        sc_fd_add(actor)?;
    } else if number == Service::ScCgateAdd.number() {
        sc_cgate_add(actor, image)?;
    } else if number == Service::ScUser.number() {
        sc_user(actor);
    } else if number == Service::ScRoot.number() {
        sc_root(actor, image, memory)?;
    } else {
        actor.refuse(Code::Bad);
    }
    Ok(())
}

/// The call that makes a draft without grants.
fn sc_new(actor: &mut Actor) -> Result<(), NoMemory>
    ensures { OnOk result ((m : PrivateMemory)
        → whole actor.new m ≡ calls.sc_new (whole actor.old m)) }
{
    let number = actor.drafts.len();
    if number >= MOST_DRAFTS {
        actor.refuse(Code::Full);
        return Ok(());
    }
    actor.drafts.push(Draft::new(actor.alloc))?;
    actor.answer(number as u32, 0);
    Ok(())
}

/// The call that puts a right on a tag into a draft.
fn sc_mem_add(actor: &mut Actor) -> Result<(), NoMemory>
    requires { actor.old.phase ≡ phase.Running }
    ensures { OnOk result ((m : PrivateMemory) → whole actor.new m
        ≡ calls.sc_mem_add (whole actor.old m)) }
{
    let number = actor.hart.reg(A0) as usize;
    if number >= actor.drafts.len() {
        actor.refuse(Code::NoSuch);
        return Ok(());
    }
    let Some(right) = right_asked(actor.hart.reg(A2)) else {
        actor.refuse(Code::Bad);
        return Ok(());
    };
    let tag = TagNo(actor.hart.reg(A1));
    let draft = &mut actor.drafts[number];
    match draft.put_tag(tag, right) {
        Ok(()) => actor.answer(0, 0),
        Err(DraftFault::Full) => actor.refuse(Code::Full),
        Err(DraftFault::NoMemory) => return Err(NoMemory),
    }
    Ok(())
}

/// The call that puts bits on a descriptor into a draft.
fn sc_fd_add(actor: &mut Actor) -> Result<(), NoMemory>
    requires { actor.old.phase ≡ phase.Running }
    ensures { OnOk result ((m : PrivateMemory) → whole actor.new m
        ≡ calls.sc_fd_add (whole actor.old m)) }
{
    let number = actor.hart.reg(A0) as usize;
    if number >= actor.drafts.len() {
        actor.refuse(Code::NoSuch);
        return Ok(());
    }
    let Some(bits) = bits_asked(actor.hart.reg(A2)) else {
        actor.refuse(Code::Bad);
        return Ok(());
    };
    let fd = FdNo(actor.hart.reg(A1));
    let draft = &mut actor.drafts[number];
    match draft.put_fd(fd, bits) {
        Ok(()) => actor.answer(0, 0),
        Err(DraftFault::Full) => actor.refuse(Code::Full),
        Err(DraftFault::NoMemory) => return Err(NoMemory),
    }
    Ok(())
}

/// The call that puts the gate at an entry into a draft.
fn sc_cgate_add(actor: &mut Actor, image: &Image) -> Result<(), NoMemory>
    requires { actor.old.phase ≡ phase.Running }
    ensures { OnOk result ((m : PrivateMemory) → whole actor.new m
        ≡ calls.sc_cgate_add image.now (whole actor.old m)) }
{
    let number = actor.hart.reg(A0) as usize;
    if number >= actor.drafts.len() {
        actor.refuse(Code::NoSuch);
        return Ok(());
    }
    let entry = actor.hart.reg(A1);
    if image.proc_at(entry).is_none() {
        actor.refuse(Code::Bad);
        return Ok(());
    }
    let draft = &mut actor.drafts[number];
    match draft.put_gate(entry) {
        Ok(()) => actor.answer(0, 0),
        Err(DraftFault::Full) => actor.refuse(Code::Full),
        Err(DraftFault::NoMemory) => return Err(NoMemory),
    }
    Ok(())
}

/// The call that sets the user of a draft.
fn sc_user(actor: &mut Actor)
    requires { actor.old.phase ≡ phase.Running }
    ensures { (m : PrivateMemory) → whole actor.new m ≡ calls.sc_user (whole actor.old m) }
{
    let number = actor.hart.reg(A0) as usize;
    if number >= actor.drafts.len() {
        actor.refuse(Code::NoSuch);
        return;
    }
    let user = actor.hart.reg(A1);
    let draft = &mut actor.drafts[number];
    draft.set_user(user);
    actor.answer(0, 0);
}

/// The right that an argument asks for: 1 for a private copy, 2 to read, 3 to read and to write.
fn right_asked(number: u32) -> Option<Right>
    ensures { result ≡ calls.right_asked number }
{
    match number {
        1 => Some(Right::Cow),
        2 => Some(Right::Read),
        3 => Some(Right::ReadWrite),
        _ => None,
    }
}

/// The bits that an argument asks for: 1 to read, 2 to append, 3 for both.
fn bits_asked(number: u32) -> Option<FdBits>
    ensures { result ≡ calls.bits_asked number }
{
    match number {
        1 => Some(bits(true, false)),
        2 => Some(bits(false, true)),
        3 => Some(bits(true, true)),
        _ => None,
    }
}

/// Bits on a descriptor.
pub fn bits(read: bool, append: bool) -> FdBits
    ensures { result ≡ calls.read_append_bits read append }
{
    FdBits { read, append }
}
