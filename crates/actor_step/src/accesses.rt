//! Loads and stores.

ghost use Rattle.std.specs.Prelude.{◌≡◌, ◌%◌, ◌==◌, IfOk, IfSome};
ghost use Rattle.wedge_base.specs.Images.{in_text, slot_of};
ghost use Rattle.rv_isa.specs.Table.{HasRegisters};
ghost use Rattle.rv_hart.specs.Local as hart;
ghost use Rattle.machine.specs.declared.phase.Phase.TheVariants as phase;
ghost use Rattle.machine.specs.Accesses as accesses;
ghost use Rattle.machine.specs.Actors.{whole};
ghost use Rattle.actor_step.specs.Reached.{reached, IsReached};

use crate::access::Access;
use cow_pages::PrivateView;
use machine::Actor;
use ready_text::Program;
use rv_hart::{Need, Reply};
use rv_isa::Instr;
use wedge_base::{End, NoMemory, PRIVATE_BASE, Place, WINDOWS_BASE, slot_of};
use wedge_events::SlotWant;

/// Whether an address is a multiple of a width. Each remainder is by a number that the compiler knows: so none is a division.
#[inline(always)]
fn is_multiple(address: u32, width: u8) -> bool
    requires { accesses.IsWidth width }
    ensures { result ≡ (address % width == 0) }
{
    match width {
        1 => true,
        2 => address % 2 == 0,
        _ => address % 4 == 0,
    }
}

/// Whether so many bytes at an address lie in the text, which lies below private memory.
#[inline(always)]
fn is_in_text(program: &Program<'_>, address: u32, width: u8) -> bool
    requires { accesses.IsWidth width }
    ensures { result ≡ in_text program.now address width }
{
    let image = program.image();
    if address >= PRIVATE_BASE {
        // The image is read here, so that what its type keeps is at hand.
        let _ = image.fuel();
        return false;
    }
    image.is_in_text(address, u32::from(width))
}

/// A load that the instruction at hand needs. Returns the access of a slot to which the actor comes, if it does. Each width
/// has a copy of what follows, in which the compiler knows it.
#[inline(always)]
pub(crate) fn load(
    actor: &mut Actor,
    program: &Program<'_>,
    memory: &PrivateView,
    instr: Instr,
    signed: bool,
    address: u32,
    width: u8,
) -> Option<Access>
    requires running { actor.old.phase ≡ phase.Running }
    requires registers { HasRegisters instr }
    requires width { accesses.IsWidth width }
    requires needed { (hart.local instr actor.old.hart).need ≡ Need.Load address width signed }
    ensures is { reached (whole actor.new memory.now) result
        ≡ accesses.loads program.now instr signed (whole actor.old memory.now) address width }
    ensures runs { IfSome result (IsReached actor.new.phase) }
{
    match width {
        1 => load_of(actor, program, memory, instr, signed, address, 1),
        2 => load_of(actor, program, memory, instr, signed, address, 2),
        4 => load_of(actor, program, memory, instr, signed, address, 4),
        _ => unreachable!(),
    }
}

/// A load of this width.
#[inline(always)]
fn load_of(
    actor: &mut Actor,
    program: &Program<'_>,
    memory: &PrivateView,
    instr: Instr,
    signed: bool,
    address: u32,
    width: u8,
) -> Option<Access>
    requires running { actor.old.phase ≡ phase.Running }
    requires registers { HasRegisters instr }
    requires width { accesses.IsWidth width }
    requires needed { (hart.local instr actor.old.hart).need ≡ Need.Load address width signed }
    ensures is { reached (whole actor.new memory.now) result
        ≡ accesses.loads program.now instr signed (whole actor.old memory.now) address width }
    ensures runs { IfSome result (IsReached actor.new.phase) }
{
    if !is_multiple(address, width) {
        actor.end(End::Misaligned);
        return None;
    }
    if address >= WINDOWS_BASE {
        // Neither text nor private memory lies there.
        program.has_no_text(address, u32::from(width));
        memory.has_no_range(address, u32::from(width));
        return load_window(actor, memory, instr, signed, address, width);
    }
    if is_in_text(program, address, width) {
        let value = program.image().text_number(address, width);
        actor.hart.finish(instr, Reply::Loaded(value));
        return None;
    }
    match memory.load(address, width) {
        None => load_window(actor, memory, instr, signed, address, width),
        Some(value) => {
            actor.hart.finish(instr, Reply::Loaded(value));
            None
        }
    }
}

/// A load in a window: of the actor's private copy there, or else of the tag.
#[inline(always)]
fn load_window(
    actor: &mut Actor,
    memory: &PrivateView,
    instr: Instr,
    signed: bool,
    address: u32,
    width: u8,
) -> Option<Access>
    requires running { actor.old.phase ≡ phase.Running }
    requires registers { HasRegisters instr }
    requires width { accesses.IsWidth width }
    requires aligned { address % width ≡ 0 }
    requires needed { (hart.local instr actor.old.hart).need ≡ Need.Load address width signed }
    ensures is { reached (whole actor.new memory.now) result ≡ accesses.load_window instr signed
        (whole actor.old memory.now) width (slot_of address) }
    ensures runs { IfSome result (IsReached actor.new.phase) }
{
    let Some(Place { slot, offset }) = slot_of(address) else {
        actor.end(End::Unmapped);
        return None;
    };
    match memory.load_copy(Place { slot, offset }, width) {
        None => {
            let want = SlotWant::Load { offset, width };
            Some(Access { slot, want })
        }
        Some(None) => {
            actor.end(End::Unmapped);
            None
        }
        Some(Some(value)) => {
            actor.hart.finish(instr, Reply::Loaded(value));
            None
        }
    }
}

/// A store in a window: into the actor's private copy there, or else into the tag.
#[inline(always)]
fn store_window(
    actor: &mut Actor,
    memory: &mut PrivateView,
    address: u32,
    width: u8,
    value: u32,
) -> Result<Option<Access>, NoMemory>
    requires running { actor.old.phase ≡ phase.Running }
    requires width { accesses.IsWidth width }
    requires aligned { address % width ≡ 0 }
    ensures is { IfOk result (λ o. reached (whole actor.new memory.new) o ≡ accesses.store_window
        (whole actor.old memory.old) width value (slot_of address)) }
    ensures runs { IfOk result (λ o. IfSome o (IsReached actor.new.phase)) }
{
    let Some(Place { slot, offset }) = slot_of(address) else {
        actor.end(End::Unmapped);
        return Ok(None);
    };
    match memory.store_copy(Place { slot, offset }, width, value)? {
        None => {
            let want = SlotWant::Store {
                offset,
                width,
                value,
            };
            return Ok(Some(Access { slot, want }));
        }
        Some(false) => actor.end(End::Unmapped),
        Some(true) => actor.hart.advance(),
    }
    Ok(None)
}

/// A store that the instruction at hand needs. Returns the access of a slot to which the actor comes, if it does. Each width
/// has a copy of what follows.
#[inline(always)]
pub(crate) fn store(
    actor: &mut Actor,
    program: &Program<'_>,
    memory: &mut PrivateView,
    address: u32,
    width: u8,
    value: u32,
) -> Result<Option<Access>, NoMemory>
    requires running { actor.old.phase ≡ phase.Running }
    requires width { accesses.IsWidth width }
    ensures is { IfOk result (λ o. reached (whole actor.new memory.new) o
        ≡ accesses.stores program.now (whole actor.old memory.old) address width value) }
    ensures runs { IfOk result (λ o. IfSome o (IsReached actor.new.phase)) }
{
    match width {
        1 => store_of(actor, program, memory, address, 1, value),
        2 => store_of(actor, program, memory, address, 2, value),
        4 => store_of(actor, program, memory, address, 4, value),
        _ => unreachable!(),
    }
}

/// A store of this width.
#[inline(always)]
fn store_of(
    actor: &mut Actor,
    program: &Program<'_>,
    memory: &mut PrivateView,
    address: u32,
    width: u8,
    value: u32,
) -> Result<Option<Access>, NoMemory>
    requires running { actor.old.phase ≡ phase.Running }
    requires width { accesses.IsWidth width }
    ensures is { IfOk result (λ o. reached (whole actor.new memory.new) o
        ≡ accesses.stores program.now (whole actor.old memory.old) address width value) }
    ensures runs { IfOk result (λ o. IfSome o (IsReached actor.new.phase)) }
{
    if !is_multiple(address, width) {
        actor.end(End::Misaligned);
        return Ok(None);
    }
    if address >= WINDOWS_BASE {
        // Neither text nor private memory lies there.
        program.has_no_text(address, u32::from(width));
        memory.has_no_range(address, u32::from(width));
        return store_window(actor, memory, address, width, value);
    }
    if is_in_text(program, address, width) {
        actor.end(End::TextStore);
        return Ok(None);
    }
    if !memory.store(address, width, value)? {
        return store_window(actor, memory, address, width, value);
    }
    actor.hart.advance();
    Ok(None)
}
