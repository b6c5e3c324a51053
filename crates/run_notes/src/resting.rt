//! An actor comes to rest, and its instructions are noted.

ghost use Rattle.std.specs.Prelude.{◌≡◌, Option, false, true, IfOk, OnOk, OnErr};
ghost use Rattle.cow_pages.specs.PrivateMemory.{PrivateMemory};
ghost use Rattle.rv_isa.specs.Table.{HasRegisters};
ghost use Rattle.rv_hart.specs.Local as hart;
ghost use Rattle.machine.specs.Accesses.{IsWidth};
ghost use Rattle.machine.specs.Actors.{whole};
ghost use Rattle.machine.specs.declared.phase.Phase.TheVariants as phase;
ghost use Rattle.machine.specs.Local as local;
ghost use Rattle.run_notes.specs.Notes as notes;
ghost use Rattle.run_notes.specs.Procedures.{AreProceduresOf};

use crate::chain::{CallChain, is_call, is_return};
use crate::context::Context;
use crate::note::Note;
use actor_step::{Access, step, want_access};
use cow_pages::PrivateView;
use machine::{Actor, Phase};
use ready_text::Program;
use rv_hart::{Hart, Need};
use rv_isa::{Instr, Op};
use trace_form::{Kind, Mode};
use wedge_base::{NoMemory, Place, Slot, WINDOWS_BASE, slot_of};
use wedge_events::SlotWant;

/// The place of the instructions of runs that are logged.
struct Logged;

/// The place where an instruction is looked at before it is made.
struct Looked;

/// Brings an actor to rest, as `rest` of `sthread_life` does, and notes its accesses to private copies of tags. An actor
/// that runs out of memory has stopped.
pub fn note_rest(
    context: &Context<'_, '_>,
    actor: &mut Actor,
    memory: &mut PrivateView,
    chain: &mut CallChain,
    list: &mut Vec<Note>,
) -> Result<(), NoMemory>
    requires { AreProceduresOf context.now.program.now context.now.procedures.now }
    ensures rests { OnOk result (whole actor.new memory.new
        ≡ local.rest context.now.program.now (whole actor.old memory.old)) }
    ensures noted { OnOk result (record { chain = chain.new; notes = list.new.items }
        ≡ notes.noted_rest context.now.program.now context.now.makings.now
        (whole actor.old memory.old) (record { chain = chain.old; notes = list.old.items })) }
    ensures going { OnOk result ((actor.old.stopped ≡ false) × (actor.new.stopped ≡ false)) }
    ensures stops { OnErr result (actor.new.stopped ≡ true) }
{
    if actor.stopped {
        return Err(NoMemory);
    }
    let noted = run_noted(context, actor, memory, chain, list);
    actor.stopped = noted.is_err();
    noted
}

/// Makes instructions and notes each, until the actor no longer runs.
fn run_noted(
    context: &Context<'_, '_>,
    actor: &mut Actor,
    memory: &mut PrivateView,
    chain: &mut CallChain,
    list: &mut Vec<Note>,
) -> Result<(), NoMemory>
    requires { AreProceduresOf context.now.program.now context.now.procedures.now }
    ensures rests { OnOk result (whole actor.new memory.new
        ≡ local.rest context.now.program.now (whole actor.old memory.old)) }
    ensures noted { OnOk result (record { chain = chain.new; notes = list.new.items }
        ≡ notes.noted_rest context.now.program.now context.now.makings.now
        (whole actor.old memory.old) (record { chain = chain.old; notes = list.old.items })) }
{
    while is_running(actor) {
        note_step(context, actor, memory, chain, list)?;
        make_step(actor, context.program, memory)?;
    }
    Ok(())
}

/// Makes an instruction. An actor that comes by it to an access of a slot wants it then.
fn make_step(
    actor: &mut Actor,
    program: &Program<'_>,
    memory: &mut PrivateView,
) -> Result<(), NoMemory>
    requires { actor.old.phase ≡ phase.Running }
    ensures { OnOk result (whole actor.new memory.new
        ≡ local.step program.now (whole actor.old memory.old)) }
{
    if let Some(Access { slot, want }) = step::<Logged>(actor, program, memory)? {
        let want: SlotWant = want;
        want_access(actor, Access { slot, want });
    }
    Ok(())
}

/// Whether an actor runs.
fn is_running(actor: &Actor) -> bool
    ensures { result ≡ local.is_running actor.now.phase }
{
    matches!(actor.phase, Phase::Running)
}

/// Notes the instruction that an actor that runs is about to make.
fn note_step(
    context: &Context<'_, '_>,
    actor: &Actor,
    memory: &PrivateView,
    chain: &mut CallChain,
    list: &mut Vec<Note>,
) -> Result<(), NoMemory>
    requires { AreProceduresOf context.now.program.now context.now.procedures.now }
    ensures { OnOk result (record { chain = chain.new; notes = list.new.items }
        ≡ notes.noted_step context.now.program.now context.now.makings.now
        (whole actor.now memory.now) (record { chain = chain.old; notes = list.old.items })) }
{
    if actor.fuel == 0 {
        return Ok(());
    }
    match context.program.fetch(actor.hart.pc) {
        Some(Some(instr)) => note_instr(context, actor, memory, chain, list, instr),
        _ => Ok(()),
    }
}

/// Notes an instruction for which an actor has fuel.
fn note_instr(
    context: &Context<'_, '_>,
    actor: &Actor,
    memory: &PrivateView,
    chain: &mut CallChain,
    list: &mut Vec<Note>,
    instr: &Instr,
) -> Result<(), NoMemory>
    requires registers { HasRegisters instr.now }
    requires procedures { AreProceduresOf context.now.program.now context.now.procedures.now }
    ensures { OnOk result (record { chain = chain.new; notes = list.new.items }
        ≡ notes.noted_need context.now.program.now context.now.makings.now
        (whole actor.now memory.now) (record { chain = chain.old; notes = list.old.items })
        instr.now (hart.local instr.now actor.now.hart)) }
{
    if !is_call(instr) && !is_return(instr) && !is_access(&actor.hart, instr) {
        return Ok(());
    }
    let mut hart = actor.hart;
    match hart.begin::<Looked>(instr) {
        Need::Done => chain.follow(context.program.image(), context.procedures, instr, hart.pc),
        Need::Load { address, width, .. } => {
            let slot = copy_reached(context.program, memory, address, width);
            note_copy(context, actor, chain, list, Kind::Load, slot)
        }
        Need::Store { address, width, .. } => {
            let slot = copy_reached(context.program, memory, address, width);
            note_copy(context, actor, chain, list, Kind::Store, slot)
        }
        Need::Call | Need::Break | Need::JumpMisaligned => Ok(()),
    }
}

/// Whether an instruction accesses memory.
#[tactic(auto, unfolding(rv_hart::specs::Local::local))]
fn is_access(before: &Hart, instr: &Instr) -> bool
    ensures { result ≡ notes.is_access_need (hart.local instr.now before.now).need }
{
    match instr.op {
        Op::Lb | Op::Lh | Op::Lw | Op::Lbu | Op::Lhu | Op::Sb | Op::Sh | Op::Sw => true,
        _ => false,
    }
}

/// Notes a load or a store of the private copy at a slot, if it reaches one.
fn note_copy(
    context: &Context<'_, '_>,
    actor: &Actor,
    chain: &CallChain,
    list: &mut Vec<Note>,
    kind: Kind,
    reached: Option<Slot>,
) -> Result<(), NoMemory>
    ensures { OnOk result ((m : PrivateMemory) → list.new.items ≡ notes.with_note list.old.items
        (notes.copy_note context.now.program.now context.now.makings.now (whole actor.now m)
        chain.now kind reached)) }
{
    let Some(slot) = reached else {
        return Ok(());
    };
    let image = context.program.image();
    let Some(item) = context.makings.copy_item(image, &actor.sheet, slot) else {
        return Ok(());
    };
    let note = Note {
        actor: actor.name.copy()?,
        pc: actor.hart.pc,
        kind,
        mode: Mode::Private,
        compartment: actor.compartment,
        chain: chain.frames.copy()?,
        item,
    };
    Ok(list.push(note)?)
}

/// The slot of the private copy that an access reaches.
fn copy_reached(
    program: &Program<'_>,
    memory: &PrivateView,
    address: u32,
    width: u8,
) -> Option<Slot>
    requires { IsWidth width }
    ensures { result ≡ notes.copy_reached program.now memory.now address width }
{
    if address % u32::from(width) != 0 || address < WINDOWS_BASE {
        return None;
    }
    program.has_no_text(address, u32::from(width));
    memory.has_no_range(address, u32::from(width));
    let Some(Place { slot, offset }) = slot_of(address) else {
        return None;
    };
    match memory.load_copy(Place { slot, offset }, width) {
        Some(Some(_)) => Some(slot),
        _ => None,
    }
}
