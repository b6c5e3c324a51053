//! Making gates.

ghost use Rattle.std.specs.Arc.{arc_value};
ghost use Rattle.std.specs.Prelude.{◌≡◌, ◌<◌, ◌++◌, ◌∷◌, [], Some, length, map, IfOk, OnOk};
ghost use Rattle.cow_pages.specs.PrivateMemory.{PrivateMemory, no_memory};
ghost use Rattle.image_form.specs.Rules.{most_fuel};
ghost use Rattle.wedge_base.specs.Sheets as sheets;
ghost use Rattle.machine.specs.declared.phase.Phase.TheVariants as phase;
ghost use Rattle.machine.specs.Calls as calls;
ghost use Rattle.machine.specs.Actors.{whole};
ghost use Rattle.machine.specs.Between.{AreGatesPlaced, AreInSlots, HasValidSlots, MayMake, funds};

use crate::starting::preparation;
use callgate::Gate;
use cow_pages::PrivateView;
use grant_sheet::{Draft, first_excess, sheet_of};
use image_form::Image;
use machine::{A0, A1, A2, A3, A4, Actor, Phase, Preparation};
use ready_text::Program;
use std::alloc::Global;
use std::sync::Arc;
use wedge_base::{Code, Denial, GateId, GateKind, NoMemory};

/// The call that makes a gate, up to the first copy that is to be made of a tag.
pub(crate) fn cgate_make(
    actor: &mut Actor,
    program: &Program<'_>,
    memory: &PrivateView,
) -> Result<(), NoMemory>
    requires running { actor.old.phase ≡ phase.Running }
    requires paid { funds actor.old.starts actor.old.made.count actor.old.fuel actor.old.unjoined
        < most_fuel }
    ensures { OnOk result (whole actor.new memory.now
        ≡ calls.cgate_make program.now (whole actor.old memory.now)) }
{
    let number = actor.hart.reg(A0) as usize;
    if number >= actor.drafts.len() {
        actor.refuse(Code::NoSuch);
        return Ok(());
    }
    if !may_be_gate(actor, program.image(), &actor.drafts[number]) {
        actor.refuse(Code::Bad);
        return Ok(());
    }
    let excess = first_excess(&actor.sheet, &actor.made, &actor.drafts[number]);
    make_checked(actor, program, memory, excess)
}

/// The call that makes a gate, with the first part of the draft that it may not give.
fn make_checked(
    actor: &mut Actor,
    program: &Program<'_>,
    memory: &PrivateView,
    excess: Option<Denial>,
) -> Result<(), NoMemory>
    requires running { actor.old.phase ≡ phase.Running }
    requires paid { funds actor.old.starts actor.old.made.count actor.old.fuel actor.old.unjoined
        < most_fuel }
    requires drafted { calls.a0 (whole actor.old no_memory) < length actor.old.drafts }
    requires excess { excess ≡ sheets.first_excess actor.old.sheet actor.old.made
        (calls.draft_at actor.old.drafts (calls.a0 (whole actor.old no_memory))) }
    ensures { OnOk result (whole actor.new memory.now
        ≡ calls.make_checked program.now (whole actor.old memory.now)
        (calls.draft_at actor.old.drafts (calls.a0 (whole actor.old no_memory))) excess) }
{
    if let Some(denial) = excess {
        actor.note(denial)?;
        actor.refuse(Code::Denied);
        return Ok(());
    }
    let mut preparation = preparation(actor, program)?;
    preparation.copy_own(&actor.sheet, &actor.made, memory)?;
    go_on_making(actor, preparation)
}

/// Whether the call at hand may make a gate of a draft: it names a procedure and one of the two kinds, and the draft has
/// no user and no root directory.
fn may_be_gate(actor: &Actor, image: &Image, draft: &Draft) -> bool
    ensures { (m : PrivateMemory)
        → result ≡ calls.may_be_gate image.now (whole actor.now m) draft.now }
{
    image.proc_at(actor.hart.reg(A1)).is_some()
        && actor.hart.reg(A4) <= 1
        && draft.user().is_none()
        && draft.root_path().is_none()
}

/// Makes the gate where all its copies are made, and else waits for the next one.
pub fn go_on_making(actor: &mut Actor, preparation: Preparation) -> Result<(), NoMemory>
    requires running { actor.old.phase ≡ phase.Running }
    requires granting { MayMake (whole actor.old no_memory) }
    requires placed { AreInSlots preparation.left }
    ensures takes { OnOk result ((m : PrivateMemory) → whole actor.new m
        ≡ calls.continue_gate (whole actor.old m)
        (calls.draft_at actor.old.drafts (calls.a0 (whole actor.old no_memory))) preparation) }
    ensures name { OnOk result (actor.new.name ≡ actor.old.name) }
{
    match preparation.next_grant() {
        Some(_) => {
            actor.phase = Phase::MakingGate(preparation);
            Ok(())
        }
        None => make_gate(actor, preparation.into_memory()),
    }
}

/// Makes the gate of the call at hand, whose runs begin with this private memory.
fn make_gate(actor: &mut Actor, memory: PrivateView) -> Result<(), NoMemory>
    requires running { actor.old.phase ≡ phase.Running }
    requires granting { MayMake (whole actor.old no_memory) }
    ensures takes { OnOk result ((m : PrivateMemory) → whole actor.new m
        ≡ calls.has_gate (whole actor.old m) (calls.new_gate (whole actor.old m)
        (calls.draft_at actor.old.drafts (calls.a0 (whole actor.old no_memory))) memory)) }
    ensures name { OnOk result (actor.new.name ≡ actor.old.name) }
{
    let gate = new_gate(actor, memory)?;
    keep_gate(actor, gate)
}

/// It has made a gate: it knows the gate, holds it at its entry, and is answered 0.
fn keep_gate(actor: &mut Actor, gate: Gate) -> Result<(), NoMemory>
    requires running { actor.old.phase ≡ phase.Running }
    requires placed { HasValidSlots gate.sheet }
    requires paid { funds actor.old.starts actor.old.made.count actor.old.fuel actor.old.unjoined
        < most_fuel }
    ensures takes { OnOk result ((m : PrivateMemory) → whole actor.new m
        ≡ calls.has_gate (whole actor.old m) gate) }
    ensures name { OnOk result (actor.new.name ≡ actor.old.name) }
{
    let entry = gate.entry;
    let id = gate.id.copy()?;
    add_gate(actor.alloc, &mut actor.gates, gate)?;
    actor.made.put_gate(entry, id)?;
    actor.answer(0, 0);
    Ok(())
}

/// The gate of the call at hand.
#[tactic(auto, using(machine::proofs::SlotsHeld::granted_inside))]
fn new_gate(actor: &Actor, memory: PrivateView) -> Result<Gate, NoMemory>
    requires { MayMake (whole actor.now no_memory) }
    ensures is { IfOk result
        (λ g. (m : PrivateMemory) → g ≡ calls.new_gate (whole actor.now m)
        (calls.draft_at actor.now.drafts (calls.a0 (whole actor.now no_memory))) memory) }
    ensures placed { IfOk result (λ g. HasValidSlots g.sheet) }
{
    let draft = &actor.drafts[actor.hart.reg(A0) as usize];
    let (maker, number) = (actor.name.copy()?, actor.made.count() + 1);
    Ok(Gate {
        id: GateId { maker, number },
        entry: actor.hart.reg(A1),
        sheet: sheet_of(actor.alloc, &actor.sheet, &actor.made, draft)?,
        argument: actor.hart.reg(A2),
        fuel: actor.hart.reg(A3),
        kind: kind_asked(actor.hart.reg(A4)),
        memory,
    })
}

/// Adds a gate to those that an actor knows.
fn add_gate(alloc: Global, gates: &mut Vec<Arc<Gate>>, gate: Gate) -> Result<(), NoMemory>
    requires { HasValidSlots gate.sheet }
    ensures is { OnOk result (map arc_value gates.new.items
        ≡ map arc_value gates.old.items ++ gate ∷ []) }
    ensures placed { AreGatesPlaced (map arc_value gates.old.items)
        → AreGatesPlaced (map arc_value gates.new.items) }
{
    gates.push(Arc::new(alloc, gate)?)?;
    Ok(())
}

/// The kind that an argument asks for: 0 for a fresh gate, 1 for a recycled one.
fn kind_asked(number: u32) -> GateKind
    ensures { result ≡ calls.kind_asked number }
{
    match number {
        0 => GateKind::Fresh,
        _ => GateKind::Recycled,
    }
}
