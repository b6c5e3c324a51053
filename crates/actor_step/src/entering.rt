//! Entering gates: the call that enters one, the run that begins, and how its caller goes on.

ghost use Rattle.std.specs.Arc.{arc_value};
ghost use Rattle.std.specs.Prelude.{◌≡◌, ◌<◌, ◌≤◌, ◌-◌, Option, Some, None, option_map, option_copied, length, is_some, unwrap_or, IfOk, IfSome, OnOk};
ghost use Rattle.cow_pages.specs.PrivateMemory.{PrivateMemory, no_memory};
ghost use Rattle.image_form.specs.Rules.{most_fuel};
ghost use Rattle.wedge_base.specs.Names.{most_parts};
ghost use Rattle.wedge_base.specs.Sheets.{lent_to};
ghost use Rattle.machine.specs.Actors.{gate_held, whole};
ghost use Rattle.machine.specs.Between.{HasValidSlots, funds};
ghost use Rattle.machine.specs.Calls as calls;
ghost use Rattle.machine.specs.Entering as entering;
ghost use Rattle.machine.specs.declared.phase.Phase.TheVariants as phase;

use callgate::{Gate, gate_named, is_lendable, run_sheet};
use grant_sheet::{Draft, Sheet, first_excess, gate_at, sheet_of};
use machine::{A0, A2, Actor, Entrance, Phase};
use std::sync::Arc;
use wedge_base::{Code, Denial, MOST_PARTS, NoMemory};

/// The number that lends nothing to the run of a gate.
const NO_DRAFT: u32 = u32::MAX;

/// The call that enters the gate at an entry.
pub(crate) fn cgate(actor: &mut Actor) -> Result<(), NoMemory>
    requires { funds actor.old.starts actor.old.made.count actor.old.fuel actor.old.unjoined
        < most_fuel }
    ensures { OnOk result ((m : PrivateMemory) → whole actor.new m
        ≡ calls.cgate (whole actor.old m)) }
{
    let gate = gate_held(actor, actor.hart.reg(A0))?;
    enter_held(actor, gate)
}

/// The gate that it holds at an entry.
#[tactic(auto, using(machine::proofs::SlotsHeld::named_inside))]
fn gate_held(actor: &Actor, entry: u32) -> Result<Option<Arc<Gate>>, NoMemory>
    ensures is { IfOk result (λ g. (m : PrivateMemory) → option_map arc_value g
        ≡ gate_held (whole actor.now m) entry) }
    ensures placed { IfOk result (λ g. IfSome g (λ h. HasValidSlots (arc_value h).sheet)) }
{
    let Some(id) = gate_at(&actor.sheet, &actor.made, entry) else {
        return Ok(None);
    };
    match gate_named(&actor.gates, id) {
        Some(gate) => Ok(Some(Arc::try_clone(gate)?)),
        None => Ok(None),
    }
}

/// The call that enters a gate, if it holds one at the entry.
fn enter_held(actor: &mut Actor, gate: Option<Arc<Gate>>) -> Result<(), NoMemory>
    requires paid { funds actor.old.starts actor.old.made.count actor.old.fuel actor.old.unjoined
        < most_fuel }
    requires placed { IfSome gate (λ h. HasValidSlots (arc_value h).sheet) }
    ensures { OnOk result ((m : PrivateMemory) → whole actor.new m
        ≡ calls.enter_held (whole actor.old m) (option_map arc_value gate)) }
{
    match gate {
        Some(gate) => enter_lending(actor, gate),
        None => {
            let entry = actor.hart.reg(A0);
            actor.note(Denial::Gate { entry })?;
            actor.refuse(Code::Denied);
            Ok(())
        }
    }
}

/// The call that enters a gate, with what the call lends.
fn enter_lending(actor: &mut Actor, gate: Arc<Gate>) -> Result<(), NoMemory>
    requires paid { funds actor.old.starts actor.old.made.count actor.old.fuel actor.old.unjoined
        < most_fuel }
    requires placed { HasValidSlots (arc_value gate).sheet }
    ensures { OnOk result ((m : PrivateMemory) → whole actor.new m
        ≡ calls.enter_lending (whole actor.old m) (arc_value gate)
        (calls.lent_asked actor.old.drafts (calls.a2 (whole actor.old m)))) }
{
    let number = actor.hart.reg(A2);
    if !is_lent(actor, number) {
        actor.refuse(Code::NoSuch);
        return Ok(());
    }
    if !may_lend(draft_lent(actor, number)) {
        actor.refuse(Code::Bad);
        return Ok(());
    }
    let excess = excess_lent(actor, number);
    enter_checked(actor, gate, number, excess)
}

/// Whether a number says what is lent: nothing, or a draft that is there.
fn is_lent(actor: &Actor, number: u32) -> bool
    ensures { result ≡ is_some (calls.lent_asked actor.now.drafts number) }
{
    number == NO_DRAFT || (number as usize) < actor.drafts.len()
}

/// The draft that a number lends, if it lends one.
fn draft_lent(actor: &Actor, number: u32) -> Option<&Draft>
    ensures { option_copied result
        ≡ unwrap_or (calls.lent_asked actor.now.drafts number) None }
{
    if number == NO_DRAFT {
        return None;
    }
    actor.drafts.get(number as usize)
}

/// The first part of what a number lends that it may not give.
fn excess_lent(actor: &Actor, number: u32) -> Option<Denial>
    ensures { (m : PrivateMemory) → result ≡ entering.excess_lent (whole actor.now m)
        (unwrap_or (calls.lent_asked actor.now.drafts number) None) }
{
    let draft = draft_lent(actor, number)?;
    first_excess(&actor.sheet, &actor.made, draft)
}

/// The call that enters a gate, with the first part of what is lent that it may not give.
fn enter_checked(
    actor: &mut Actor,
    gate: Arc<Gate>,
    number: u32,
    excess: Option<Denial>,
) -> Result<(), NoMemory>
    requires paid { funds actor.old.starts actor.old.made.count actor.old.fuel actor.old.unjoined
        < most_fuel }
    requires placed { HasValidSlots (arc_value gate).sheet }
    requires excess { excess ≡ entering.excess_lent (whole actor.old no_memory)
        (unwrap_or (calls.lent_asked actor.old.drafts number) None) }
    ensures { OnOk result ((m : PrivateMemory) → whole actor.new m
        ≡ calls.enter_checked (whole actor.old m) (arc_value gate)
        (unwrap_or (calls.lent_asked actor.old.drafts number) None) excess) }
{
    if let Some(denial) = excess {
        actor.note(denial)?;
        actor.refuse(Code::Denied);
        return Ok(());
    }
    enter_allowed(actor, gate, number)
}

/// The call that enters a gate, where it may give what is lent.
fn enter_allowed(actor: &mut Actor, gate: Arc<Gate>, number: u32) -> Result<(), NoMemory>
    requires paid { funds actor.old.starts actor.old.made.count actor.old.fuel actor.old.unjoined
        < most_fuel }
    requires placed { HasValidSlots (arc_value gate).sheet }
    requires allowed { entering.excess_lent (whole actor.old no_memory)
        (unwrap_or (calls.lent_asked actor.old.drafts number) None) ≡ None }
    ensures { OnOk result ((m : PrivateMemory) → whole actor.new m
        ≡ calls.enter_allowed (whole actor.old m) (arc_value gate)
        (unwrap_or (calls.lent_asked actor.old.drafts number) None)) }
{
    if actor.name.parts().len() >= MOST_PARTS {
        actor.refuse(Code::Deep);
        return Ok(());
    }
    if actor.fuel < gate.fuel {
        actor.refuse(Code::FuelShort);
        return Ok(());
    }
    come_to_enter(actor, gate, number)
}

/// It is about to enter a gate.
fn come_to_enter(actor: &mut Actor, gate: Arc<Gate>, number: u32) -> Result<(), NoMemory>
    requires shallow { length actor.old.name < most_parts }
    requires enough { (arc_value gate).fuel ≤ actor.old.fuel }
    requires paid { funds actor.old.starts actor.old.made.count actor.old.fuel actor.old.unjoined
        < most_fuel }
    requires placed { HasValidSlots (arc_value gate).sheet }
    requires allowed { entering.excess_lent (whole actor.old no_memory)
        (unwrap_or (calls.lent_asked actor.old.drafts number) None) ≡ None }
    ensures { OnOk result ((m : PrivateMemory) → whole actor.new m
        ≡ record (whole actor.old m) {
          phase = phase.Entering (calls.entrance_of (whole actor.old m) (arc_value gate)
              (unwrap_or (calls.lent_asked actor.old.drafts number) None));
        }) }
{
    let sheet = sheet_of_run(actor, &gate, number)?;
    let entrance = Entrance::new(actor.alloc, gate, sheet)?;
    actor.phase = Phase::Entering(entrance);
    Ok(())
}

/// The sheet of a run of a gate: the gate's, with what a number lends.
fn sheet_of_run(actor: &Actor, gate: &Gate, number: u32) -> Result<Sheet, NoMemory>
    requires placed { HasValidSlots gate.now.sheet }
    requires allowed { entering.excess_lent (whole actor.now no_memory)
        (unwrap_or (calls.lent_asked actor.now.drafts number) None) ≡ None }
    ensures is { IfOk result (λ s. (m : PrivateMemory) → s ≡ lent_to gate.now.sheet
        (entering.sheet_lent (whole actor.now m)
        (unwrap_or (calls.lent_asked actor.now.drafts number) None))) }
    ensures placed { IfOk result HasValidSlots }
{
    let lent = sheet_lent(actor, number)?;
    Ok(run_sheet(actor.alloc, gate, lent.as_ref())?)
}

/// The sheet of what a number lends, if it lends anything.
#[tactic(auto, using(machine::proofs::SlotsHeld::granted_inside))]
fn sheet_lent(actor: &Actor, number: u32) -> Result<Option<Sheet>, NoMemory>
    requires { entering.excess_lent (whole actor.now no_memory)
        (unwrap_or (calls.lent_asked actor.now.drafts number) None) ≡ None }
    ensures is { IfOk result (λ s. (m : PrivateMemory) → s
        ≡ entering.sheet_lent (whole actor.now m)
        (unwrap_or (calls.lent_asked actor.now.drafts number) None)) }
    ensures placed { IfOk result (λ s. IfSome s HasValidSlots) }
{
    match draft_lent(actor, number) {
        Some(draft) => Ok(Some(sheet_of(actor.alloc, &actor.sheet, &actor.made, draft)?)),
        None => Ok(None),
    }
}

/// Whether what is lent may be lent to a run: nothing, or a draft of rights on tags and of bits on
/// descriptors alone, none of them the right to a copy.
fn may_lend(lent: Option<&Draft>) -> bool
    ensures { result ≡ entering.may_lend (option_copied lent.entry) }
{
    match lent {
        Some(draft) => is_lendable(draft),
        None => true,
    }
}
