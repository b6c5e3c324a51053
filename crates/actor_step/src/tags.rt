//! Service calls on tags: to make and to delete one, and to place and to free its blocks.

ghost use Rattle.std.specs.Prelude.{◌≡◌, ◌<◌, Some, OnOk};
ghost use Rattle.wedge_base.specs.Images.{slots};
ghost use Rattle.cow_pages.specs.PrivateMemory.{PrivateMemory, no_memory};
ghost use Rattle.machine.specs.Actors.{whole, slot_held};
ghost use Rattle.machine.specs.Between.{WantFits};
ghost use Rattle.machine.specs.Calls as calls;
ghost use Rattle.machine.specs.declared.phase.Phase.TheVariants as phase;
ghost use Rattle.wedge_events.specs.declared.events.Want.{Want as AWant};

use grant_sheet::{may_grant, slot_on};
use machine::{A0, A1, Actor, Phase};
use wedge_base::{Code, Denial, Item, MOST_PAGES, NoMemory, Place, Right, Slot, TagNo, slot_of};
use wedge_events::{DirectoryAsk, SlotWant, Want};

/// The call that makes a tag, up to the claim of a slot for it.
pub(crate) fn tag_new(actor: &mut Actor)
    ensures { (m : PrivateMemory) → whole actor.new m ≡ calls.tag_new (whole actor.old m) }
{
    let pages = actor.hart.reg(A0);
    if pages != 0 && pages <= MOST_PAGES {
        actor.phase = Phase::Within(Want::Slots(DirectoryAsk::Claim));
    } else {
        actor.refuse(Code::Bad);
    }
}

/// The call that deletes a tag, up to its close.
pub(crate) fn tag_delete(actor: &mut Actor) -> Result<(), NoMemory>
    ensures { OnOk result ((m : PrivateMemory) → whole actor.new m
        ≡ calls.tag_delete (whole actor.old m)) }
{
    let tag = TagNo(actor.hart.reg(A0));
    if actor.made.tags().contains_key(tag.0) {
        ask_slot(actor, slot_held(actor, tag), SlotWant::Close { tag });
    } else {
        actor.note(Denial::NotMaker { tag })?;
        actor.refuse(Code::Denied);
    }
    Ok(())
}

/// The call that places a block in a tag, up to its slot.
pub(crate) fn smalloc(actor: &mut Actor) -> Result<(), NoMemory>
    ensures { OnOk result ((m : PrivateMemory) → whole actor.new m
        ≡ calls.smalloc (whole actor.old m)) }
{
    let tag = TagNo(actor.hart.reg(A0));
    let size = actor.hart.reg(A1);
    let right = Right::ReadWrite;
    if size == 0 {
        actor.refuse(Code::Bad);
    } else if may_grant(&actor.sheet, &actor.made, &Item::Tag { tag, right }) {
        ask_slot(
            actor,
            slot_held(actor, tag),
            SlotWant::Smalloc { tag, size },
        );
    } else {
        let wants = right;
        actor.note(Denial::Tag { tag, wants })?;
        actor.refuse(Code::Denied);
    }
    Ok(())
}

/// The call that frees a block, up to its slot.
pub(crate) fn sfree(actor: &mut Actor)
    ensures { (m : PrivateMemory) → whole actor.new m ≡ calls.sfree (whole actor.old m) }
{
    match slot_of(actor.hart.reg(A0)) {
        None => actor.refuse(Code::Bad),
        Some(Place { slot, offset }) => ask_slot(actor, slot, SlotWant::Sfree { offset }),
    }
}

/// The slot in which a tag that it holds was opened; slot 0 for a tag that it does not hold.
#[tactic(auto, using(machine::proofs::SlotsHeld::held_inside))]
fn slot_held(actor: &Actor, tag: TagNo) -> Slot
    ensures is { result ≡ slot_held (whole actor.now no_memory) tag }
    ensures inside { result < slots }
{
    slot_on(&actor.sheet, &actor.made, tag).unwrap_or(Slot(0))
}

/// Sets the pending event to `want` on `slot`.
fn ask_slot(actor: &mut Actor, slot: Slot, want: SlotWant)
    requires { WantFits (whole actor.old no_memory) (AWant.Slot slot want) }
    ensures { actor.new ≡ record actor.old { phase = phase.Within (AWant.Slot slot want) } }
{
    actor.phase = Phase::Within(Want::Slot { slot, want });
}
