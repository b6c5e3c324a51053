//! What actors want that make gates, and that open and release tags.

ghost use Rattle.std.specs.Prelude.{◌≡◌, ◌≤◌, Some, length};
ghost use Rattle.cow_pages.specs.PrivateMemory.{PrivateMemory, no_memory};
ghost use Rattle.machine.specs.declared.phase.Phase.TheVariants as phase;
ghost use Rattle.machine.specs.Take as taking;
ghost use Rattle.machine.specs.Actors.{ActorState, whole};
ghost use Rattle.machine.specs.Between.{AreInSlots, WantFits};
ghost use Rattle.machine.specs.Take.{current_want};
ghost use Rattle.wedge_events.specs.declared.events.Want.{Want as AWant};

use machine::{A0, Actor, Preparation};
use wedge_base::{Slot, TagNo};
use wedge_events::{DirectoryAsk, SlotWant, Want};

/// What an actor wants that makes a gate: a copy of the next tag.
pub(crate) fn making_want(preparation: &Preparation) -> Want
    requires placed { AreInSlots preparation.now.left }
    requires some { 1 ≤ length preparation.now.left }
    ensures is { taking.making_want preparation.now.left ≡ Some result }
    ensures fits { (a : ActorState) → WantFits a result }
{
    let Some(grant) = preparation.next_grant() else {
        unreachable!()
    };
    let want = SlotWant::Snap { tag: grant.tag };
    Want::Slot {
        slot: grant.slot,
        want,
    }
}

/// What it wants once a slot is claimed for a tag: to open the tag there.
pub(crate) fn opening_want(actor: &Actor, slot: Slot, tag: TagNo) -> Want
    requires { actor.now.phase ≡ phase.Opening slot tag }
    ensures is { (m : PrivateMemory) → Some result ≡ current_want (whole actor.now m) }
    ensures fits { WantFits (whole actor.now no_memory) result }
{
    let pages = actor.hart.reg(A0);
    let want = SlotWant::Open { tag, pages };
    Want::Slot { slot, want }
}

/// What an actor wants once its tag is closed: to release the slot.
pub(crate) fn releasing_want(slot: Slot) -> Want
    ensures { result ≡ AWant.Slots (DirectoryAsk.Release slot) }
{
    Want::Slots(DirectoryAsk::Release { place: slot.0 })
}
