//! An access of a slot to which an actor comes that still runs.

ghost use Rattle.std.specs.Prelude.{◌≡◌};
ghost use Rattle.machine.specs.declared.phase.Phase.TheVariants as phase;
ghost use Rattle.wedge_events.specs.declared.events.Want.{Want as AWant};
ghost use Rattle.actor_step.specs.Reached.{IsReached};

use machine::{Actor, Phase};
use wedge_base::Slot;
use wedge_events::{SlotWant, Want};

/// A load or a store of a slot to which an actor has come. It is no phase of the actor, which still runs: so nothing is
/// written for it, and nothing is released once it is made.
#[derive(Clone, Copy, Debug)]
pub struct Access {
    pub slot: Slot,
    /// A load or a store.
    pub want: SlotWant,
}

/// Makes an access to which the actor has come its phase: the actor stops running and wants it.
pub fn want_access(actor: &mut Actor, access: Access)
    requires { IsReached actor.old.phase access }
    ensures { actor.new ≡ record actor.old
        { phase = phase.Within (AWant.Slot access.slot access.want) } }
{
    let Access { slot, want } = access;
    actor.phase = Phase::Within(Want::Slot { slot, want });
}
