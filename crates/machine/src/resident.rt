//! An actor with its private memory.

ghost use Rattle.std.specs.Prelude.{◌≡◌};

use crate::actor::Actor;
use cow_pages::PrivateView;
use std::marker::Model;
use wedge_base::ActorName;

/// An actor with its private memory. Contracts see the whole of it.
#[derive(Debug, Drop)]
pub struct Resident {
    pub actor: Actor,
    pub memory: PrivateView,
}

impl Model for Resident {
    ghost use Rattle.machine.specs.Actors.{ActorState, whole};

    ghost Value = { ActorState };

    ghost view = { λ r. whole r.actor r.memory };
}

impl Resident {
    /// Returns its name.
    pub fn name(&self) -> &ActorName
        ensures { result.now ≡ self.now.name }
    {
        self.actor.name()
    }
}
