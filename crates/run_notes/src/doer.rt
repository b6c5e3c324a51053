//! An actor at rest, as far as its next event is noted by it.

ghost use Rattle.std.specs.Prelude.{◌≡◌, IfOk};
ghost use Rattle.cow_pages.specs.PrivateMemory.{PrivateMemory};
ghost use Rattle.machine.specs.Actors.{whole};
ghost use Rattle.run_notes.specs.Doers as doers;

use machine::{Actor, Phase};
use wedge_base::{ActorName, NoMemory};

/// An actor at rest: by whom, where and in which compartment its next event is, and which gate it is about to enter.
#[derive(Debug, Drop)]
pub struct Doer {
    pub name: ActorName,
    /// The address of the instruction at hand.
    pub pc: u32,
    /// The address of the compartment's procedure.
    pub compartment: u32,
    /// The address at which the runs of the gate begin, if it is about to enter one.
    pub entry: Option<u32>,
}

impl Doer {
    /// An actor as it is.
    pub fn of(actor: &Actor) -> Result<Doer, NoMemory>
        ensures { IfOk result (λ d. (m : PrivateMemory) → d ≡ doers.doer_of (whole actor.now m)) }
    {
        Ok(Doer {
            name: actor.name().copy()?,
            pc: actor.pc(),
            compartment: actor.compartment(),
            entry: entry_of(actor.phase()),
        })
    }
}

/// The entry of the gate that an actor is about to enter in this phase.
fn entry_of(phase: &Phase) -> Option<u32>
    ensures { result ≡ doers.entry_of phase.now }
{
    match phase {
        Phase::Entering(entrance) => Some(entrance.gate().entry),
        _ => None,
    }
}
