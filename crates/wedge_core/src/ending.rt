//! What a run ends with.

ghost use Rattle.std.specs.Prelude.{◌≡◌, true, false, IfOk};
ghost use Rattle.machine.specs.Worlds.{is_complete};
ghost use Rattle.machine.specs.Outcomes as outcomes;

use run_outcome::outcome_of;
use std::alloc::Global;
use wedge_base::{NoMemory, Outcome};
use world_turns::World;

/// The outcome of a world whose root has ended: a line for each actor, and one for each append stream.
pub fn outcome(alloc: Global, world: &World<'_>) -> Result<Outcome, NoMemory>
    requires going { world.now.stopped ≡ false }
    requires whole { is_complete world.now.state ≡ true }
    ensures { IfOk result (λ o. o ≡ outcomes.outcome_of world.now.state) }
{
    let residents = world.residents.as_slice();
    let streams = world.cells.streams();
    outcome_of(alloc, world.program.image(), residents, streams)
}
