//! Local events: an actor alone, up to its next shared event.

ghost use Rattle.std.specs.Prelude.{◌≡◌, ◌<◌, OnOk, OnErr, IfOk, IfSome, IfNone, true, false};
ghost use Rattle.machine.specs.declared.phase.Phase.TheVariants as phase;
ghost use Rattle.machine.specs.Local as local;
ghost use Rattle.machine.specs.Actors.{whole};
ghost use Rattle.cow_pages.specs.PrivateMemory.{no_memory};
ghost use Rattle.machine.specs.Local.{end_reached, run_awaited};
ghost use Rattle.machine.specs.Take.{current_want};
ghost use Rattle.machine.specs.Resting.{want_in, end_in, run_in, NextFits};
ghost use Rattle.sthread_life.specs.Within.{FitsWithin};
ghost use Rattle.actor_step.specs.Reached.{reached, IsReached};

use crate::entering::entering_want;
use crate::starting::{ending_want, starting_want};
use crate::wants::{making_want, opening_want, releasing_want};
use actor_step::{Access, step};
use cow_pages::PrivateView;
use machine::{Actor, Next, Phase};
use ready_text::Program;
use wedge_base::NoMemory;

/// Makes the actor's local events up to its next shared event. Returns the load or the store of a slot to which it comes, if
/// that is what it wants: the actor itself still runs then. An actor that runs out of memory has stopped: from then on
/// `rest` and `take` fail, and it is not asked for what is `next`. `Site` stands for the place of the call, as for
/// `Hart::begin`.
#[inline(always)]
pub fn rest<Site>(
    actor: &mut Actor,
    program: &Program<'_>,
    memory: &mut PrivateView,
) -> Result<Option<Access>, NoMemory>
    ensures rests { IfOk result (λ o. reached (whole actor.new memory.new) o
        ≡ local.rest program.now (whole actor.old memory.old)) }
    ensures still { IfOk result (λ o. IfNone o (local.is_running actor.new.phase ≡ false)) }
    ensures comes { IfOk result (λ o. IfSome o (IsReached actor.new.phase)) }
    ensures going { OnOk result ((actor.old.stopped ≡ false) × (actor.new.stopped ≡ false)) }
    ensures stops { OnErr result (actor.new.stopped ≡ true) }
{
    if actor.stopped {
        return Err(NoMemory);
    }
    let rested = run::<Site>(actor, program, memory);
    actor.stopped = rested.is_err();
    rested
}

/// Returns what an actor at rest wants, its end, or the run of a gate for which it waits. An actor that runs out of memory
/// has stopped.
#[inline(always)]
pub fn next(actor: &mut Actor, memory: &PrivateView) -> Result<Next, NoMemory>
    requires still { local.is_running actor.old.phase ≡ false }
    requires going { actor.old.stopped ≡ false }
    ensures same { OnOk result (actor.new ≡ actor.old) }
    ensures going { OnOk result (actor.new.stopped ≡ false) }
    ensures next { IfOk result (λ n. want_in n ≡ current_want (whole actor.old memory.now)) }
    ensures ended { IfOk result (λ n. end_in n ≡ end_reached actor.old.phase) }
    ensures waits { IfOk result (λ n. run_in n ≡ run_awaited actor.old.phase) }
    ensures fits { IfOk result (NextFits (whole actor.old no_memory)) }
    ensures stops { OnErr result (actor.new.stopped ≡ true) }
{
    let next = next_of(actor, memory);
    actor.stopped = next.is_err();
    next
}

/// For proofs alone: an actor at a shared event wants what it may want.
pub fn wants_fit(actor: &Actor)
    ensures { FitsWithin (whole actor.now no_memory) actor.now.phase }
{
    // The phase is read here, so that what the actor's type keeps is at hand.
    let _ = matches!(actor.phase, Phase::Within(_));
}

/// Runs instructions until it no longer runs, or comes to an access of a slot: each takes a unit of fuel.
#[inline(always)]
fn run<Site>(
    actor: &mut Actor,
    program: &Program<'_>,
    memory: &mut PrivateView,
) -> Result<Option<Access>, NoMemory>
    ensures rests { IfOk result (λ o. reached (whole actor.new memory.new) o
        ≡ local.rest program.now (whole actor.old memory.old)) }
    ensures stops { IfOk result (λ o. IfNone o (local.is_running actor.new.phase ≡ false)) }
    ensures comes { IfOk result (λ o. IfSome o (IsReached actor.new.phase)) }
{
    while is_running(actor) {
        if let Some(access) = step::<Site>(actor, program, memory)? {
            return Ok(Some(access));
        }
    }
    Ok(None)
}

/// Returns the actor's next want, its end, or the run it waits for.
#[inline(always)]
fn next_of(actor: &Actor, memory: &PrivateView) -> Result<Next, NoMemory>
    requires { local.is_running actor.now.phase ≡ false }
    ensures wants { IfOk result (λ n. want_in n ≡ current_want (whole actor.now memory.now)) }
    ensures ended { IfOk result (λ n. end_in n ≡ end_reached actor.now.phase) }
    ensures waits { IfOk result (λ n. run_in n ≡ run_awaited actor.now.phase) }
    ensures fits { IfOk result (NextFits (whole actor.now no_memory)) }
{
    match &actor.phase {
        Phase::Within(want) => Ok(Next::Shared(want.copy(actor.alloc)?)),
        Phase::Starting(preparation) => Ok(Next::Shared(starting_want(actor, preparation)?)),
        Phase::MakingGate(preparation) => Ok(Next::Shared(making_want(preparation))),
        Phase::Opening { slot, tag } => Ok(Next::Shared(opening_want(actor, *slot, *tag))),
        Phase::Releasing { slot } => Ok(Next::Shared(releasing_want(*slot))),
        Phase::OpeningFile(opening) => Ok(Next::Shared(opening.want()?)),
        Phase::Entering(entrance) => Ok(Next::Shared(entering_want(actor, entrance.gate())?)),
        Phase::Waiting { run } => Ok(Next::Waiting { run: *run }),
        Phase::Ending(end) => Ok(Next::Shared(ending_want(actor, memory, *end)?)),
        Phase::Ended(end) => Ok(Next::Ended(*end)),
        Phase::Running => unreachable!(),
    }
}

/// Whether it runs.
#[inline(always)]
fn is_running(actor: &Actor) -> bool
    ensures { result ≡ local.is_running actor.now.phase }
{
    matches!(actor.phase, Phase::Running)
}
