//! Local events: an actor alone, up to its next shared event.

ghost use Rattle.std.specs.Prelude.{◌≡◌, ◌<◌, IfOk, IfSome};
ghost use Rattle.rv_isa.specs.Table.{HasRegisters};
ghost use Rattle.rv_hart.specs.Local as hart;
ghost use Rattle.machine.specs.declared.phase.Phase.TheVariants as phase;
ghost use Rattle.machine.specs.Local as local;
ghost use Rattle.machine.specs.Actors.{whole};
ghost use Rattle.image_form.specs.Rules.{most_fuel};
ghost use Rattle.machine.specs.Between.{funds};
ghost use Rattle.actor_step.specs.Reached.{reached, IsReached};

use crate::access::Access;
use crate::accesses::{load, store};
use crate::calls::serve;
use cow_pages::PrivateView;
use machine::Actor;
use ready_text::Program;
use rv_hart::Need;
use rv_isa::Instr;
use wedge_base::{End, NoMemory};

/// One instruction. Returns the access of a slot to which the actor comes by it, if it does: the actor runs then, and wants
/// the access. `Site` stands for the place of the call, as for `Hart::begin`.
#[inline(always)]
#[tactic(auto, unfolding(machine::specs::Local::step))]
pub fn step<Site>(
    actor: &mut Actor,
    program: &Program<'_>,
    memory: &mut PrivateView,
) -> Result<Option<Access>, NoMemory>
    requires { actor.old.phase ≡ phase.Running }
    ensures is { IfOk result (λ o. reached (whole actor.new memory.new) o
        ≡ local.step program.now (whole actor.old memory.old)) }
    ensures runs { IfOk result (λ o. IfSome o (IsReached actor.new.phase)) }
{
    let Some(found) = program.fetch(actor.hart.pc) else {
        actor.end(End::FetchFault);
        return Ok(None);
    };
    let Some(fuel) = actor.fuel.checked_sub(1) else {
        actor.end(End::FuelOut);
        return Ok(None);
    };
    actor.fuel = fuel;
    match found {
        None => {
            actor.end(End::BadInstruction);
            Ok(None)
        }
        Some(instr) => execute::<Site>(actor, program, memory, instr),
    }
}

/// An instruction that is paid for. Returns the access to which the actor comes by it, if it does.
#[inline(always)]
fn execute<Site>(
    actor: &mut Actor,
    program: &Program<'_>,
    memory: &mut PrivateView,
    instr: &Instr,
) -> Result<Option<Access>, NoMemory>
    requires registers { HasRegisters instr.now }
    requires running { actor.old.phase ≡ phase.Running }
    requires paid { funds actor.old.starts actor.old.made.count actor.old.fuel actor.old.unjoined
        < most_fuel }
    ensures is { IfOk result (λ o. reached (whole actor.new memory.new) o
        ≡ local.proceeds program.now instr.now (whole actor.old memory.old)
        (hart.local instr.now actor.old.hart)) }
    ensures runs { IfOk result (λ o. IfSome o (IsReached actor.new.phase)) }
{
    match actor.hart.begin::<Site>(instr) {
        Need::Done => {}
        Need::Load {
            address,
            width,
            signed,
        } => return Ok(load(actor, program, memory, *instr, signed, address, width)),
        Need::Store {
            address,
            width,
            value,
        } => return store(actor, program, memory, address, width, value),
        Need::Call => serve(actor, program, memory)?,
        Need::Break => actor.end(End::Break),
        Need::JumpMisaligned => actor.end(End::JumpMisaligned),
    }
    Ok(None)
}
