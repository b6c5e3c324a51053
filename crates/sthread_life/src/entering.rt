//! Entering gates: the call that enters one, the run that begins, and how its caller goes on.

ghost use Rattle.std.specs.Prelude.{◌≡◌, ◌<◌, ◌≤◌, ◌+◌, ◌-◌, Option, Some, None, option_map, option_copied, length, unwrap_or, IfOk, IfSome, OnOk, IsSomeAnd, false};
ghost use Rattle.cow_pages.specs.PrivateMemory.{PrivateMemory, no_memory};
ghost use Rattle.image_form.specs.Rules.{most_fuel};
ghost use Rattle.wedge_base.specs.Names.{most_parts};
ghost use Rattle.machine.specs.Actors.{whole};
ghost use Rattle.machine.specs.Between.{EntersFrom, IsAtGate, WantFits, funds};
ghost use Rattle.machine.specs.Take as taking;
ghost use Rattle.machine.specs.declared.phase.Phase.TheVariants as phase;
ghost use Rattle.machine.specs.Children.{child_name, fuel_given, with_child};

use crate::starting::{copy_of_gates, end_number, end_value};
use callgate::Gate;
use cow_pages::PrivateView;
use grant_sheet::Made;
use machine::{A0, A1, Actor, Children, Entrance, Phase, SP};
use rv_hart::Hart;
use std::mem;
use wedge_base::{
    ActorName, End, GateKind, Items, NameFault, NoMemory, PRIVATE_BASE, PRIVATE_SIZE,
};
use wedge_events::{GateAsk, SavedView, Want};

/// To enter a gate: the name of the run is that of its next start. Into a recycled gate it brings
/// the memory with which the first run begins.
pub(crate) fn entering_want(actor: &Actor, gate: &Gate) -> Result<Want, NoMemory>
    requires shallow { length actor.now.name < most_parts }
    requires gate { IsAtGate actor.now.phase }
    ensures is { IfOk result (λ q. q ≡ taking.entering_want gate.now.kind gate.now
        (child_name actor.now.name (taking.next_start (whole actor.now no_memory)))) }
    ensures fits { IfOk result (WantFits (whole actor.now no_memory)) }
{
    let run = next_name(actor)?;
    match gate.kind {
        GateKind::Fresh => Ok(Want::Enter { run }),
        GateKind::Recycled => {
            let memory = SavedView::of(actor.alloc, &gate.memory)?;
            Ok(Want::Gate {
                gate: gate.id.copy()?,
                ask: GateAsk::Enter { run, memory },
            })
        }
    }
}

/// The name of its next start.
fn next_name(actor: &Actor) -> Result<ActorName, NoMemory>
    requires { length actor.now.name < most_parts }
    ensures { IfOk result (λ n. n
        ≡ child_name actor.now.name (taking.next_start (whole actor.now no_memory))) }
{
    match actor.name.child(actor.alloc, actor.starts + 1) {
        Ok(name) => Ok(name),
        Err(NameFault::NoMemory) => Err(NoMemory),
        Err(NameFault::Deep) => unreachable!(),
    }
}

/// A gate is entered: a run of this name begins, for which the actor waits. It begins with what
/// was kept for it, or else with the gate's memory.
pub(crate) fn enter(
    actor: &mut Actor,
    name: &ActorName,
    kept: Option<&SavedView>,
) -> Result<Option<(Actor, PrivateView)>, NoMemory>
    ensures takes { OnOk result ((m : PrivateMemory) → whole actor.new m
        ≡ taking.has_entered (whole actor.old m) actor.old.phase) }
    ensures begun { IfOk result (λ c. option_map (λ p. whole p.0 p.1) c ≡ taking.run_at
        (whole actor.old no_memory) name.now (option_copied kept.entry) actor.old.phase) }
    ensures going { IfOk result (λ c. IfSome c (λ p. p.0.stopped ≡ false)) }
    ensures name { OnOk result (actor.new.name ≡ actor.old.name) }
{
    match mem::replace(&mut actor.phase, Phase::Running) {
        Phase::Entering(entrance) => Ok(Some(begin_run(actor, name, kept, entrance)?)),
        _ => Ok(None),
    }
}

/// The run of a gate begins, and the actor waits for it. Returns the run with its private
/// memory.
fn begin_run(
    actor: &mut Actor,
    name: &ActorName,
    kept: Option<&SavedView>,
    entrance: Entrance,
) -> Result<(Actor, PrivateView), NoMemory>
    requires { EntersFrom (whole actor.old no_memory) entrance }
    ensures takes { OnOk result ((m : PrivateMemory) → whole actor.new m
        ≡ taking.has_entered (whole actor.old m) (phase.Entering entrance)) }
    ensures begun { IfOk result (λ p. whole p.0 p.1 ≡ taking.run_by
        (whole actor.old no_memory) name.now (option_copied kept.entry) entrance) }
    ensures going { IfOk result (λ p. p.0.stopped ≡ false) }
    ensures name { OnOk result (actor.new.name ≡ actor.old.name) }
{
    let memory = memory_of_run(kept, entrance.gate())?;
    let fuel = entrance.gate().fuel;
    let run = build_run(actor, name, entrance)?;
    give_to_run(actor, fuel)?;
    Ok((run, memory))
}

/// The run of a gate, but for its private memory.
fn build_run(actor: &Actor, name: &ActorName, entrance: Entrance) -> Result<Actor, NoMemory>
    requires { EntersFrom (whole actor.now no_memory) entrance }
    ensures is { IfOk result (λ r. (m : PrivateMemory) (kept : Option PrivateMemory)
        → whole r (unwrap_or kept entrance.gate.memory)
        ≡ taking.run_by (whole actor.now m) name.now kept entrance) }
    ensures going { IfOk result (λ r. r.stopped ≡ false) }
{
    let alloc = actor.alloc;
    let (gate, sheet) = entrance.into_parts();
    let mut hart = Hart::new(gate.entry);
    hart.put(SP, PRIVATE_BASE + PRIVATE_SIZE);
    hart.put(A0, actor.hart.reg(A1));
    hart.put(A1, gate.argument);
    Ok(Actor {
        alloc,
        name: name.copy()?,
        compartment: gate.entry,
        sheet,
        made: Made::new(alloc),
        gates: copy_of_gates(&actor.gates)?,
        labels: Items::new(Vec::new(alloc)),
        drafts: Vec::new(alloc),
        hart,
        fuel: gate.fuel,
        denials: Items::new(Vec::new(alloc)),
        starts: 0,
        unjoined: Children::new(alloc),
        phase: Phase::Running,
        stopped: false,
        run_of: Some(gate),
    })
}

/// The gate's fuel goes to its run, which is to be joined like a child, and for which the actor
/// waits.
fn give_to_run(actor: &mut Actor, fuel: u32) -> Result<(), NoMemory>
    requires enough { fuel ≤ actor.old.fuel }
    requires paid { funds actor.old.starts actor.old.made.count actor.old.fuel actor.old.unjoined
        < most_fuel }
    ensures { OnOk result (let run = actor.old.starts + 1 in actor.new ≡ record actor.old {
      starts = run;
      unjoined = with_child actor.old.unjoined run fuel;
      fuel = actor.old.fuel - fuel;
      phase = phase.Waiting run;
    }) }
{
    let run = actor.starts + 1;
    actor.unjoined.add(run, fuel)?;
    actor.starts = run;
    actor.fuel -= fuel;
    actor.phase = Phase::Waiting { run };
    Ok(())
}

/// The run of a gate leaves it: it has ended, and drops its private memory.
pub(crate) fn leave(actor: &mut Actor, memory: &mut PrivateView, end: End)
    ensures takes { whole actor.new memory.new ≡ record (whole actor.old memory.old)
        { memory = no_memory; phase = phase.Ended end } }
    ensures name { actor.new.name ≡ actor.old.name }
{
    memory.clear();
    actor.phase = Phase::Ended(end);
}

/// Goes on from the run of a gate for which it waits, which ended so, with so much fuel left.
pub fn resume(actor: &mut Actor, run: u32, end: End, fuel: u32)
    requires waits { actor.old.phase ≡ phase.Waiting run }
    requires back { IsSomeAnd (fuel_given actor.old.unjoined run) (λ given. fuel ≤ given) }
    ensures goes { (m : PrivateMemory) → whole actor.new m
        ≡ taking.has_joined (whole actor.old m) run end fuel }
    ensures name { actor.new.name ≡ actor.old.name }
    ensures stopped { actor.new.stopped ≡ actor.old.stopped }
{
    actor.unjoined.remove(run, fuel);
    actor.fuel += fuel;
    actor.phase = Phase::Running;
    actor.hart.answer(end_value(end), 0, Some(end_number(end)));
}

/// The private memory with which a run begins: what was kept for it, or else the gate's, in pages that both
/// hold.
fn memory_of_run(kept: Option<&SavedView>, gate: &Gate) -> Result<PrivateView, NoMemory>
    ensures { IfOk result (λ m. m ≡ unwrap_or (option_copied kept.entry) gate.now.memory) }
{
    match kept {
        Some(kept) => kept.view().snapshot(),
        None => gate.memory.snapshot(),
    }
}
