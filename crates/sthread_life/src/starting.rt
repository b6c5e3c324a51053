//! Starting and joining children.

ghost use Rattle.std.specs.Arc.{arc_value};
ghost use Rattle.std.specs.Prelude.{◌≡◌, ◌<◌, ◌≤◌, Some, None, map, option_map, IfOk, IfSome, OnOk, IsSomeAnd, false};
ghost use Rattle.machine.specs.declared.phase.Phase.TheVariants as phase;
ghost use Rattle.machine.specs.Take as taking;
ghost use Rattle.wedge_events.specs.declared.events.Want.{Want as AWant};
ghost use Rattle.cow_pages.specs.PrivateMemory.{PrivateMemory, no_memory};
ghost use Rattle.wedge_base.specs.Images.{Image as AnImage};
ghost use Rattle.machine.specs.Actors.{ActorState, pristine, whole};
ghost use Rattle.machine.specs.Between.{AreInSlots, MayStart, WantFits};
ghost use Rattle.machine.specs.Children.{child_name, fuel_given};

use actor_step::{go_on_making, preparation};
use callgate::Gate;
use cow_pages::{Pages, PrivateView};
use grant_sheet::{Made, sheet_of};
use machine::{A0, A1, A2, A3, Actor, Children, CopyGrant, Phase, Preparation, SP};
use ready_text::Program;
use rv_hart::Hart;
use std::alloc::Global;
use std::mem;
use std::sync::Arc;
use wedge_base::{
    ActorName, End, GateKind, Items, NameFault, NoMemory, PRIVATE_BASE, PRIVATE_SIZE, Slot,
};
use wedge_events::{GateAsk, LivesAsk, LivesReply, SavedView, SlotWant, Want};

/// What it wants once its end is decided: to join its children, the least number first, and
/// then to end; the run of a gate leaves the gate.
pub(crate) fn ending_want(actor: &Actor, memory: &PrivateView, end: End) -> Result<Want, NoMemory>
    ensures is { IfOk result (λ q. q
        ≡ taking.ending_want actor.now.run_of memory.now actor.now.unjoined end) }
    ensures fits { IfOk result (WantFits (whole actor.now no_memory)) }
{
    match (actor.unjoined.least(), &actor.run_of) {
        (Some(child), _) => Ok(Want::Join { child }),
        (None, None) => Ok(Want::Lives(LivesAsk::Release { end })),
        (None, Some(gate)) => leaving_want(actor.alloc, gate, memory, end),
    }
}

/// What it wants once a life is claimed: a copy of the next tag, or else to start the child of its next number.
pub(crate) fn starting_want(actor: &Actor, preparation: &Preparation) -> Result<Want, NoMemory>
    requires ready { MayStart (whole actor.now no_memory) }
    requires placed { AreInSlots preparation.now.left }
    ensures is { IfOk result (λ q. (m : PrivateMemory) → q
        ≡ taking.starting_want (whole actor.now m) preparation.now.left) }
    ensures fits { IfOk result (WantFits (whole actor.now no_memory)) }
{
    match preparation.next_grant() {
        Some(CopyGrant { tag, slot }) => {
            let want = SlotWant::Snap { tag };
            Ok(Want::Slot { slot, want })
        }
        None => child_want(actor),
    }
}

/// To start the child of its next number.
fn child_want(actor: &Actor) -> Result<Want, NoMemory>
    requires { MayStart (whole actor.now no_memory) }
    ensures { IfOk result (λ q. q ≡ AWant.Start (child_name actor.now.name
        (taking.next_start (whole actor.now no_memory)))) }
{
    match actor.name.child(actor.alloc, actor.starts + 1) {
        Ok(child) => Ok(Want::Start { child }),
        Err(NameFault::NoMemory) => Err(NoMemory),
        Err(NameFault::Deep) => unreachable!(),
    }
}

/// A life is claimed for a child: its private memory is made, up to the first copy that is to be made of a tag.
pub(crate) fn begin_child(
    actor: &mut Actor,
    program: &Program<'_>,
    memory: &PrivateView,
) -> Result<(), NoMemory>
    requires { MayStart (whole actor.old memory.now) }
    ensures takes { OnOk result (whole actor.new memory.now ≡ taking.takes_lives program.now
        (whole actor.old memory.now) LivesAsk.Claim LivesReply.Claimed) }
    ensures name { actor.new.name ≡ actor.old.name }
{
    let mut preparation = preparation(actor, program)?;
    preparation.copy_own(&actor.sheet, &actor.made, memory)?;
    actor.phase = Phase::Starting(preparation);
    Ok(())
}

/// A copy of a tag was made for the child that is to be started or the gate that is to be made, or the tag lives no more:
/// the next copies are made, up to the first that is to be made of a tag.
pub(crate) fn go_on_copying(
    actor: &mut Actor,
    memory: &PrivateView,
    slot: Slot,
    pages: Option<Pages>,
) -> Result<(), NoMemory>
    ensures takes { OnOk result (whole actor.new memory.now ≡ taking.has_snapped
        (whole actor.old memory.now) actor.old.phase slot pages) }
    ensures name { OnOk result (actor.new.name ≡ actor.old.name) }
{
    match mem::replace(&mut actor.phase, Phase::Running) {
        Phase::Starting(mut preparation) => {
            preparation.go_on(slot, pages, &actor.sheet, &actor.made, memory)?;
            actor.phase = Phase::Starting(preparation);
            Ok(())
        }
        Phase::MakingGate(mut preparation) => {
            preparation.go_on(slot, pages, &actor.sheet, &actor.made, memory)?;
            go_on_making(actor, preparation)
        }
        _ => Ok(()),
    }
}

/// The child of a name that it is ready to start, but for its private memory.
#[tactic(auto, using(machine::proofs::SlotsHeld::granted_inside))]
fn build_child(actor: &Actor, name: &ActorName) -> Result<Actor, NoMemory>
    requires { MayStart (whole actor.now no_memory) }
    ensures is { IfOk result (λ c. (i : AnImage) (m : PrivateMemory)
        → whole c (taking.memory_made i actor.now.phase)
        ≡ taking.child_of i (whole actor.now m) name.now) }
    ensures going { IfOk result (λ c. c.stopped ≡ false) }
{
    let alloc = actor.alloc;
    let entry = actor.hart.reg(A1);
    let draft = &actor.drafts[actor.hart.reg(A0) as usize];
    let sheet = sheet_of(alloc, &actor.sheet, &actor.made, draft)?;
    let mut hart = Hart::new(entry);
    hart.put(SP, PRIVATE_BASE + PRIVATE_SIZE);
    hart.put(A0, actor.hart.reg(A2));
    Ok(Actor {
        alloc,
        name: name.copy()?,
        compartment: entry,
        run_of: None,
        sheet,
        made: Made::new(alloc),
        gates: copy_of_gates(&actor.gates)?,
        labels: Items::new(Vec::new(alloc)),
        drafts: Vec::new(alloc),
        hart,
        fuel: actor.hart.reg(A3),
        denials: Items::new(Vec::new(alloc)),
        starts: 0,
        unjoined: Children::new(alloc),
        phase: Phase::Running,
        stopped: false,
    })
}

/// A child of a name starts. Returns the child with its private memory: there always is one.
pub(crate) fn start(
    actor: &mut Actor,
    program: &Program<'_>,
    name: &ActorName,
) -> Result<Option<(Actor, PrivateView)>, NoMemory>
    requires { MayStart (whole actor.old no_memory) }
    ensures takes { OnOk result ((m : PrivateMemory) → whole actor.new m
        ≡ taking.has_started (whole actor.old m)) }
    ensures begun { IfOk result (λ c. option_map (λ p. whole p.0 p.1) c
        ≡ Some (taking.child_of program.now (whole actor.old no_memory) name.now)) }
    ensures going { IfOk result (λ c. IfSome c (λ p. p.0.stopped ≡ false)) }
    ensures name { OnOk result (actor.new.name ≡ actor.old.name) }
{
    let child = build_child(actor, name)?;
    let memory = take_prepared(actor, program)?;
    give_to_child(actor)?;
    Ok(Some((child, memory)))
}

/// The private memory that was made for a child.
fn take_prepared(actor: &mut Actor, program: &Program<'_>) -> Result<PrivateView, NoMemory>
    ensures made { IfOk result (λ m. m ≡ taking.memory_made program.now actor.old.phase) }
    ensures after { actor.new ≡ record actor.old { phase = phase.Running } }
{
    match mem::replace(&mut actor.phase, Phase::Running) {
        Phase::Starting(preparation) => Ok(preparation.into_memory()),
        _ => PrivateView::new(actor.alloc, program.pristine()),
    }
}

/// What a start makes of its starter: it has one child more, to which the fuel goes.
fn give_to_child(actor: &mut Actor) -> Result<(), NoMemory>
    requires { MayStart (whole actor.old no_memory) }
    ensures takes { OnOk result ((m : PrivateMemory) → whole actor.new m
        ≡ taking.has_started (whole actor.old m)) }
    ensures name { OnOk result (actor.new.name ≡ actor.old.name) }
{
    let number = actor.starts + 1;
    let fuel = actor.hart.reg(A3);
    actor.unjoined.add(number, fuel)?;
    actor.starts = number;
    actor.fuel -= fuel;
    actor.phase = Phase::Running;
    actor.hart.answer(number, 0, None);
    Ok(())
}

/// A child that ended so, with so much fuel left, is joined.
pub(crate) fn take_join(actor: &mut Actor, child: u32, end: End, fuel: u32)
    requires { IsSomeAnd (fuel_given actor.old.unjoined child) (λ given. fuel ≤ given) }
    ensures takes { (m : PrivateMemory) → whole actor.new m
        ≡ taking.has_joined (whole actor.old m) child end fuel }
    ensures name { actor.new.name ≡ actor.old.name }
{
    match actor.phase {
        Phase::Ending(_) => {
            actor.unjoined.remove(child, fuel);
            actor.fuel += fuel;
        }
        _ => {
            actor.unjoined.remove(child, fuel);
            actor.fuel += fuel;
            actor.phase = Phase::Running;
            actor.hart.answer(end_value(end), 0, Some(end_number(end)));
        }
    }
}

/// To leave a gate at the end of a run. A recycled gate keeps the run's private memory.
fn leaving_want(
    alloc: Global,
    gate: &Gate,
    memory: &PrivateView,
    end: End,
) -> Result<Want, NoMemory>
    ensures is { IfOk result (λ q. q
        ≡ taking.leaving_want gate.now.kind gate.now.id memory.now end) }
    ensures fits { IfOk result (λ q. (a : ActorState)
        → a.run_of ≡ Some gate.now → WantFits a q) }
{
    match gate.kind {
        GateKind::Fresh => Ok(Want::Leave { end }),
        GateKind::Recycled => {
            let memory = SavedView::of(alloc, memory)?;
            Ok(Want::Gate {
                gate: gate.id.copy()?,
                ask: GateAsk::Leave { end, memory },
            })
        }
    }
}

/// The same gates, which both know then.
pub(crate) fn copy_of_gates(gates: &Vec<Arc<Gate>>) -> Result<Vec<Arc<Gate>>, NoMemory>
    ensures { IfOk result (λ v. map arc_value v.items ≡ map arc_value gates.now.items) }
{
    Ok(gates.clone()?)
}

/// The value of an actor that ended so: 0 unless it exited with another.
pub(crate) fn end_value(end: End) -> u32
    ensures { result ≡ taking.end_value end }
{
    match end {
        End::Exited(value) => value,
        _ => 0,
    }
}

/// The number of an end, as programs see it.
pub(crate) fn end_number(end: End) -> u32
    ensures { result ≡ taking.end_number end }
{
    match end {
        End::Exited(_) => 0,
        End::Denied => 1,
        End::Misaligned => 2,
        End::JumpMisaligned => 3,
        End::BadInstruction => 4,
        End::FetchFault => 5,
        End::TextStore => 6,
        End::Unmapped => 7,
        End::Break => 8,
        End::FuelOut => 9,
    }
}
