//! An actor's part of a shared event.

ghost use Rattle.std.specs.Prelude.{◌≡◌, ◌<◌, IfOk, IfSome, OnOk, OnErr, Some, None, true, false, option_map, option_and_then};
ghost use Rattle.cow_pages.specs.PrivateMemory.{PrivateMemory, no_memory};
ghost use Rattle.wedge_base.specs.Images.{fetch, slots};
ghost use Rattle.wedge_events.specs.declared.events.Event.{Event as AnEvent};
ghost use Rattle.rv_isa.specs.Table.{decode};
ghost use Rattle.machine.specs.declared.phase.Phase.TheVariants as phase;
ghost use Rattle.machine.specs.Take as taking;
ghost use Rattle.actor_step.specs.Reached.{reached, IsReached};
ghost use Rattle.machine.specs.Actors.{whole};
ghost use Rattle.machine.specs.Between.{IsInBounds, SuitsActor, TakesFit};

use crate::entering::{enter, leave};
use crate::starting::{begin_child, go_on_copying, start, take_join};
use crate::streams::{take_number, take_stream};
use actor_step::{Access, want_access};
use cow_pages::{Pages, PrivateView};
use machine::{Actor, Phase};
use ready_text::Program;
use rv_hart::Reply;
use wedge_base::{Code, Denial, End, NoMemory, Right, Slot, TagNo, address_of};
use wedge_events::{
    DirectoryAsk, DirectoryReply, Event, GateAsk, GateReply, LivesAsk, LivesReply, SlotAsk,
    SlotReply, Want,
};

/// What the event that it wanted makes of the actor. Returns the actor that the event begins, a
/// child or the run of a gate, with its private memory. An actor that runs out of memory has
/// stopped: from then on `rest` and `take` fail.
#[inline(always)]
pub fn take(
    actor: &mut Actor,
    program: &Program<'_>,
    memory: &mut PrivateView,
    event: &Event,
) -> Result<Option<(Actor, PrivateView)>, NoMemory>
    requires { TakesFit (whole actor.old memory.old) event.now }
    ensures takes { OnOk result (whole actor.new memory.new
        ≡ taking.takes program.now (whole actor.old memory.old) event.now) }
    ensures begun { IfOk result (λ c. option_map (λ p. whole p.0 p.1) c
        ≡ taking.actor_begun program.now (whole actor.old memory.old) event.now) }
    ensures begun_going { IfOk result (λ c. IfSome c (λ p. p.0.stopped ≡ false)) }
    ensures name { OnOk result (actor.new.name ≡ actor.old.name) }
    ensures going { OnOk result ((actor.old.stopped ≡ false) × (actor.new.stopped ≡ false)) }
    ensures stops { OnErr result (actor.new.stopped ≡ true) }
{
    if actor.stopped {
        return Err(NoMemory);
    }
    let taken = take_event(actor, program, memory, event);
    actor.stopped = taken.is_err();
    taken
}

/// What an event makes of the actor that begins no other: as `take`, without room for one that begins.
#[inline(always)]
pub fn take_alone(
    actor: &mut Actor,
    program: &Program<'_>,
    memory: &mut PrivateView,
    event: &Event,
) -> Result<(), NoMemory>
    requires fits { TakesFit (whole actor.old memory.old) event.now }
    requires alone { taking.actor_begun program.now (whole actor.old memory.old) event.now ≡ None }
    ensures takes { OnOk result (whole actor.new memory.new
        ≡ taking.takes program.now (whole actor.old memory.old) event.now) }
    ensures name { OnOk result (actor.new.name ≡ actor.old.name) }
    ensures going { OnOk result ((actor.old.stopped ≡ false) × (actor.new.stopped ≡ false)) }
    ensures stops { OnErr result (actor.new.stopped ≡ true) }
{
    if actor.stopped {
        return Err(NoMemory);
    }
    let taken = take_event_alone(actor, program, memory, event);
    actor.stopped = taken.is_err();
    taken
}

/// What an event makes of it that begins no other. Those of slots have their arm here, since they are the most.
#[inline(always)]
fn take_event_alone(
    actor: &mut Actor,
    program: &Program<'_>,
    memory: &mut PrivateView,
    event: &Event,
) -> Result<(), NoMemory>
    requires fits { TakesFit (whole actor.old memory.old) event.now }
    requires alone { taking.actor_begun program.now (whole actor.old memory.old) event.now ≡ None }
    ensures takes { OnOk result (whole actor.new memory.new
        ≡ taking.takes program.now (whole actor.old memory.old) event.now) }
    ensures name { OnOk result (actor.new.name ≡ actor.old.name) }
{
    match event {
        Event::Slot { slot, ask, reply } => {
            take_slot_event(actor, program, memory, *slot, ask, reply)
        }
        _ => take_any_alone(actor, program, memory, event),
    }
}

/// What an event of a slot makes of it.
#[inline(always)]
#[tactic(auto, unfolding(machine::specs::Take::takes))]
fn take_slot_event(
    actor: &mut Actor,
    program: &Program<'_>,
    memory: &mut PrivateView,
    slot: Slot,
    ask: &SlotAsk,
    reply: &SlotReply,
) -> Result<(), NoMemory>
    requires { TakesFit (whole actor.old memory.old) (AnEvent.Slot slot ask.now reply.now) }
    ensures takes { OnOk result (whole actor.new memory.new
        ≡ taking.takes program.now (whole actor.old memory.old)
        (AnEvent.Slot slot ask.now reply.now)) }
    ensures name { OnOk result (actor.new.name ≡ actor.old.name) }
{
    take_slot(actor, program, memory, slot, ask, reply)
}

/// The same of any event.
#[inline(never)]
fn take_any_alone(
    actor: &mut Actor,
    program: &Program<'_>,
    memory: &mut PrivateView,
    event: &Event,
) -> Result<(), NoMemory>
    requires fits { TakesFit (whole actor.old memory.old) event.now }
    requires alone { taking.actor_begun program.now (whole actor.old memory.old) event.now ≡ None }
    ensures takes { OnOk result (whole actor.new memory.new
        ≡ taking.takes program.now (whole actor.old memory.old) event.now) }
    ensures name { OnOk result (actor.new.name ≡ actor.old.name) }
{
    match take_event(actor, program, memory, event)? {
        None => Ok(()),
        Some(_) => unreachable!(),
    }
}

/// What an event makes of it.
#[inline(always)]
#[tactic(auto, unfolding(machine::specs::Take::takes))]
fn take_event(
    actor: &mut Actor,
    program: &Program<'_>,
    memory: &mut PrivateView,
    event: &Event,
) -> Result<Option<(Actor, PrivateView)>, NoMemory>
    requires { TakesFit (whole actor.old memory.old) event.now }
    ensures takes { OnOk result (whole actor.new memory.new
        ≡ taking.takes program.now (whole actor.old memory.old) event.now) }
    ensures begun { IfOk result (λ c. option_map (λ p. whole p.0 p.1) c
        ≡ taking.actor_begun program.now (whole actor.old memory.old) event.now) }
    ensures begun_going { IfOk result (λ c. IfSome c (λ p. p.0.stopped ≡ false)) }
    ensures name { OnOk result (actor.new.name ≡ actor.old.name) }
{
    match event {
        Event::Slot { slot, ask, reply } => {
            take_slot(actor, program, memory, *slot, ask, reply)?;
            Ok(None)
        }
        Event::Slots { ask, reply } => {
            take_place(actor, *ask, *reply);
            Ok(None)
        }
        Event::Fds { ask, reply } => {
            take_number(actor, *ask, *reply);
            Ok(None)
        }
        Event::Fd { fd, ask, reply } => {
            take_stream(actor, memory, *fd, ask, reply)?;
            Ok(None)
        }
        Event::Lives { ask, reply } => {
            take_lives(actor, program, memory, *ask, *reply)?;
            Ok(None)
        }
        Event::Start { child } => start(actor, program, child),
        Event::Join { child, end, fuel } => {
            take_join(actor, *child, *end, *fuel);
            Ok(None)
        }
        Event::Enter { run } => enter(actor, run, None),
        Event::Leave { end } => {
            leave(actor, memory, *end);
            Ok(None)
        }
        Event::Gate { ask, reply, .. } => take_gate(actor, memory, ask, reply),
    }
}

/// What the cell of a recycled gate makes of it: who entered it waits for the run that begins, and a run that left it has
/// ended.
#[inline(never)]
fn take_gate(
    actor: &mut Actor,
    memory: &mut PrivateView,
    ask: &GateAsk,
    reply: &GateReply,
) -> Result<Option<(Actor, PrivateView)>, NoMemory>
    ensures takes { OnOk result (whole actor.new memory.new
        ≡ taking.takes_gate_reply (whole actor.old memory.old) ask.now reply.now) }
    ensures begun { IfOk result (λ c. option_map (λ p. whole p.0 p.1) c
        ≡ taking.begun_in (whole actor.old memory.old) ask.now reply.now) }
    ensures begun_going { IfOk result (λ c. IfSome c (λ p. p.0.stopped ≡ false)) }
    ensures name { OnOk result (actor.new.name ≡ actor.old.name) }
{
    match (ask, reply) {
        (GateAsk::Enter { run, .. }, GateReply::Entered { memory: kept }) => enter(
            actor,
            run,
            Some(kept),
        ),
        (GateAsk::Enter { .. }, GateReply::Left) => {
            actor.phase = Phase::Running;
            Ok(None)
        }
        (GateAsk::Leave { end, .. }, _) => {
            leave(actor, memory, *end);
            Ok(None)
        }
    }
}

/// What the reply of a slot makes of an actor that came to this access and still runs. It takes the reply as one that wants
/// the access. Consumes the reply, and returns it: so a load or a store is put in no memory for this. An actor that runs out of
/// memory has stopped.
#[inline(always)]
pub fn take_access(
    actor: &mut Actor,
    program: &Program<'_>,
    memory: &mut PrivateView,
    access: Access,
    slot: Slot,
    ask: &SlotAsk,
    reply: SlotReply,
) -> Result<SlotReply, NoMemory>
    requires comes { IsReached actor.old.phase access }
    requires bounds { IsInBounds (AnEvent.Slot slot ask.now reply) }
    ensures takes { OnOk result (whole actor.new memory.new ≡ taking.takes_slot program.now
        (reached (whole actor.old memory.old) (Some access)) slot ask.now reply) }
    ensures same { IfOk result (λ r. r ≡ reply) }
    ensures name { OnOk result (actor.new.name ≡ actor.old.name) }
    ensures going { OnOk result ((actor.old.stopped ≡ false) × (actor.new.stopped ≡ false)) }
    ensures stops { OnErr result (actor.new.stopped ≡ true) }
{
    if actor.stopped {
        return Err(NoMemory);
    }
    let taken = take_reply(actor, program, memory, access, slot, ask, reply);
    actor.stopped = taken.is_err();
    taken
}

/// The same of an actor that has not stopped. A load and a store that took place have their arms here, since they are the
/// most: nothing is written but what they change.
#[inline(always)]
fn take_reply(
    actor: &mut Actor,
    program: &Program<'_>,
    memory: &mut PrivateView,
    access: Access,
    slot: Slot,
    ask: &SlotAsk,
    reply: SlotReply,
) -> Result<SlotReply, NoMemory>
    requires comes { IsReached actor.old.phase access }
    requires bounds { IsInBounds (AnEvent.Slot slot ask.now reply) }
    ensures takes { OnOk result (whole actor.new memory.new ≡ taking.takes_slot program.now
        (reached (whole actor.old memory.old) (Some access)) slot ask.now reply) }
    ensures same { IfOk result (λ r. r ≡ reply) }
    ensures name { OnOk result (actor.new.name ≡ actor.old.name) }
{
    match reply {
        SlotReply::Loaded { value } => {
            take_load(actor, program, value);
            Ok(SlotReply::Loaded { value })
        }
        SlotReply::Stored => {
            actor.hart.advance();
            Ok(SlotReply::Stored)
        }
        reply => {
            // Moved and copied here, so that what is passed on in memory is another.
            let wanted = access;
            let asked = *ask;
            want_access(actor, wanted);
            take_other(actor, program, memory, slot, &asked, &reply)?;
            Ok(reply)
        }
    }
}

/// What a slot's reply makes of it. Loads and stores have their arms here, since they are the most.
#[inline(always)]
fn take_slot(
    actor: &mut Actor,
    program: &Program<'_>,
    memory: &mut PrivateView,
    slot: Slot,
    ask: &SlotAsk,
    reply: &SlotReply,
) -> Result<(), NoMemory>
    requires { IsInBounds (AnEvent.Slot slot ask.now reply.now) }
    ensures takes { OnOk result (whole actor.new memory.new
        ≡ taking.takes_slot program.now (whole actor.old memory.old) slot ask.now reply.now) }
    ensures name { OnOk result (actor.new.name ≡ actor.old.name) }
{
    // What it wanted is looked at first, so that the compiler knows what it releases: nothing.
    match (reply, &actor.phase) {
        (SlotReply::Loaded { value }, Phase::Within(Want::Slot { .. })) => {
            actor.phase = Phase::Running;
            take_load(actor, program, *value);
            Ok(())
        }
        (SlotReply::Stored, Phase::Within(Want::Slot { .. })) => {
            actor.phase = Phase::Running;
            actor.hart.advance();
            Ok(())
        }
        _ => take_other(actor, program, memory, slot, ask, reply),
    }
}

/// What any reply of a slot makes of it.
#[inline(never)]
fn take_other(
    actor: &mut Actor,
    program: &Program<'_>,
    memory: &mut PrivateView,
    slot: Slot,
    ask: &SlotAsk,
    reply: &SlotReply,
) -> Result<(), NoMemory>
    requires { IsInBounds (AnEvent.Slot slot ask.now reply.now) }
    ensures takes { OnOk result (whole actor.new memory.new
        ≡ taking.takes_slot program.now (whole actor.old memory.old) slot ask.now reply.now) }
    ensures name { OnOk result (actor.new.name ≡ actor.old.name) }
{
    match reply {
        SlotReply::Loaded { value } => {
            actor.phase = Phase::Running;
            take_load(actor, program, *value);
        }
        SlotReply::Stored => {
            actor.phase = Phase::Running;
            actor.hart.advance();
        }
        SlotReply::Unmapped => actor.end(End::Unmapped),
        SlotReply::Denied { tag, wants } => take_denial(actor, *ask, *tag, *wants)?,
        SlotReply::Opened => take_opened(actor, memory, slot, *ask)?,
        SlotReply::Closed => actor.phase = Phase::Releasing { slot },
        SlotReply::Placed { offset } => actor.answer(address_of(slot, *offset), 0),
        SlotReply::Freed => actor.answer(0, 0),
        SlotReply::NoSuch => actor.refuse(Code::NoSuch),
        SlotReply::Full => actor.refuse(Code::Full),
        SlotReply::Bad => actor.refuse(Code::Bad),
        SlotReply::Snapped { pages } => {
            let pages = Pages::of_list(actor.alloc, pages)?;
            go_on_copying(actor, memory, slot, Some(pages))?;
        }
        SlotReply::Gone => go_on_copying(actor, memory, slot, None)?,
    }
    Ok(())
}

/// A denial by a slot: a load or a store ends its actor, and a call answers so.
fn take_denial(actor: &mut Actor, ask: SlotAsk, tag: TagNo, wants: Right) -> Result<(), NoMemory>
    ensures takes { OnOk result ((m : PrivateMemory)
        → whole actor.new m ≡ taking.denied_on (whole actor.old m) ask tag wants) }
    ensures name { OnOk result (actor.new.name ≡ actor.old.name) }
{
    actor.note(Denial::Tag { tag, wants })?;
    match ask {
        SlotAsk::Sfree { .. } => actor.refuse(Code::Denied),
        _ => actor.end(End::Denied),
    }
    Ok(())
}

/// A tag is opened in a slot: the actor has made it, has no private copy there, and is answered its number and its
/// address.
fn take_opened(
    actor: &mut Actor,
    memory: &mut PrivateView,
    slot: Slot,
    ask: SlotAsk,
) -> Result<(), NoMemory>
    requires { slot < slots }
    ensures takes { OnOk result (whole actor.new memory.new
        ≡ taking.has_opened (whole actor.old memory.old) slot ask) }
    ensures name { OnOk result (actor.new.name ≡ actor.old.name) }
{
    let SlotAsk::Open { tag, .. } = ask else {
        actor.phase = Phase::Running;
        return Ok(());
    };
    actor.made.put_tag(tag, slot)?;
    memory.drop_copy(slot);
    actor.phase = Phase::Running;
    actor.hart.answer(tag.0, 0, Some(address_of(slot, 0)));
    Ok(())
}

/// What the directory of slots makes of it: a tag is to be opened in a slot that is claimed, and the call that closed a
/// tag is answered once the slot is released.
#[inline(never)]
fn take_place(actor: &mut Actor, ask: DirectoryAsk, reply: DirectoryReply)
    requires bounds { IsInBounds (AnEvent.Slots ask reply) }
    requires suits { SuitsActor (whole actor.old no_memory) (AnEvent.Slots ask reply) }
    ensures takes { (m : PrivateMemory) → whole actor.new m
        ≡ taking.takes_place (whole actor.old m) ask reply }
    ensures name { actor.new.name ≡ actor.old.name }
{
    match (ask, reply) {
        (DirectoryAsk::Release { .. }, _) => actor.answer(0, 0),
        (DirectoryAsk::Claim, DirectoryReply::Claimed { place, number }) => {
            actor.phase = Phase::Opening {
                slot: Slot(place),
                tag: TagNo(number),
            };
        }
        (DirectoryAsk::Claim, DirectoryReply::Full) => actor.refuse(Code::Full),
        (DirectoryAsk::Claim, DirectoryReply::Released) => actor.phase = Phase::Running,
    }
}

/// The load at hand has its value.
#[inline(always)]
fn take_load(actor: &mut Actor, program: &Program<'_>, value: u32)
    requires { actor.old.phase ≡ phase.Running }
    ensures takes { (m : PrivateMemory) → whole actor.new m
        ≡ taking.loads_at (whole actor.old m)
        (option_and_then decode (fetch program.now actor.old.hart.pc)) value }
    ensures name { actor.new.name ≡ actor.old.name }
{
    let Some(Some(instr)) = program.fetch(actor.hart.pc) else {
        return;
    };
    if actor.hart.needs_load(*instr) {
        actor.hart.finish(*instr, Reply::Loaded(value));
    }
}

/// What the count of live sthreads makes of it: where a life is claimed it prepares a child, and at its end it drops
/// its private memory.
#[inline(never)]
fn take_lives(
    actor: &mut Actor,
    program: &Program<'_>,
    memory: &mut PrivateView,
    ask: LivesAsk,
    reply: LivesReply,
) -> Result<(), NoMemory>
    requires { SuitsActor (whole actor.old memory.old) (AnEvent.Lives ask reply) }
    ensures takes { OnOk result (whole actor.new memory.new
        ≡ taking.takes_lives program.now (whole actor.old memory.old) ask reply) }
    ensures name { OnOk result (actor.new.name ≡ actor.old.name) }
{
    match (ask, reply) {
        (LivesAsk::Release { end }, _) => {
            memory.clear();
            actor.phase = Phase::Ended(end);
        }
        (LivesAsk::Claim, LivesReply::Claimed) => begin_child(actor, program, memory)?,
        (LivesAsk::Claim, LivesReply::Full) => actor.refuse(Code::Full),
        (LivesAsk::Claim, LivesReply::Released) => actor.phase = Phase::Running,
    }
    Ok(())
}
