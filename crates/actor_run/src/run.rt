//! An actor with its log.

ghost use Rattle.std.specs.Prelude.{◌≡◌, ◌+◌, ◌<◌, ◌≤◌, ◌^◌, ◌⊎◌, ◌++◌, ◌∷◌, [], vec_len, vec_capacity, IfOk, OnOk, OnErr, IfSome, IsSomeAnd, Some, None, is_some, true, false, map, option_map};
ghost use Rattle.machine.specs.Actors.{right_of};
ghost use Rattle.machine.specs.Between.{TakesFit};
ghost use Rattle.machine.specs.Children.{fuel_given};
ghost use Rattle.machine.specs.Local.{end_reached, has_ended, is_running, rest, run_awaited};
ghost use Rattle.machine.specs.Resting.{want_in, end_in, run_in, NextFits};
ghost use Rattle.machine.specs.Take.{asks, pair, current_want, actor_begun, takes};
ghost use Rattle.machine.specs.Actors.{whole};
ghost use Rattle.actor_step.specs.Reached.{reached, IsSlotAccess, IsReached};
ghost use Rattle.wedge_events.specs.declared.events.Want.{Want as AWant};
ghost use Rattle.std.specs.Arc.{arc_value};
ghost use Rattle.machine.specs.declared.phase.Phase.TheVariants as phase;
ghost use Rattle.run_laws.specs.Walks.{IsEntryOf};
ghost use Rattle.thread_laws.specs.Joining.{IsEndOf};
ghost use Rattle.thread_laws.specs.KeptEntries.{entries_elsewhere};
ghost use Rattle.thread_laws.specs.ActorProgresses.{at_creation, after_rest, after_entry, after_run};
ghost use Rattle.actor_run.specs.Runs.{going, AffordsGate};

use crate::kept_log::KeptLog;
use crate::looking::note_entry;
use actor_step::{Access, want_access};
use callgate::Gate;
use cow_pages::PrivateView;
use grant_cache::GrantCache;
use journal_cell::{GhostList, RunOf};
use machine::{Actor, EndedActor, Next, Resident};
use ready_text::Program;
use std::alloc::Global;
use std::marker::{Model, PhantomData};
use std::snapshot::Snapshot;
use std::sync::Arc;
use thread_laws::{ActorEnd, ActorLog, is_on_declared};
use wedge_base::{ActorName, Items, NoMemory, Right, Stamp, TagNo};
use wedge_events::{Ask, Event, Live, LogEntry, Want};

/// An actor with its private memory, its cache of rights, and the log of what it did since it was created. It takes part in a run
/// of the image for which `I` stands. Where it ran out of memory it has stopped, and does nothing more.
///
/// Contracts see its progress: how it began, its entries, its state now, and its clock. Each call is one step
/// of that progress. The clock is the stamp of the actor's last entry, or of the end of the run of a gate from
/// which it went on; before these, it is the stamp of the event that created the actor.
pub struct ActorRun<I: RunOf> {
    pub(crate) actor: Actor,
    pub(crate) memory: PrivateView,
    /// For proofs alone: its entries, all of them.
    pub(crate) entries: GhostList<LogEntry>,
    /// Those of its entries that its log keeps: all but those on so many slots, the first ones.
    pub(crate) kept: Vec<LogEntry>,
    pub(crate) unkept: usize,
    /// How many entries it has in all.
    pub(crate) count: u64,
    pub(crate) clock: Stamp,
    pub(crate) cache: GrantCache,
    /// For proofs alone: how it began, and the clock then.
    pub(crate) began: Snapshot<Resident>,
    pub(crate) low: Stamp,
    /// The load or the store of a slot to which it has come: it wants that, and the actor itself still runs.
    pub(crate) access: Option<Access>,
    run: PhantomData<I>,
}

// By hand: a derived drop would be proved again in each function that drops one.
impl<I: RunOf> Drop for ActorRun<I> {
    fn drop(self) {
        let Self {
            actor: _,
            memory: _,
            entries: _,
            kept: _,
            unkept: _,
            count: _,
            clock: _,
            cache: _,
            began: _,
            low: _,
            access: _,
            run: _,
        } = self;
    }
}

impl<I: RunOf> Model for ActorRun<I> {
    ghost use Rattle.std.specs.Prelude.{◌≡◌, IfSome};
    ghost use Rattle.machine.specs.Actors.{whole};
    ghost use Rattle.actor_step.specs.Reached.{reached, IsReached};
    ghost use Rattle.actor_run.specs.Runs.{RunState, KeepsCache, KeepsEntries};

    ghost Value = { RunState };

    ghost view = { λ r. record {
      progress = record {
        began = r.began.value;
        low = r.low;
        entries = r.entries;
        state = reached (whole r.actor r.memory) r.access;
        clock = r.clock;
      };
      stopped = r.actor.stopped;
    } };

    ghost invariant = { λ r. record {
      cache : KeepsCache r.actor r.entries r.cache;
      comes : IfSome r.access (IsReached r.actor.phase);
      entries : KeepsEntries I.unkept r.entries r.kept.items r.count;
      unkept : r.unkept ≡ I.unkept;
    } };
}

/// The place of the instructions of actors on threads.
struct OnThread;

impl<I: RunOf> ActorRun<I> {
    /// Returns an actor as it is created, with the stamp of the event that creates it. Its cache is empty. Its log keeps no
    /// entries on the first `unkept` slots.
    pub fn new(
        alloc: Global,
        resident: Resident,
        clock: Stamp,
        unkept: usize,
    ) -> Result<ActorRun<I>, NoMemory>
        requires { unkept ≡ I.unkept }
        ensures { IfOk result (λ r. r.progress ≡ at_creation resident clock) }
    {
        let cache = GrantCache::of_actor(alloc)?;
        let began = Snapshot::of(&resident);
        let Resident { actor, memory } = resident;
        Ok(ActorRun {
            actor,
            memory,
            entries: GhostList::new(),
            kept: Vec::new(alloc),
            unkept,
            count: 0,
            clock,
            cache,
            began,
            low: clock,
            access: None,
            run: PhantomData,
        })
    }

    /// Makes the actor's local events up to its next shared event. An actor that runs out of memory has stopped.
    #[inline(always)]
    pub fn rest(&mut self, program: &Program<'_>) -> Result<(), NoMemory>
        requires { program.now ≡ I.image }
        ensures rests { OnOk result (self.new ≡ going (after_rest I.image self.old.progress)) }
        ensures still { OnOk result (is_running self.new.progress.state.phase ≡ false) }
        ensures going { OnOk result (self.old.stopped ≡ false) }
        ensures stops { OnErr result (self.new.stopped ≡ true) }
    {
        let access = self.access;
        self.access = None;
        self.access = rest_from(&mut self.actor, program, &mut self.memory, access)?;
        Ok(())
    }

    /// Returns what an actor at rest wants, its end, or the run of a gate for which it waits. An actor that runs out of
    /// memory has stopped.
    #[inline(always)]
    pub fn next(&mut self) -> Result<Next, NoMemory>
        requires still { is_running self.old.progress.state.phase ≡ false }
        requires going { self.old.stopped ≡ false }
        ensures same { OnOk result (self.new ≡ self.old) }
        ensures stops { OnErr result (self.new.stopped ≡ true) }
        ensures next { IfOk result (λ n. want_in n ≡ current_want self.old.progress.state) }
        ensures ended { IfOk result (λ n. end_in n ≡ end_reached self.old.progress.state.phase) }
        ensures waits { IfOk result (λ n. run_in n ≡ run_awaited self.old.progress.state.phase) }
        ensures fits { IfOk result (NextFits self.old.progress.state) }
    {
        if let Some(access) = self.access {
            self.access = None;
            want_access(&mut self.actor, access);
        }
        sthread_life::next(&mut self.actor, &self.memory)
    }

    /// Returns the load or the store of a slot that it wants, if it has come to one.
    #[inline(always)]
    pub fn access(&self) -> Option<Access>
        ensures { IfSome result (λ x. (self.now.progress.state.phase
            ≡ phase.Within (AWant.Slot x.slot x.want)) × IsSlotAccess x.slot x.want) }
    {
        self.access
    }

    /// Makes the actor's part of an event, and adds the event's entry to the log. Returns the actor that the event
    /// creates, if it creates one.
    ///
    /// Where there is no memory for the entry, all is as before; an actor that runs out of memory later has
    /// stopped.
    #[inline(always)]
    pub fn take(
        &mut self,
        program: &Program<'_>,
        entry: LogEntry,
    ) -> Result<Option<Resident>, NoMemory>
        requires image { program.now ≡ I.image }
        requires own { IsEntryOf self.old.progress.state self.old.progress.clock entry }
        requires fits { TakesFit self.old.progress.state entry.event }
        ensures entered { OnOk result (self.new
            ≡ going (after_entry I.image self.old.progress entry)) }
        ensures going { OnOk result (self.old.stopped ≡ false) }
        ensures begun { IfOk result (λ c.
            c ≡ actor_begun I.image self.old.progress.state entry.event) }
        ensures err { OnErr result ((self.new ≡ self.old) ⊎ (self.new.stopped ≡ true)) }
    {
        self.kept.reserve(1)?;
        let count = count_after(self.count)?;
        let access = self.access;
        self.access = None;
        let begun = take_any(
            &mut self.actor,
            program,
            &mut self.memory,
            access,
            &entry.event,
        )?;
        note_entry(&mut self.cache, &self.actor, &entry);
        self.clock = entry.stamp;
        self.count = count;
        add_entry(&mut self.entries, &mut self.kept, self.unkept, entry);
        match begun {
            None => Ok(None),
            Some((actor, memory)) => Ok(Some(Resident { actor, memory })),
        }
    }

    /// Makes the actor's part of an event that creates no actor, and adds the event's entry to the log. Fails as `take`
    /// does.
    #[inline(always)]
    pub fn take_alone(&mut self, program: &Program<'_>, entry: LogEntry) -> Result<(), NoMemory>
        requires image { program.now ≡ I.image }
        requires own { IsEntryOf self.old.progress.state self.old.progress.clock entry }
        requires fits { TakesFit self.old.progress.state entry.event }
        requires alone { actor_begun I.image self.old.progress.state entry.event ≡ None }
        ensures entered { OnOk result (self.new
            ≡ going (after_entry I.image self.old.progress entry)) }
        ensures going { OnOk result (self.old.stopped ≡ false) }
        ensures err { OnErr result ((self.new ≡ self.old) ⊎ (self.new.stopped ≡ true)) }
    {
        self.kept.reserve(1)?;
        let count = count_after(self.count)?;
        let access = self.access;
        self.access = None;
        let entry = take_one(&mut self.actor, program, &mut self.memory, access, entry)?;
        note_entry(&mut self.cache, &self.actor, &entry);
        let stamp = entry.stamp;
        add_entry(&mut self.entries, &mut self.kept, self.unkept, entry);
        self.count = count;
        self.clock = stamp;
        Ok(())
    }

    /// Makes the actor's part of an event that creates another, and adds the event's entry to the log. Returns the
    /// other. Fails as `take` does.
    pub fn take_creating(
        &mut self,
        program: &Program<'_>,
        entry: LogEntry,
    ) -> Result<Resident, NoMemory>
        requires image { program.now ≡ I.image }
        requires own { IsEntryOf self.old.progress.state self.old.progress.clock entry }
        requires fits { TakesFit self.old.progress.state entry.event }
        requires creates { is_some (actor_begun I.image self.old.progress.state entry.event) ≡ true }
        ensures entered { OnOk result (self.new
            ≡ going (after_entry I.image self.old.progress entry)) }
        ensures going { OnOk result (self.old.stopped ≡ false) }
        ensures begun { IfOk result (λ c.
            actor_begun I.image self.old.progress.state entry.event ≡ Some c) }
        ensures err { OnErr result ((self.new ≡ self.old) ⊎ (self.new.stopped ≡ true)) }
    {
        match self.take(program, entry)? {
            Some(resident) => Ok(resident),
            None => unreachable!(),
        }
    }

    /// Goes on from the run of a gate for which the actor waits, its start of this number, which ended so. It takes
    /// no memory.
    pub fn resume(&mut self, number: u32, end: ActorEnd)
        requires waits { self.old.progress.state.phase ≡ phase.Waiting number }
        requires back { IsSomeAnd (fuel_given self.old.progress.state.unjoined number)
            (λ given. end.fuel ≤ given) }
        ensures { self.new ≡ record self.old { progress = after_run self.old.progress number end } }
    {
        match self.access {
            Some(_) => unreachable!(),
            None => sthread_life::resume(&mut self.actor, number, end.how, end.fuel),
        }
        self.clock = end.last;
    }

    /// Returns what the actor asks for what it wants, where this tag lives in the slot.
    #[inline(always)]
    pub fn ask_of(&self, want: Want, live: Option<TagNo>) -> Ask
        ensures { result ≡ asks self.now.progress.state live want }
    {
        want.with(self.pair(live))
    }

    /// Returns the tag that lives in a slot, with the actor's right on it.
    #[inline(always)]
    pub fn pair(&self, live: Option<TagNo>) -> Option<Live>
        ensures { result ≡ pair self.now.progress.state live }
    {
        let tag = live?;
        let right = self.right_on(tag);
        Some(Live { tag, right })
    }

    /// Returns the actor's right on a tag. The cache of one that has stopped is not asked.
    #[inline(always)]
    fn right_on(&self, tag: TagNo) -> Option<Right>
        ensures { result ≡ right_of self.now.progress.state tag }
    {
        if self.actor.stopped {
            return grant_sheet::right_on(&self.actor.sheet, &self.actor.made, tag);
        }
        self.cache.peek(&self.actor.sheet, &self.actor.made, tag)
    }

    /// Returns a reference to its name.
    #[inline(always)]
    pub fn name(&self) -> &ActorName
        ensures { result.now ≡ self.now.progress.state.name }
    {
        self.actor.name()
    }

    /// Returns on how many slots, the first ones, its log keeps no entries.
    pub fn unkept(&self) -> usize
        ensures { result ≡ I.unkept }
    {
        self.unkept
    }

    /// Returns its clock.
    #[inline(always)]
    pub fn clock(&self) -> Stamp
        ensures { result ≡ self.now.progress.clock }
    {
        self.clock
    }

    /// Returns the number, among its starts, of the run for which it waits.
    pub fn run_awaited(&self) -> Option<u32>
        ensures { result ≡ run_awaited self.now.progress.state.phase }
    {
        self.actor.run_awaited()
    }

    /// Returns the gates that it knows, in the order in which it came to know them: those that its starter knew,
    /// and then its own.
    pub fn gates(&self) -> &[Arc<Gate>]
        ensures { map arc_value result.now ≡ self.now.progress.state.gates }
    {
        self.actor.gates()
    }

    /// For proofs alone: an actor that is about to enter a gate has the fuel with which a run of the gate begins.
    pub fn affords_gate(&self)
        ensures { AffordsGate self.now.progress.state.phase self.now.progress.state.fuel }
    {
        affords_gate(&self.actor);
    }
}

/// An actor's local events up to its next shared event, where it may have come to this access already. Returns the access
/// to which it has come, if it has.
#[inline(always)]
fn rest_from(
    actor: &mut Actor,
    program: &Program<'_>,
    memory: &mut PrivateView,
    access: Option<Access>,
) -> Result<Option<Access>, NoMemory>
    requires comes { IfSome access (IsReached actor.old.phase) }
    ensures rests { IfOk result (λ o. reached (whole actor.new memory.new) o
        ≡ rest program.now (reached (whole actor.old memory.old) access)) }
    ensures still { IfOk result (λ o.
        is_running (reached (whole actor.new memory.new) o).phase ≡ false) }
    ensures comes { IfOk result (λ o. IfSome o (IsReached actor.new.phase)) }
    ensures going { OnOk result ((actor.old.stopped ≡ false) × (actor.new.stopped ≡ false)) }
    ensures stops { OnErr result (actor.new.stopped ≡ true) }
{
    if access.is_some() {
        if actor.stopped {
            return Err(NoMemory);
        }
        return Ok(access);
    }
    sthread_life::rest::<OnThread>(actor, program, memory)
}

/// An actor's part of any event, where it may have come to this access.
fn take_any(
    actor: &mut Actor,
    program: &Program<'_>,
    memory: &mut PrivateView,
    access: Option<Access>,
    event: &Event,
) -> Result<Option<(Actor, PrivateView)>, NoMemory>
    requires comes { IfSome access (IsReached actor.old.phase) }
    requires fits { TakesFit (reached (whole actor.old memory.old) access) event.now }
    ensures takes { OnOk result (whole actor.new memory.new
        ≡ takes program.now (reached (whole actor.old memory.old) access) event.now) }
    ensures begun { IfOk result (λ c. option_map (λ p. whole p.0 p.1) c
        ≡ actor_begun program.now (reached (whole actor.old memory.old) access) event.now) }
    ensures going { OnOk result ((actor.old.stopped ≡ false) × (actor.new.stopped ≡ false)) }
    ensures stops { OnErr result (actor.new.stopped ≡ true) }
{
    if let Some(access) = access {
        want_access(actor, access);
    }
    sthread_life::take(actor, program, memory, event)
}

/// An actor's part of the event of an entry that creates no actor, where it may have come to this access. Consumes the entry,
/// and returns it.
#[inline(always)]
fn take_one(
    actor: &mut Actor,
    program: &Program<'_>,
    memory: &mut PrivateView,
    access: Option<Access>,
    entry: LogEntry,
) -> Result<LogEntry, NoMemory>
    requires comes { IfSome access (IsReached actor.old.phase) }
    requires fits { TakesFit (reached (whole actor.old memory.old) access) entry.event }
    requires alone { actor_begun program.now (reached (whole actor.old memory.old) access)
        entry.event ≡ None }
    ensures takes { OnOk result (whole actor.new memory.new
        ≡ takes program.now (reached (whole actor.old memory.old) access) entry.event) }
    ensures same { IfOk result (λ e. e ≡ entry) }
    ensures going { OnOk result ((actor.old.stopped ≡ false) × (actor.new.stopped ≡ false)) }
    ensures stops { OnErr result (actor.new.stopped ≡ true) }
{
    let (stamp, name, event) = entry.into_parts();
    let event = take_event(actor, program, memory, access, event)?;
    Ok(LogEntry {
        stamp,
        actor: name,
        event,
    })
}

/// The same of an event. What is passed on by reference is moved before, so that a load or a store is put in no memory.
#[inline(always)]
#[tactic(auto, unfolding(machine::specs::Take::takes))]
fn take_event(
    actor: &mut Actor,
    program: &Program<'_>,
    memory: &mut PrivateView,
    access: Option<Access>,
    event: Event,
) -> Result<Event, NoMemory>
    requires comes { IfSome access (IsReached actor.old.phase) }
    requires fits { TakesFit (reached (whole actor.old memory.old) access) event }
    requires alone { actor_begun program.now (reached (whole actor.old memory.old) access)
        event ≡ None }
    ensures takes { OnOk result (whole actor.new memory.new
        ≡ takes program.now (reached (whole actor.old memory.old) access) event) }
    ensures same { IfOk result (λ e. e ≡ event) }
    ensures going { OnOk result ((actor.old.stopped ≡ false) × (actor.new.stopped ≡ false)) }
    ensures stops { OnErr result (actor.new.stopped ≡ true) }
{
    let Some(access) = access else {
        let other = event;
        take_other(actor, program, memory, None, &other)?;
        return Ok(other);
    };
    match event {
        Event::Slot { slot, ask, reply } => {
            let reply = sthread_life::take_access(
                actor, program, memory, access, slot, &ask, reply,
            )?;
            Ok(Event::Slot { slot, ask, reply })
        }
        other => {
            take_other(actor, program, memory, Some(access), &other)?;
            Ok(other)
        }
    }
}

/// The same of an event that is no load or store of an actor that came to one. Out of line, since these are rare.
#[inline(never)]
fn take_other(
    actor: &mut Actor,
    program: &Program<'_>,
    memory: &mut PrivateView,
    access: Option<Access>,
    event: &Event,
) -> Result<(), NoMemory>
    requires comes { IfSome access (IsReached actor.old.phase) }
    requires fits { TakesFit (reached (whole actor.old memory.old) access) event.now }
    requires alone { actor_begun program.now (reached (whole actor.old memory.old) access)
        event.now ≡ None }
    ensures takes { OnOk result (whole actor.new memory.new
        ≡ takes program.now (reached (whole actor.old memory.old) access) event.now) }
    ensures going { OnOk result ((actor.old.stopped ≡ false) × (actor.new.stopped ≡ false)) }
    ensures stops { OnErr result (actor.new.stopped ≡ true) }
{
    if let Some(access) = access {
        want_access(actor, access);
    }
    sthread_life::take_alone(actor, program, memory, event)
}

/// Returns the count of one entry more. Fails where there are as many as can be counted.
#[inline(always)]
fn count_after(count: u64) -> Result<u64, NoMemory>
    ensures { IfOk result (λ n. (n ≡ count + 1) × (n < 2 ^ 64)) }
{
    count.checked_add(1).ok_or(NoMemory)
}

/// Adds an entry to those of an actor, and to those that its log keeps if it is on none of the first `unkept` slots. There
/// is room for it.
#[inline(always)]
fn add_entry(
    entries: &mut GhostList<LogEntry>,
    kept: &mut Vec<LogEntry>,
    unkept: usize,
    entry: LogEntry,
)
    requires { vec_len kept.old + 1 ≤ vec_capacity kept.old }
    ensures entries { entries.new ≡ entries.old ++ entry ∷ [] }
    ensures kept { kept.new.items ≡ kept.old.items ++ entries_elsewhere unkept (entry ∷ []) }
{
    entries.push(&entry);
    if !is_on_declared(unkept, &entry.event) {
        kept.push_reserved(entry);
    }
}

/// For proofs alone: the same of an actor.
fn affords_gate(actor: &Actor)
    ensures { AffordsGate actor.now.phase actor.now.fuel }
{
    // The phase is read here, so that what the actor's type keeps is at hand.
    let _ = matches!(actor.phase, machine::Phase::Entering(_));
}

impl<I: RunOf> ActorRun<I> {
    /// Consumes an actor that has ended, and returns its log, and what another learns of its end. It takes no
    /// memory.
    #[tactic(auto, using(crate::proofs::Phases::ended_so))]
    pub fn finish(self) -> (KeptLog<I>, ActorEnd)
        requires { has_ended self.progress.state.phase ≡ true }
        ensures entries { result.0.entries ≡ self.progress.entries }
        ensures log { IsEndOf self.progress.state result.0 }
        ensures end { result.1 ≡ record {
          how = result.0.end;
          fuel = result.0.fuel;
          last = self.progress.clock;
        } }
    {
        let ActorRun {
            actor,
            memory: _memory,
            entries,
            kept,
            unkept: _unkept,
            count,
            clock: last_stamp,
            cache,
            began: _began,
            low: _low,
            access: _access,
            run: _run,
        } = self;
        let EndedActor {
            name,
            compartment,
            end,
            pc,
            fuel,
            denials,
            labels,
        } = actor.into_ended();
        let learned = ActorEnd {
            how: end,
            fuel,
            last: last_stamp,
        };
        let log = ActorLog {
            name,
            compartment,
            end,
            pc,
            fuel,
            denials,
            labels,
            entries,
            kept: Items::new(kept),
            count,
            cache: cache.count(),
        };
        (KeptLog::new(log), learned)
    }
}
