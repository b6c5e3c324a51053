//! One turn of a world.

ghost use Rattle.std.specs.Prelude.{◌≡◌, ◌++◌, ◌∷◌, [], ◌↔◌, ◌⊎◌, ℕ, slice_get, false, true, Some, None, IfOk, IfSome, IfNone, OnOk, OnErr, IsErrOf, option_map};
ghost use Rattle.machine.specs.Actors.{whole};
ghost use Rattle.actor_step.specs.Reached.{reached, IsReached};
ghost use Rattle.wedge_events.specs.declared.events.Want.{Want as AWant};
ghost use Rattle.machine.specs.Between.{WantFits};
ghost use Rattle.machine.specs.Cells.{Cells as SomeCells, cells_after};
ghost use Rattle.machine.specs.Children.{child_name};
ghost use Rattle.run_laws.specs.Laws.{IsLawful};
ghost use Rattle.run_laws.specs.FamilyTrees.{Family};
ghost use Rattle.machine.specs.Local.{rest, has_ended, is_running, run_awaited};
ghost use Rattle.run_laws.specs.Moments.{TurnHas};
ghost use Rattle.machine.specs.Take.{current_want, takes};
ghost use Rattle.machine.specs.Worlds.{actor_named, is_ended};
ghost use Rattle.run_laws.specs.Written.{TurnAppendsOwn, TurnWritesOwn};
ghost use Rattle.world_turns.specs.Progress.{IsTurn, HasEnded, IsIndexOf, IsWaiting, IsBusy, AreRecorded, rested, TookTurnOf};
ghost use Rattle.world_turns.specs.Progress.{Notes};
ghost use Rattle.world_turns.specs.Turning.{event_asked, IsOfCell, IsOfFamily, IsEventDone, IsLeft, HasGoneOn, StillWaits, IsAwakeAt, WantsOfFamily, MayCreate, IsGoingAlone, IsJoining, IsOfSlot, IsTaking, HasTaken, HasDone, IsDoneAt, FindsBusy, WasTaken, HasWaited, HasMetBusy};

use crate::error::NoTurn;
use crate::residents::{Residents, drop_all};
use crate::world::World;
use actor_step::Access;
use cow_pages::PrivateView;
use machine::Resident;
use ready_text::Program;
use sthread_life::{Actor, Next, resume, take, take_access, take_alone};
use wedge_base::{ActorName, GateId, NoMemory, Stamp};
use wedge_events::{Ask, Event, GateAsk, LogEntry, SlotWant, Want};
use world_cells::Cells;

/// A turn that was taken: its one shared event.
#[derive(Debug, Drop)]
pub struct Taken {
    pub event: Event,
}

/// What came of an actor's turn.
#[derive(Clone, Copy, Debug, PartialEq, Eq)]
pub enum Went {
    /// It was taken.
    Took,
    /// The actor has ended.
    Ended,
    /// The actor awaits a child or the run of a gate that has not ended.
    Waits,
    /// The actor is to enter a recycled gate in which a run is.
    Busy,
}

/// Takes a turn of the actor of a name: its local steps up to its next event, and that event.
/// After `Unknown` or `Ended` the world is unchanged. `Waits` comes exactly where the actor's next event is the
/// join of a child that has not ended, or where it waits for the run of a gate that has not; and `Busy` where its
/// next event is the entry of a recycled gate in which a run is. The actor is then at rest, and all else is
/// unchanged. After `NoMemory` the world has stopped.
pub fn turn(world: &mut World<'_>, name: &ActorName) -> Result<Taken, NoTurn>
    ensures took { IfOk result (λ t. IsTurn world.old.state name.now t.event world.new.state) }
    ensures noted { IfOk result (λ t. world.new.turns
        ≡ world.old.turns ++ record { actor = name.now; event = t.event } ∷ []) }
    ensures lawful { IfOk result (λ t. TurnHas IsLawful world.old.state
        (record { actor = name.now; event = t.event }) world.new.state) }
    ensures owned { IfOk result (λ t. TurnWritesOwn world.old.state
        (record { actor = name.now; event = t.event }) world.new.state) }
    ensures appended { IfOk result (λ t. TurnAppendsOwn world.old.state
        (record { actor = name.now; event = t.event }) world.new.state) }

    ensures unknown { IsErrOf result NoTurn.Unknown
        ↔ ((world.old.stopped ≡ false) × (actor_named world.old.state.actors name.now ≡ None)) }
    ensures ended { IsErrOf result NoTurn.Ended
        ↔ ((world.old.stopped ≡ false) × HasEnded world.old.state.actors name.now) }
    ensures unchanged { IsErrOf result NoTurn.Unknown ⊎ IsErrOf result NoTurn.Ended
        → world.new ≡ world.old }
    ensures waits { IsErrOf result NoTurn.Waits
        → (world.old.stopped ≡ false) × IsWaiting world.old.state name.now }
    ensures waiting { world.old.stopped ≡ false → IsWaiting world.old.state name.now
        → IsErrOf result NoTurn.Waits ⊎ IsErrOf result NoTurn.NoMemory }
    ensures busy { IsErrOf result NoTurn.Busy
        → (world.old.stopped ≡ false) × IsBusy world.old.state name.now }
    ensures being_busy { world.old.stopped ≡ false → IsBusy world.old.state name.now
        → IsErrOf result NoTurn.Busy ⊎ IsErrOf result NoTurn.NoMemory }
    ensures rests { IsErrOf result NoTurn.Waits ⊎ IsErrOf result NoTurn.Busy
        → world.new ≡ record world.old { state = rested world.old.state name.now } }

    // out of memory
    ensures stops { IsErrOf result NoTurn.NoMemory ↔ (world.new.stopped ≡ true) }
    ensures stays { world.old.stopped ≡ true → world.new.stopped ≡ true }
    ensures kept { OnErr result (world.new.turns ≡ world.old.turns) }
    ensures image { world.new.state.image ≡ world.old.state.image }
{
    if world.stopped {
        return Err(NoTurn::NoMemory);
    }
    let Some(index) = world.residents.index_of(name) else {
        return Err(NoTurn::Unknown);
    };
    match advance(world, name, index) {
        Err(NoMemory) => Err(NoTurn::NoMemory),
        Ok(Went::Ended) => Err(NoTurn::Ended),
        Ok(Went::Waits) => Err(NoTurn::Waits),
        Ok(Went::Busy) => Err(NoTurn::Busy),
        Ok(Went::Took) => match world.last_event() {
            Ok(event) => Ok(Taken { event }),
            Err(NoMemory) => {
                world.entries.pop();
                world.stopped = true;
                Err(NoTurn::NoMemory)
            }
        },
    }
}

/// Takes a turn, as `turn` does, of the actor at an index, and keeps its event. Returns what came of it.
pub fn advance(world: &mut World<'_>, name: &ActorName, index: usize) -> Result<Went, NoMemory>
    requires going { world.old.stopped ≡ false }
    requires there { IsIndexOf world.old.state.actors name.now index }
    ensures took { IfOk result (λ r. r ≡ Went.Took → TookTurnOf world.old name.now world.new) }
    ensures ended { IfOk result (λ r. r ≡ Went.Ended
        → HasEnded world.old.state.actors name.now × (world.new ≡ world.old)) }
    ensures waits { IfOk result (λ r. r ≡ Went.Waits → IsWaiting world.old.state name.now
        × (world.new ≡ record world.old { state = rested world.old.state name.now })) }
    ensures busy { IfOk result (λ r. r ≡ Went.Busy → IsBusy world.old.state name.now
        × (world.new ≡ record world.old { state = rested world.old.state name.now })) }
    ensures going { OnOk result (world.new.stopped ≡ false) }
    ensures stops { OnErr result (world.new.stopped ≡ true) }
    ensures lives { OnErr result (HasEnded world.old.state.actors name.now → ⊥) }
    ensures kept { OnErr result (world.new.turns ≡ world.old.turns) }
    ensures image { world.new.state.image ≡ world.old.state.image }
{
    match advance_over(
        &world.program,
        &mut world.cells,
        &mut world.residents,
        &mut world.entries,
        name,
        index,
    ) {
        Ok(went) => Ok(went),
        Err(NoMemory) => {
            world.stopped = true;
            Err(NoMemory)
        }
    }
}

/// A turn over the parts of a world, of the actor at an index.
fn advance_over(
    program: &Program<'_>,
    cells: &mut Cells,
    residents: &mut Residents,
    entries: &mut Vec<LogEntry>,
    name: &ActorName,
    index: usize,
) -> Result<Went, NoMemory>
    requires there { IsIndexOf residents.old name.now index }
    requires family { Family residents.old }
    requires recorded { AreRecorded cells.old residents.old }
    ensures took { IfOk result
        (λ r. r ≡ Went.Took → WasTaken program.now cells.old residents.old
        entries.old.items name.now cells.new residents.new entries.new.items) }
    ensures ended { IfOk result (λ r. r ≡ Went.Ended → HasEnded residents.old name.now
        × (cells.new ≡ cells.old) × (residents.new ≡ residents.old)) }
    ensures waits { IfOk result (λ r. r ≡ Went.Waits
        → HasWaited program.now cells.old residents.old name.now cells.new residents.new) }
    ensures busy { IfOk result (λ r. r ≡ Went.Busy
        → HasMetBusy program.now cells.old residents.old name.now cells.new residents.new) }
    ensures same { IfOk result
        (λ r. (r ≡ Went.Took → ⊥) → entries.new.items ≡ entries.old.items) }
    ensures lives { OnErr result (HasEnded residents.old name.now → ⊥) }
    ensures kept { OnErr result (entries.new.items ≡ entries.old.items) }
{
    if residents.has_ended(index) {
        return Ok(Went::Ended);
    }
    if !go_on(residents, name, index)? {
        return Ok(Went::Waits);
    }
    advance_awake(program, cells, residents, entries, name, index)
}

/// The actor at an index goes on if it waits for the run of a gate that has ended. Returns false where it waits still.
#[inline(always)]
pub fn go_on(residents: &mut Residents, name: &ActorName, index: usize) -> Result<bool, NoMemory>
    requires there { IsIndexOf residents.old name.now index }
    requires family { Family residents.old }
    ensures goes { IfOk result (λ r. r ≡ true
        → HasGoneOn residents.old index name.now residents.new) }
    ensures waits { IfOk result (λ r. r ≡ false
        → StillWaits residents.old index name.now residents.new) }
    ensures err { OnErr result (residents.new ≡ residents.old) }
{
    match residents.run_awaited(index) {
        None => Ok(true),
        Some(run) => go_on_after(residents, name, index, run),
    }
}

/// The same of an actor that waits for this run. Out of line, since few do.
#[inline(never)]
fn go_on_after(
    residents: &mut Residents,
    name: &ActorName,
    index: usize,
    run: u32,
) -> Result<bool, NoMemory>
    requires there { IsIndexOf residents.old name.now index }
    requires family { Family residents.old }
    requires waits { IfSome (slice_get residents.old index) (λ a. Some run ≡ run_awaited a.phase) }
    ensures goes { IfOk result (λ r. r ≡ true
        → HasGoneOn residents.old index name.now residents.new) }
    ensures waits { IfOk result (λ r. r ≡ false
        → StillWaits residents.old index name.now residents.new) }
    ensures err { OnErr result (residents.new ≡ residents.old) }
{
    let Some((end, fuel)) = residents.ended_with(name, run)? else {
        return Ok(false);
    };
    let resident = &mut residents.list[index];
    resume(&mut resident.actor, run, end, fuel);
    Ok(true)
}

/// A turn of the actor at an index, which has not ended and waits for no run.
fn advance_awake(
    program: &Program<'_>,
    cells: &mut Cells,
    residents: &mut Residents,
    entries: &mut Vec<LogEntry>,
    name: &ActorName,
    index: usize,
) -> Result<Went, NoMemory>
    requires { IsAwakeAt cells.old residents.old index name.now }
    ensures took { IfOk result
        (λ r. r ≡ Went.Took → WasTaken program.now cells.old residents.old
        entries.old.items name.now cells.new residents.new entries.new.items) }
    ensures ended { IfOk result (λ r. r ≡ Went.Ended → ⊥) }
    ensures waits { IfOk result (λ r. r ≡ Went.Waits
        → HasWaited program.now cells.old residents.old name.now cells.new residents.new) }
    ensures busy { IfOk result (λ r. r ≡ Went.Busy
        → HasMetBusy program.now cells.old residents.old name.now cells.new residents.new) }
    ensures same { IfOk result
        (λ r. (r ≡ Went.Took → ⊥) → entries.new.items ≡ entries.old.items) }
    ensures kept { OnErr result (entries.new.items ≡ entries.old.items) }
{
    let resident = &mut residents.list[index];
    match advance_one(program, cells, resident, entries, name) {
        Err(NoMemory) => {
            drop_all(&mut residents.list, &mut residents.by_name);
            Err(NoMemory)
        }
        Ok(None) => Ok(Went::Took),
        Ok(Some(want)) => do_family(program, cells, residents, entries, name, index, want),
    }
}

/// The turn of an actor that has not ended and waits for no run, up to what other actors have part in. Loads and stores of
/// slots, which are the most, are made while the actor runs: nothing is written of what it wants.
fn advance_one(
    program: &Program<'_>,
    cells: &mut Cells,
    resident: &mut Resident,
    entries: &mut Vec<LogEntry>,
    name: &ActorName,
) -> Result<Option<Want>, NoMemory>
    requires lives { has_ended resident.old.phase ≡ false }
    requires awake { run_awaited resident.old.phase ≡ None }
    ensures made { IfOk result (λ o. IfNone o ((q : AWant)
        × (current_want (rest program.now resident.old) ≡ Some q) × IsOfCell q
        × IsEventDone program.now cells.old (rest program.now resident.old) q entries.old.items name.now
        cells.new resident.new entries.new.items)) }
    ensures left { IfOk result
        (λ o. IfSome o (λ q. IsLeft program.now resident.old q resident.new)) }
    ensures same { IfOk result (λ o. IfSome o (λ q.
        (cells.new ≡ cells.old) × (entries.new.items ≡ entries.old.items))) }
    ensures kept { OnErr result (entries.new.items ≡ entries.old.items) }
{
    match bring_to_rest(program, resident)? {
        Some(access) => {
            make_access(program, cells, resident, entries, name, access)?;
            Ok(None)
        }
        None => advance_next(program, cells, resident, entries, name),
    }
}

/// The place of the instructions of turns that are not logged.
struct InTurn;

/// An actor makes its local events, up to its next shared event. Returns the access of a slot to which it comes, if that is
/// it. Out of line, so that the loop over instructions has the registers of the processor to itself.
#[inline(never)]
fn bring_to_rest(program: &Program<'_>, resident: &mut Resident) -> Result<Option<Access>, NoMemory>
    ensures rests { IfOk result (λ o. reached resident.new o ≡ rest program.now resident.old) }
    ensures still { IfOk result (λ o. IfNone o (is_running resident.new.phase ≡ false)) }
    ensures comes { IfOk result (λ o. IfSome o (IsReached resident.new.phase)) }
{
    sthread_life::rest::<InTurn>(&mut resident.actor, program, &mut resident.memory)
}

/// The load or the store to which an actor has come, with its kind known: so the compiler leaves out of the most frequent
/// events what only others need.
#[inline(always)]
fn make_access(
    program: &Program<'_>,
    cells: &mut Cells,
    resident: &mut Resident,
    entries: &mut Vec<LogEntry>,
    name: &ActorName,
    access: Access,
) -> Result<(), NoMemory>
    requires { IsReached resident.old.phase access }
    ensures made { OnOk result (IsEventDone program.now cells.old
        (reached resident.old (Some access)) (AWant.Slot access.slot access.want)
        entries.old.items name.now cells.new resident.new entries.new.items) }
    ensures kept { OnErr result (entries.new.items ≡ entries.old.items) }
{
    let slot = access.slot;
    match access.want {
        SlotWant::Load { offset, width } => {
            let want = SlotWant::Load { offset, width };
            let access = Access { slot, want };
            let want = SlotWant::Load { offset, width };
            let want = Want::Slot { slot, want };
            do_access(program, cells, resident, entries, name, access, want)
        }
        SlotWant::Store {
            offset,
            width,
            value,
        } => {
            let want = SlotWant::Store {
                offset,
                width,
                value,
            };
            let access = Access { slot, want };
            let want = SlotWant::Store {
                offset,
                width,
                value,
            };
            let want = Want::Slot { slot, want };
            do_access(program, cells, resident, entries, name, access, want)
        }
        _ => unreachable!(),
    }
}

/// An access, done and noted.
#[inline(always)]
fn do_access(
    program: &Program<'_>,
    cells: &mut Cells,
    resident: &mut Resident,
    entries: &mut Vec<LogEntry>,
    name: &ActorName,
    access: Access,
    want: Want,
) -> Result<(), NoMemory>
    requires comes { IsReached resident.old.phase access }
    requires wants { want ≡ AWant.Slot access.slot access.want }
    ensures made { OnOk result (IsEventDone program.now cells.old
        (reached resident.old (Some access)) want
        entries.old.items name.now cells.new resident.new entries.new.items) }
    ensures kept { OnErr result (entries.new.items ≡ entries.old.items) }
{
    let event = event_of_access(program, cells, resident, access, want)?;
    note(entries, name, event)
}

/// The event of an access.
#[inline(always)]
fn event_of_access(
    program: &Program<'_>,
    cells: &mut Cells,
    resident: &mut Resident,
    access: Access,
    want: Want,
) -> Result<Event, NoMemory>
    requires comes { IsReached resident.old.phase access }
    requires wants { want ≡ AWant.Slot access.slot access.want }
    ensures is { IfOk result (λ e. event_asked cells.old (reached resident.old (Some access))
        want ≡ Some e) }
    ensures cells { IfOk result (λ e. cells.new ≡ cells_after cells.old e) }
    ensures takes { IfOk result (λ e. resident.new
        ≡ takes program.now (reached resident.old (Some access)) e) }
    ensures name { OnOk result (resident.new.name ≡ resident.old.name) }
{
    let tag = cells.live(&want);
    let event = cells.act(resident.actor.ask(want, tag))?;
    let event = take_slot(program, resident, access, event)?;
    Ok(event)
}

/// An actor that has come to an access takes the event of a slot. Consumes the event, and returns it.
#[inline(always)]
#[tactic(auto, unfolding(machine::specs::Take::takes))]
fn take_slot(
    program: &Program<'_>,
    resident: &mut Resident,
    access: Access,
    event: Event,
) -> Result<Event, NoMemory>
    requires comes { IsReached resident.old.phase access }
    requires of_slot { IsOfSlot event }
    ensures takes { OnOk result (resident.new
        ≡ takes program.now (reached resident.old (Some access)) event) }
    ensures same { IfOk result (λ e. e ≡ event) }
    ensures name { OnOk result (resident.new.name ≡ resident.old.name) }
{
    match event {
        Event::Slot { slot, ask, reply } => {
            let reply = take_access(
                &mut resident.actor,
                program,
                &mut resident.memory,
                access,
                slot,
                &ask,
                reply,
            )?;
            Ok(Event::Slot { slot, ask, reply })
        }
        _ => unreachable!(),
    }
}

/// The turn of an actor at rest, up to what other actors have part in. Out of line, so that it is in no load's or store's way.
#[inline(never)]
fn advance_next(
    program: &Program<'_>,
    cells: &mut Cells,
    resident: &mut Resident,
    entries: &mut Vec<LogEntry>,
    name: &ActorName,
) -> Result<Option<Want>, NoMemory>
    requires still { is_running resident.old.phase ≡ false }
    requires lives { has_ended resident.old.phase ≡ false }
    requires awake { run_awaited resident.old.phase ≡ None }
    ensures made { IfOk result (λ o. IfNone o ((q : AWant)
        × (current_want resident.old ≡ Some q) × IsOfCell q
        × IsEventDone program.now cells.old resident.old q entries.old.items name.now
        cells.new resident.new entries.new.items)) }
    ensures left { IfOk result (λ o. IfSome o (λ q. (current_want resident.old ≡ Some q)
        × WantFits resident.old q × IsOfFamily q × (resident.new ≡ resident.old))) }
    ensures same { IfOk result (λ o. IfSome o (λ q.
        (cells.new ≡ cells.old) × (entries.new.items ≡ entries.old.items))) }
    ensures kept { OnErr result (entries.new.items ≡ entries.old.items) }
{
    if resident.actor.stopped {
        return Err(NoMemory);
    }
    match sthread_life::next(&mut resident.actor, &resident.memory)? {
        Next::Ended(_) => unreachable!(),
        Next::Waiting { .. } => unreachable!(),
        Next::Shared(want) => do_want(program, cells, resident, entries, name, want),
    }
}

/// The event that an actor at rest wants, done and noted, unless other actors have part in it.
#[inline(always)]
fn do_want(
    program: &Program<'_>,
    cells: &mut Cells,
    resident: &mut Resident,
    entries: &mut Vec<LogEntry>,
    name: &ActorName,
    want: Want,
) -> Result<Option<Want>, NoMemory>
    requires { WantFits resident.old want }
    ensures made { IfOk result (λ o. IfNone o (IsOfCell want
        × IsEventDone program.now cells.old resident.old
        want entries.old.items name.now cells.new resident.new entries.new.items)) }
    ensures left { IfOk result (λ o. IfSome o (λ q. (q ≡ want) × IsOfFamily q
        × (resident.new ≡ resident.old))) }
    ensures same { IfOk result (λ o. IfSome o (λ q.
        (cells.new ≡ cells.old) × (entries.new.items ≡ entries.old.items))) }
    ensures kept { OnErr result (entries.new.items ≡ entries.old.items) }
{
    match want {
        Want::Start { child } => Ok(Some(Want::Start { child })),
        Want::Join { child } => Ok(Some(Want::Join { child })),
        Want::Enter { run } => Ok(Some(Want::Enter { run })),
        Want::Leave { end } => Ok(Some(Want::Leave { end })),
        Want::Gate { gate, ask } => Ok(Some(Want::Gate { gate, ask })),
        _ => {
            do_and_note(program, cells, resident, entries, name, want)?;
            Ok(None)
        }
    }
}

/// Performs an event that involves another actor: start, join, gate entry or exit.
#[inline(never)]
fn do_family(
    program: &Program<'_>,
    cells: &mut Cells,
    residents: &mut Residents,
    entries: &mut Vec<LogEntry>,
    name: &ActorName,
    index: usize,
    want: Want,
) -> Result<Went, NoMemory>
    requires { WantsOfFamily program.now cells.old residents.old index name.now want }
    ensures took { IfOk result (λ r. r ≡ Went.Took
        → IsDoneAt program.now cells.old residents.old index want
        entries.old.items name.now cells.new residents.new entries.new.items) }
    ensures waits { IfOk result
        (λ r. r ≡ Went.Waits → (child : ℕ) × (want ≡ AWant.Join child)
        × (is_ended (actor_named residents.old (child_name name.now child)) ≡ false)) }
    ensures busy { IfOk result (λ r. r ≡ Went.Busy → FindsBusy cells.old want) }
    ensures same { IfOk result (λ r. (r ≡ Went.Took → ⊥) → (cells.new ≡ cells.old)
        × (residents.new ≡ residents.old) × (entries.new.items ≡ entries.old.items)) }
    ensures lives { IfOk result (λ r. r ≡ Went.Ended → ⊥) }
    ensures kept { OnErr result (entries.new.items ≡ entries.old.items) }
{
    match want {
        Want::Start { child } => {
            begin(
                program,
                residents,
                entries,
                name,
                index,
                Event::Start { child },
            )?;
            Ok(Went::Took)
        }
        Want::Enter { run } => {
            begin(
                program,
                residents,
                entries,
                name,
                index,
                Event::Enter { run },
            )?;
            Ok(Went::Took)
        }
        Want::Leave { end } => {
            go_alone(
                program,
                residents,
                entries,
                name,
                index,
                Event::Leave { end },
            )?;
            Ok(Went::Took)
        }
        Want::Join { child } => join(program, residents, entries, name, index, child),
        Want::Gate { gate, ask } => {
            do_gate(program, cells, residents, entries, name, index, gate, ask)
        }
        _ => unreachable!(),
    }
}

/// What the actor at an index wants of a recycled gate: to enter it, unless a run is in it, or to leave it.
fn do_gate(
    program: &Program<'_>,
    cells: &mut Cells,
    residents: &mut Residents,
    entries: &mut Vec<LogEntry>,
    name: &ActorName,
    index: usize,
    gate: GateId,
    ask: GateAsk,
) -> Result<Went, NoMemory>
    requires { WantsOfFamily program.now cells.old residents.old index name.now
        (AWant.Gate gate ask) }
    ensures took { IfOk result (λ r. r ≡ Went.Took
        → IsDoneAt program.now cells.old residents.old index
        (AWant.Gate gate ask) entries.old.items name.now cells.new residents.new
        entries.new.items) }
    ensures busy { IfOk result
        (λ r. r ≡ Went.Busy → FindsBusy cells.old (AWant.Gate gate ask)) }
    ensures same { IfOk result (λ r. (r ≡ Went.Took → ⊥) → (cells.new ≡ cells.old)
        × (residents.new ≡ residents.old) × (entries.new.items ≡ entries.old.items)) }
    ensures lives { IfOk result (λ r. r ≡ Went.Ended ⊎ r ≡ Went.Waits → ⊥) }
    ensures kept { OnErr result (entries.new.items ≡ entries.old.items) }
{
    match ask {
        GateAsk::Enter { run, memory } => {
            if cells.is_entered(&gate) {
                return Ok(Went::Busy);
            }
            let ask = GateAsk::Enter { run, memory };
            let event = cells.act(Ask::Gate { gate, ask })?;
            begin(program, residents, entries, name, index, event)?;
            Ok(Went::Took)
        }
        GateAsk::Leave { end, memory } => {
            let ask = GateAsk::Leave { end, memory };
            let event = cells.act(Ask::Gate { gate, ask })?;
            go_alone(program, residents, entries, name, index, event)?;
            Ok(Went::Took)
        }
    }
}

/// The actor at an index takes an event by which another begins: it starts a child, or enters a gate.
fn begin(
    program: &Program<'_>,
    residents: &mut Residents,
    entries: &mut Vec<LogEntry>,
    name: &ActorName,
    index: usize,
    event: Event,
) -> Result<(), NoMemory>
    requires { MayCreate program.now residents.old index event }
    ensures done { OnOk result (HasDone program.now residents.old index event entries.old.items
        name.now residents.new entries.new.items) }
    ensures kept { OnErr result (entries.new.items ≡ entries.old.items) }
{
    let Some((actor, memory)) = take_at(program, residents, index, &event)? else {
        unreachable!()
    };
    residents.push(Resident { actor, memory })?;
    note(entries, name, event)
}

/// The actor at an index takes an event by which no other begins.
fn go_alone(
    program: &Program<'_>,
    residents: &mut Residents,
    entries: &mut Vec<LogEntry>,
    name: &ActorName,
    index: usize,
    event: Event,
) -> Result<(), NoMemory>
    requires { IsGoingAlone program.now residents.old index event }
    ensures done { OnOk result (HasDone program.now residents.old index event entries.old.items
        name.now residents.new entries.new.items) }
    ensures kept { OnErr result (entries.new.items ≡ entries.old.items) }
{
    take_at(program, residents, index, &event)?;
    note(entries, name, event)
}

/// The actor at an index takes an event. Returns the actor that the event begins with its private memory, if it
/// begins one.
fn take_at(
    program: &Program<'_>,
    residents: &mut Residents,
    index: usize,
    event: &Event,
) -> Result<Option<(Actor, PrivateView)>, NoMemory>
    requires { IsTaking residents.old index event.now }
    ensures { IfOk result (λ o. HasTaken program.now residents.old index event.now
        (option_map (λ p. whole p.0 p.1) o) residents.new) }
{
    let resident = &mut residents.list[index];
    match take(&mut resident.actor, program, &mut resident.memory, event) {
        Ok(begun) => Ok(begun),
        Err(NoMemory) => {
            drop_all(&mut residents.list, &mut residents.by_name);
            Err(NoMemory)
        }
    }
}

/// The actor at an index joins one of its children, if that has ended.
fn join(
    program: &Program<'_>,
    residents: &mut Residents,
    entries: &mut Vec<LogEntry>,
    name: &ActorName,
    index: usize,
    child: u32,
) -> Result<Went, NoMemory>
    requires { IsJoining residents.old index name.now child }
    ensures took { IfOk result (λ r. r ≡ Went.Took → (c : SomeCells)
        → IsDoneAt program.now c residents.old index
        (AWant.Join child) entries.old.items name.now c residents.new entries.new.items) }
    ensures waits { IfOk result (λ r. r ≡ Went.Waits
        → is_ended (actor_named residents.old (child_name name.now child)) ≡ false) }
    ensures same { IfOk result
        (λ r. (r ≡ Went.Took → ⊥) → (residents.new ≡ residents.old)
        × (entries.new.items ≡ entries.old.items)) }
    ensures lives { IfOk result (λ r. r ≡ Went.Ended ⊎ r ≡ Went.Busy → ⊥) }
    ensures kept { OnErr result (entries.new.items ≡ entries.old.items) }
{
    let Some((end, fuel)) = residents.ended_with(name, child)? else {
        return Ok(Went::Waits);
    };
    let event = Event::Join { child, end, fuel };
    go_alone(program, residents, entries, name, index, event)?;
    Ok(Went::Took)
}

/// The event that an actor at rest wants, done and noted.
#[inline(always)]
fn do_and_note(
    program: &Program<'_>,
    cells: &mut Cells,
    resident: &mut Resident,
    entries: &mut Vec<LogEntry>,
    name: &ActorName,
    want: Want,
) -> Result<(), NoMemory>
    requires fits { WantFits resident.old want }
    requires of_cell { IsOfCell want }
    ensures made { OnOk result
        (IsEventDone program.now cells.old resident.old want entries.old.items name.now
        cells.new resident.new entries.new.items) }
    ensures kept { OnErr result (entries.new.items ≡ entries.old.items) }
{
    let event = do_event(program, cells, resident, want)?;
    note(entries, name, event)
}

/// The event that an actor at rest wants.
#[inline(always)]
fn do_event(
    program: &Program<'_>,
    cells: &mut Cells,
    resident: &mut Resident,
    want: Want,
) -> Result<Event, NoMemory>
    requires fits { WantFits resident.old want }
    requires of_cell { IsOfCell want }
    ensures is { IfOk result (λ e. event_asked cells.old resident.old want ≡ Some e) }
    ensures cells { IfOk result (λ e. cells.new ≡ cells_after cells.old e) }
    ensures takes { IfOk result (λ e. resident.new ≡ takes program.now resident.old e) }
    ensures name { OnOk result (resident.new.name ≡ resident.old.name) }
{
    let live = cells.live(&want);
    let event = cells.act(resident.actor.ask(want, live))?;
    take_alone(&mut resident.actor, program, &mut resident.memory, &event)?;
    Ok(event)
}

/// Adds the entry of a turn to the journal.
#[inline(always)]
fn note(entries: &mut Vec<LogEntry>, name: &ActorName, event: Event) -> Result<(), NoMemory>
    ensures ok { OnOk result (Notes entries.old.items name.now event entries.new.items) }
    ensures err { OnErr result (entries.new.items ≡ entries.old.items) }
{
    entries.reserve(1)?;
    let entry = LogEntry {
        stamp: Stamp(entries.len() as u64 + 1),
        actor: name.copy()?,
        event,
    };
    entries.push_reserved(entry);
    Ok(())
}
