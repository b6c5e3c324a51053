//! Tests of ruled_cell: the cells of two slots.

ghost use Rattle.std.specs.Prelude.{◌≡◌, ◌<◌, [], IfOk};
ghost use Rattle.wedge_events.specs.declared.events.CellName.TheVariants.{Slot as SlotName};
ghost use Rattle.ruled_cell.specs.Passes.{first_view};
ghost use Rattle.ruled_cell.specs.declared.passes.PassOrigin.TheVariants.{First};

use crate::journal_cell_tests::{Bare, SlotEntry, entry_of, is_same};
use journal_cell::{GhostJournaled, Pass};
use ruled_cell::{AskMaker, RuledCells, RuledPass};
use std::alloc::Global;
use std::process::Abort;
use std::sync::Wait;
use std::test::Fail;
use std::thread::{self, Threads};
use tag_segment::SlotState;
use wedge_base::{ActorName, NoMemory, Slot, Stamp, TagNo};
use wedge_events::{CellName, SlotAsk, SlotReply};

/// A slot, whose history only proofs see.
type SlotCell = GhostJournaled<SlotState, Bare>;

/// Slots under locks.
type SlotCells = RuledCells<SlotState, Bare>;

/// What a thread has seen of them.
type SlotPass = RuledPass<SlotState, Bare>;

/// Asks to close a tag, whatever the state is.
#[derive(Drop)]
struct CloseTag {
    tag: TagNo,
}

impl AskMaker<SlotState> for CloseTag {
    ghost use Rattle.wedge_events.specs.declared.cells.SlotAsk.TheVariants as ask;

    ghost makes = { λ m _. ask.Close m.tag };

    ghost finds = { λ _ _. Unit {0} };

    fn ask(&self, _state: &SlotState) -> SlotAsk {
        SlotAsk::Close { tag: self.tag }
    }
}

/// Returns a slot as a run begins.
fn new_slot(alloc: Global, slot: u32) -> SlotCell
    ensures { (result.history ≡ []) × (result.name ≡ SlotName slot) }
{
    let name = CellName::Slot { slot: Slot(slot) };
    GhostJournaled::new(name, SlotState::empty(alloc))
}

/// Returns the first two slots, and the first pass.
fn two_slots(alloc: Global) -> Result<(SlotCells, SlotPass), NoMemory>
    ensures table { IfOk result (λ t. (t.1.table ≡ t.0) × (t.0.slots ≡ 2)) }
    ensures first { IfOk result (λ t. t.1.view ≡ first_view) }
{
    let mut cells = Vec::new(alloc);
    cells.push(new_slot(alloc, 0))?;
    cells.push(new_slot(alloc, 1))?;
    RuledCells::new(alloc, cells)
}

/// Enters a slot by an actor with this clock, which asks to close a tag.
fn enters<R: Wait>(
    rt: &R,
    cells: &SlotCells,
    pass: &mut SlotPass,
    slot: usize,
    actor: &ActorName,
    clock: u64,
    tag: u32,
) -> Result<SlotEntry, NoMemory>
    requires { (pass.old.table ≡ cells.now) × (slot < cells.now.slots) }
    ensures { IfOk result (λ _. (pass.new.table ≡ pass.old.table)
        × (pass.new.view.origin ≡ pass.old.view.origin)
        × (pass.new.view.number ≡ pass.old.view.number)
        × (pass.new.view.unjoined ≡ pass.old.view.unjoined)) }
{
    let mut actor = Pass {
        name: actor,
        clock: Stamp(clock),
    };
    let maker = CloseTag { tag: TagNo(tag) };
    cells.enter(rt, pass, slot, &mut actor, &maker)
}

/// Enters a slot as `enters` does, by the actor of the wanted entry. The entry has to be that one.
fn enters_as<R: Wait + Abort>(
    rt: &R,
    cells: &SlotCells,
    pass: &mut SlotPass,
    slot: usize,
    clock: u64,
    tag: u32,
    wanted: &SlotEntry,
) -> Result<(), NoMemory>
    requires { (pass.old.table ≡ cells.now) × (slot < cells.now.slots) }
    ensures { IfOk result (λ _. (pass.new.table ≡ pass.old.table)
        × (pass.new.view.origin ≡ pass.old.view.origin)
        × (pass.new.view.number ≡ pass.old.view.number)
        × (pass.new.view.unjoined ≡ pass.old.view.unjoined)) }
{
    let entry = enters(rt, cells, pass, slot, &wanted.actor, clock, tag)?;
    assert!(rt; is_same(&entry, wanted));
    Ok(())
}

/// Enters slot 0 so many times, each time with the clock 0, and returns the pass and the stamps.
fn enters_often<R: Wait>(
    rt: &R,
    alloc: Global,
    cells: &SlotCells,
    pass: SlotPass,
    actor: &ActorName,
    tag: u32,
    times: u32,
) -> Result<(SlotPass, Vec<u64>), NoMemory>
    requires { (pass.table ≡ cells.now) × (0 < cells.now.slots) }
    ensures { IfOk result (λ p. (p.0.table ≡ pass.table) × (p.0.view.origin ≡ pass.view.origin)
        × (p.0.view.number ≡ pass.view.number) × (p.0.view.unjoined ≡ pass.view.unjoined)) }
{
    let mut pass = pass;
    let mut stamps = Vec::new(alloc);
    for _ in 0..times {
        let entry = enters(rt, cells, &mut pass, 0, actor, 0, tag)?;
        stamps.push(entry.stamp.0)?;
    }
    Ok((pass, stamps))
}

/// Returns the entry in which an actor asks to close a tag that does not live in the slot.
fn close_entry(actor: &ActorName, stamp: u64, tag: u32) -> Result<SlotEntry, NoMemory> {
    entry_of(
        actor,
        stamp,
        SlotAsk::Close { tag: TagNo(tag) },
        SlotReply::NoSuch,
    )
}

/// Returns the entries of two actors: two of slot 0, and then one of slot 1.
fn turn_entries(alloc: Global) -> Result<[SlotEntry; 3], Fail> {
    let root = ActorName::root(alloc)?;
    let child = root.child(alloc, 1)?;
    let first = close_entry(&root, 1, 7)?;
    let second = close_entry(&child, 2, 8)?;
    let third = close_entry(&child, 3, 9)?;
    Ok([first, second, third])
}

/// Enters slot 0 by the first pass, then by one that is split from it, and by that one slot 1, and joins
/// the two. Each entry has to be the wanted one.
fn takes_turns<R: Wait + Abort>(
    rt: &R,
    cells: &SlotCells,
    pass: &mut SlotPass,
    wanted: &[SlotEntry; 3],
) -> Result<(), NoMemory>
    requires table { (pass.old.table ≡ cells.now) × (cells.now.slots ≡ 2) }
    requires first { pass.old.view ≡ first_view }
    ensures { IfOk result (λ _. (pass.new.table ≡ cells.now) × (pass.new.view.origin ≡ First)
        × (pass.new.view.unjoined ≡ 0)) }
{
    enters_as(rt, cells, pass, 0, 0, 7, &wanted[0])?;
    let mut other = cells.split(pass)?;
    assert!(rt; pass.unjoined() == 1);
    enters_as(rt, cells, &mut other, 0, 0, 8, &wanted[1])?;
    enters_as(rt, cells, &mut other, 1, 2, 9, &wanted[2])?;
    cells.join(pass, other);
    assert!(rt; pass.unjoined() == 0);
    Ok(())
}

/// Closes the slots, which have to be two.
fn closes_two<R: Abort>(rt: &R, cells: SlotCells, pass: SlotPass)
    requires table { pass.table ≡ cells }
    requires all_joined { (pass.view.origin ≡ First) × (pass.view.unjoined ≡ 0) }
{
    let closed = cells.close(pass);
    assert!(rt; closed.len() == 2);
}

/// Two passes enter two slots in turn: each entry has the stamp above the greater of the clocks of slot and actor.
#[test]
fn passes_take_turns(rt: HostRuntime) -> Result<(), Fail> {
    let alloc = rt.alloc();
    let wanted = turn_entries(alloc)?;
    let (cells, mut pass) = two_slots(alloc)?;
    assert!(rt; cells.count() == 2);
    takes_turns(&rt, &cells, &mut pass, &wanted)?;
    closes_two(&rt, cells, pass);
    Ok(())
}

/// Returns the entry in which the root asks to close tag 8, with the stamp 1.
fn close_entry_of_root(alloc: Global) -> Result<SlotEntry, NoMemory> {
    let root = ActorName::root(alloc)?;
    close_entry(&root, 1, 8)
}

/// Fails to enter slot 0 by a pass that is split from the first, at the highest clock, and then enters it
/// by the first. The entry has to be the wanted one.
fn passes_turn_on<R: Wait + Abort>(
    rt: &R,
    cells: &SlotCells,
    pass: &mut SlotPass,
    wanted: &SlotEntry,
) -> Result<(), NoMemory>
    requires { (pass.old.table ≡ cells.now) × (cells.now.slots ≡ 2) }
{
    let mut other = cells.split(pass)?;
    let refused = enters(rt, cells, &mut other, 0, &wanted.actor, u64::MAX, 7);
    assert!(rt; refused.is_err());
    enters_as(rt, cells, pass, 0, 0, 8, wanted)
}

/// At the highest clock nothing is entered: the turn is passed on, and the next entry comes.
#[test]
fn turn_is_passed_on_without_an_entry(rt: HostRuntime) -> Result<(), Fail> {
    let alloc = rt.alloc();
    let wanted = close_entry_of_root(alloc)?;
    let (cells, mut pass) = two_slots(alloc)?;
    passes_turn_on(&rt, &cells, &mut pass, &wanted)?;
    Ok(())
}

/// How often each of two threads enters.
const TIMES: u32 = 50_000;

/// Enters slot 0 by two threads at the same time, each with a pass of its own, and returns the first pass,
/// which the other is joined to, and the stamps of both.
fn enters_by_two<R: Threads + Wait + Sync>(
    rt: &R,
    alloc: Global,
    cells: &SlotCells,
    pass: SlotPass,
    actors: &[ActorName; 2],
) -> Result<(SlotPass, Vec<u64>), NoMemory>
    requires table { (pass.table ≡ cells.now) × (cells.now.slots ≡ 2) }
    requires first { pass.view ≡ first_view }
    ensures { IfOk result (λ p. (p.0.table ≡ cells.now) × (p.0.view.origin ≡ First)
        × (p.0.view.unjoined ≡ 0)) }
{
    let mut pass = pass;
    let other = cells.split(&mut pass)?;
    let [root, child] = actors;
    let (second, first) = thread::join(
        rt,
        || enters_often(rt, alloc, cells, other, child, 7, TIMES),
        || enters_often(rt, alloc, cells, pass, root, 8, TIMES),
    );
    let (mut pass, mut stamps) = first?;
    let (other, mut others) = second?;
    cells.join(&mut pass, other);
    stamps.append(&mut others)?;
    Ok((pass, stamps))
}

/// Returns the names of the root and of its first child.
fn two_actors(alloc: Global) -> Result<[ActorName; 2], Fail> {
    let root = ActorName::root(alloc)?;
    let child = root.child(alloc, 1)?;
    Ok([root, child])
}

/// Two threads enter a slot at the same time: each entry comes once, with a stamp of its own.
#[test]
fn threads_take_turns(rt: HostRuntime) -> Result<(), Fail> {
    let alloc = rt.alloc();
    let actors = two_actors(alloc)?;
    let (cells, pass) = two_slots(alloc)?;
    let (pass, mut stamps) = enters_by_two(&rt, alloc, &cells, pass, &actors)?;
    closes_two(&rt, cells, pass);
    stamps.sort()?;
    assert!(&rt; stamps.into_iter().eq(1..=2 * TIMES as u64));
    Ok(())
}
