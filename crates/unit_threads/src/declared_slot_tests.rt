//! Tests of ruled_cell: the slot of a declared tag, which passes store to and load from.

ghost use Rattle.std.specs.Prelude.{◌≡◌, ◌<◌, [], IfOk, Some, option_map};
ghost use Rattle.ruled_cell.specs.Passes.{first_view};
ghost use Rattle.ruled_cell.specs.declared.passes.PassOrigin.TheVariants.{First};
ghost use Rattle.wedge_events.specs.declared.events.CellName.TheVariants.{Slot as SlotName};

use crate::journal_cell_tests::{SlotEntry, entry_of, is_same};
use journal_cell::{GhostJournaled, Pass, RunOf};
use ruled_cell::{AskMaker, RuledCells, RuledPass};
use std::alloc::Global;
use std::process::Abort;
use std::sync::Wait;
use std::test::Fail;
use tag_segment::SlotState;
use wedge_base::{ActorName, NoMemory, Right, Slot, Stamp, TagNo};
use wedge_events::{CellName, Live, SlotAsk, SlotReply};

/// A run of an image that declares a tag of one page, all bytes zero.
struct OneTag;

impl RunOf for OneTag {
    ghost use Rattle.std.specs.Prelude.{[], ◌∷◌, None};
    ghost use Rattle.wedge_base.specs.Images.{Image};

    ghost image = { record {
      fuel = 0;
      base = 0;
      words = [];
      procedures = [];
      entry = 0;
      ranges = [];
      tags = record { name = []; pages = 1; right = None; content = [] } ∷ [];
      fds = [];
      files = [];
      user = 0;
      root = [];
    } };

    ghost unkept = { 0 };
}

/// The slot of the tag, under its lock.
type OneSlot = RuledCells<SlotState, OneTag>;

/// What a thread has seen of it.
type OnePass = RuledPass<SlotState, OneTag>;

/// Stores a word at offset 0, with this right on the tag that lives there.
#[derive(Drop)]
struct StoreWord {
    right: Right,
    value: u32,
}

impl AskMaker<SlotState> for StoreWord {
    ghost use Rattle.std.specs.Prelude.{Some, option_map};
    ghost use Rattle.wedge_events.specs.Slots.{SlotFits};
    ghost use Rattle.wedge_events.specs.declared.cells.SlotAsk.TheVariants as ask;

    ghost makes = { λ m s. ask.Store 4 0 m.value
        (option_map (λ g. record { tag = g.tag; right = Some m.right }) s) };

    ghost finds = { λ m s. SlotFits s (ask.Store 4 0 m.value
        (option_map (λ g. record { tag = g.tag; right = Some m.right }) s)) };

    #[tactic(auto, using(crate::proofs::Pairs::pair_with))]
    fn ask(&self, state: &SlotState) -> SlotAsk {
        SlotAsk::Store {
            offset: 0,
            width: 4,
            value: self.value,
            live: live_in(state, self.right),
        }
    }
}

/// Loads the word at offset 0, with this right on the tag that lives there.
#[derive(Drop)]
struct LoadWord {
    right: Right,
}

impl AskMaker<SlotState> for LoadWord {
    ghost use Rattle.std.specs.Prelude.{Some, option_map};
    ghost use Rattle.wedge_events.specs.Slots.{SlotFits};
    ghost use Rattle.wedge_events.specs.declared.cells.SlotAsk.TheVariants as ask;

    ghost makes = { λ m s. ask.Load 4 0
        (option_map (λ g. record { tag = g.tag; right = Some m.right }) s) };

    ghost finds = { λ m s. SlotFits s (ask.Load 4 0
        (option_map (λ g. record { tag = g.tag; right = Some m.right }) s)) };

    #[tactic(auto, using(crate::proofs::Pairs::pair_with))]
    fn ask(&self, state: &SlotState) -> SlotAsk {
        SlotAsk::Load {
            offset: 0,
            width: 4,
            live: live_in(state, self.right),
        }
    }
}

/// Returns the tag that lives in a slot, with this right on it.
fn live_in(state: &SlotState, right: Right) -> Option<Live>
    ensures { result ≡ option_map (λ g. record { tag = g.tag; right = Some right }) state.now }
{
    let tag = state.live()?;
    Some(Live {
        tag,
        right: Some(right),
    })
}

/// Returns the slot of the tag as a run begins.
fn declared_slot(alloc: Global) -> Result<GhostJournaled<SlotState, OneTag>, NoMemory>
    ensures { IfOk result (λ c. (c.history ≡ []) × (c.name ≡ SlotName 0)) }
{
    let state = SlotState::declared(alloc, TagNo(0), &[], 1)?;
    Ok(GhostJournaled::new(CellName::Slot { slot: Slot(0) }, state))
}

/// Returns that slot, and the first pass.
fn one_slot(alloc: Global) -> Result<(OneSlot, OnePass), NoMemory>
    ensures table { IfOk result (λ t. (t.1.table ≡ t.0) × (t.0.slots ≡ 1)) }
    ensures first { IfOk result (λ t. t.1.view ≡ first_view) }
{
    let mut slots = Vec::new(alloc);
    slots.push(declared_slot(alloc)?)?;
    RuledCells::new(alloc, slots)
}

/// Returns the tag, with a right on it.
fn tag_with(right: Right) -> Option<Live> {
    Some(Live {
        tag: TagNo(0),
        right: Some(right),
    })
}

/// Returns the entry of the root that stores 5, with the stamp 1.
fn store_entry(root: &ActorName) -> Result<SlotEntry, NoMemory> {
    let ask = SlotAsk::Store {
        offset: 0,
        width: 4,
        value: 5,
        live: tag_with(Right::ReadWrite),
    };
    entry_of(root, 1, ask, SlotReply::Stored)
}

/// Returns the entry of a child that loads 5, with the stamp 2.
fn load_entry(child: &ActorName) -> Result<SlotEntry, NoMemory> {
    let ask = SlotAsk::Load {
        offset: 0,
        width: 4,
        live: tag_with(Right::Read),
    };
    entry_of(child, 2, ask, SlotReply::Loaded { value: 5 })
}

/// Returns the two entries.
fn wanted_entries(alloc: Global) -> Result<[SlotEntry; 2], Fail> {
    let root = ActorName::root(alloc)?;
    let child = root.child(alloc, 1)?;
    let store = store_entry(&root)?;
    let load = load_entry(&child)?;
    Ok([store, load])
}

/// Stores 5 by the actor of the wanted entry. The entry has to be that one.
fn stores<R: Wait + Abort>(
    rt: &R,
    cells: &OneSlot,
    pass: &mut OnePass,
    wanted: &SlotEntry,
) -> Result<(), NoMemory>
    requires { (pass.old.table ≡ cells.now) × (0 < cells.now.slots) }
    ensures { IfOk result (λ _. (pass.new.table ≡ pass.old.table)
        × (pass.new.view.origin ≡ pass.old.view.origin)
        × (pass.new.view.number ≡ pass.old.view.number)
        × (pass.new.view.unjoined ≡ pass.old.view.unjoined)) }
{
    let store = StoreWord {
        right: Right::ReadWrite,
        value: 5,
    };
    let mut actor = Pass {
        name: &wanted.actor,
        clock: Stamp(0),
    };
    let entry = cells.enter(rt, pass, 0, &mut actor, &store)?;
    assert!(rt; is_same(&entry, wanted));
    Ok(())
}

/// Loads by the actor of the wanted entry. The entry has to be that one.
fn loads<R: Wait + Abort>(
    rt: &R,
    cells: &OneSlot,
    pass: &mut OnePass,
    wanted: &SlotEntry,
) -> Result<(), NoMemory>
    requires { (pass.old.table ≡ cells.now) × (0 < cells.now.slots) }
    ensures { IfOk result (λ _. (pass.new.table ≡ pass.old.table)
        × (pass.new.view.origin ≡ pass.old.view.origin)
        × (pass.new.view.number ≡ pass.old.view.number)
        × (pass.new.view.unjoined ≡ pass.old.view.unjoined)) }
{
    let load = LoadWord { right: Right::Read };
    let mut actor = Pass {
        name: &wanted.actor,
        clock: Stamp(0),
    };
    let entry = cells.enter(rt, pass, 0, &mut actor, &load)?;
    assert!(rt; is_same(&entry, wanted));
    Ok(())
}

/// Stores by the first pass, loads by one that is split from it, and joins the two.
fn stores_and_loads<R: Wait + Abort>(
    rt: &R,
    cells: &OneSlot,
    pass: &mut OnePass,
    wanted: &[SlotEntry; 2],
) -> Result<(), NoMemory>
    requires table { (pass.old.table ≡ cells.now) × (cells.now.slots ≡ 1) }
    requires first { pass.old.view ≡ first_view }
    ensures { IfOk result (λ _. (pass.new.table ≡ cells.now) × (pass.new.view.origin ≡ First)
        × (pass.new.view.unjoined ≡ 0)) }
{
    let mut other = cells.split(pass)?;
    stores(rt, cells, pass, &wanted[0])?;
    loads(rt, cells, &mut other, &wanted[1])?;
    cells.join(pass, other);
    Ok(())
}

/// Closes the slot, which has to be the only one, and to have the tag.
fn closes_one<R: Abort>(rt: &R, cells: OneSlot, pass: OnePass)
    requires table { pass.table ≡ cells }
    requires all_joined { (pass.view.origin ≡ First) × (pass.view.unjoined ≡ 0) }
{
    let mut closed = cells.close(pass).into_iter();
    let slot = closed.next().expect(rt, "slot 0");
    assert!(rt; slot.state().live() == Some(TagNo(0)));
    assert!(rt; closed.next().is_none());
}

/// One pass stores, and one that is split from it loads what was stored, with the stamps 1 and 2.
#[test]
fn passes_store_and_load(rt: HostRuntime) -> Result<(), Fail> {
    let alloc = rt.alloc();
    let wanted = wanted_entries(alloc)?;
    let (cells, mut pass) = one_slot(alloc)?;
    stores_and_loads(&rt, &cells, &mut pass, &wanted)?;
    closes_one(&rt, cells, pass);
    Ok(())
}
