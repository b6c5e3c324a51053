//! Tests of recycled_gate.

ghost use Rattle.std.specs.Prelude.{IsTrue};
ghost use Rattle.wedge_events.specs.Gates.{GateFits};

use cow_pages::PrivateView;
use recycled_gate::Kept;
use std::alloc::Global;
use std::process::Abort;
use std::test::Fail;
use wedge_base::{ActorName, End, NoMemory, PRIVATE_BASE};
use wedge_events::{GateAsk, GateReply, Object, SavedView};

/// Private memory that begins with a number.
fn memory_of(alloc: Global, number: u32) -> Result<SavedView, NoMemory> {
    let mut view = PrivateView::new(alloc, &[])?;
    view.store(PRIVATE_BASE, 4, number)?;
    SavedView::of(alloc, &view)
}

/// Whether private memory begins with a number.
fn begins(memory: &SavedView, number: u32) -> bool {
    memory.view().load(PRIVATE_BASE, 4) == Some(number)
}

/// Enters a gate that must be free, and finds memory there.
fn enters(
    rt: &impl Abort,
    alloc: Global,
    gate: &mut Kept,
    opening: u32,
    wanted: u32,
) -> Result<(), NoMemory> {
    let free = !gate.entered();
    assert!(rt; free);
    if free {
        let memory = gate.enter(memory_of(alloc, opening)?);
        assert!(rt; begins(&memory, wanted), "{wanted}");
    }
    assert!(rt; gate.entered());
    assert!(rt; gate.kept().is_none());
    Ok(())
}

/// Leaves a gate in which a run must be.
fn leaves(rt: &impl Abort, alloc: Global, gate: &mut Kept, left: u32) -> Result<(), NoMemory> {
    let entered = gate.entered();
    assert!(rt; entered);
    if entered {
        gate.leave(memory_of(alloc, left)?);
    }
    assert!(rt; !gate.entered());
    Ok(())
}

/// The first run begins with its own memory, each later one with what the one before left.
#[test]
fn runs_begin_with_what_was_left(rt: HostRuntime) -> Result<(), Fail> {
    let alloc = rt.alloc();
    let mut gate = Kept::new(alloc);
    for (opening, begun, left) in [(1, 1, 5), (2, 5, 6), (3, 6, 6), (4, 6, 0)] {
        enters(&rt, alloc, &mut gate, opening, begun)?;
        leaves(&rt, alloc, &mut gate, left)?;
    }
    Ok(())
}

/// Whether a reply begins a run with memory that begins with a number.
fn begins_with(reply: &GateReply, number: u32) -> bool {
    matches!(reply, GateReply::Entered { memory } if begins(memory, number))
}

/// A copy of the ask to enter a gate, with memory that begins with a number.
fn enter_ask(alloc: Global, opening: u32) -> Result<GateAsk, NoMemory> {
    let run = ActorName::root(alloc)?;
    let memory = memory_of(alloc, opening)?;
    let ask = GateAsk::Enter { run, memory };
    Kept::copy_ask(&ask)
}

/// A copy of the ask to leave a gate, with memory that begins with a number.
fn leave_ask(alloc: Global, left: u32) -> Result<GateAsk, NoMemory> {
    let memory = memory_of(alloc, left)?;
    let end = End::Denied;
    let ask = GateAsk::Leave { end, memory };
    Kept::copy_ask(&ask)
}

/// Whether a gate may be asked so: to be entered where it is free, to be left where it is not.
fn may_be_asked(gate: &Kept, ask: &GateAsk) -> bool
    ensures { IsTrue result → GateFits gate.now ask.now }
{
    match ask {
        GateAsk::Enter { .. } => !gate.entered(),
        GateAsk::Leave { .. } => gate.entered(),
    }
}

/// Whether the reply to an ask, made once, begins a run with memory that begins with a number.
fn begins_once(
    rt: &impl Abort,
    gate: &mut Kept,
    ask: &GateAsk,
    number: u32,
) -> Result<bool, NoMemory> {
    assert!(rt; may_be_asked(gate, ask));
    let reply = gate.act_once(ask)?;
    Ok(begins_with(&reply, number))
}

/// Whether both replies to an ask begin a run with memory that begins with a number.
fn begins_twice(
    rt: &impl Abort,
    gate: &mut Kept,
    ask: &GateAsk,
    number: u32,
) -> Result<bool, NoMemory> {
    assert!(rt; may_be_asked(gate, ask));
    let (first, second) = gate.act(ask)?;
    Ok(begins_with(&first, number) && begins_with(&second, number))
}

/// Enters a gate through its cell, by a copy of the ask; where only one reply is wanted, by `act_once`.
fn asks_to_enter(
    rt: &impl Abort,
    alloc: Global,
    gate: &mut Kept,
    opening: u32,
    wanted: u32,
) -> Result<(), NoMemory> {
    let ask = enter_ask(alloc, opening)?;
    assert!(rt; !gate.entered());
    let begun = if opening % 2 == 0 {
        begins_once(rt, gate, &ask, wanted)?
    } else {
        begins_twice(rt, gate, &ask, wanted)?
    };
    assert!(rt; begun, "{wanted}");
    Ok(())
}

/// Whether both replies to an ask say that the gate is left.
fn is_left(rt: &impl Abort, gate: &mut Kept, ask: &GateAsk) -> Result<bool, NoMemory> {
    assert!(rt; may_be_asked(gate, ask));
    let (first, second) = gate.act(ask)?;
    Ok(matches!(first, GateReply::Left) && matches!(second, GateReply::Left))
}

/// Leaves a gate through its cell, by a copy of the ask.
fn asks_to_leave(
    rt: &impl Abort,
    alloc: Global,
    gate: &mut Kept,
    left: u32,
) -> Result<(), NoMemory> {
    let ask = leave_ask(alloc, left)?;
    assert!(rt; gate.entered());
    assert!(rt; is_left(rt, gate, &ask)?);
    let kept = gate.kept().is_some_and(|memory| begins(memory, left));
    assert!(rt; kept, "{left}");
    Ok(())
}

/// What a gate replies as a cell.
#[test]
fn asks_are_replied_to(rt: HostRuntime) -> Result<(), Fail> {
    let alloc = rt.alloc();
    let mut gate = Kept::new(alloc);
    for (opening, begun, left) in [(1, 1, 5), (2, 5, 6), (3, 6, 7), (4, 7, 8)] {
        asks_to_enter(&rt, alloc, &mut gate, opening, begun)?;
        asks_to_leave(&rt, alloc, &mut gate, left)?;
    }
    Ok(())
}
