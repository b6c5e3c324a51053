//! Tests of run_cells: a gate's cell that several actors know, and a pass at the last clock.

use callgate::Gate;
use cow_pages::PrivateView;
use grant_sheet::{NumberMap, Sheet};
use journal_cell::Pass;
use machine::Lives;
use run_cells::{GateCells, LockedCell};
use std::alloc::Global;
use std::marker::Brand;
use std::sync::{Arc, Wait};
use std::test::Fail;
use thread_laws::CellHistory;
use wedge_base::{ActorName, Bytes, GateId, GateKind, NoMemory, PathText, Stamp, is_canonical};
use wedge_events::{CellName, GateAsk, LivesAsk, SavedView};

/// Returns the path of the root directory.
fn root_path(alloc: Global) -> Result<PathText, Fail> {
    let text = b"/";
    if !is_canonical(text) {
        return Err("not canonical".into());
    }
    Ok(PathText::new(Bytes::from_slice(alloc, text)?))
}

/// Returns the identity of a gate of the root.
fn identity(alloc: Global, number: u32) -> Result<GateId, NoMemory> {
    let maker = ActorName::root(alloc)?;
    Ok(GateId { maker, number })
}

/// Returns a gate of the root with this number.
fn gate(alloc: Global, number: u32, kind: GateKind) -> Result<Arc<Gate>, Fail> {
    let root = root_path(alloc)?;
    let sheet = Sheet::new(
        NumberMap::new(alloc),
        NumberMap::new(alloc),
        NumberMap::new(alloc),
        0,
        root,
    );
    let gate = Gate {
        id: identity(alloc, number)?,
        entry: 32,
        sheet,
        argument: 9,
        fuel: 100,
        kind,
        memory: PrivateView::new(alloc, &[])?,
    };
    Ok(Arc::new(alloc, gate)?)
}

/// Returns an empty memory, as a gate's cell keeps one.
fn empty_memory(alloc: Global) -> Result<SavedView, NoMemory> {
    SavedView::of(alloc, &PrivateView::new(alloc, &[])?)
}

/// Returns the gates of a maker: a fresh one, and a recycled one.
fn two_gates(alloc: Global) -> Result<Vec<Arc<Gate>>, Fail> {
    let mut gates = Vec::new(alloc);
    gates.push(gate(alloc, 1, GateKind::Fresh)?)?;
    gates.push(gate(alloc, 2, GateKind::Recycled)?)?;
    Ok(gates)
}

/// Enters the cell of a gate, in which no run is.
fn enter<R: Wait>(
    rt: &R,
    alloc: Global,
    cells: &GateCells<Brand>,
    gate: &GateId,
) -> Result<(), Fail> {
    let Some(cell) = cells.find(gate)? else {
        return Err("no cell".into());
    };
    let name = ActorName::root(alloc)?;
    let mut pass = Pass {
        name: &name,
        clock: Stamp(6),
    };
    let run = ActorName::root(alloc)?;
    let memory = empty_memory(alloc)?;
    let mut guard = cell.lock(rt);
    let locked = &mut *guard;
    if locked.state().entered() {
        return Err("entered".into());
    }
    locked.enter(&mut pass, GateAsk::Enter { run, memory })?;
    Ok(())
}

/// Whether the cell of a gate is there and entered.
fn is_entered<R: Wait>(rt: &R, cells: &GateCells<Brand>, gate: &GateId) -> Result<bool, NoMemory> {
    match cells.find(gate)? {
        None => Ok(false),
        Some(cell) => {
            let guard = cell.lock(rt);
            Ok(guard.state().entered())
        }
    }
}

/// Returns how many entries histories have.
fn entries_in(histories: &[CellHistory]) -> usize {
    let mut count = 0usize;
    for history in histories {
        if let CellHistory::Gate { entries, .. } = history {
            count = count.saturating_add(entries.as_slice().len());
        }
    }
    count
}

/// Returns the cells of a maker of two gates, which were looked at twice.
fn maker_of(alloc: Global, gates: &[Arc<Gate>]) -> Result<GateCells<Brand>, NoMemory> {
    let mut cells = GateCells::none(alloc);
    cells.create_for(gates)?;
    cells.create_for(gates)?;
    Ok(cells)
}

/// The maker of a recycled gate, its child and a run of the child know one cell of it.
#[test]
fn gate_has_one_cell(rt: HostRuntime) -> Result<(), Fail> {
    let alloc = rt.alloc();
    let gates = two_gates(alloc)?;
    let maker = maker_of(alloc, gates.as_slice())?;
    let child = maker.share()?;
    let run = child.share()?;
    let two = identity(alloc, 2)?;
    enter(&rt, alloc, &run, &two)?;
    assert!(&rt; is_entered(&rt, &maker, &two)?);
    assert!(&rt; is_entered(&rt, &child, &two)?);
    assert!(&rt; !is_entered(&rt, &maker, &identity(alloc, 1)?)?);
    Ok(())
}

/// Only the maker of a gate returns its history, once the others are done with it.
#[test]
fn maker_returns_the_history(rt: HostRuntime) -> Result<(), Fail> {
    let alloc = rt.alloc();
    let gates = two_gates(alloc)?;
    let maker = maker_of(alloc, gates.as_slice())?;
    let child = maker.share()?;
    enter(&rt, alloc, &child, &identity(alloc, 2)?)?;
    let mut histories = Vec::new(alloc);
    child.into_histories(&mut histories)?;
    assert_eq!(&rt; histories.len(), 0);
    maker.into_histories(&mut histories)?;
    assert_eq!(&rt; entries_in(histories.as_slice()), 1);
    Ok(())
}

/// A pass at the last clock gets no entry, and the cell stays as it was.
#[test]
fn last_clock_gets_no_entry(rt: HostRuntime) -> Result<(), Fail> {
    let alloc = rt.alloc();
    let name = ActorName::root(alloc)?;
    let mut pass = Pass {
        name: &name,
        clock: Stamp(u64::MAX),
    };
    let mut lives: LockedCell<Lives, Brand> = LockedCell::new(alloc, CellName::Lives, Lives::new());
    assert!(&rt; lives.enter(&mut pass, LivesAsk::Claim).is_err());
    assert_eq!(&rt; pass.clock.0, u64::MAX);
    assert_eq!(&rt; lives.into_parts().history.len(), 0);
    Ok(())
}
