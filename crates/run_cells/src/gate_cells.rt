//! The cells of the recycled gates that an actor knows.

ghost use Rattle.std.specs.Prelude.{◌≡◌, ◌<◌, ◌+◌, ◌++◌, All, IfOk, IfSome, OnOk, OnErr, [], length, map, is_some};
ghost use Rattle.std.specs.Arc.{arc_value};
ghost use Rattle.thread_laws.specs.Replaying.{IsLegalHistory};
ghost use Rattle.run_cells.specs.Prefixes.{IsPrefixOf};
ghost use Rattle.run_cells.specs.RecycledGates.{with_recycled, has_cell, HasCells};

use crate::locked_cell::LockedCell;
use callgate::Gate;
use journal_cell::{JournalParts, RunOf};
use recycled_gate::Kept;
use std::alloc::Global;
use std::marker::Model;
use std::sync::{Arc, Mutex};
use thread_laws::CellHistory;
use wedge_base::{GateId, GateKind, Items, NoMemory};
use wedge_events::CellName;

/// The cell of a recycled gate, which all actors share that know the gate. Contracts see the gate.
#[derive(Drop)]
pub(crate) struct GateCell<I: RunOf> {
    gate: GateId,
    cell: Arc<Mutex<LockedCell<Kept, I>>>,
}

impl<I: RunOf> Model for GateCell<I> {
    ghost use Rattle.wedge_base.specs.declared.grants.GateId.{GateId};

    ghost Value = { GateId };

    ghost view = { λ g. g.gate };
}

/// The cells of the recycled gates among those that an actor knows.
///
/// An actor's list of gates grows at its end only, and begins with those that its creator knew. So each gate
/// behind those that were looked at before is the actor's own, and nobody else has made its cell.
pub struct GateCells<I: RunOf> {
    alloc: Global,
    /// How many of the actor's gates were looked at.
    seen: usize,
    /// How many cells its creator shared with it.
    inherited: usize,
    list: Vec<GateCell<I>>,
}

// By hand: a derived drop would be proved again in each function that drops one.
impl<I: RunOf> Drop for GateCells<I> {
    fn drop(self) {
        let Self {
            alloc: _,
            seen: _,
            inherited: _,
            list: _,
        } = self;
    }
}

impl<I: RunOf> Model for GateCells<I> {
    ghost use Rattle.std.specs.Prelude.{◌≤◌, length};
    ghost use Rattle.run_cells.specs.RecycledGates.{GateCellsState};

    ghost Value = { GateCellsState };

    ghost view = { λ c. record {
      seen = c.seen;
      inherited = c.inherited;
      gates = c.list.items;
    } };

    ghost invariant = { λ c. c.inherited ≤ length c.list.items };
}

impl<I: RunOf> GateCells<I> {
    /// Returns those of an actor that knows no gate.
    pub fn none(alloc: Global) -> GateCells<I>
        ensures { result ≡ record { seen = 0; inherited = 0; gates = [] } }
    {
        GateCells {
            alloc,
            seen: 0,
            inherited: 0,
            list: Vec::new(alloc),
        }
    }

    /// Creates the cells of the recycled gates among an actor's gates that were not looked at before, in their
    /// order. When out of memory, some may have been created.
    pub fn create_for(&mut self, gates: &[Arc<Gate>]) -> Result<(), NoMemory>
        requires { HasCells self.old (map arc_value gates.now) }
        ensures cells { HasCells self.new (map arc_value gates.now) }
        ensures all { OnOk result (self.new.seen ≡ length gates.now) }
        ensures inherited { self.new.inherited ≡ self.old.inherited }
    {
        while self.seen() < gates.len() {
            self.look_at(&gates[self.seen()])?;
        }
        Ok(())
    }

    /// Returns how many of the actor's gates were looked at.
    fn seen(&self) -> usize
        ensures { result ≡ self.now.seen }
    {
        self.seen
    }

    /// Creates the cell of the next of the actor's gates, if that is recycled.
    fn look_at(&mut self, gate: &Gate) -> Result<(), NoMemory>
        requires { self.old.seen < 18446744073709551615 }
        ensures seen { OnOk result (self.new.seen ≡ self.old.seen + 1) }
        ensures own { OnOk result (self.new.gates
            ≡ self.old.gates ++ with_recycled gate.now.kind gate.now.id []) }
        ensures err { OnErr result (self.new ≡ self.old) }
        ensures inherited { self.new.inherited ≡ self.old.inherited }
    {
        if let GateKind::Recycled = gate.kind {
            let cell = GateCell::new(self.alloc, &gate.id)?;
            self.list.push(cell)?;
        }
        self.seen += 1;
        Ok(())
    }

    /// Returns those of an actor that this one creates: all that it knows.
    pub fn share(&self) -> Result<GateCells<I>, NoMemory>
        ensures { IfOk result (λ c. c ≡ record {
          seen = self.now.seen;
          inherited = length self.now.gates;
          gates = self.now.gates;
        }) }
    {
        let mut list = Vec::with_capacity(self.alloc, self.list.len())?;
        while list.len() < self.list.len() {
            list.push(self.list[list.len()].share()?)?;
        }
        Ok(GateCells {
            alloc: self.alloc,
            seen: self.seen,
            inherited: list.len(),
            list,
        })
    }

    /// Returns the cell of a gate, if the gate is among those known and recycled.
    pub fn find(&self, gate: &GateId) -> Result<Option<Arc<Mutex<LockedCell<Kept, I>>>>, NoMemory>
        ensures { IfOk result (λ o. is_some o ≡ has_cell self.now.gates gate.now) }
    {
        for known in self.list.as_slice() {
            if known.gate.is_same(gate) {
                return Ok(Some(Arc::try_clone(&known.cell)?));
            }
        }
        Ok(None)
    }

    /// Consumes those of an actor that has ended, and adds the histories of its own gates behind others. All actors
    /// that knew these gates have ended, so that nobody else has their cells; were there one that somebody has,
    /// its history would be left out. Out of memory, those behind one that could not be added are lost.
    pub fn into_histories(self, histories: &mut Vec<CellHistory>) -> Result<(), NoMemory>
        requires { All (IsLegalHistory I.image) histories.old.items }
        ensures legal { All (IsLegalHistory I.image) histories.new.items }
        ensures prefix { IsPrefixOf histories.old.items histories.new.items }
    {
        let GateCells {
            alloc: _alloc,
            seen: _seen,
            inherited,
            mut list,
        } = self;
        for _ in inherited..list.len() {
            move_last(&mut list, histories)?;
        }
        Ok(())
    }
}

/// Takes the last of these cells, if there is one, and adds its history behind others, unless somebody else has it.
fn move_last<I: RunOf>(
    cells: &mut Vec<GateCell<I>>,
    histories: &mut Vec<CellHistory>,
) -> Result<(), NoMemory>
    requires { All (IsLegalHistory I.image) histories.old.items }
    ensures legal { All (IsLegalHistory I.image) histories.new.items }
    ensures prefix { IsPrefixOf histories.old.items histories.new.items }
{
    let Some(cell) = cells.pop() else {
        return Ok(());
    };
    let Some(history) = cell.into_history() else {
        return Ok(());
    };
    histories.push(history)?;
    Ok(())
}

impl<I: RunOf> GateCell<I> {
    /// Returns the cell of a gate that nobody has entered.
    fn new(alloc: Global, gate: &GateId) -> Result<GateCell<I>, NoMemory>
        ensures { IfOk result (λ g. g ≡ gate.now) }
    {
        let name = CellName::Gate { gate: gate.copy()? };
        let cell = Mutex::new(LockedCell::new(alloc, name, Kept::new(alloc)));
        Ok(GateCell {
            gate: gate.copy()?,
            cell: Arc::new(alloc, cell)?,
        })
    }

    /// Returns the same cell, for another actor.
    fn share(&self) -> Result<GateCell<I>, NoMemory>
        ensures { IfOk result (λ g. g ≡ self.now) }
    {
        Ok(GateCell {
            gate: self.gate.copy()?,
            cell: Arc::try_clone(&self.cell)?,
        })
    }

    /// Consumes it, and returns the history as the cell kept it, unless somebody else has the cell.
    fn into_history(self) -> Option<CellHistory>
        ensures { IfSome result (IsLegalHistory I.image) }
    {
        let GateCell { cell, .. } = self;
        let locked = Arc::into_inner(cell)?;
        let JournalParts { name, history } = locked.into_inner().into_parts();
        let CellName::Gate { gate } = name else {
            unreachable!()
        };
        Some(CellHistory::Gate {
            gate,
            entries: Items::new(history),
        })
    }
}
