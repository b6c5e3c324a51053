//! The cells: how they begin and end, and how passes are split and joined.

ghost use Rattle.std.specs.Prelude.{◌≡◌, ◌≤◌, ◌↔◌, ℕ, [], length, IfOk, IsErr, OnErr};
ghost use mathlib.Core.Option.{some};
ghost use lib.ListN.{get_elem?};
ghost use Rattle.wedge_base.specs.Images.{slots as most_slots};
ghost use Rattle.journal_cell.specs.Histories.{CellState};
ghost use Rattle.wedge_events.specs.declared.events.CellName.TheVariants.{Slot as SlotName};
ghost use Rattle.ruled_cell.specs.declared.passes.PassOrigin.TheVariants.{First, SplitFrom};
ghost use Rattle.ruled_cell.specs.Passes.{first_view, after_splitting, after_joining, most_unjoined, IsSplitPass, IsClosing};

use crate::order::{CellTable, JoinPass, LearnNumber, SplitPass};
use crate::passes::RuledPass;
use atomic_table::Table;
use journal_cell::{GhostJournaled, RunOf};
use std::alloc::Global;
use std::marker::Model;
use wedge_base::NoMemory;
use wedge_events::Object;

/// Holds the cells of the first slots of a run, each under a lock of its own: tickets are drawn, and served in
/// order. One table has them all, so that a thread has one pass, however many cells there are. A contract knows them
/// by the table, whose slots are the cells.
#[derive(Drop)]
pub struct RuledCells<O: Object, I: RunOf> {
    pub(crate) table: CellTable<O, I>,
    pub(crate) count: usize,
    // Has room for the cells at the end, so that closing takes no memory.
    spare: Vec<GhostJournaled<O, I>>,
}

impl<O: Object, I: RunOf> Model for RuledCells<O, I> {
    ghost use Rattle.std.specs.Prelude.{◌≡◌, ◌≤◌, ◌+◌, ◌*◌, [], vec_capacity};
    ghost use Rattle.atomic_table.specs.Seated.{TableId};
    ghost use Rattle.wedge_base.specs.Images.{slots as most_slots};

    ghost Value = { TableId };

    ghost view = { λ c. c.table.shared.table_id };

    ghost invariant = { λ c.
        (c.table.shared.table_id.words ≡ 16 * c.table.shared.table_id.slots + 528)
        × (c.table.shared.table_id.slots ≤ most_slots) × (c.count ≡ c.table.shared.table_id.slots)
        × (c.spare.items ≡ []) × (c.table.shared.table_id.slots ≤ vec_capacity c.spare) };
}

impl<O: Object, I: RunOf> RuledCells<O, I> {
    /// Returns the cells as a run begins, at most 4,096, and the first pass. Cell c has the name of slot c and no
    /// entries. Fails only where out of memory; then the cells are dropped.
    pub fn new(
        alloc: Global,
        cells: Vec<GhostJournaled<O, I>>,
    ) -> Result<(RuledCells<O, I>, RuledPass<O, I>), NoMemory>
        requires few { length cells.items ≤ most_slots }
        requires initial { (c : ℕ) (k : CellState O O.Ask O.Reply)
            → get_elem? cells.items c ≡ some k → (k.history ≡ []) × (k.name ≡ SlotName c) }
        ensures table { IfOk result (λ t. (t.1.table ≡ t.0) × (t.0.slots ≡ length cells.items)) }
        ensures first { IfOk result (λ t. t.1.view ≡ first_view) }
    {
        let count = cells.len();
        let mut words = Vec::new(alloc);
        for _ in 0..16 * count + 528 {
            words.push(0)?;
        }
        let spare = Vec::with_capacity(alloc, count)?;
        let Ok((table, seat)) = Table::new(alloc, words.as_slice(), cells, &()) else {
            return Err(NoMemory);
        };
        let cells = RuledCells {
            table,
            count,
            spare,
        };
        Ok((cells, RuledPass { seat, unjoined: 0 }))
    }

    /// Returns how many cells there are.
    pub fn count(&self) -> usize
        ensures { result ≡ self.now.slots }
    {
        self.count
    }

    /// Splits a pass: returns one with a number of its own, which has seen what the other has, and entered
    /// nothing. It takes no memory. Fails exactly where 2^64 - 1 passes are split from this one and not joined;
    /// then it is as before.
    pub fn split(&self, pass: &mut RuledPass<O, I>) -> Result<RuledPass<O, I>, NoMemory>
        requires { pass.old.table ≡ self.now }
        ensures parent { IfOk result (λ _. pass.new ≡ record pass.old {
          view = after_splitting pass.old.view;
        }) }
        ensures child { IfOk result (λ p. IsSplitPass pass.old p) }
        ensures full { IsErr result ↔ (pass.old.view.unjoined ≡ most_unjoined) }
        ensures err { OnErr result (pass.new ≡ pass.old) }
    {
        if pass.unjoined == u64::MAX {
            return Err(NoMemory);
        }
        pass.unjoined += 1;
        let shared = &self.table.shared;
        let mut seat = shared.split_seat::<SplitPass>(&mut pass.seat);
        shared.load::<LearnNumber>(&mut seat, 0);
        Ok(RuledPass { seat, unjoined: 0 })
    }

    /// Joins a pass to the one from which it was split. This one has then seen what either has, and what both
    /// entered is its own.
    pub fn join(&self, pass: &mut RuledPass<O, I>, other: RuledPass<O, I>)
        requires table { (pass.old.table ≡ self.now) × (other.table ≡ self.now) }
        requires child { other.view.origin ≡ SplitFrom pass.old.view.number }
        requires all_joined { other.view.unjoined ≡ 0 }
        ensures { pass.new ≡ record pass.old { view = after_joining pass.old.view other.view } }
    {
        let RuledPass { seat, unjoined: _ } = other;
        pass.unjoined = pass.unjoined.saturating_sub(1);
        self.table
            .shared
            .join_seat::<JoinPass>(&mut pass.seat, seat);
    }

    /// Ends the cells, once every pass is joined to the first, and returns them in their order. It takes no memory.
    pub fn close(self, pass: RuledPass<O, I>) -> Vec<GhostJournaled<O, I>>
        requires table { pass.table ≡ self }
        requires first { pass.view.origin ≡ First }
        requires all_joined { pass.view.unjoined ≡ 0 }
        ensures count { length result.items ≡ self.slots }
        ensures closes { IsClosing result.items pass.view }
    {
        let RuledCells {
            table,
            count: _,
            spare: mut cells,
        } = self;
        let RuledPass { seat, unjoined: _ } = pass;
        let mut closed = table.close_with(seat);
        let mut i = 0;
        while i < closed.slot_count() {
            cells.push_reserved(closed.take(i));
            i += 1;
        }
        closed.free();
        cells
    }
}
