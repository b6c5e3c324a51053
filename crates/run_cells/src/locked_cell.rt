//! What the lock of a cell protects.

ghost use Rattle.std.specs.Prelude.{◌≡◌, ◌+◌, ◌++◌, ◌∷◌, [], IfOk, IsErr, OnErr};
ghost use Rattle.journal_cell.specs.Histories.{entry_at, cell_after, pass_after, IsHistory, highest_stamp, greater};

use fd_table::Stream;
use journal_cell::{Entry, JournalParts, Journaled, Pass, RunOf};
use machine::Lives;
use recycled_gate::Kept;
use std::alloc::Global;
use std::marker::Model;
use tag_directory::{FdDirectory, SlotDirectory};
use tag_segment::SlotState;
use wedge_base::NoMemory;
use wedge_events::{CellName, Object};

/// An object of one kind of cell. It says which names the cells of this kind have.
pub trait Named {
    ghost use Rattle.wedge_events.specs.declared.events.CellName.{CellName as Name};

    ghost named: { Name → Type 0 };
}

impl Named for SlotState {
    ghost use Rattle.run_cells.specs.Names.{IsSlotName};

    ghost named = { IsSlotName };
}

impl Named for Stream {
    ghost use Rattle.run_cells.specs.Names.{IsFdName};

    ghost named = { IsFdName };
}

impl Named for Kept {
    ghost use Rattle.run_cells.specs.Names.{IsGateName};

    ghost named = { IsGateName };
}

impl Named for SlotDirectory {
    ghost use Rattle.std.specs.Prelude.{◌≡◌};
    ghost use Rattle.wedge_events.specs.declared.events.CellName.TheVariants as cell;

    ghost named = { λ n. n ≡ cell.Slots };
}

impl Named for FdDirectory {
    ghost use Rattle.std.specs.Prelude.{◌≡◌};
    ghost use Rattle.wedge_events.specs.declared.events.CellName.TheVariants as cell;

    ghost named = { λ n. n ≡ cell.Fds };
}

impl Named for Lives {
    ghost use Rattle.std.specs.Prelude.{◌≡◌};
    ghost use Rattle.wedge_events.specs.declared.events.CellName.TheVariants as cell;

    ghost named = { λ n. n ≡ cell.Lives };
}

/// An object with its history, under a name of its kind. As that is the type's invariant, it holds of whatever
/// a lock returns.
#[derive(Drop)]
pub struct LockedCell<O: Object + Named, I: RunOf> {
    journal: Journaled<O, I>,
}

impl<O: Object + Named, I: RunOf> Model for LockedCell<O, I> {
    ghost use Rattle.journal_cell.specs.Histories.{CellState};

    ghost Value = { CellState O O.Ask O.Reply };

    ghost view = { λ c. c.journal };

    ghost invariant = { λ c. O.named c.journal.name };
}

impl<O: Object + Named, I: RunOf> LockedCell<O, I> {
    /// Returns a cell as a run begins: in its initial state, with no entries and the clock 0. It takes no memory.
    pub fn new(alloc: Global, name: CellName, state: O) -> LockedCell<O, I>
        requires named { O.named name }
        requires initial { state ≡ O.opening I.image name }
        ensures { result ≡ record { name = name; state = state; history = []; clock = 0 } }
    {
        LockedCell {
            journal: Journaled::new(alloc, name, state),
        }
    }

    /// Returns a reference to the state.
    #[inline(always)]
    pub fn state(&self) -> &O
        ensures { result.now ≡ self.now.state }
    {
        self.journal.state()
    }

    /// Asks the object, adds the entry that comes of it to the history, and returns an equal one: as
    /// `Journaled::enter` does, with the same errors. The history, under a name of its kind, is legal with it.
    #[inline(always)]
    pub fn enter(
        &mut self,
        pass: &mut Pass<'_>,
        ask: O::Ask,
    ) -> Result<Entry<O::Ask, O::Reply>, NoMemory>
        requires { O.fits I.image self.old.state ask }
        ensures entry { IfOk result (λ e. e ≡ entry_at O.reply self.old pass.old ask) }
        ensures kept { IfOk result (λ e. self.new ≡ cell_after O.next self.old e) }
        ensures pass { IfOk result (λ e. pass.new ≡ pass_after pass.old e) }
        ensures room { greater self.old.clock pass.old.clock ≡ highest_stamp → IsErr result }
        ensures err { OnErr result (self.new ≡ self.old) }
        ensures err_pass { OnErr result (pass.new ≡ pass.old) }
        ensures named { O.named self.old.name }
        ensures legal { IfOk result (λ e. IsHistory (O.fits I.image) O.reply O.next
            (O.opening I.image self.old.name) 0 (self.old.history ++ e ∷ [])) }
    {
        let entry = self.journal.enter(pass, ask)?;
        // The state is read here, so that the history, which has the entry, is known to be legal.
        let _ = self.journal.state();
        Ok(entry)
    }

    /// Consumes the cell, and returns its name and its history. It takes no memory.
    pub fn into_parts(self) -> JournalParts<O>
        ensures named { O.named result.name }
        ensures name { result.name ≡ self.name }
        ensures history { result.history.items ≡ self.history }
        ensures legal { IsHistory (O.fits I.image) O.reply O.next (O.opening I.image result.name) 0
            result.history.items }
    {
        self.journal.into_parts()
    }
}
