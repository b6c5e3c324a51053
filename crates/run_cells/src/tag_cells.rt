//! The cells of declared tags, and the passes with which actors come to them.

ghost use Rattle.std.specs.Prelude.{◌≡◌, ◌<◌, ◌++◌, ◌∷◌, [], IfOk, OnErr, Some};
ghost use Rattle.atomic_table.specs.Seated.{TableId};
ghost use Rattle.ruled_cell.specs.Passes.{first_view};
ghost use Rattle.wedge_events.specs.declared.events.Want.{Want as AWant};
ghost use Rattle.machine.specs.Between.{WantFits};
ghost use Rattle.machine.specs.Take.{current_want};
ghost use Rattle.run_cells.specs.Entries.{IsPlainEntry, IsOnSlot};
ghost use Rattle.run_cells.specs.TagPasses.{all_entered, AreClosed};

use crate::enter::pass_of;
use crate::entries::slot_entry;
use crate::slot_maker::SlotMaker;
use actor_run::ActorRun;
use journal_cell::{GhostJournaled, RunOf};
use ruled_cell::{RuledCells, RuledPass};
use std::marker::{Brand, Model, PhantomData};
use std::sync::{Mutex, Wait};
use tag_segment::SlotState;
use wedge_base::{NoMemory, Slot};
use wedge_events::{LogEntry, SlotWant};

/// Stands for the table that has the cells of the declared tags of a run, so that the type of a pass can speak of it.
/// It has no call; who opens the cells picks the table.
pub trait TableOf {
    ghost table: { TableId };
}

impl TableOf for Brand {
    ghost use Rattle.run_cells.specs.TagPasses.{no_table};

    ghost table = { no_table };
}

/// With what an actor comes to the cells of declared tags. Contracts see what it entered there, as entries of its
/// log, the oldest first.
#[derive(Drop)]
pub struct TagPass<I: RunOf, T: TableOf> {
    pass: RuledPass<SlotState, I>,
    of: PhantomData<T>,
}

impl<I: RunOf, T: TableOf> Model for TagPass<I, T> {
    ghost use Rattle.std.specs.Prelude.{List};
    ghost use Rattle.wedge_events.specs.declared.events.LogEntry.{LogEntry};
    ghost use Rattle.tag_laws.specs.DeclaredTags.{entries_by};
    ghost use Rattle.run_cells.specs.TagPasses.{IsActorPass};

    ghost Value = { List LogEntry };

    ghost view = { λ p. entries_by p.pass.view.own };

    ghost invariant = { λ p. IsActorPass T.table p.pass };
}

/// The pass from which those of all actors are split.
#[derive(Drop)]
struct FirstPass<I: RunOf, T: TableOf> {
    pass: RuledPass<SlotState, I>,
    of: PhantomData<T>,
}

impl<I: RunOf, T: TableOf> Model for FirstPass<I, T> {
    ghost use Rattle.run_cells.specs.TagPasses.{SlotPass, IsFirstPass};

    ghost Value = { SlotPass };

    ghost view = { λ p. p.pass };

    ghost invariant = { λ p. IsFirstPass T.table p.pass };
}

/// The cells of the declared tags of a run: the slot of a tag is its number. What each kept is known at the end, and
/// needs no audit.
#[derive(Drop)]
pub struct TagCells<I: RunOf, T: TableOf> {
    cells: RuledCells<SlotState, I>,
    first: Mutex<FirstPass<I, T>>,
    ghost of_run: { cells ≡ T.table },
}

impl<I: RunOf, T: TableOf> TagCells<I, T> {
    /// Returns cells that were opened with their first pass.
    pub fn new(cells: RuledCells<SlotState, I>, first: RuledPass<SlotState, I>) -> TagCells<I, T>
        requires table { (cells ≡ T.table) × (first.table ≡ T.table) }
        requires first { first.view ≡ first_view }
    {
        TagCells {
            cells,
            first: Mutex::new(FirstPass {
                pass: first,
                of: PhantomData,
            }),
        }
    }

    /// Returns how many declared tags there are.
    #[inline(always)]
    pub fn count(&self) -> usize
        ensures { result ≡ T.table.slots }
    {
        self.cells.count()
    }

    /// Returns a pass for an actor, which has entered nothing, and which `close` asks for. Fails only where 2^64 - 1
    /// were returned.
    pub fn pass<R: Wait>(&self, rt: &R) -> Result<TagPass<I, T>, NoMemory>
        ensures { IfOk result (λ p. p ≡ []) }
    {
        let mut guard = self.first.lock(rt);
        let first = &mut *guard;
        let pass = self.cells.split(&mut first.pass)?;
        Ok(TagPass {
            pass,
            of: PhantomData,
        })
    }

    /// Asks the slot of a declared tag what an actor at rest wants of it, and returns the entry that the slot keeps
    /// of it. The actor waits for its turn, and the slot is asked by the tag that lives there then. Fails only where
    /// out of memory, or where no stamp is left; then nothing is entered.
    #[inline(always)]
    pub(crate) fn enter<R: Wait>(
        &self,
        rt: &R,
        pass: &mut TagPass<I, T>,
        run: &ActorRun<I>,
        slot: Slot,
        want: SlotWant,
    ) -> Result<LogEntry, NoMemory>
        requires declared { slot < T.table.slots }
        requires wants { current_want run.now.progress.state ≡ Some (AWant.Slot slot want) }
        requires fits { WantFits run.now.progress.state (AWant.Slot slot want) }
        ensures plain { IfOk result (IsPlainEntry I.image run.now.progress) }
        ensures slot { IfOk result (IsOnSlot slot) }
        ensures entered { IfOk result (λ e. pass.new ≡ pass.old ++ e ∷ []) }
        ensures err { OnErr result (pass.new ≡ pass.old) }
    {
        let mut actor = pass_of(run);
        let maker = SlotMaker { run, slot, want };
        let entry = self
            .cells
            .enter(rt, &mut pass.pass, slot.0 as usize, &mut actor, &maker)?;
        Ok(slot_entry(slot, entry))
    }

    /// Ends the cells, and returns them in their order, with just what these passes entered. Fails only where out of
    /// memory, and where a pass is missing.
    pub(crate) fn close(
        self,
        passes: Vec<TagPass<I, T>>,
    ) -> Result<Vec<GhostJournaled<SlotState, I>>, NoMemory>
        ensures { IfOk result (λ v. AreClosed T.table.slots (all_entered passes.items) v.items) }
    {
        let TagCells { cells, first, .. } = self;
        let FirstPass { mut pass, .. } = first.into_inner();
        for one in passes {
            let TagPass { pass: other, .. } = one;
            cells.join(&mut pass, other);
        }
        if pass.unjoined() != 0 {
            return Err(NoMemory);
        }
        Ok(cells.close(pass))
    }
}
