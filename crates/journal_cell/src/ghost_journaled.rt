//! An object whose history only proofs see.

ghost use Rattle.std.specs.Prelude.{◌≡◌, [], IfOk, IsErr, OnErr};
ghost use Rattle.journal_cell.specs.Histories.{entry_at, cell_after, pass_after};
ghost use Rattle.journal_cell.specs.Histories.{IsHistory, state_after, last_stamp, highest_stamp, greater};

use crate::entry::{Entry, Pass};
use crate::ghost_list::GhostList;
use crate::journaled::later;
use crate::run::RunOf;
use std::marker::{Model, PhantomData};
use std::mem;
use wedge_base::{NoMemory, Stamp};
use wedge_events::{CellName, Object};

/// A `Journaled` whose history is a ghost list: contracts see the same, and at run time it has its name, the state and the
/// clock, and no entries.
#[derive(Drop)]
pub struct GhostJournaled<O: Object, I: RunOf> {
    name: CellName,
    state: O,
    history: GhostList<Entry<O::Ask, O::Reply>>,
    clock: Stamp,
    run: PhantomData<I>,
    /// Nothing. What lies behind it in a table of cells so shares no cache line with what is written here: threads that enter
    /// cells side by side would wait for each other.
    apart: [u64; 8],
}

// Said here, so that whoever sends one to a thread need not look into its fields.
unsafe impl<O: Object + Send, I: RunOf + Send> Send for GhostJournaled<O, I> {}

unsafe impl<O: Object + Sync, I: RunOf + Sync> Sync for GhostJournaled<O, I> {}

impl<O: Object, I: RunOf> Model for GhostJournaled<O, I> {
    ghost use Rattle.std.specs.Prelude.{◌≡◌};
    ghost use Rattle.journal_cell.specs.Histories.{CellState, IsHistory, state_after, last_stamp};

    ghost Value = { CellState O O.Ask O.Reply };

    ghost view = { λ j. record {
      name = j.name;
      state = j.state;
      history = j.history;
      clock = j.clock;
    } };

    ghost invariant = { λ j.
        IsHistory (O.fits I.image) O.reply O.next (O.opening I.image j.name) 0 j.history
        × (j.state ≡ state_after O.next (O.opening I.image j.name) j.history)
        × (j.clock ≡ last_stamp 0 j.history) };
}

impl<O: Object, I: RunOf> GhostJournaled<O, I> {
    /// Returns a cell as a run begins: in its initial state, with no entries and the clock 0. It takes no
    /// memory.
    pub fn new(name: CellName, state: O) -> GhostJournaled<O, I>
        requires { state ≡ O.opening I.image name }
        ensures { result ≡ record { name = name; state = state; history = []; clock = 0 } }
    {
        GhostJournaled {
            name,
            state,
            history: GhostList::new(),
            clock: Stamp(0),
            run: PhantomData,
            apart: [0; 8],
        }
    }

    /// Returns a reference to the state. It is the one to which the history leads, which is legal, and the clock is the
    /// stamp of its last entry.
    #[inline(always)]
    pub fn state(&self) -> &O
        ensures state { result.now ≡ self.now.state }
        ensures legal { IsHistory (O.fits I.image) O.reply O.next (O.opening I.image self.now.name) 0
            self.now.history }
        ensures leads { self.now.state
            ≡ state_after O.next (O.opening I.image self.now.name) self.now.history }
        ensures clock { self.now.clock ≡ last_stamp 0 self.now.history }
    {
        &self.state
    }

    /// Consumes the cell, and returns its history.
    pub fn into_history(self) -> GhostList<Entry<O::Ask, O::Reply>>
        ensures history { result ≡ self.history }
        ensures legal { IsHistory (O.fits I.image) O.reply O.next (O.opening I.image self.name) 0 result }
    {
        let GhostJournaled { history, .. } = self;
        history
    }

    /// Asks the object, and returns the entry that comes of it, for the log of the actor: the ask with its reply, by
    /// the actor of the pass. The stamp of the entry is one above the greater of the two clocks, and becomes both. The
    /// history has the entry then.
    ///
    /// Fails only where out of memory, and always where the greater clock is 2^64 - 1, above which there is
    /// no stamp. Then the cell and the pass are as before.
    #[inline(always)]
    pub fn enter(
        &mut self,
        pass: &mut Pass<'_>,
        ask: O::Ask,
    ) -> Result<Entry<O::Ask, O::Reply>, NoMemory>
        requires { O.fits I.image self.old.state ask }
        ensures entry { IfOk result (λ e. e ≡ entry_at O.reply self.old pass.old ask) }
        ensures kept { IfOk result (λ e. self.new ≡ cell_after O.next self.old e) }
        ensures pass { IfOk result (λ e. pass.new ≡ pass_after pass.old e) }
        ensures room { greater self.old.clock pass.old.clock ≡ highest_stamp → IsErr result }
        ensures err { OnErr result (self.new ≡ self.old) }
        ensures err_pass { OnErr result (pass.new ≡ pass.old) }
    {
        let clock = later(self.clock, pass.clock);
        if clock.0 == u64::MAX {
            return Err(NoMemory);
        }
        let actor = pass.name.copy()?;
        let reply = self.state.act_once(&ask)?;
        let stamp = Stamp(clock.0 + 1);
        let entry = Entry {
            stamp,
            actor,
            ask,
            reply,
        };
        self.history.push(&entry);
        self.clock = stamp;
        pass.clock = stamp;
        Ok(entry)
    }
}
