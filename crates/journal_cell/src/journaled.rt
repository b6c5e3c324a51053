//! An object with its history: the locked part of a cell.

ghost use Rattle.std.specs.Prelude.{◌≡◌, ◌++◌, ◌∷◌, ◌+◌, [], IfOk, IsErr, OnErr};
ghost use Rattle.journal_cell.specs.Histories.{entry_at, cell_after, pass_after};
ghost use Rattle.journal_cell.specs.Histories.{IsHistory, state_after, last_stamp, highest_stamp, greater};

use crate::entry::{Entry, Pass};
use crate::run::RunOf;
use std::alloc::Global;
use std::marker::{Model, PhantomData};
use wedge_base::{NoMemory, Stamp};
use wedge_events::{CellName, Object};

/// What a cell leaves at the end of a run: its name, and its entries, the oldest first.
#[derive(Drop)]
pub struct JournalParts<O: Object> {
    pub name: CellName,
    pub history: Vec<Entry<O::Ask, O::Reply>>,
}

/// An object with its history: all that it was asked and replied since the run began. Its state is the
/// one to which the history leads from the initial state that the image of the run gives the cell of its
/// name. Each ask fitted the state in which it came, each reply is the object's, and stamps rise strictly,
/// up to the clock, which is the stamp of the last entry, or 0 where there is none.
#[derive(Drop)]
pub struct Journaled<O: Object, I: RunOf> {
    name: CellName,
    state: O,
    history: Vec<Entry<O::Ask, O::Reply>>,
    clock: Stamp,
    run: PhantomData<I>,
}

impl<O: Object, I: RunOf> Model for Journaled<O, I> {
    ghost use Rattle.std.specs.Prelude.{◌≡◌};
    ghost use Rattle.journal_cell.specs.Histories.{CellState, IsHistory, state_after, last_stamp};

    ghost Value = { CellState O O.Ask O.Reply };

    ghost view = { λ j. record {
      name = j.name;
      state = j.state;
      history = j.history.items;
      clock = j.clock;
    } };

    ghost invariant = { λ j.
        IsHistory (O.fits I.image) O.reply O.next (O.opening I.image j.name) 0 j.history.items
        × (j.state ≡ state_after O.next (O.opening I.image j.name) j.history.items)
        × (j.clock ≡ last_stamp 0 j.history.items) };
}

impl<O: Object, I: RunOf> Journaled<O, I> {
    /// Returns a cell as a run begins: in its initial state, with no entries and the clock 0. It takes no
    /// memory.
    pub fn new(alloc: Global, name: CellName, state: O) -> Journaled<O, I>
        requires { state ≡ O.opening I.image name }
        ensures { result ≡ record { name = name; state = state; history = []; clock = 0 } }
    {
        Journaled {
            name,
            state,
            history: Vec::new(alloc),
            clock: Stamp(0),
            run: PhantomData,
        }
    }

    /// Returns a reference to the state. It is the one to which the history leads, which is legal, and the clock is the
    /// stamp of its last entry.
    pub fn state(&self) -> &O
        ensures state { result.now ≡ self.now.state }
        ensures legal { IsHistory (O.fits I.image) O.reply O.next (O.opening I.image self.now.name) 0
            self.now.history }
        ensures leads { self.now.state
            ≡ state_after O.next (O.opening I.image self.now.name) self.now.history }
        ensures clock { self.now.clock ≡ last_stamp 0 self.now.history }
    {
        &self.state
    }

    /// Consumes the cell, and returns its name and its history. It takes no memory.
    pub fn into_parts(self) -> JournalParts<O>
        ensures name { result.name ≡ self.name }
        ensures history { result.history.items ≡ self.history }
        ensures legal { IsHistory (O.fits I.image) O.reply O.next (O.opening I.image result.name) 0
            result.history.items }
    {
        let Journaled { name, history, .. } = self;
        JournalParts { name, history }
    }

    /// Asks the object, and adds one entry to the history: the ask with its reply, by the actor of the pass.
    /// The stamp of the entry is one above the greater of the two clocks, and becomes both. Returns an equal
    /// entry, for the log of the actor.
    ///
    /// Fails only where out of memory, and always where the greater clock is 2^64 - 1, above which there is
    /// no stamp. Then the cell and the pass are as before.
    #[inline(always)]
    pub fn enter(
        &mut self,
        pass: &mut Pass<'_>,
        ask: O::Ask,
    ) -> Result<Entry<O::Ask, O::Reply>, NoMemory>
        requires { O.fits I.image self.old.state ask }
        ensures entry { IfOk result (λ e. e ≡ entry_at O.reply self.old pass.old ask) }
        ensures kept { IfOk result (λ e. self.new ≡ cell_after O.next self.old e) }
        ensures pass { IfOk result (λ e. pass.new ≡ pass_after pass.old e) }
        ensures room { greater self.old.clock pass.old.clock ≡ highest_stamp → IsErr result }
        ensures err { OnErr result (self.new ≡ self.old) }
        ensures err_pass { OnErr result (pass.new ≡ pass.old) }
    {
        let clock = later(self.clock, pass.clock);
        if clock.0 == u64::MAX {
            return Err(NoMemory);
        }
        self.history.reserve(1)?;
        let actor = pass.name.copy()?;
        let again = pass.name.copy()?;
        let copy = O::copy_ask(&ask)?;
        let (reply, second) = self.state.act(&ask)?;
        let stamp = Stamp(clock.0 + 1);
        self.history.push_reserved(Entry {
            stamp,
            actor: again,
            ask: copy,
            reply: second,
        });
        self.clock = stamp;
        pass.clock = stamp;
        Ok(Entry {
            stamp,
            actor,
            ask,
            reply,
        })
    }
}

/// Returns the greater of two clocks.
pub(crate) fn later(a: Stamp, b: Stamp) -> Stamp
    ensures { result ≡ greater a b }
{
    if a.0 < b.0 { b } else { a }
}
