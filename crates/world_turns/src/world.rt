//! The world of a run.

ghost use Rattle.std.specs.Prelude.{◌≡◌, ◌<◌, ◌++◌, ◌∷◌, [], List, length, IfOk, false};
ghost use Rattle.wedge_events.specs.declared.events.Turn.{Turn as ATurn};
ghost use Rattle.world_turns.specs.Progress.{LeadsTo, initial_progress};
ghost use Rattle.world_turns.specs.Progress.{IsStampedByIndex};
ghost use Rattle.wedge_events.specs.Journals.{turns_of};

use crate::residents::Residents;
use image_form::Image;
use machine::{Actor, Resident};
use ready_text::Program;
use std::alloc::Global;
use std::marker::Model;
use wedge_base::NoMemory;
use wedge_events::{Event, LogEntry};
use world_cells::Cells;

/// The world of a run: every actor and every cell, and the turns taken so far. Its turns are always a
/// run from the initial state of its image, and its state is where that run leads, but for local steps
/// of its actors, unless it has stopped because it ran out of memory.
pub struct World<'a> {
    pub program: Program<'a>,
    pub cells: Cells,
    pub residents: Residents,
    pub entries: Vec<LogEntry>,
    pub stopped: bool,
}

// By hand: a derived drop would be proved again in each function that drops one.
impl<'a> Drop for World<'a> {
    fn drop(self) {
        let Self {
            program: _,
            cells: _,
            residents: _,
            entries: _,
            stopped: _,
        } = self;
    }
}

impl<'a> Model for World<'a> {
    ghost use Rattle.std.specs.Prelude.{◌≡◌, false};
    ghost use Rattle.run_laws.specs.FamilyTrees.{Family};
    ghost use Rattle.world_turns.specs.Progress.{Progress, IsRunSoFar};
    ghost use Rattle.world_turns.specs.Progress.{IsStampedByIndex};
    ghost use Rattle.wedge_events.specs.Journals.{turns_of};

    ghost Value = { Progress };

    ghost view = { λ w. record {
      state = record { image = w.program; cells = w.cells; actors = w.residents };
      turns = turns_of w.entries.items;
      stopped = w.stopped;
    } };

    ghost invariant = { λ w. record {
      numbered : IsStampedByIndex w.entries.items;
      run : IsRunSoFar (record {
        state = record { image = w.program; cells = w.cells; actors = w.residents };
        turns = turns_of w.entries.items;
        stopped = w.stopped;
      });
      family : w.stopped ≡ false → Family w.residents;
    } };
}

impl<'a> World<'a> {
    /// Returns the cells.
    pub fn cells(&self) -> &Cells
        ensures { result.now ≡ self.now.state.cells }
    {
        &self.cells
    }

    /// A copy of the event of its last turn.
    pub fn last_event(&self) -> Result<Event, NoMemory>
        requires { 0 < length self.now.turns }
        ensures { IfOk result (λ e. (before : List ATurn) (t : ATurn)
            → self.now.turns ≡ before ++ t ∷ [] → e ≡ t.event) }
    {
        let entry = &self.entries[self.entries.len() - 1];
        entry.event.copy(*self.entries.allocator())
    }

    /// Consumes the world and returns the entries of the turns taken so far.
    pub fn into_entries(self) -> Vec<LogEntry>
        ensures numbered { IsStampedByIndex result.items }
        ensures turns { turns_of result.items ≡ self.entry.turns }
        ensures run { self.entry.stopped ≡ false
            → LeadsTo (turns_of result.items) self.entry.state }
    {
        let World {
            program: _program,
            cells: _cells,
            residents: _residents,
            entries,
            stopped: _stopped,
        } = self;
        entries
    }
}

/// The world as a run of an image begins.
pub fn open_world(alloc: Global, image: &Image) -> Result<World<'_>, NoMemory>
    ensures { IfOk result (λ w. w ≡ initial_progress image.now) }
{
    let program = Program::new(alloc, image)?;
    let cells = Cells::opening(alloc, image)?;
    let (actor, memory) = Actor::root(alloc, &program)?;
    let residents = Residents::new(alloc, Resident { actor, memory })?;
    Ok(World {
        program,
        cells,
        residents,
        entries: Vec::new(alloc),
        stopped: false,
    })
}
