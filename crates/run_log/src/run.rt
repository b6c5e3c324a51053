//! A schedule that was replayed, with its log.

ghost use Rattle.std.specs.Prelude.{◌≡◌};

use crate::log::RunLog;
use run_notes::Note;

/// The log of a schedule, and in which turn each of its notes was made.
#[derive(Drop)]
pub struct LoggedRun {
    pub(crate) log: RunLog,
    pub(crate) turns: Vec<u64>,
}

impl LoggedRun {
    /// Returns the notes, in order.
    pub fn notes(&self) -> &[Note]
        ensures { result.now ≡ self.now.log.log.notes }
    {
        self.log.notes()
    }

    /// Returns the number of the turn in which each note was made, from 1.
    pub fn turns(&self) -> &[u64]
        ensures { result.now ≡ self.now.turns.items }
    {
        self.turns.as_slice()
    }
}
