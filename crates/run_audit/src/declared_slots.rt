//! The histories of the slots of declared tags, which are the first ones.

ghost use Rattle.std.specs.Prelude.{◌≡◌};
ghost use Rattle.run_audit.specs.ComparedCells.{is_of_declared};

use thread_laws::CellHistory;

/// Tells whether a history is that of one of the first `declared` slots.
pub(crate) fn is_of_declared(declared: usize, history: &CellHistory) -> bool
    ensures { result ≡ is_of_declared declared history.now }
{
    match history {
        CellHistory::Slot { slot, .. } => (slot.0 as usize) < declared,
        _ => false,
    }
}
