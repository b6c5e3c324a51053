//! Laws of the definitions: each is the contract of a function that does nothing.

ghost use Rattle.tag_laws.specs.DeclaredTags.{ClosedCellsAreRuled, DeclaredHaveAll, RuledCellsAgree};

/// Once the cells are closed, the history of each has just what the first pass entered there, and what those entered
/// that were joined to it.
pub fn closed_cells_are_ruled()
    ensures { ClosedCellsAreRuled }
{}

/// The entries on one of the first slots are among those on all of these.
pub fn declared_have_all()
    ensures { DeclaredHaveAll }
{}

/// A legal history of a slot that has just the logged entries on it is what the journal has of the slot.
pub fn ruled_cells_agree()
    ensures { RuledCellsAgree }
{}
