//! Laws of violations: each is the contract of a function that does nothing.

ghost use Rattle.sheet_enforce.specs.Laws.{NoViolationIsPermitted, OwnSheetsPermit};

/// The sheets that are derived from a trace have no violation in it.
pub fn own_sheets_permit()
    ensures { OwnSheetsPermit }
{}

/// There is no violation exactly where every record is permitted by the sheet of its compartment.
pub fn no_violation_is_permitted()
    ensures { NoViolationIsPermitted }
{}
