//! What an audit finds.

use wedge_base::NoMemory;
use wedge_events::{CellName, LogEntry};

/// Says where a history and the journal differ: the cell, the index among the entries of that cell,
/// and the entry there in each of both lists, or none where that list has ended.
#[derive(Debug)]
pub struct Difference {
    pub cell: CellName,
    pub index: usize,
    pub kept: Option<LogEntry>,
    pub logged: Option<LogEntry>,
}

// By hand: a derived drop would be proved again in each function that drops one.
impl Drop for Difference {
    fn drop(self) {
        let Self {
            cell: _,
            index: _,
            kept: _,
            logged: _,
        } = self;
    }
}

/// Says why there is no audit.
#[derive(Debug, Drop)]
pub enum AuditFault {
    /// Out of memory.
    NoMemory,
    /// The first difference, in the order of cells.
    Disagree(Difference),
}

impl From<NoMemory> for AuditFault {
    ghost use Rattle.std.specs.Prelude.{◌≡◌};
    ghost use Rattle.run_audit.specs.declared.fault.AuditFault.TheVariants.{NoMemory};

    ghost from_gives = { λ _ e. e ≡ NoMemory };

    fn from(_e: NoMemory) -> AuditFault {
        AuditFault::NoMemory
    }
}
