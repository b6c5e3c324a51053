//! What the program ends with.

use audited_run::Differs;
use run_audit::RunJournal;

/// The status of what was done.
pub(crate) const DONE: u8 = 0;
/// The status of arguments that are no command.
pub(crate) const USAGE: u8 = 2;
/// The status of an image or a partition that is refused.
pub(crate) const REFUSED: u8 = 3;
/// The status of a read that failed.
pub(crate) const READ_FAULT: u8 = 4;
/// The status of a write that failed.
pub(crate) const WRITE_FAULT: u8 = 5;
/// The status of a call that ran out of memory.
pub(crate) const NO_MEMORY: u8 = 6;
/// The status of a run of which logs and histories differ.
pub(crate) const DISAGREED: u8 = 7;
/// The status of a schedule or a trace that is refused.
pub(crate) const REJECTED: u8 = 8;
/// The status of a query of a trace that has no such name.
pub(crate) const NO_SUCH_NAME: u8 = 9;
/// The status of an ELF file that is refused.
pub(crate) const ELF_REFUSED: u8 = 10;
/// The status of a run with an access that the sheets of a trace do not permit.
pub(crate) const ENFORCED: u8 = 11;

/// What the program ends with.
#[derive(Debug, Drop)]
pub struct Ended {
    /// The exit status.
    pub status: u8,
    /// The journal of the run, where there was one and its texts were written, or their writing failed.
    pub journal: Option<RunJournal>,
    /// What differed between the logs and the histories of a run on threads, with the status 7 alone.
    pub differs: Option<Differs>,
}
