//! Compares the histories that the cells of a run on threads kept with the logs of its actors.
#![tactic(auto)]

mod actor_lines;
mod auditing;
mod caches;
mod comparison;
mod declared_slots;
mod equality;
mod fault;
mod kept;
mod keys;
mod labels;
mod laws;
mod logs;
mod merging;
mod moving;
mod outcome;
mod run_journal;
mod sorts;
mod stream_lines;
mod written_streams;

pub use auditing::{AuditRefusal, Audited, audit};
pub use fault::{AuditFault, Difference};
pub use laws::differences_disagree;
pub use run_journal::RunJournal;
