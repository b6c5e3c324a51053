//! A run of an image with its journal: on threads, audited; where the audit finds a difference, made again on one
//! thread.
#![tactic(auto)]

mod run;
mod text;

pub use run::{AuditedRun, Differs, audited, run_audited};
pub use text::write_difference;
