//! An actor with the log of what it does: what a thread runs. Nothing here locks or waits.
#![tactic(auto)]

mod kept_log;
mod looking;
mod run;

pub use kept_log::KeptLog;
pub use run::ActorRun;
