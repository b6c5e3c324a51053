//! What the logs and the histories of a run on threads have to be, so that they are a run of the abstract
//! machine: as definitions, and as laws.
#![tactic(auto)]

mod gathered;
mod kept_entries;
mod laws;

pub use gathered::{ActorEnd, ActorLog, CellHistory, Gathered};
pub use kept_entries::is_on_declared;
pub use laws::{
    caches_are_counted, compared_agree, every_actor_walks, executions_are_a_run,
    forest_is_executions, gathered_is_run, kept_are_legal, order_is_merge, progress_keeps_account,
    returned_logs_are_families,
};
