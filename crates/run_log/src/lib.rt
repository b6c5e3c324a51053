//! Runs whose accesses are noted. What is kept of a run stands beside its world: an actor first comes to rest, noted, and
//! then takes its turn as it stands, which makes no local step any more.
#![tactic(auto)]

mod advancing;
mod laws;
mod log;
mod logging;
mod replaying;
mod run;

pub use laws::{
    chains_are_open_calls, chains_are_well_formed, each_note_has_its_turn, makers_are_of_the_run,
    notes_are_named, notes_are_within,
};
pub use log::RunLog;
pub use logging::turn_logged;
pub use replaying::replay_logged;
pub use run::LoggedRun;
