//! A run on threads that is audited, and checked by a replay in the core: for tests of runs that race.
#![tactic(auto)]

mod checking;

pub use checking::{CheckedRun, ended, exit_of_root, image_of, length, run_at_once};
