//! A run on threads: each sthread on a thread of its own, each run of a gate on the thread of its caller. All share the
//! cells of the run, each under its lock.
#![tactic(auto)]

mod gather;
mod runner;

pub use runner::run_image;
