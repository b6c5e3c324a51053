//! Tests of the core's calls over an image: its turns, a complete run, and replays of schedules.
#![tactic(auto)]

#[cfg(test)]
mod core_tests;
