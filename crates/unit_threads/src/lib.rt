//! Tests of the crates of threads.
#![tactic(auto)]

#[cfg(test)]
mod declared_slot_tests;
#[cfg(test)]
mod journal_cell_tests;
#[cfg(test)]
mod ruled_cell_tests;
