//! Tests of runs on threads, those that race among them, and of the cells that threads share.
#![tactic(auto)]

#[cfg(test)]
mod cell_tests;
#[cfg(test)]
mod parts;
#[cfg(test)]
mod race_parts;
#[cfg(test)]
mod race_tests;
#[cfg(test)]
mod run_tests;
