//! Tests of the crates of the values and the instructions: what they answer that no command shows.
#![tactic(auto)]

#[cfg(test)]
mod cow_pages_tests;
#[cfg(test)]
mod rv_hart_tests;
#[cfg(test)]
mod wedge_base_tests;
