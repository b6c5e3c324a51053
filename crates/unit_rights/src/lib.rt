//! Tests of the crates of the rights: what they answer that no command shows.
#![tactic(auto)]

#[cfg(test)]
mod callgate_tests;
#[cfg(test)]
mod grant_cache_tests;
#[cfg(test)]
mod grant_sheet_tests;
