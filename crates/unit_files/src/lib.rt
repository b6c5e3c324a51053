//! Tests of the crates of the devices and the files: what they answer that no command shows.
#![tactic(auto)]

#[cfg(test)]
mod file_tree_tests;
#[cfg(test)]
mod host_io_tests;
