//! Tests of the crates of the cells: what they answer that no command shows.
#![tactic(auto)]

#[cfg(test)]
mod fd_table_tests;
#[cfg(test)]
mod recycled_gate_tests;
#[cfg(test)]
mod smalloc_heap_tests;
#[cfg(test)]
mod tag_directory_tests;
#[cfg(test)]
mod tag_segment_tests;
#[cfg(test)]
mod wedge_events_tests;
