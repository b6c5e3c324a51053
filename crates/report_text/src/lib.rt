//! The texts of a run: its report, its schedule, the counts of its caches, and the summary of a run of the workload.
#![tactic(auto)]

mod caches;
mod fault;
mod lines;
mod numbers;
mod reading;
mod summaries;
mod text;
mod words;
mod writing;

pub use caches::write_caches;
pub use fault::ScheduleFault;
pub use numbers::{write_address, write_decimal, write_name};
pub use reading::read_schedule;
pub use summaries::summary;
pub use text::report;
pub use words::{bits_word, right_word};
pub use writing::write_schedule;
