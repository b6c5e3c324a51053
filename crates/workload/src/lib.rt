//! The workload of N workers: an image that is made in place of read.
#![tactic(auto)]

mod generating;
mod laws;

pub use generating::generate;
pub use laws::workloads_are_images;
