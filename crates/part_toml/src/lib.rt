//! A partition, as a server author writes it, and the image that it is.
#![tactic(auto)]

mod checking;
mod entries;
mod equates;
mod fault;
mod joining;
mod keys;
mod reading;
mod tables;
mod values;

pub use fault::PartFault;
pub use joining::read_partition_with;
pub use reading::read_partition;
