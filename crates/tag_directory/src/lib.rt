//! The two directories: one allocates slots, each with a new tag number, the other descriptors.
#![tactic(auto)]

mod bounded;
mod directory;
mod fault;
mod laws;
mod object;
#[cfg(test)]
mod tests;

pub use bounded::{FdDirectory, SlotDirectory};
pub use directory::{Claimed, Directory};
pub use fault::ClaimFault;
pub use laws::{numbers_are_given_once, places_are_given_apart};
