//! What is left of an actor that has ended.

use crate::opening::StreamLabel;
use wedge_base::{ActorName, DenialAt, End, Items};

/// What is left of an actor that has ended: all that a report says of it, and the paths of the files that it
/// opened.
#[derive(Debug, Drop)]
pub struct EndedActor {
    pub name: ActorName,
    /// The address of the procedure at which it began.
    pub compartment: u32,
    pub end: End,
    /// The address of the instruction or fetch that ended it.
    pub pc: u32,
    /// The units of fuel that were left.
    pub fuel: u32,
    /// Its denials, in order.
    pub denials: Items<DenialAt>,
    /// The paths of the files that it opened, with the numbers of their descriptors, in order.
    pub labels: Items<StreamLabel>,
}
