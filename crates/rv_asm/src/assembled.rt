//! The equates that the assembler takes, and its result.

use wedge_base::{Bytes, Items, Procedure};

/// A name that stands for a number.
#[derive(Clone, Debug, Drop)]
pub struct Equate {
    /// The name. One that is malformed can't be used in a text.
    pub name: Bytes,
    /// The number that it stands for.
    pub value: u32,
}

/// What a text was assembled to.
#[derive(Clone, Debug, Drop)]
pub struct Assembled {
    /// The words; the first has the base address.
    pub words: Items<u32>,
    /// The procedures, in the order of their lines.
    pub procedures: Items<Procedure>,
}
