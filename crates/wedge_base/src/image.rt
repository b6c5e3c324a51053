//! The parts of an image.

ghost use Rattle.std.specs.Prelude.{◌≡◌};
ghost use Rattle.wedge_base.specs.Images as images;

use crate::items::{Bytes, Items};
use crate::rights::{FdBits, Right, StreamKind};

/// A procedure of the text.
#[derive(Clone, Debug, Drop)]
pub struct Procedure {
    pub name: Bytes,
    /// The address of its first instruction.
    pub address: u32,
}

/// Whether one of the procedures begins at an address.
pub fn begins_at(procedures: &[Procedure], address: u32) -> bool
    ensures { result ≡ images.begins_at procedures.now address }
{
    procedures.iter().any(|p| p.address == address)
}

/// A range of memory: the address at which it begins, and its bytes.
#[derive(Clone, Debug, Drop)]
pub struct MemoryRange {
    pub base: u32,
    pub bytes: Bytes,
}

/// The text of an image and its data ranges, as they are before the first instruction.
#[derive(Debug, Drop)]
pub struct Pristine {
    /// The address of the first word of the text.
    pub base: u32,
    pub words: Items<u32>,
    pub ranges: Items<MemoryRange>,
}

/// A declared tag. Its number and its slot are its index among the declared tags.
#[derive(Clone, Debug, Drop)]
pub struct TagEntry {
    pub name: Bytes,
    /// How many pages of 4,096 bytes.
    pub pages: u32,
    /// The root's right on it.
    pub right: Option<Right>,
    /// Its opening bytes; those after them are zero.
    pub content: Bytes,
}

/// A declared descriptor. Its number is its index among the declared descriptors.
#[derive(Clone, Debug, Drop)]
pub struct FdEntry {
    pub name: Bytes,
    pub kind: StreamKind,
    /// The root's bits on it.
    pub bits: FdBits,
    /// The bytes of a source; none of an append stream.
    pub content: Bytes,
}

/// A file.
#[derive(Clone, Debug, Drop)]
pub struct FileEntry {
    /// Its path: canonical, and of at least one part, once the image is checked.
    pub path: Bytes,
    /// The user who owns it.
    pub owner: u32,
    /// Bit 0 owner read, bit 1 owner append, bit 2 others read, bit 3 others append.
    pub mode: u32,
    pub kind: StreamKind,
    pub content: Bytes,
}
