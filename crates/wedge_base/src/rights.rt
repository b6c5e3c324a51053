//! Rights, denials, codes and ends.

ghost use Rattle.std.specs.Prelude.{◌≡◌, IfOk};

use crate::errors::NoMemory;
use crate::grants::Item;
use crate::numbers::{FdNo, Slot, TagNo};
use crate::paths::PathText;

/// What a grant on a tag allows. Cow < Read < ReadWrite.
#[derive(Clone, Copy, Debug, PartialEq, Eq)]
pub enum Right {
    /// A private copy of the bytes, and no access to the bytes themselves.
    Cow,
    Read,
    ReadWrite,
}

/// What a grant on a descriptor allows.
#[derive(Clone, Copy, Debug, PartialEq, Eq)]
pub struct FdBits {
    pub read: bool,
    pub append: bool,
}

/// A right on a tag, and the slot in which that tag was opened.
#[derive(Clone, Copy, Debug, PartialEq, Eq)]
pub struct Grant {
    pub right: Right,
    pub slot: Slot,
}

/// What a stream is: fixed bytes to be read, or bytes that grow at the end.
#[derive(Clone, Copy, Debug, PartialEq, Eq)]
pub enum StreamKind {
    Source,
    Append,
}

/// The grant that a denied request lacks.
#[derive(Clone, Debug, Drop)]
pub enum Denial {
    /// A right on a tag.
    Tag { tag: TagNo, wants: Right },
    /// Bits on a descriptor.
    Fd { fd: FdNo, wants: FdBits },
    /// The gate at an entry.
    Gate { entry: u32 },
    /// A grant of a draft that its creator may not give.
    Grant { item: Item },
    /// The user of a draft.
    User,
    /// The root directory of a draft.
    Root,
    /// A tag that the actor did not make, and so may not delete.
    NotMaker { tag: TagNo },
    /// The file at a path.
    File { path: PathText },
}

impl Denial {
    /// An equal denial.
    pub fn copy(&self) -> Result<Denial, NoMemory>
        ensures { IfOk result (λ d. d ≡ self.now) }
    {
        Ok(self.clone()?)
    }
}

/// The code that a service call answers in a1.
#[derive(Clone, Copy, Debug, PartialEq, Eq)]
pub enum Code {
    Ok,
    Denied,
    Full,
    FuelShort,
    Deep,
    NoSuch,
    Bad,
}

/// How an actor ended.
#[derive(Clone, Copy, Debug, PartialEq, Eq)]
pub enum End {
    /// It called exit with this value.
    Exited(u32),
    /// Its sheet did not allow a load or a store of shared memory.
    Denied,
    /// A load or a store at an address that is no multiple of its width.
    Misaligned,
    /// A jump to an address that is no multiple of 4.
    JumpMisaligned,
    /// A word that is no instruction.
    BadInstruction,
    /// The program counter was not in the text.
    FetchFault,
    /// A store into the text.
    TextStore,
    /// A load or a store where there is no memory.
    Unmapped,
    /// EBREAK.
    Break,
    /// No fuel was left.
    FuelOut,
}
