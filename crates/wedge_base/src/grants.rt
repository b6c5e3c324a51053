//! Grants of a draft, and gates.

ghost use Rattle.std.specs.Prelude.{◌≡◌, IfOk};
ghost use Rattle.wedge_base.specs.Identities.{same_gate};

use crate::errors::NoMemory;
use crate::names::ActorName;
use crate::numbers::{FdNo, TagNo};
use crate::rights::{FdBits, Right};

/// One grant of a draft.
#[derive(Clone, Copy, Debug, PartialEq, Eq)]
pub enum Item {
    /// A right on a tag.
    Tag { tag: TagNo, right: Right },
    /// Bits on a descriptor.
    Fd { fd: FdNo, bits: FdBits },
    /// The gate at the address of a procedure.
    Gate { entry: u32 },
}

/// The identity of a gate: the actor that made it, and its number among that actor's gates, from 1.
#[derive(Clone, Debug, PartialEq, Drop)]
pub struct GateId {
    pub maker: ActorName,
    pub number: u32,
}

impl GateId {
    /// An equal identity.
    pub fn copy(&self) -> Result<GateId, NoMemory>
        ensures { IfOk result (λ g. g ≡ self.now) }
    {
        Ok(GateId {
            maker: self.maker.copy()?,
            number: self.number,
        })
    }

    /// Whether two identities are the same.
    pub fn is_same(&self, other: &GateId) -> bool
        ensures { result ≡ same_gate self.now other.now }
    {
        self.maker.is_same(&other.maker) && self.number == other.number
    }
}

/// Whether a gate keeps its memory from one run to the next.
#[derive(Clone, Copy, Debug, PartialEq, Eq)]
pub enum GateKind {
    /// Each run begins with the memory that the gate was made with: the image's data, a zeroed
    /// private range, and the copies of its Cow grants.
    Fresh,
    /// Each run but the first begins with the memory that the run before left.
    Recycled,
}
