//! Why a draft takes no further grant.

use wedge_base::NoMemory;

/// Why a draft takes no further grant.
#[derive(Clone, Copy, Debug, PartialEq, Eq)]
pub enum DraftFault {
    /// Out of memory.
    NoMemory,
    /// The draft has 1,024 grants, and none on this tag or descriptor, or at this entry.
    Full,
}

impl From<NoMemory> for DraftFault {
    ghost use Rattle.std.specs.Prelude.{◌≡◌};
    ghost use Rattle.grant_sheet.specs.declared.fault.DraftFault.TheVariants.{NoMemory};

    ghost from_gives = { λ _ e. e ≡ NoMemory };

    fn from(_e: NoMemory) -> DraftFault {
        DraftFault::NoMemory
    }
}
