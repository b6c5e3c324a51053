//! Why no slot is allocated.

use std::alloc::{AllocError, AllocFailed};

/// Why no slot is allocated.
#[derive(Clone, Copy, Debug, PartialEq, Eq)]
pub enum ClaimFault {
    NoMemory,
    /// No slot is free, or no number is left.
    Full,
}

impl From<AllocError> for ClaimFault {
    ghost use Rattle.std.specs.Prelude.{◌≡◌};
    ghost use Rattle.tag_directory.specs.declared.fault.ClaimFault.TheVariants.{NoMemory};

    ghost from_gives = { λ _ e. e ≡ NoMemory };

    fn from(_e: AllocError) -> ClaimFault {
        ClaimFault::NoMemory
    }
}

impl<T: Drop> From<AllocFailed<T>> for ClaimFault {
    ghost use Rattle.std.specs.Prelude.{◌≡◌};
    ghost use Rattle.tag_directory.specs.declared.fault.ClaimFault.TheVariants.{NoMemory};

    ghost from_gives = { λ _ e. e ≡ NoMemory };

    fn from(_e: AllocFailed<T>) -> ClaimFault {
        ClaimFault::NoMemory
    }
}
