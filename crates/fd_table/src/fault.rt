//! Why a stream does not do what is asked.

use std::alloc::AllocError;
use wedge_base::{FdBits, NoMemory};

/// Why a stream does not do what is asked.
#[derive(Clone, Copy, Debug, PartialEq, Eq)]
pub enum StreamFault {
    NoMemory,
    /// It was closed, or was never opened.
    NoSuch,
    /// The asker lacks these bits.
    Denied { wants: FdBits },
    /// It is of the other kind.
    Bad,
}

impl From<NoMemory> for StreamFault {
    ghost use Rattle.std.specs.Prelude.{◌≡◌};
    ghost use Rattle.fd_table.specs.declared.fault.StreamFault.TheVariants.{NoMemory};

    ghost from_gives = { λ _ e. e ≡ NoMemory };

    fn from(_e: NoMemory) -> StreamFault {
        StreamFault::NoMemory
    }
}

impl From<AllocError> for StreamFault {
    ghost use Rattle.std.specs.Prelude.{◌≡◌};
    ghost use Rattle.fd_table.specs.declared.fault.StreamFault.TheVariants.{NoMemory};

    ghost from_gives = { λ _ e. e ≡ NoMemory };

    fn from(_e: AllocError) -> StreamFault {
        StreamFault::NoMemory
    }
}
