//! What can go wrong outside.

ghost use Rattle.std.specs.Prelude.{◌≡◌};

use std::alloc::AllocError;
use thiserror::Error;

/// A device could not do what it was asked. Its count of faults has risen.
#[derive(Clone, Copy, Debug, PartialEq, Eq)]
pub struct Failed;

/// Why a file was not read whole.
#[derive(Clone, Copy, Debug, PartialEq, Eq, Error)]
pub enum ReadFault {
    /// Out of memory for its bytes.
    #[error("out of memory")]
    NoMemory,
    /// A read failed.
    #[error("a read failed")]
    Fault,
    /// It has more bytes than the limit, which is in bytes.
    #[error("more than {limit} bytes")]
    TooLong { limit: u64 },
}

impl From<AllocError> for ReadFault {
    ghost use Rattle.host_io.specs.declared.errors.ReadFault.TheVariants.{NoMemory};

    ghost from_gives = { λ _ e. e ≡ NoMemory };

    fn from(_e: AllocError) -> ReadFault {
        ReadFault::NoMemory
    }
}

impl From<Failed> for ReadFault {
    ghost use Rattle.host_io.specs.declared.errors.ReadFault.TheVariants.{Fault};

    ghost from_gives = { λ _ e. e ≡ Fault };

    fn from(_e: Failed) -> ReadFault {
        ReadFault::Fault
    }
}

/// Why bytes were not written whole.
#[derive(Clone, Copy, Debug, PartialEq, Eq, Error)]
pub enum WriteFault {
    /// A write failed.
    #[error("a write failed")]
    Fault,
}

impl From<Failed> for WriteFault {
    fn from(_e: Failed) -> WriteFault {
        WriteFault::Fault
    }
}
