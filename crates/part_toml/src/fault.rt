//! Why a partition is rejected.

use image_form::ImageError;
use rv_asm::AsmError;
use std::alloc::{AllocError, AllocFailed};
use wedge_base::{Bytes, NoMemory};

/// The first thing that is wrong with a partition.
#[derive(Debug, Drop)]
pub enum PartFault {
    NoMemory,
    /// The text is no TOML document.
    Toml,
    /// A key is missing or unknown, or `text` and `hex` are not given as the table wants. The name
    /// follows the table's name and a dot, but for a key of the top table.
    Key {
        name: Bytes,
    },
    /// The value of a key is not of its kind. The name is as above.
    Kind {
        name: Bytes,
    },
    /// The assembler rejects a line of the text; or, at line 0, the entry is no procedure.
    Asm {
        /// The number of the line, from 1, or 0.
        line: usize,
        why: rv_asm::Why,
    },
    /// The image is rejected at an offset of the bytes that would be written of it.
    Image {
        /// The offset in those bytes.
        at: usize,
        why: image_form::Why,
    },
}

impl From<NoMemory> for PartFault {
    ghost use Rattle.std.specs.Prelude.{◌≡◌};
    ghost use Rattle.part_toml.specs.declared.fault.PartFault.TheVariants.{NoMemory};

    ghost from_gives = { λ _ e. e ≡ NoMemory };

    fn from(_e: wedge_base::NoMemory) -> PartFault {
        PartFault::NoMemory
    }
}

impl From<AllocError> for PartFault {
    ghost use Rattle.std.specs.Prelude.{◌≡◌};
    ghost use Rattle.part_toml.specs.declared.fault.PartFault.TheVariants.{NoMemory};

    ghost from_gives = { λ _ e. e ≡ NoMemory };

    fn from(_e: AllocError) -> PartFault {
        PartFault::NoMemory
    }
}

impl<T: Drop> From<AllocFailed<T>> for PartFault {
    ghost use Rattle.std.specs.Prelude.{◌≡◌};
    ghost use Rattle.part_toml.specs.declared.fault.PartFault.TheVariants.{NoMemory};

    ghost from_gives = { λ _ e. e ≡ NoMemory };

    fn from(_e: AllocFailed<T>) -> PartFault {
        PartFault::NoMemory
    }
}

impl From<AsmError> for PartFault {
    ghost use Rattle.std.specs.Prelude.{◌≡◌};
    ghost use Rattle.part_toml.specs.Views.{part_fault_of_asm};

    ghost from_gives = { λ e f. f ≡ part_fault_of_asm e };

    fn from(e: AsmError) -> PartFault {
        match e {
            AsmError::NoMemory => PartFault::NoMemory,
            AsmError::Fault(fault) => PartFault::Asm {
                line: fault.line,
                why: fault.why,
            },
        }
    }
}

impl From<ImageError> for PartFault {
    ghost use Rattle.std.specs.Prelude.{◌≡◌};
    ghost use Rattle.part_toml.specs.Views.{part_fault_of_image};

    ghost from_gives = { λ e f. f ≡ part_fault_of_image e };

    fn from(e: ImageError) -> PartFault {
        match e {
            ImageError::NoMemory => PartFault::NoMemory,
            ImageError::Fault(fault) => PartFault::Image {
                at: fault.at,
                why: fault.why,
            },
        }
    }
}
