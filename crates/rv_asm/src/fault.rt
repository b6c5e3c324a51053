//! Why a text is rejected.

use std::alloc::{AllocError, AllocFailed};
use wedge_base::NoMemory;

/// What is wrong with a line of a text.
#[derive(Clone, Copy, Debug, PartialEq, Eq)]
pub enum Why {
    /// The first word of the line is not known.
    Mnemonic,
    /// The operands are not of the number, shape or registers that the first word takes; or a name
    /// is malformed, text follows a label's colon, or no service call has the name.
    Operand,
    /// An integer, or the distance of a label, is out of range.
    Range,
    /// A name is not defined where it is used: by a label for `la`, by an equate for a number, by
    /// either for a jump or a branch.
    Label,
    /// A label's name is that of an earlier label, or of an equate.
    Twice,
}

impl Why {
    ghost use Rattle.std.specs.Prelude.{◌≡◌};
    ghost use Rattle.rv_asm.specs.Words as words;

    /// The reason as it is printed.
    pub fn word(self) -> &'static str
        ensures { result.now ≡ words.asm_why_word self }
    {
        match self {
            Why::Mnemonic => "mnemonic",
            Why::Operand => "operand",
            Why::Range => "range",
            Why::Label => "label",
            Why::Twice => "twice",
        }
    }
}

/// The first line that is invalid, and what is wrong with it.
#[derive(Clone, Copy, Debug, PartialEq, Eq)]
pub struct Fault {
    /// The number of the line, from 1.
    pub line: usize,
    /// What is wrong with it.
    pub why: Why,
}

/// Why a text was not assembled.
#[derive(Debug, Drop)]
pub enum AsmError {
    /// Out of memory.
    NoMemory,
    /// The first invalid line.
    Fault(Fault),
}

impl From<NoMemory> for AsmError {
    ghost use Rattle.std.specs.Prelude.{◌≡◌};
    ghost use Rattle.rv_asm.specs.declared.fault.AsmError.TheVariants.{NoMemory};

    ghost from_gives = { λ _ e. e ≡ NoMemory };

    fn from(_e: wedge_base::NoMemory) -> AsmError {
        AsmError::NoMemory
    }
}

impl From<AllocError> for AsmError {
    ghost use Rattle.std.specs.Prelude.{◌≡◌};
    ghost use Rattle.rv_asm.specs.declared.fault.AsmError.TheVariants.{NoMemory};

    ghost from_gives = { λ _ e. e ≡ NoMemory };

    fn from(_e: AllocError) -> AsmError {
        AsmError::NoMemory
    }
}

impl<T: Drop> From<AllocFailed<T>> for AsmError {
    ghost use Rattle.std.specs.Prelude.{◌≡◌};
    ghost use Rattle.rv_asm.specs.declared.fault.AsmError.TheVariants.{NoMemory};

    ghost from_gives = { λ _ e. e ≡ NoMemory };

    fn from(_e: AllocFailed<T>) -> AsmError {
        AsmError::NoMemory
    }
}
