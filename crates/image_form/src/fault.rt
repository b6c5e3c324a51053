//! Why an image is rejected.

use std::alloc::{AllocError, AllocFailed};
use wedge_base::NoMemory;

/// What is wrong at an offset of an image's bytes.
#[derive(Clone, Copy, Debug, PartialEq, Eq)]
pub enum Why {
    /// The bytes don't begin with `WEDG`.
    Magic,
    /// The version isn't 1.
    Version,
    /// A field, or the bytes after a length, go past the end.
    Truncated,
    /// A byte follows the last field.
    Trailing,
    /// A name or a path that is not above the one before it, in byte order.
    Order,
    /// A value, or the form of a string, that its field doesn't allow.
    Range,
    /// Two procedures at one address, data that begins before the data in front of it ends, or that
    /// shares memory with the text.
    Overlap,
    /// More than a limit allows.
    Limit,
}

impl Why {
    ghost use Rattle.std.specs.Prelude.{◌≡◌};
    ghost use Rattle.image_form.specs.Words as words;

    /// The word for it.
    pub fn word(self) -> &'static str
        ensures { result.now ≡ words.image_why_word self }
    {
        match self {
            Why::Magic => "magic",
            Why::Version => "version",
            Why::Truncated => "truncated",
            Why::Trailing => "trailing",
            Why::Order => "order",
            Why::Range => "range",
            Why::Overlap => "overlap",
            Why::Limit => "limit",
        }
    }
}

/// The first thing that is wrong with an image, by the order of its fields.
#[derive(Clone, Copy, Debug, PartialEq, Eq)]
pub struct Fault {
    /// The offset in the bytes.
    pub at: usize,
    pub why: Why,
}

/// Why there is no image.
#[derive(Debug, Drop)]
pub enum ImageError {
    NoMemory,
    Fault(Fault),
}

impl From<NoMemory> for ImageError {
    ghost use Rattle.std.specs.Prelude.{◌≡◌};
    ghost use Rattle.image_form.specs.declared.fault.ImageError.TheVariants.{NoMemory};

    ghost from_gives = { λ _ e. e ≡ NoMemory };

    fn from(_e: wedge_base::NoMemory) -> ImageError {
        ImageError::NoMemory
    }
}

impl From<AllocError> for ImageError {
    ghost use Rattle.std.specs.Prelude.{◌≡◌};
    ghost use Rattle.image_form.specs.declared.fault.ImageError.TheVariants.{NoMemory};

    ghost from_gives = { λ _ e. e ≡ NoMemory };

    fn from(_e: AllocError) -> ImageError {
        ImageError::NoMemory
    }
}

impl<T: Drop> From<AllocFailed<T>> for ImageError {
    ghost use Rattle.std.specs.Prelude.{◌≡◌};
    ghost use Rattle.image_form.specs.declared.fault.ImageError.TheVariants.{NoMemory};

    ghost from_gives = { λ _ e. e ≡ NoMemory };

    fn from(_e: AllocFailed<T>) -> ImageError {
        ImageError::NoMemory
    }
}
