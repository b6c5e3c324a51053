//! Canonical paths.

ghost use Rattle.std.specs.Prelude.{◌≡◌, ◌==◌, true, IfOk};
ghost use Rattle.std.specs.List.{list_all};
ghost use Rattle.wedge_base.specs.Paths as paths;

use crate::errors::NoMemory;
use crate::items::Bytes;
use crate::texts::are_printed;
use std::marker::Model;

/// A canonical path of any length: `/` alone, or parts with a `/` before each, none of them empty,
/// `.` or `..`. What a program passes to a call is bytes, from which a path is resolved.
#[derive(Clone, Debug, Drop)]
pub struct PathText {
    text: Bytes,
}

impl Model for PathText {
    ghost use Rattle.std.specs.Prelude.{ℕ, List, ◌≡◌, true};
    ghost use Rattle.wedge_base.specs.Paths.{is_canonical};

    ghost Value = { List ℕ };

    ghost view = { λ p. p.text };

    ghost invariant = { λ p. is_canonical p.text ≡ true };
}

impl PathText {
    /// The path whose string is given, which is canonical.
    pub fn new(text: Bytes) -> PathText
        requires { paths.is_canonical text ≡ true }
        ensures { result ≡ text }
    {
        PathText { text }
    }

    /// Borrows its string.
    pub fn as_slice(&self) -> &[u8]
        ensures is { result.now ≡ self.now }
        ensures canonical { paths.is_canonical self.now ≡ true }
    {
        self.text.as_slice()
    }

    /// An equal path.
    pub fn copy(&self) -> Result<PathText, NoMemory>
        ensures { IfOk result (λ p. p ≡ self.now) }
    {
        Ok(PathText {
            text: self.text.copy()?,
        })
    }
}

/// Whether a string is a canonical path.
#[tactic(auto, unfolding(crate::specs::Paths::is_canonical))]
pub fn is_canonical(text: &[u8]) -> bool
    ensures { result ≡ paths.is_canonical text.now }
{
    match text {
        [] => false,
        [only] => *only == b'/',
        [first, others @ ..] => *first == b'/' && are_printed(others) && are_parts(others),
    }
}

/// Whether the pieces between the slashes of a string are parts of a canonical path.
fn are_parts(text: &[u8]) -> bool
    ensures { result ≡ list_all paths.is_part (paths.pieces text.now) }
{
    text.split(|c| *c == b'/').all(|part| is_part(part))
}

/// Whether a string is a part of a canonical path.
fn is_part(part: &[u8]) -> bool
    ensures { result ≡ paths.is_part part.now }
{
    match part {
        [] => false,
        [only] => *only != b'.',
        [first, second] => *first != b'.' || *second != b'.',
        [_, _, _, ..] => true,
    }
}
