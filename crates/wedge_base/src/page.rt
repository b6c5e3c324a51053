//! A page of memory.

ghost use Rattle.std.specs.Prelude.{◌≡◌, ◌+◌, ◌-◌, ◌≤◌, ◌⊎◌, ◌++◌, length, slice_range};
ghost use Rattle.wedge_base.specs.Bytes.{overwrite, number_of, bytes_of, zeros};
ghost use Rattle.wedge_base.specs.Images.{page};

use std::alloc::AllocError;
use std::marker::Model;

/// A page: 4,096 bytes. Contracts see it as the list of its bytes.
#[derive(Debug, Drop)]
pub struct Page {
    bytes: [u8; 4096],
}

impl Model for Page {
    ghost use Rattle.std.specs.Prelude.{List, ℕ};

    ghost Value = { List ℕ };

    ghost view = { λ p. p.bytes };
}

impl Page {
    /// A page of zeros.
    #[tactic(auto, unfolding(crate::specs::Bytes::zeros))]
    pub fn zero() -> Page
        ensures { result ≡ zeros page }
    {
        Page { bytes: [0; 4096] }
    }

    /// A page that begins with these bytes, and has zeros after them.
    pub fn beginning(content: &[u8]) -> Page
        requires { length content.now ≤ page }
        ensures { result ≡ content.now ++ zeros (page - length content.now) }
    {
        let mut bytes = [0; 4096];
        write_over(&mut bytes, 0, content);
        Page { bytes }
    }

    /// Returns the bytes.
    pub fn as_slice(&self) -> &[u8]
        ensures is { result.now ≡ self.now }
        ensures len { length self.now ≡ page }
    {
        &self.bytes
    }

    /// The little-endian number in 1, 2 or 4 bytes from an offset on.
    #[inline(always)]
    pub fn number_at(&self, place: usize, width: u8) -> u32
        requires width { (width ≡ 1) ⊎ (width ≡ 2) ⊎ (width ≡ 4) }
        requires inside { place + width ≤ page }
        ensures { result ≡ number_of (slice_range self.now place (place + width)) }
    {
        number_of(&self.bytes[place..place + usize::from(width)])
    }

    /// Writes bytes over those from an offset on.
    pub fn write(&mut self, place: usize, new: &[u8])
        requires { place + length new.now ≤ page }
        ensures { self.new ≡ overwrite self.old place new.now }
    {
        write_over(&mut self.bytes, place, new);
    }

    /// Writes the low 1, 2 or 4 bytes of a number, little-endian, over those from an offset on.
    #[inline(always)]
    pub fn write_number(&mut self, place: usize, width: u8, value: u32)
        requires width { (width ≡ 1) ⊎ (width ≡ 2) ⊎ (width ≡ 4) }
        requires inside { place + width ≤ page }
        ensures { self.new ≡ overwrite self.old place (bytes_of width value) }
    {
        let bytes = value.to_le_bytes();
        match width {
            1 => write_over(&mut self.bytes, place, &bytes[..1]),
            2 => write_over(&mut self.bytes, place, &bytes[..2]),
            _ => write_over(&mut self.bytes, place, &bytes),
        }
    }
}

impl Clone for Page {
    ghost is_clone = { λ p q. q ≡ p };

    fn clone(&self) -> Result<Page, AllocError> {
        Ok(Page { bytes: self.bytes })
    }
}

/// Writes bytes over those from an offset on.
#[inline(always)]
fn write_over(bytes: &mut [u8], place: usize, new: &[u8])
    requires { place + length new.now ≤ length bytes.old }
    ensures { bytes.new ≡ overwrite bytes.old place new.now }
{
    let part = &mut bytes[place..place + new.len()];
    part.copy_from_slice(new);
}

/// The little-endian number in bytes.
#[inline(always)]
fn number_of(bytes: &[u8]) -> u32
    requires { (length bytes.now ≡ 1) ⊎ (length bytes.now ≡ 2) ⊎ (length bytes.now ≡ 4) }
    ensures { result ≡ number_of bytes.now }
{
    match bytes {
        [a] => u32::from(*a),
        [a, b] => u32::from(*a) + 256 * u32::from(*b),
        [a, b, c, d] => u32::from_le_bytes([*a, *b, *c, *d]),
        _ => 0,
    }
}
