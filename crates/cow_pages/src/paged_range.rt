//! A range of memory in pages.

ghost use Rattle.std.specs.Prelude.{◌≡◌, ◌*◌, ◌%◌, ◌<◌, ◌^◌, ◌⊎◌, length, IfOk, OnOk, OnErr, IsTrue};
ghost use Rattle.wedge_base.specs.Bytes.{number_of, bytes_of, zeros};
ghost use Rattle.wedge_base.specs.Images.{page};
ghost use Rattle.wedge_base.specs.Memory.{lies_in, read_range, write_range};

use crate::pages::Pages;
use std::alloc::{AllocError, Global};
use std::marker::Model;
use wedge_base::{Bytes, NoMemory, PAGE};

/// A range of memory: the address at which it begins, a multiple of 4, and its bytes, in pages from
/// that address on. The last page has zeros past the end of the range.
#[derive(Debug, Drop)]
pub struct PagedRange {
    base: u32,
    size: u32,
    pages: Pages,
}

impl Model for PagedRange {
    ghost use Rattle.std.specs.Prelude.{◌≡◌, ◌%◌, ◌≤◌, length, take};
    ghost use Rattle.wedge_base.specs.declared.image.MemoryRange.{MemoryRange};

    ghost Value = { MemoryRange };

    ghost view = { λ r. record { base = r.base; bytes = take r.size r.pages } };

    ghost invariant = { λ r. (r.base % 4 ≡ 0) × (r.size ≤ length r.pages) };
}

impl Clone for PagedRange {
    ghost is_clone = { λ r s. s ≡ r };

    fn clone(&self) -> Result<PagedRange, AllocError> {
        self.snapshot().map_err(|_| AllocError)
    }
}

impl PartialEq for PagedRange {
    ghost use Rattle.std.specs.Prelude.{◌==◌};
    ghost use Rattle.std.specs.Cmp.Lexicographic.{pointwise};
    ghost use Rattle.std.specs.Cmp.Rules.{comparing};
    ghost use Rattle.std.specs.Ordering.{on, eq_of_both};
    ghost use Rattle.std.proofs.Common.{rules};

    ghost eq = { eq_of_both (on (λ r. r.base) ◌==◌) (on (λ r. r.bytes) (pointwise ◌==◌)) };

    ghost laws = { Prim.search (comparing, rules) };

    fn eq(&self, other: &Self) -> bool {
        self.base == other.base
            && self.size == other.size
            && self.pages.starts_as(&other.pages, self.size as usize)
    }
}

impl PagedRange {
    /// A range of this content, from an address on that is a multiple of 4.
    pub fn new(alloc: Global, base: u32, content: &[u8]) -> Result<PagedRange, NoMemory>
        requires base { base % 4 ≡ 0 }
        requires size { length content.now < 2 ^ 32 }
        ensures { IfOk result (λ r. r ≡ record { base = base; bytes = content.now }) }
    {
        let size = content.len() as u32;
        let pages = Pages::new(alloc, content, size.div_ceil(PAGE))?;
        Ok(PagedRange { base, size, pages })
    }

    /// A range of so many pages of zeros, from an address on that is a multiple of 4.
    pub fn zeroed(alloc: Global, base: u32, count: u32) -> Result<PagedRange, NoMemory>
        requires base { base % 4 ≡ 0 }
        requires size { count * page < 2 ^ 32 }
        ensures { IfOk result (λ r. r ≡ record { base = base; bytes = zeros (count * page) }) }
    {
        let pages = Pages::new(alloc, &[], count)?;
        Ok(PagedRange {
            base,
            size: count * PAGE,
            pages,
        })
    }

    /// An equal range, in pages that both hold.
    pub fn snapshot(&self) -> Result<PagedRange, NoMemory>
        ensures { IfOk result (λ r. r ≡ self.now) }
    {
        Ok(PagedRange {
            base: self.base,
            size: self.size,
            pages: self.pages.snapshot()?,
        })
    }

    /// Whether so many bytes from an address on lie in it.
    #[inline(always)]
    pub fn holds(&self, address: u32, size: u32) -> bool
        ensures { result ≡ lies_in address size self.now }
    {
        let end = u64::from(self.base) + u64::from(self.size);
        let last = u64::from(address) + u64::from(size);
        self.base <= address && last <= end
    }

    /// The little-endian number in 1, 2 or 4 bytes at an address, a multiple of that width.
    #[inline(always)]
    pub fn load(&self, address: u32, width: u8) -> u32
        requires width { (width ≡ 1) ⊎ (width ≡ 2) ⊎ (width ≡ 4) }
        requires aligned { address % width ≡ 0 }
        requires lies { IsTrue (lies_in address width self.now) }
        ensures { result ≡ number_of (read_range self.now address width) }
    {
        self.pages.load(address - self.base, width)
    }

    /// Writes the low 1, 2 or 4 bytes of a number, little-endian, at an address, a multiple of that
    /// width. When out of memory, nothing is changed.
    #[inline(always)]
    pub fn store(&mut self, address: u32, width: u8, value: u32) -> Result<(), NoMemory>
        requires width { (width ≡ 1) ⊎ (width ≡ 2) ⊎ (width ≡ 4) }
        requires aligned { address % width ≡ 0 }
        requires lies { IsTrue (lies_in address width self.old) }
        ensures ok { OnOk result (self.new
            ≡ write_range address (bytes_of width value) self.old) }
        ensures base { self.new.base ≡ self.old.base }
        ensures len { length self.new.bytes ≡ length self.old.bytes }
        ensures err { OnErr result (self.new ≡ self.old) }
    {
        self.pages.store(address - self.base, width, value)
    }

    /// A copy of so many bytes at an address.
    pub fn copy(&self, alloc: Global, address: u32, size: u32) -> Result<Bytes, NoMemory>
        requires { IsTrue (lies_in address size self.now) }
        ensures { IfOk result (λ b. b ≡ read_range self.now address size) }
    {
        self.pages.copy(alloc, address - self.base, size)
    }

    /// Writes bytes at an address. When out of memory, nothing is changed.
    pub fn write(&mut self, address: u32, new: &[u8]) -> Result<(), NoMemory>
        requires { IsTrue (lies_in address (length new.now) self.old) }
        ensures ok { OnOk result (self.new ≡ write_range address new.now self.old) }
        ensures base { self.new.base ≡ self.old.base }
        ensures len { length self.new.bytes ≡ length self.old.bytes }
        ensures err { OnErr result (self.new ≡ self.old) }
    {
        self.pages.write(address - self.base, new)
    }
}
