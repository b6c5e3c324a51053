//! An actor's private memory.

ghost use Rattle.std.specs.Prelude.{◌≡◌, ◌%◌, ◌<◌, ◌≤◌, ◌^◌, ◌⊎◌, length, None, true, false, is_some, IfOk, OnOk, OnErr, option_map};
ghost use Rattle.std.specs.BTreeMap.{IsOrdered};
ghost use Rattle.std.specs.Ordering.{nat_cmp};
ghost use Rattle.wedge_base.specs.Bytes.{overwrite, number_of, bytes_of};
ghost use Rattle.wedge_base.specs.Images.{windows_base};
ghost use Rattle.wedge_base.specs.Memory.{range_at, read_range, write_at};
ghost use Rattle.cow_pages.specs.Below.{AreBelow};
ghost use Rattle.cow_pages.specs.Copies as copies;
ghost use Rattle.cow_pages.specs.PrivateMemory.{opening_memory, no_memory};
ghost use Rattle.cow_pages.specs.RangeIndex.{IsRangeIndex};

use crate::paged_range::PagedRange;
use crate::pages::Pages;
use std::alloc::Global;
use std::collections::BTreeMap;
use std::marker::Model;
use wedge_base::{Bytes, NoMemory, PAGE, PRIVATE_BASE, PRIVATE_SIZE, Place, Slot};

/// The private memory of an actor: the private range and its data ranges, which lie below the windows of
/// tags, and its private copies of tags, by slot.
#[derive(Debug)]
pub struct PrivateView {
    ranges: Vec<PagedRange>,
    copies: BTreeMap<u32, Pages>,
}

// By hand: a derived drop would be proved again in each function that drops one.
impl Drop for PrivateView {
    fn drop(self) {
        let Self {
            ranges: _,
            copies: _,
        } = self;
    }
}

impl Model for PrivateView {
    ghost use Rattle.std.specs.BTreeMap.{IsOrdered};
    ghost use Rattle.std.specs.Ordering.{nat_cmp};
    ghost use Rattle.cow_pages.specs.Below.{AreBelow};
    ghost use Rattle.cow_pages.specs.PrivateMemory.{PrivateMemory};

    ghost Value = { PrivateMemory };

    ghost view = { λ v. record { ranges = v.ranges.items; copies = v.copies.entries } };

    ghost invariant = { λ v. AreBelow v.ranges.items × IsOrdered nat_cmp v.copies };
}

impl PartialEq for PrivateView {
    ghost use Rattle.cow_pages.specs.Equality.{is_same_memory, same_memory_laws};

    ghost eq = { is_same_memory };

    ghost laws = { same_memory_laws };

    fn eq(&self, other: &Self) -> bool {
        self.ranges == other.ranges && self.copies == other.copies
    }
}

impl PrivateView {
    /// Private memory as an actor begins: a private range of zeros, the data ranges, in pages that both
    /// hold, and no copies.
    pub fn new(alloc: Global, data_ranges: &[PagedRange]) -> Result<PrivateView, NoMemory>
        requires { AreBelow data_ranges.now }
        ensures { IfOk result (λ v. v ≡ opening_memory data_ranges.now) }
    {
        let mut ranges = Vec::with_capacity(alloc, 1)?;
        let private_range = PagedRange::zeroed(alloc, PRIVATE_BASE, PRIVATE_SIZE / PAGE)?;
        ranges.push(private_range)?;
        for range in data_ranges {
            ranges.push(range.snapshot()?)?;
        }
        Ok(PrivateView {
            ranges,
            copies: BTreeMap::new(alloc),
        })
    }

    /// Equal private memory, in pages that both hold.
    pub fn snapshot(&self) -> Result<PrivateView, NoMemory>
        ensures { IfOk result (λ v. v ≡ self.now) }
    {
        Ok(PrivateView {
            ranges: self.ranges.clone()?,
            copies: self.copies.clone()?,
        })
    }

    /// Frees it: no range and no copy is left.
    pub fn clear(&mut self)
        ensures { self.new ≡ no_memory }
    {
        self.ranges.clear();
        self.copies.clear();
    }

    /// No range has bytes where the windows of tags begin, nor above.
    #[inline(always)]
    pub fn has_no_range(&self, address: u32, size: u32)
        requires window { windows_base ≤ address }
        requires some { 1 ≤ size }
        ensures { range_at self.now.ranges address size ≡ None }
    {
        // The memory is opened here, so that what its type keeps is at hand.
        let _ = &self.ranges;
    }

    /// Whether so many bytes from an address on lie in one range.
    pub fn holds(&self, address: u32, size: u32) -> bool
        ensures { result ≡ is_some (range_at self.now.ranges address size) }
    {
        range_index(self.ranges.as_slice(), address, size).is_some()
    }

    /// The little-endian number in 1, 2 or 4 bytes at an address, a multiple of that width; none where
    /// they lie in no range.
    #[inline(always)]
    pub fn load(&self, address: u32, width: u8) -> Option<u32>
        requires width { (width ≡ 1) ⊎ (width ≡ 2) ⊎ (width ≡ 4) }
        requires aligned { address % width ≡ 0 }
        ensures { result ≡ option_map (λ r. number_of (read_range r address width))
            (range_at self.now.ranges address width) }
    {
        match range_index(self.ranges.as_slice(), address, u32::from(width)) {
            None => None,
            Some(i) => {
                let range = &self.ranges[i];
                Some(range.load(address, width))
            }
        }
    }

    /// Writes the low 1, 2 or 4 bytes of a number, little-endian, at an address, a multiple of that
    /// width, if they lie in one range; returns whether they do. When out of memory, nothing is changed.
    #[inline(always)]
    pub fn store(&mut self, address: u32, width: u8, value: u32) -> Result<bool, NoMemory>
        requires width { (width ≡ 1) ⊎ (width ≡ 2) ⊎ (width ≡ 4) }
        requires aligned { address % width ≡ 0 }
        ensures found { IfOk result (λ b. b ≡ is_some (range_at self.old.ranges address width)) }
        ensures after { let ranges = write_at self.old.ranges address (bytes_of width value)
            in OnOk result (self.new ≡ record self.old { ranges = ranges }) }
        ensures unfound { IfOk result (λ b. b ≡ false → self.new ≡ self.old) }
        ensures err { OnErr result (self.new ≡ self.old) }
    {
        match range_index(self.ranges.as_slice(), address, u32::from(width)) {
            None => Ok(false),
            Some(i) => {
                self.ranges[i].store(address, width, value)?;
                Ok(true)
            }
        }
    }

    /// A copy of so many bytes at an address, if they lie in one range: what a buffer holds.
    pub fn copy_of(&self, alloc: Global, address: u32, size: u32) -> Result<Option<Bytes>, NoMemory>
        ensures { IfOk result (λ b. b ≡ option_map (λ r. read_range r address size)
            (range_at self.now.ranges address size)) }
    {
        match range_index(self.ranges.as_slice(), address, size) {
            None => Ok(None),
            Some(i) => {
                let range = &self.ranges[i];
                Ok(Some(range.copy(alloc, address, size)?))
            }
        }
    }

    /// Writes bytes at an address, if they lie in one range; returns whether they do. When out of
    /// memory, nothing is changed.
    pub fn write(&mut self, address: u32, new: &[u8]) -> Result<bool, NoMemory>
        requires { length new.now < 2 ^ 32 }
        ensures found { let n = length new.now
            in IfOk result (λ b. b ≡ is_some (range_at self.old.ranges address n)) }
        ensures after { let ranges = write_at self.old.ranges address new.now
            in OnOk result (self.new ≡ record self.old { ranges = ranges }) }
        ensures err { OnErr result (self.new ≡ self.old) }
    {
        match range_index(self.ranges.as_slice(), address, new.len() as u32) {
            None => Ok(false),
            Some(i) => {
                self.ranges[i].write(address, new)?;
                Ok(true)
            }
        }
    }

    /// The little-endian number in 1, 2 or 4 bytes at an offset of the copy at a slot, a multiple of that
    /// width: none where no copy is there, and `Some(None)` where the bytes go past its pages.
    #[inline(always)]
    pub fn load_copy(&self, place: Place, width: u8) -> Option<Option<u32>>
        requires width { (width ≡ 1) ⊎ (width ≡ 2) ⊎ (width ≡ 4) }
        requires aligned { place.offset % width ≡ 0 }
        ensures { result ≡ option_map (λ bytes. option_map number_of
            (copies.read_copy place.offset width bytes))
            (copies.copy_at self.now.copies place.slot) }
    {
        if self.copies.is_empty() {
            return None;
        }
        match self.copies.get(&place.slot.0) {
            None => None,
            Some(pages) => Some(load_in(pages, place.offset, width)),
        }
    }

    /// Writes the low 1, 2 or 4 bytes of a number, little-endian, at an offset of the copy at a slot, a
    /// multiple of that width: none where no copy is there, else whether its pages have these bytes. When
    /// out of memory, nothing is changed. Most actors have no copy at all, which is seen in line.
    #[inline(always)]
    pub fn store_copy(
        &mut self,
        place: Place,
        width: u8,
        value: u32,
    ) -> Result<Option<bool>, NoMemory>
        requires width { (width ≡ 1) ⊎ (width ≡ 2) ⊎ (width ≡ 4) }
        requires aligned { place.offset % width ≡ 0 }
        ensures found { let here = copies.copy_at self.old.copies place.slot in IfOk result
            (λ o. o ≡ option_map (λ bytes. copies.holds_copy place.offset width bytes) here) }
        ensures after { let new = bytes_of width value
            in let all = copies.stored_copy self.old.copies place.slot place.offset new
            in OnOk result (self.new ≡ record self.old { copies = all }) }
        ensures err { OnErr result (self.new ≡ self.old) }
    {
        if self.copies.is_empty() {
            return Ok(None);
        }
        store_at(&mut self.copies, place.slot.0, place.offset, width, value)
    }

    /// Puts a private copy of a tag at a slot, in place of the one that is there. When out of memory,
    /// nothing is changed.
    pub fn put_copy(&mut self, slot: Slot, pages: Pages) -> Result<(), NoMemory>
        ensures ok { let all = copies.with_copy self.old.copies slot pages
            in OnOk result (self.new ≡ record self.old { copies = all }) }
        ensures err { OnErr result (self.new ≡ self.old) }
    {
        self.copies.insert(slot.0, pages)?;
        Ok(())
    }

    /// Removes the copy at a slot, if there is one.
    #[tactic(auto, using(crate::proofs::CopyEntries::removed_is))]
    pub fn drop_copy(&mut self, slot: Slot)
        ensures { let left = copies.without_copy self.old.copies slot
            in self.new ≡ record self.old { copies = left } }
    {
        self.copies.remove(&slot.0);
    }

    /// Returns the copy at a slot, if there is one.
    pub fn copy_at(&self, slot: Slot) -> Option<&Pages>
        ensures { option_map (λ p. p.now) result ≡ copies.copy_at self.now.copies slot }
    {
        self.copies.get(&slot.0)
    }
}

/// The index of the range in which so many bytes at an address lie.
#[inline(always)]
fn range_index(ranges: &[PagedRange], address: u32, size: u32) -> Option<usize>
    ensures is { IsRangeIndex ranges.now address size result }
{
    for (i, range) in ranges.iter().enumerate() {
        if range.holds(address, size) {
            return Some(i);
        }
    }
    None
}

/// The number in 1, 2 or 4 bytes at an offset, if the pages have them.
fn load_in(pages: &Pages, offset: u32, width: u8) -> Option<u32>
    requires width { (width ≡ 1) ⊎ (width ≡ 2) ⊎ (width ≡ 4) }
    requires aligned { offset % width ≡ 0 }
    ensures { result ≡ option_map number_of (copies.read_copy offset width pages.now) }
{
    if offset as usize + usize::from(width) <= pages.len() {
        Some(pages.load(offset, width))
    } else {
        None
    }
}

/// Writes the low 1, 2 or 4 bytes of a number at an offset of the copy at a slot: none where no copy is
/// there, else whether its pages have these bytes. When out of memory, nothing is changed.
#[inline(never)]
fn store_at(
    all: &mut BTreeMap<u32, Pages>,
    slot: u32,
    offset: u32,
    width: u8,
    value: u32,
) -> Result<Option<bool>, NoMemory>
    requires width { (width ≡ 1) ⊎ (width ≡ 2) ⊎ (width ≡ 4) }
    requires aligned { offset % width ≡ 0 }
    ensures found { let here = copies.copy_at all.old.entries slot in IfOk result
        (λ o. o ≡ option_map (λ bytes. copies.holds_copy offset width bytes) here) }
    ensures after { let new = copies.stored_copy all.old.entries slot offset (bytes_of width value)
        in OnOk result (all.new.entries ≡ new) }
    ensures ordered { IsOrdered nat_cmp all.new }
    ensures err { OnErr result (all.new.entries ≡ all.old.entries) }
{
    let Some(pages) = all.get_mut(&slot) else {
        return Ok(None);
    };
    let held = store_in(pages, offset, width, value)?;
    Ok(Some(held))
}

/// Writes the low 1, 2 or 4 bytes of a number at an offset, if the pages have them; returns whether they
/// do. When out of memory, nothing is changed.
fn store_in(pages: &mut Pages, offset: u32, width: u8, value: u32) -> Result<bool, NoMemory>
    requires width { (width ≡ 1) ⊎ (width ≡ 2) ⊎ (width ≡ 4) }
    requires aligned { offset % width ≡ 0 }
    ensures holds { IfOk result (λ b. b ≡ copies.holds_copy offset width pages.old) }
    ensures written { let new = bytes_of width value
        in IfOk result (λ b. b ≡ true → pages.new ≡ overwrite pages.old offset new) }
    ensures unwritten { IfOk result (λ b. b ≡ false → pages.new ≡ pages.old) }
    ensures err { OnErr result (pages.new ≡ pages.old) }
{
    if offset as usize + usize::from(width) > pages.len() {
        return Ok(false);
    }
    pages.store(offset, width, value)?;
    Ok(true)
}
