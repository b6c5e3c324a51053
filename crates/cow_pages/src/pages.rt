//! Memory in pages that are shared until they are written.

ghost use Rattle.std.specs.Prelude.{◌≡◌, ◌+◌, ◌*◌, ◌/◌, ◌%◌, ◌<◌, ◌≤◌, ◌^◌, ◌⊎◌, length, slice_range, take, true, ◌↔◌, IfOk, OnOk, OnErr};
ghost use Rattle.std.specs.Arc.{arc_value};
ghost use Rattle.wedge_base.specs.Bytes.{overwrite, number_of, bytes_of, zeros};
ghost use Rattle.wedge_base.specs.Images.{page};
ghost use Rattle.wedge_base.specs.Pages.{pages_of};
ghost use Rattle.cow_pages.specs.Listed.{bytes_listed};
ghost use Rattle.cow_pages.specs.SharedPages.{HaveLength, contents, bytes_in, zero_padded, page_from};

use crate::page_list::{list_of, pages_in};
use std::alloc::{AllocError, Global};
use std::marker::Model;
use std::sync::Arc;
use wedge_base::{Bytes, NoMemory, PAGE, Page, PageList};

/// Bytes of a page, as a length.
const PAGE_BYTES: usize = PAGE as usize;

/// Memory in whole pages of 4,096 bytes. Contracts see it as the list of its bytes. A page that others
/// hold too is copied when it is first written.
#[derive(Debug, Drop)]
pub struct Pages {
    pages: Vec<Arc<Page>>,
}

impl Model for Pages {
    ghost use Rattle.std.specs.Prelude.{List, ℕ, ◌<◌, ◌^◌, length};
    ghost use Rattle.wedge_base.specs.Images.{page};
    ghost use Rattle.cow_pages.specs.SharedPages.{HaveLength, contents, bytes_in};

    ghost Value = { List ℕ };

    ghost view = { λ s. bytes_in s.pages.items };

    ghost invariant = { λ s. let pages = s.pages.items
        in HaveLength page (contents pages) × (length pages < 2 ^ 32) };
}

impl Clone for Pages {
    ghost is_clone = { λ p q. q ≡ p };

    fn clone(&self) -> Result<Pages, AllocError> {
        self.snapshot().map_err(|_| AllocError)
    }
}

impl PartialEq for Pages {
    ghost use Rattle.std.specs.Prelude.{◌==◌};
    ghost use Rattle.std.specs.Cmp.Lexicographic.{pointwise};
    ghost use Rattle.std.specs.Cmp.Rules.{comparing};
    ghost use Rattle.std.proofs.Common.{rules};

    ghost eq = { pointwise ◌==◌ };

    ghost laws = { Prim.search (comparing, rules) };

    fn eq(&self, other: &Self) -> bool {
        self.len() == other.len() && self.starts_as(other, self.len())
    }
}

impl Pages {
    /// So many pages that begin with this content, and are zero past it. The pages that lie past it are
    /// one page, shared.
    pub fn new(alloc: Global, content: &[u8], count: u32) -> Result<Pages, NoMemory>
        requires { length content.now ≤ count * page }
        ensures is { IfOk result (λ p. p ≡ zero_padded content.now (count * page)) }
        ensures len { IfOk result (λ p. length p ≡ count * page) }
    {
        let zero = Arc::new(alloc, Page::zero())?;
        let mut pages = Vec::with_capacity(alloc, count as usize)?;
        for k in 0..count {
            let page = page_from(alloc, &zero, content, k as usize * PAGE_BYTES)?;
            pages.push(page)?;
        }
        Ok(Pages { pages })
    }

    /// How many bytes they are: whole pages.
    pub fn len(&self) -> usize
        ensures is { result ≡ length self.now }
        ensures whole { length self.now % page ≡ 0 }
    {
        self.pages.len() * PAGE_BYTES
    }

    /// The little-endian number in 1, 2 or 4 bytes at an offset, a multiple of that width.
    #[inline(always)]
    pub fn load(&self, offset: u32, width: u8) -> u32
        requires width { (width ≡ 1) ⊎ (width ≡ 2) ⊎ (width ≡ 4) }
        requires aligned { offset % width ≡ 0 }
        requires inside { offset + width ≤ length self.now }
        ensures { result ≡ number_of (slice_range self.now offset (offset + width)) }
    {
        let start = offset as usize;
        let shared = &self.pages[start / PAGE_BYTES];
        shared.number_at(start % PAGE_BYTES, width)
    }

    /// Writes the low 1, 2 or 4 bytes of a number, little-endian, at an offset, a multiple of that width.
    /// When out of memory, nothing is changed.
    #[inline(always)]
    pub fn store(&mut self, offset: u32, width: u8, value: u32) -> Result<(), NoMemory>
        requires width { (width ≡ 1) ⊎ (width ≡ 2) ⊎ (width ≡ 4) }
        requires aligned { offset % width ≡ 0 }
        requires inside { offset + width ≤ length self.old }
        ensures ok { OnOk result (self.new ≡ overwrite self.old offset (bytes_of width value)) }
        ensures len { length self.new ≡ length self.old }
        ensures err { OnErr result (self.new ≡ self.old) }
    {
        let start = offset as usize;
        let shared = &mut self.pages[start / PAGE_BYTES];
        write_number(shared, start % PAGE_BYTES, width, value)
    }

    /// A copy of so many bytes from an offset on.
    pub fn copy(&self, alloc: Global, offset: u32, size: u32) -> Result<Bytes, NoMemory>
        requires { offset + size ≤ length self.now }
        ensures { IfOk result (λ b. b ≡ slice_range self.now offset (offset + size)) }
    {
        let start = offset as usize;
        let bytes = copy_range(alloc, self.pages.as_slice(), start, start + size as usize)?;
        Ok(Bytes::new(bytes))
    }

    /// Writes bytes over those from an offset on. When out of memory, nothing is changed.
    pub fn write(&mut self, offset: u32, new: &[u8]) -> Result<(), NoMemory>
        requires { offset + length new.now ≤ length self.old }
        ensures ok { OnOk result (self.new ≡ overwrite self.old offset new.now) }
        ensures len { length self.new ≡ length self.old }
        ensures err { OnErr result (self.new ≡ self.old) }
    {
        let start = offset as usize;
        if !new.is_empty() && start % PAGE_BYTES + new.len() <= PAGE_BYTES {
            return write_piece(&mut self.pages, start, new);
        }
        let mut pages = self.pages.clone()?;
        write_pieces(&mut pages, start, new)?;
        self.pages = pages;
        Ok(())
    }

    /// The pages in order, each with its index from 0. Both hold them.
    pub fn list(&self, alloc: Global) -> Result<PageList, NoMemory>
        ensures is { IfOk result (λ l. l ≡ pages_of self.now) }
        ensures few { IfOk result (λ l. length l < 2 ^ 32) }
    {
        Ok(PageList::new(list_of(alloc, self.pages.as_slice())?))
    }

    /// The pages of a list, in its order. Both hold them.
    pub fn of_list(alloc: Global, list: &PageList) -> Result<Pages, NoMemory>
        requires few { length list.now < 2 ^ 32 }
        ensures { IfOk result (λ p. p ≡ bytes_listed list.now) }
    {
        Ok(Pages {
            pages: pages_in(alloc, list.as_slice())?,
        })
    }

    /// Whether so many first bytes of both are equal.
    pub(crate) fn starts_as(&self, other: &Pages, size: usize) -> bool
        requires own { size ≤ length self.now }
        requires others { size ≤ length other.now }
        ensures { (result ≡ true) ↔ (take size self.now ≡ take size other.now) }
    {
        begin_alike(self.pages.as_slice(), other.pages.as_slice(), size)
    }

    /// The same bytes, in pages that both hold.
    pub fn snapshot(&self) -> Result<Pages, NoMemory>
        ensures { IfOk result (λ p. p ≡ self.now) }
    {
        Ok(Pages {
            pages: self.pages.clone()?,
        })
    }
}

/// The page of content from an offset on; the page of zeros, shared, where the offset is past the content.
fn page_from(
    alloc: Global,
    zero: &Arc<Page>,
    content: &[u8],
    start: usize,
) -> Result<Arc<Page>, NoMemory>
    requires zero { arc_value zero.now ≡ zeros page }
    requires start { start < 2 ^ 44 }
    ensures is { IfOk result (λ p. arc_value p ≡ page_from content.now start) }
{
    if start >= content.len() {
        return Ok(zero.clone()?);
    }
    let end = content.len().min(start + PAGE_BYTES);
    Ok(Arc::new(alloc, Page::beginning(&content[start..end]))?)
}

/// A copy of the bytes from one offset to another, page by page.
fn copy_range(
    alloc: Global,
    pages: &[Arc<Page>],
    start: usize,
    end: usize,
) -> Result<Vec<u8>, NoMemory>
    requires whole { HaveLength page (contents pages.now) }
    requires order { start ≤ end }
    requires inside { end ≤ length (bytes_in pages.now) }
    requires small { end < 2 ^ 44 }
    ensures is { IfOk result (λ v. v.items ≡ slice_range (bytes_in pages.now) start end) }
{
    let mut bytes = Vec::with_capacity(alloc, end - start)?;
    let mut next = start;
    while next < end {
        let from = next % PAGE_BYTES;
        let count = (PAGE_BYTES - from).min(end - next);
        let page: &Page = &pages[next / PAGE_BYTES];
        bytes.extend_from_slice(&page.as_slice()[from..from + count])?;
        next += count;
    }
    Ok(bytes)
}

/// Whether so many first bytes of both are equal, page by page.
fn begin_alike(left: &[Arc<Page>], right: &[Arc<Page>], size: usize) -> bool
    requires left_whole { HaveLength page (contents left.now) }
    requires right_whole { HaveLength page (contents right.now) }
    requires in_left { size ≤ length (bytes_in left.now) }
    requires in_right { size ≤ length (bytes_in right.now) }
    requires small { size < 2 ^ 44 }
    ensures { (result ≡ true) ↔ (take size (bytes_in left.now) ≡ take size (bytes_in right.now)) }
{
    let mut next = 0;
    while next < size {
        let (page, from) = (next / PAGE_BYTES, next % PAGE_BYTES);
        let count = (PAGE_BYTES - from).min(size - next);
        if !are_alike(&left[page], &right[page], from, count) {
            return false;
        }
        next += count;
    }
    true
}

/// Whether so many bytes from an offset on are equal in two pages.
fn are_alike(left: &Page, right: &Page, from: usize, count: usize) -> bool
    requires { from + count ≤ page }
    ensures { (result ≡ true) ↔ (slice_range left.now from (from + count)
        ≡ slice_range right.now from (from + count)) }
{
    left.as_slice()[from..from + count] == right.as_slice()[from..from + count]
}

/// Writes bytes over those from an offset on, page by page.
fn write_pieces(pages: &mut [Arc<Page>], start: usize, new: &[u8]) -> Result<(), NoMemory>
    requires whole { HaveLength page (contents pages.old) }
    requires inside { start + length new.now ≤ length (bytes_in pages.old) }
    requires small { start + length new.now < 2 ^ 44 }
    ensures whole { HaveLength page (contents pages.new) }
    ensures ok { OnOk result (bytes_in pages.new ≡ overwrite (bytes_in pages.old) start new.now) }
{
    let mut done = 0;
    while done < new.len() {
        let next = start + done;
        let count = (PAGE_BYTES - next % PAGE_BYTES).min(new.len() - done);
        write_piece(pages, next, &new[done..done + count])?;
        done += count;
    }
    Ok(())
}

/// Writes bytes over those from an offset on, all in one page.
fn write_piece(pages: &mut [Arc<Page>], start: usize, new: &[u8]) -> Result<(), NoMemory>
    requires whole { HaveLength page (contents pages.old) }
    requires one_page { start % page + length new.now ≤ page }
    requires inside { start / page < length pages.old }
    ensures whole { HaveLength page (contents pages.new) }
    ensures ok { OnOk result (bytes_in pages.new ≡ overwrite (bytes_in pages.old) start new.now) }
    ensures err { OnErr result (contents pages.new ≡ contents pages.old) }
{
    write_in_page(&mut pages[start / PAGE_BYTES], start % PAGE_BYTES, new)
}

/// Writes bytes into a page, or into a copy of it where others hold it.
#[tactic(auto, using(crate::proofs::PageOffsets::kept_whole))]
fn write_in_page(shared: &mut Arc<Page>, offset: usize, new: &[u8]) -> Result<(), NoMemory>
    requires inside { offset + length new.now ≤ page }
    requires whole { length (arc_value shared.old) ≡ page }
    ensures whole { length (arc_value shared.new) ≡ page }
    ensures ok { OnOk result (arc_value shared.new
        ≡ overwrite (arc_value shared.old) offset new.now) }
    ensures err { OnErr result (arc_value shared.new ≡ arc_value shared.old) }
{
    let own = Arc::make_mut(shared)?;
    own.write(offset, new);
    Ok(())
}

/// Writes the low 1, 2 or 4 bytes of a number into a page, or into a copy of it where others hold it.
#[inline(always)]
#[tactic(auto, using(crate::proofs::PageOffsets::still_whole))]
fn write_number(
    shared: &mut Arc<Page>,
    offset: usize,
    width: u8,
    value: u32,
) -> Result<(), NoMemory>
    requires width { (width ≡ 1) ⊎ (width ≡ 2) ⊎ (width ≡ 4) }
    requires inside { offset + width ≤ page }
    requires whole { length (arc_value shared.old) ≡ page }
    ensures whole { length (arc_value shared.new) ≡ page }
    ensures ok { let new = bytes_of width value
        in OnOk result (arc_value shared.new ≡ overwrite (arc_value shared.old) offset new) }
    ensures err { OnErr result (arc_value shared.new ≡ arc_value shared.old) }
{
    let own = Arc::make_mut(shared)?;
    own.write_number(offset, width, value);
    Ok(())
}
