//! An image with its text decoded and its data in pages.

ghost use Rattle.std.specs.Prelude.{◌≡◌, ◌+◌, ◌*◌, ◌≤◌, false, map, length, IfOk, IfSome, option_map};
ghost use Rattle.wedge_base.specs.Images as images;
ghost use Rattle.std.specs.List.{AllByRecursion};
ghost use Rattle.cow_pages.specs.Below.{AreBelow};
ghost use Rattle.image_form.specs.Rules.{IsRange};
ghost use Rattle.rv_isa.specs.Table.{decode, HasRegisters};

use cow_pages::PagedRange;
use image_form::Image;
use rv_isa::{Instr, decode, instructions_are_those_in_range};
use std::alloc::Global;
use std::marker::Model;
use wedge_base::{MemoryRange, NoMemory};

/// An image, with each word of its text decoded once, and its data ranges in pages, which the
/// actors of a run share until they store to them. Contracts see it as the image.
pub struct Program<'a> {
    image: &'a Image,
    /// The address of the first word.
    base: u32,
    /// How far behind it the last word begins, in bytes.
    last: u32,
    code: Vec<Option<Instr>>,
    pristine: Vec<PagedRange>,
}

// By hand: a derived drop would be proved again in each function that drops one.
impl<'a> Drop for Program<'a> {
    fn drop(self) {
        let Self {
            image: _,
            base: _,
            last: _,
            code: _,
            pristine: _,
        } = self;
    }
}

impl<'a> Model for Program<'a> {
    ghost use Rattle.std.specs.Prelude.{◌≡◌, ◌+◌, ◌*◌, ◌≤◌, map, length};
    ghost use Rattle.wedge_base.specs.Images.{Image};
    ghost use Rattle.rv_isa.specs.Table.{decode};
    ghost use Rattle.image_form.specs.Rules.{IsImage};

    ghost Value = { Image };

    ghost view = { λ p. p.image.now };

    ghost invariant = { λ p. record {
      valid : IsImage p.image.now;
      base : p.base ≡ p.image.now.base;
      last : p.last + 4 ≡ 4 * length p.image.now.words;
      code : p.code.items ≡ map decode p.image.now.words;
      pristine : p.pristine.items ≡ p.image.now.ranges;
    } };
}

impl<'a> Program<'a> {
    /// An image with its text decoded and its data in pages.
    pub fn new(alloc: Global, image: &'a Image) -> Result<Program<'a>, NoMemory>
        ensures { IfOk result (λ p. p ≡ image.now) }
    {
        let words = image.words();
        Ok(Program {
            image,
            base: image.base(),
            last: 4 * (words.len() as u32 - 1),
            code: decoded(alloc, words)?,
            pristine: paged(alloc, image.ranges())?,
        })
    }

    /// Returns the image.
    pub fn image(&self) -> &'a Image
        ensures { result.now ≡ self.now }
    {
        self.image
    }

    /// Returns the data ranges as the image has them, by ascending address. They lie below the windows of tags.
    pub fn pristine(&self) -> &[PagedRange]
        ensures is { result.now ≡ self.now.ranges }
        ensures below { AreBelow self.now.ranges }
    {
        self.pristine.as_slice()
    }

    /// The text lies below the windows of tags.
    #[inline(always)]
    pub fn has_no_text(&self, address: u32, size: u32)
        requires { images.windows_base ≤ address }
        ensures { images.in_text self.now address size ≡ false }
    {
        // The program is opened here, so that what its type keeps is at hand.
        let _ = &self.code;
    }

    /// The instruction at an address, if its four bytes lie in the text: none inside where the word there
    /// is no instruction.
    #[inline(always)]
    pub fn fetch(&self, pc: u32) -> Option<&Option<Instr>>
        ensures is { option_map (λ r. r.now) result
            ≡ option_map decode (images.fetch self.now pc) }
        ensures registers { IfSome result (λ o. IfSome o.now HasRegisters) }
    {
        instructions_are_those_in_range();
        let offset = pc.wrapping_sub(self.base);
        if offset > self.last {
            return None;
        }
        Some(&self.code[(offset / 4) as usize])
    }
}

/// Data ranges in pages.
fn paged(alloc: Global, ranges: &[MemoryRange]) -> Result<Vec<PagedRange>, NoMemory>
    requires { AllByRecursion IsRange ranges.now }
    ensures { IfOk result (λ v. v.items ≡ ranges.now) }
{
    let mut pages = Vec::with_capacity(alloc, ranges.len())?;
    for range in ranges {
        pages.push(PagedRange::new(alloc, range.base, range.bytes.as_slice())?)?;
    }
    Ok(pages)
}

/// Each word decoded.
fn decoded(alloc: Global, words: &[u32]) -> Result<Vec<Option<Instr>>, NoMemory>
    ensures { IfOk result (λ v. v.items ≡ map decode words.now) }
{
    let mut code = Vec::with_capacity(alloc, words.len())?;
    for word in words {
        code.push(decode(*word))?;
    }
    Ok(code)
}
