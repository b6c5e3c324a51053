//! The image of a program and of the machine in which it starts.

ghost use Rattle.std.specs.Prelude.{◌≡◌, ◌≤◌, ◌⊎◌, ◌==◌, true, find, length, map, IfOk, All};
ghost use Rattle.std.specs.Option.{option_copied};
ghost use Rattle.wedge_base.specs.Bytes.{number_of};
ghost use Rattle.wedge_base.specs.Images as images;
ghost use Rattle.image_form.specs.Rules as rules;
ghost use Rattle.image_form.specs.Address.{greatest_from};

use crate::parts::{ImageParts, LentParts};
use std::alloc::Global;
use std::marker::Model;
use wedge_base::{
    Bytes, FdEntry, FileEntry, Items, MemoryRange, NoMemory, Pristine, Procedure, TagEntry,
    begins_at,
};

/// An image that meets every rule of its form.
#[derive(Debug)]
pub struct Image {
    fuel: u32,
    pristine: Pristine,
    procedures: Items<Procedure>,
    entry: u32,
    tags: Items<TagEntry>,
    fds: Items<FdEntry>,
    files: Items<FileEntry>,
    user: u32,
    root: Bytes,
}

// By hand: a derived drop would be proved again in each function that drops one.
impl Drop for Image {
    fn drop(self) {
        let Self {
            fuel: _,
            pristine: _,
            procedures: _,
            entry: _,
            tags: _,
            fds: _,
            files: _,
            user: _,
            root: _,
        } = self;
    }
}

impl Model for Image {
    ghost use Rattle.wedge_base.specs.Images.{Image};
    ghost use Rattle.image_form.specs.Rules.{IsImage};

    ghost Value = { Image };

    ghost use Rattle.image_form.specs.View.{plain};

    ghost view = { plain };

    ghost invariant = { λ i. IsImage (plain i) };
}

impl Image {
    ghost use Rattle.image_form.specs.Rules.{IsImage, addresses};
    ghost use Rattle.image_form.specs.Address.{proc_at, proc_of};
    ghost use Rattle.image_form.specs.View.{image_of, lent_image};

    /// The image whose parts are given.
    pub(crate) fn from_parts(parts: ImageParts) -> Image
        requires { IsImage (image_of parts) }
        ensures { result ≡ image_of parts }
    {
        Image {
            fuel: parts.fuel,
            pristine: Pristine {
                base: parts.base,
                words: parts.words,
                ranges: parts.ranges,
            },
            procedures: parts.procedures,
            entry: parts.entry,
            tags: parts.tags,
            fds: parts.fds,
            files: parts.files,
            user: parts.user,
            root: parts.root,
        }
    }

    /// Borrows the parts.
    pub(crate) fn lend(&self) -> LentParts<'_>
        ensures is { lent_image result ≡ self.now }
        ensures valid { IsImage self.now }
    {
        LentParts {
            fuel: self.fuel,
            base: self.pristine.base,
            words: self.pristine.words.as_slice(),
            procedures: self.procedures.as_slice(),
            entry: self.entry,
            ranges: self.pristine.ranges.as_slice(),
            tags: self.tags.as_slice(),
            fds: self.fds.as_slice(),
            files: self.files.as_slice(),
            user: self.user,
            root: self.root.as_slice(),
        }
    }

    /// The fuel with which the root starts, in units.
    pub fn fuel(&self) -> u32
        ensures is { result ≡ self.now.fuel }
        ensures valid { IsImage self.now }
    {
        self.fuel
    }

    /// The address of the text's first word.
    pub fn base(&self) -> u32
        ensures is { result ≡ self.now.base }
        ensures valid { IsImage self.now }
    {
        self.pristine.base
    }

    /// Borrows the words of the text.
    pub fn words(&self) -> &[u32]
        ensures is { result.now ≡ self.now.words }
        ensures valid { IsImage self.now }
    {
        self.pristine.words.as_slice()
    }

    /// Borrows the procedures, by ascending name.
    pub fn procedures(&self) -> &[Procedure]
        ensures is { result.now ≡ self.now.procedures }
        ensures valid { IsImage self.now }
    {
        self.procedures.as_slice()
    }

    /// The address of the procedure at which the root starts.
    pub fn entry(&self) -> u32
        ensures is { result ≡ self.now.entry }
        ensures valid { IsImage self.now }
    {
        self.entry
    }

    /// Borrows the data ranges, by ascending address.
    pub fn ranges(&self) -> &[MemoryRange]
        ensures is { result.now ≡ self.now.ranges }
        ensures valid { IsImage self.now }
    {
        self.pristine.ranges.as_slice()
    }

    /// Borrows the declared tags: a tag's number is its index.
    pub fn tags(&self) -> &[TagEntry]
        ensures is { result.now ≡ self.now.tags }
        ensures valid { IsImage self.now }
    {
        self.tags.as_slice()
    }

    /// Borrows the declared descriptors: a descriptor's number is its index.
    pub fn fds(&self) -> &[FdEntry]
        ensures is { result.now ≡ self.now.fds }
        ensures valid { IsImage self.now }
    {
        self.fds.as_slice()
    }

    /// Borrows the files, by ascending path.
    pub fn files(&self) -> &[FileEntry]
        ensures is { result.now ≡ self.now.files }
        ensures valid { IsImage self.now }
    {
        self.files.as_slice()
    }

    /// The user as which the root runs.
    pub fn user(&self) -> u32
        ensures is { result ≡ self.now.user }
        ensures valid { IsImage self.now }
    {
        self.user
    }

    /// Borrows the root's directory.
    pub fn root(&self) -> &Bytes
        ensures is { result.now ≡ self.now.root }
        ensures valid { IsImage self.now }
    {
        &self.root
    }

    /// Borrows the text and the data ranges.
    pub fn pristine(&self) -> &Pristine
        ensures base { result.now.base ≡ self.now.base }
        ensures words { result.now.words ≡ self.now.words }
        ensures ranges { result.now.ranges ≡ self.now.ranges }
        ensures valid { IsImage self.now }
    {
        &self.pristine
    }

    /// Whether so many bytes from an address on all lie in the text.
    pub fn is_in_text(&self, address: u32, size: u32) -> bool
        ensures { result ≡ images.in_text self.now address size }
    {
        let base = u64::from(self.pristine.base);
        let address = u64::from(address);
        let text = 4 * self.words().len() as u64;
        base <= address && address + u64::from(size) <= base + text
    }

    /// The word of the text at an address, if its four bytes lie in the text.
    pub fn fetch(&self, pc: u32) -> Option<u32>
        ensures { result ≡ images.fetch self.now pc }
    {
        if self.is_in_text(pc, 4) {
            Some(self.words()[((pc - self.pristine.base) / 4) as usize])
        } else {
            None
        }
    }

    /// The byte of the text at an address.
    pub fn text_byte(&self, address: u32) -> u8
        requires { images.in_text self.now address 1 ≡ true }
        ensures { result ≡ images.text_byte self.now address }
    {
        let offset = address - self.pristine.base;
        let word = self.words()[(offset / 4) as usize];
        match offset % 4 {
            0 => (word % 256) as u8,
            1 => (word / 256 % 256) as u8,
            2 => (word / 65536 % 256) as u8,
            _ => (word / 16777216) as u8,
        }
    }

    /// The number that 1, 2 or 4 bytes of the text encode from an address on, little-endian.
    pub fn text_number(&self, address: u32, width: u8) -> u32
        requires width { (width ≡ 1) ⊎ (width ≡ 2) ⊎ (width ≡ 4) }
        requires inside { images.in_text self.now address width ≡ true }
        ensures { result ≡ number_of (images.read_text self.now address width) }
    {
        // The image is opened here, so that what its type keeps of the text is at hand.
        let _ = &self.pristine;
        let first = u32::from(self.text_byte(address));
        if width == 1 {
            return first;
        }
        let half = first + 256 * u32::from(self.text_byte(address + 1));
        if width == 2 {
            return half;
        }
        half + 65536 * u32::from(self.text_byte(address + 2))
            + 16777216 * u32::from(self.text_byte(address + 3))
    }

    /// A copy of bytes of the text, from an address on.
    pub fn text_bytes(&self, alloc: Global, address: u32, size: u32) -> Result<Bytes, NoMemory>
        requires { images.in_text self.now address size ≡ true }
        ensures { IfOk result (λ b. b ≡ images.read_text self.now address size) }
    {
        // The image is opened here, so that what its type keeps of the text is at hand.
        let _ = &self.pristine;
        let mut bytes = Vec::with_capacity(alloc, size as usize)?;
        for k in 0..size {
            bytes.push(self.text_byte(address + k))?;
        }
        Ok(Items::new(bytes))
    }

    /// The procedure at an address.
    fn procedure_at(&self, address: u32) -> Option<&Procedure>
        ensures { option_copied result ≡ find (λ p. p.address == address) self.now.procedures }
    {
        self.procedures().iter().find(|p| p.address == address)
    }

    /// A copy of the name of the procedure at an address, or no bytes where none begins.
    pub fn procedure_name(&self, alloc: Global, address: u32) -> Result<Bytes, NoMemory>
        ensures { IfOk result (λ b. b ≡ images.procedure_name self.now address) }
    {
        match self.procedure_at(address) {
            Some(procedure) => Bytes::from_slice(alloc, procedure.name.as_slice()),
            None => Ok(Items::new(Vec::new(alloc))),
        }
    }

    /// The address, if a procedure begins there.
    pub fn proc_at(&self, address: u32) -> Option<u32>
        ensures { result ≡ proc_at self.now address }
    {
        if begins_at(self.procedures(), address) {
            Some(address)
        } else {
            None
        }
    }

    /// The address of the procedure to which an address of the text belongs: the greatest that is
    /// not above it.
    pub fn proc_of(&self, address: u32) -> u32
        requires { images.in_text self.now address 1 ≡ true }
        ensures is { result ≡ proc_of self.now address }
        ensures begins { images.begins_at self.now.procedures result ≡ true }
        ensures not_above { result ≤ address }
        ensures greatest { All
            (λ a. a ≤ address → a ≤ result) (addresses self.now.procedures) }
    {
        greatest_not_above(self.procedures(), address)
    }
}

/// The greatest address of a procedure that is not above an address, or 0.
fn greatest_not_above(procedures: &[Procedure], address: u32) -> u32
    ensures { result ≡ greatest_from 0 address (rules.addresses procedures.now) }
{
    let mut best = 0;
    for procedure in procedures {
        if procedure.address <= address && best < procedure.address {
            best = procedure.address;
        }
    }
    best
}
