//! The parts of an image, before they are checked.

use wedge_base::{Bytes, FdEntry, FileEntry, Items, MemoryRange, Procedure, TagEntry};

/// The parts that an image is made of, in the order of its form. They need meet no rule.
#[derive(Debug, Drop)]
pub struct ImageParts {
    /// The fuel with which the root starts, in units.
    pub fuel: u32,
    /// The address of the text's first word.
    pub base: u32,
    pub words: Items<u32>,
    pub procedures: Items<Procedure>,
    /// The address of the procedure at which the root starts.
    pub entry: u32,
    pub ranges: Items<MemoryRange>,
    pub tags: Items<TagEntry>,
    pub fds: Items<FdEntry>,
    pub files: Items<FileEntry>,
    /// The user as which the root runs.
    pub user: u32,
    /// The root's directory.
    pub root: Bytes,
}

/// The parts of an image, borrowed.
#[derive(Clone, Copy)]
pub(crate) struct LentParts<'a> {
    pub fuel: u32,
    pub base: u32,
    pub words: &'a [u32],
    pub procedures: &'a [Procedure],
    pub entry: u32,
    pub ranges: &'a [MemoryRange],
    pub tags: &'a [TagEntry],
    pub fds: &'a [FdEntry],
    pub files: &'a [FileEntry],
    pub user: u32,
    pub root: &'a [u8],
}

impl ImageParts {
    ghost use Rattle.std.specs.Prelude.{◌≡◌};
    ghost use Rattle.image_form.specs.View.{image_of, lent_image};

    /// Borrows the parts.
    pub(crate) fn lend(&self) -> LentParts<'_>
        ensures { lent_image result ≡ image_of self.now }
    {
        LentParts {
            fuel: self.fuel,
            base: self.base,
            words: self.words.as_slice(),
            procedures: self.procedures.as_slice(),
            entry: self.entry,
            ranges: self.ranges.as_slice(),
            tags: self.tags.as_slice(),
            fds: self.fds.as_slice(),
            files: self.files.as_slice(),
            user: self.user,
            root: self.root.as_slice(),
        }
    }
}
