//! What an ELF file gives.

ghost use Rattle.std.specs.Prelude.{◌≡◌, ◌≤◌, ◌↔◌, IfOk, IsTrue};
ghost use Rattle.elf_in.specs.Program.{size_of, IsRoomLeft};

use crate::headers::ProgramHeader;
use crate::loads::{memory_len, range_len, range_of, text_words};
use std::alloc::Global;
use std::marker::Model;
use wedge_base::{Items, MemoryRange, NoMemory, Procedure};

/// The program of an ELF file: its text and data, with the procedures that its symbols name.
///
/// It borrows the file, and holds none of the bytes of its text and data: a small file may give them
/// 4 GiB.
#[derive(Debug, Drop)]
pub struct ElfProgram<'a> {
    pub(crate) file: &'a [u8],
    /// The load that is the text.
    pub(crate) text: ProgramHeader,
    /// The loads that are data, in the order of their ranges.
    pub(crate) data: Vec<ProgramHeader>,
    /// In the order of their names.
    pub(crate) procedures: Items<Procedure>,
    pub(crate) entry: u32,
}

impl<'a> Model for ElfProgram<'a> {
    ghost use Rattle.elf_in.specs.Program.{Program};

    ghost Value = { Program };

    ghost use Rattle.elf_in.specs.Views.{program_view};

    ghost view = { program_view };
}

impl ElfProgram<'_> {
    /// The address of the text's first word.
    pub fn base(&self) -> u32
        ensures { result ≡ self.now.base }
    {
        self.text.address
    }

    /// The address of the first instruction that runs.
    pub fn entry(&self) -> u32
        ensures { result ≡ self.now.entry }
    {
        self.entry
    }

    /// Whether the text and the data have together at most so many bytes. None of them is made.
    pub fn fits_in(&self, most: usize) -> bool
        ensures { IsTrue result ↔ (size_of self.now ≤ most) }
    {
        self.room_left(most).is_some()
    }

    /// What the bytes of the text and the data leave of so much room, or nothing where they need
    /// more.
    fn room_left(&self, room: usize) -> Option<usize>
        ensures { IsRoomLeft room (size_of self.now) result }
    {
        let mut left = room.checked_sub(memory_len(self.file, &self.text, 0))?;
        for header in &self.data {
            left = left.checked_sub(range_len(self.file, header))?;
        }
        Some(left)
    }

    /// The words of the text. They may be many (`fits_in`).
    pub fn words(&self, alloc: Global) -> Result<Items<u32>, NoMemory>
        ensures { IfOk result (λ w. w ≡ self.now.words) }
    {
        Ok(Items::new(text_words(alloc, self.file, &self.text)?))
    }

    /// The data, in the order of their bases, those of equal bases in the order of their headers. They
    /// may have many bytes (`fits_in`).
    pub fn ranges(&self, alloc: Global) -> Result<Items<MemoryRange>, NoMemory>
        ensures { IfOk result (λ rs. rs ≡ self.now.ranges) }
    {
        let mut ranges = Vec::new(alloc);
        for header in &self.data {
            ranges.push(range_of(alloc, self.file, header)?)?;
        }
        Ok(Items::new(ranges))
    }
    /// The procedures, in the order of their names. One begins at the base and one at the entry.
    pub fn procedures(&self, alloc: Global) -> Result<Items<Procedure>, NoMemory>
        ensures { IfOk result (λ ps. ps ≡ self.now.procedures) }
    {
        let all = self.procedures.as_slice();
        let mut procedures = Vec::new(alloc);
        for procedure in all {
            procedures.push(Procedure {
                name: procedure.name.copy()?,
                address: procedure.address,
            })?;
        }
        Ok(Items::new(procedures))
    }
}
