//! Reading a partition that the program of an ELF file is joined to.

ghost use Rattle.std.specs.Prelude.{◌≡◌, IfOk};
ghost use Rattle.toml.specs.View.{table_view};
ghost use Rattle.image_form.specs.View as image;
ghost use Rattle.part_toml.specs.Joining as joining;
ghost use Rattle.part_toml.specs.Joining.{Joins};
ghost use Rattle.part_toml.specs.Partition.{IsPartitionAnswer};
ghost use Rattle.part_toml.specs.Views.{AreEntries};

use crate::checking::check_document;
use crate::entries::{Entries, all_entries, copy_at};
use crate::fault::PartFault;
use crate::keys::{Key, Part};
use crate::tables::number_at;
use elf_in::ElfProgram;
use image_form::{Image, ImageParts, Why, finish_image};
use std::alloc::Global;
use toml::Table;
use wedge_base::{Items, NoMemory};

/// The most bytes of an image.
const MOST_BYTES: usize = 16777216;

/// The parts of the image of a program and a partition.
#[tactic(auto, unfolding(crate::specs::Joining::image_with))]
fn image_parts(
    alloc: Global,
    top: &Table,
    entries: Entries,
    program: &ElfProgram<'_>,
) -> Result<ImageParts, NoMemory>
    requires { AreEntries entries (table_view top.now) }
    ensures { IfOk result (λ p.
        image.image_of p ≡ joining.image_with program.now (table_view top.now)) }
{
    let words = program.words(alloc)?;
    let procedures = program.procedures(alloc)?;
    let ranges = program.ranges(alloc)?;
    let root = copy_at(alloc, top, Key::Root)?;
    Ok(ImageParts {
        fuel: number_at(top, Key::Fuel, 0),
        base: program.base(),
        words,
        procedures,
        entry: program.entry(),
        ranges,
        tags: Items::new(entries.tags),
        fds: Items::new(entries.fds),
        files: Items::new(entries.files),
        user: number_at(top, Key::User, 0),
        root,
    })
}

/// The image of a program and the tables of a partition. Where the text and the data alone are more
/// than an image may have, they are not made.
#[tactic(auto, unfolding(crate::specs::Joining::document_with))]
fn read_table(alloc: Global, top: &Table, program: &ElfProgram<'_>) -> Result<Image, PartFault>
    ensures exact { IsPartitionAnswer result
        (joining.document_with program.now (table_view top.now)) }
    ensures joins { IfOk result (Joins program.now) }
{
    check_document(alloc, Part::Joined, top)?;
    let entries = all_entries(alloc, top)?;
    if !program.fits_in(MOST_BYTES) {
        return Err(PartFault::Image {
            at: MOST_BYTES,
            why: Why::Limit,
        });
    }
    let parts = image_parts(alloc, top, entries, program)?;
    Ok(finish_image(alloc, parts)?)
}

/// Reads a partition that is linked with an ELF file's program, which gives the text, the data, the
/// procedures and the entry. Its keys are those of any partition but `text`, `base`, `entry` and
/// `data`. The faults come in the order of `read_partition`.
#[tactic(auto, unfolding(crate::specs::Joining::partition_with))]
pub fn read_partition_with(
    alloc: Global,
    text: &str,
    program: &ElfProgram<'_>,
) -> Result<Image, PartFault>
    // The image that both mean, or what is wrong first.
    ensures exact { IsPartitionAnswer result (joining.partition_with program.now text.now) }
    // It has the text, the data, the procedures and the entry of the program.
    ensures joins { IfOk result (Joins program.now) }
{
    match toml::table_from_str(alloc, text) {
        Ok(top) => read_table(alloc, &top, program),
        Err(error) => {
            if error.is_memory() {
                Err(PartFault::NoMemory)
            } else {
                Err(PartFault::Toml)
            }
        }
    }
}
