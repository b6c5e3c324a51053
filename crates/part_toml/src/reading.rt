//! Reading a partition.

ghost use Rattle.std.specs.Prelude.{◌≡◌, map, IfOk};
ghost use Rattle.toml.specs.View.{table_view};
ghost use Rattle.image_form.specs.Reading.{reading};
ghost use Rattle.image_form.specs.Encoding.{encoding};
ghost use Rattle.image_form.specs.View as image;
ghost use Rattle.part_toml.specs.Parts as parts;
ghost use Rattle.part_toml.specs.Partition as partition;
ghost use Rattle.part_toml.specs.Partition.{IsPartitionAnswer};
ghost use Rattle.part_toml.specs.Values as values;
ghost use Rattle.part_toml.specs.Views.{AreEntries};

use crate::checking::check_document;
use crate::entries::{Entries, NamedRange, all_entries, copy_at};
use crate::equates::equates;
use crate::fault::PartFault;
use crate::keys::{Key, Part};
use crate::tables::{number_at, text_at};
use image_form::{Image, ImageParts, finish_image};
use rv_asm::{Assembled, Why, assemble};
use stable_sort::sort;
use std::alloc::Global;
use toml::Table;
use wedge_base::{Items, MemoryRange, NoMemory, Procedure};

/// The base of the text where a partition gives none.
const BASE: u32 = 65536;

/// Assembles the text of a partition.
#[tactic(auto, unfolding(crate::specs::Partition::assembled_text))]
fn text_of(alloc: Global, top: &Table, entries: &Entries) -> Result<Assembled, PartFault>
    requires { AreEntries entries.now (table_view top.now) }
    ensures { IsPartitionAnswer result (partition.assembled_text (table_view top.now)) }
{
    let names = equates(alloc, &entries.tags, &entries.fds, &entries.ranges)?;
    let text = text_at(top, Key::Text);
    let base = number_at(top, Key::Base, BASE);
    Ok(assemble(alloc, text, base, &names)?)
}

/// The address of the procedure of a name.
fn address_of(name: &[u8], procedures: &[Procedure]) -> Option<u32>
    ensures { result ≡ parts.procedure_address name.now procedures.now }
{
    procedures
        .iter()
        .find(|procedure| procedure.name.as_slice() == name)
        .map(|procedure| procedure.address)
}

/// The ranges without their names.
fn unnamed(alloc: Global, named: Vec<NamedRange>) -> Result<Items<MemoryRange>, NoMemory>
    ensures { IfOk result (λ rs. rs ≡ map (λ r. r.range) named.items) }
{
    let mut ranges = Items::new(Vec::new(alloc));
    for NamedRange { name: _, range } in named {
        ranges.push(range)?;
    }
    Ok(ranges)
}

/// The parts of the image.
#[tactic(auto, unfolding(crate::specs::Partition::image_of_tables))]
fn image_parts(
    alloc: Global,
    top: &Table,
    entries: Entries,
    text: Assembled,
    entry: u32,
) -> Result<ImageParts, NoMemory>
    requires { AreEntries entries (table_view top.now) }
    ensures { IfOk result (λ p. image.image_of p
        ≡ partition.image_of_tables (table_view top.now) text entry) }
{
    let mut procedures = text.procedures.into_vec();
    sort(&mut procedures)?;
    let ranges = unnamed(alloc, entries.ranges)?;
    let root = copy_at(alloc, top, Key::Root)?;
    Ok(ImageParts {
        fuel: number_at(top, Key::Fuel, 0),
        base: number_at(top, Key::Base, BASE),
        words: text.words,
        procedures: Items::new(procedures),
        entry,
        ranges,
        tags: Items::new(entries.tags),
        fds: Items::new(entries.fds),
        files: Items::new(entries.files),
        user: number_at(top, Key::User, 0),
        root,
    })
}

/// Makes the image.
fn finish(
    alloc: Global,
    top: &Table,
    entries: Entries,
    text: Assembled,
    entry: u32,
) -> Result<Image, PartFault>
    requires { AreEntries entries (table_view top.now) }
    ensures { IsPartitionAnswer result (partition.by_image
        (reading (encoding (partition.image_of_tables (table_view top.now) text entry)))) }
{
    let parts = image_parts(alloc, top, entries, text, entry)?;
    Ok(finish_image(alloc, parts)?)
}

/// The image of a partition's tables.
#[tactic(auto, unfolding(crate::specs::Partition::partition_of))]
fn read_table(alloc: Global, top: &Table) -> Result<Image, PartFault>
    ensures { IsPartitionAnswer result (partition.partition_of (table_view top.now)) }
{
    check_document(alloc, Part::Top, top)?;
    let entries = all_entries(alloc, top)?;
    let text = text_of(alloc, top, &entries)?;
    let name = text_at(top, Key::Entry).as_bytes();
    match address_of(name, text.procedures.as_slice()) {
        Some(entry) => finish(alloc, top, entries, text, entry),
        None => Err(PartFault::Asm {
            line: 0,
            why: Why::Label,
        }),
    }
}

/// Reads a partition. What is wrong with its text as TOML comes first, then what is wrong with its
/// tables, then the assembler's fault, then the image's.
#[tactic(auto, unfolding(crate::specs::Partition::partition))]
pub fn read_partition(alloc: Global, text: &str) -> Result<Image, PartFault>
    // The image that the partition means, or the first fault.
    ensures exact { IsPartitionAnswer result (partition.partition text.now) }
{
    match toml::table_from_str(alloc, text) {
        Ok(top) => read_table(alloc, &top),
        Err(error) => {
            if error.is_memory() {
                Err(PartFault::NoMemory)
            } else {
                Err(PartFault::Toml)
            }
        }
    }
}
