//! Notes as records of a trace.

ghost use Rattle.std.specs.Prelude.{◌≡◌, ◌++◌, IfOk, OnOk};
ghost use Rattle.image_form.specs.Rules.{IsImage};
ghost use Rattle.trace_form.specs.Grammar.{record_line, with_end};
ghost use Rattle.cb_log.specs.Names.{AreNamesOf, name_at};
ghost use Rattle.cb_log.specs.Texts as texts;

use crate::names::Names;
use image_form::Image;
use report_text::write_address;
use run_notes::{Note, NoteItem};
use std::alloc::Global;
use trace_form::{Record, write_end, write_first_line, write_record};
use wedge_base::{FdNo, NoMemory, TagNo};

/// The name of a declared tag.
fn tag_name(image: &Image, tag: TagNo) -> &[u8]
    ensures { result.now ≡ texts.tag_name image.now tag }
{
    match image.tags().get(tag.0 as usize) {
        Some(entry) => entry.name.as_slice(),
        None => &[],
    }
}

/// The name of a declared descriptor.
fn fd_name(image: &Image, number: FdNo) -> &[u8]
    ensures { result.now ≡ texts.fd_name image.now number }
{
    match image.fds().get(number.0 as usize) {
        Some(entry) => entry.name.as_slice(),
        None => &[],
    }
}

/// What the items, compartments and frames of notes are named by: the image, and its procedures by address.
#[derive(Drop)]
struct Naming<'a> {
    image: &'a Image,
    names: Names<'a>,
}

/// What an image's notes are named by.
fn naming_of<'a>(alloc: Global, image: &'a Image) -> Result<Naming<'a>, NoMemory>
    ensures names { IfOk result (λ n. (n.image.now ≡ image.now) × AreNamesOf image.now n.names) }
    ensures valid { IfOk result (λ _. IsImage image.now) }
{
    let names = Names::new(alloc, image)?;
    Ok(Naming { image, names })
}

/// Appends the name of the procedure at an address.
fn write_procedure(names: &Names<'_>, address: u32, out: &mut Vec<u8>) -> Result<(), NoMemory>
    ensures { OnOk result (out.new.items ≡ out.old.items ++ name_at names.now address) }
{
    out.extend_from_slice(names.at(address))?;
    Ok(())
}

/// Appends an item.
#[tactic(auto, unfolding(crate::specs::Texts::item_text))]
fn write_item(naming: &Naming<'_>, item: &NoteItem, out: &mut Vec<u8>) -> Result<(), NoMemory>
    requires { AreNamesOf naming.now.image.now naming.now.names }
    ensures { OnOk result
        (out.new.items ≡ out.old.items ++ texts.item_text naming.now.image.now item.now) }
{
    match item {
        NoteItem::Declared { tag } => {
            out.extend_from_slice(b"tag:")?;
            out.extend_from_slice(tag_name(naming.image, *tag))?;
            Ok(())
        }
        NoteItem::Made { compartment, pc } => {
            out.extend_from_slice(b"made:")?;
            write_procedure(&naming.names, *compartment, out)?;
            out.push(b'@')?;
            write_address(out, *pc)
        }
        NoteItem::Fd { number } => {
            out.extend_from_slice(b"fd:")?;
            out.extend_from_slice(fd_name(naming.image, *number))?;
            Ok(())
        }
        NoteItem::File { path } => {
            out.extend_from_slice(b"file:")?;
            out.extend_from_slice(path.as_slice())?;
            Ok(())
        }
        NoteItem::Gate { entry } => {
            out.extend_from_slice(b"gate:")?;
            write_procedure(&naming.names, *entry, out)
        }
    }
}

/// Appends the names of procedures, with a `;` between each two.
fn write_chain(naming: &Naming<'_>, frames: &[u32], out: &mut Vec<u8>) -> Result<(), NoMemory>
    requires { AreNamesOf naming.now.image.now naming.now.names }
    ensures { OnOk result
        (out.new.items ≡ out.old.items ++ texts.chain_text naming.now.image.now frames.now) }
{
    for (i, frame) in frames.iter().enumerate() {
        if i > 0 {
            out.push(b';')?;
        }
        write_procedure(&naming.names, *frame, out)?;
    }
    Ok(())
}

/// Appends the line of a note, with its line feed.
fn write_note(naming: &Naming<'_>, note: &Note, out: &mut Vec<u8>) -> Result<(), NoMemory>
    requires { AreNamesOf naming.now.image.now naming.now.names }
    ensures { OnOk result (out.new.items ≡ out.old.items
        ++ with_end (record_line (texts.record_of naming.now.image.now note.now))) }
{
    let alloc = *out.allocator();
    let mut chain = Vec::new(alloc);
    write_chain(naming, note.chain.as_slice(), &mut chain)?;
    let mut item = Vec::new(alloc);
    write_item(naming, &note.item, &mut item)?;
    let row = Record {
        kind: note.kind,
        mode: note.mode,
        comp: naming.names.at(note.compartment),
        chain: chain.as_slice(),
        item: item.as_slice(),
    };
    write_record(&row, out)
}

/// The line of a note, without its line feed.
pub fn record_text(alloc: Global, image: &Image, note: &Note) -> Result<Vec<u8>, NoMemory>
    ensures { IfOk result (λ v. v.items ≡ record_line (texts.record_of image.now note.now)) }
{
    let naming = naming_of(alloc, image)?;
    let mut line = Vec::new(alloc);
    write_note(&naming, note, &mut line)?;
    line.pop();
    Ok(line)
}

/// The trace of notes.
pub fn trace_text(alloc: Global, image: &Image, notes: &[Note]) -> Result<Vec<u8>, NoMemory>
    ensures text { IfOk result (λ v. v.items ≡ texts.trace_of_notes image.now notes.now) }
    ensures valid { IfOk result (λ _. IsImage image.now) }
{
    let naming = naming_of(alloc, image)?;
    let mut out = Vec::new(alloc);
    write_first_line(&mut out)?;
    for note in notes {
        write_note(&naming, note, &mut out)?;
    }
    write_end(notes.len(), &mut out)?;
    Ok(out)
}
