//! Images that are read, written and made of parts, and what each proper prefix of one is rejected for.

use image_form::Why::{Limit, Range, Truncated};
use image_form::{Image, ImageError, ImageParts, Why, finish_image, read_image, write_image};
use std::alloc::Global;
use std::process::Abort;
use std::test::Fail;
use wedge_base::{
    Bytes, FdBits, FdEntry, FileEntry, Items, NoMemory, Procedure, Right, StreamKind,
};

/// An image with a procedure `main`, a tag `box`, a descriptor `out` and no file.
static IMAGE: [u8; 139] = [
    0x57, 0x45, 0x44, 0x47, 0x01, 0x00, 0x00, 0x00, 0x64, 0x00, 0x00, 0x00, 0x00, 0x00, 0x01, 0x00,
    0x0b, 0x00, 0x00, 0x00, 0xb7, 0x72, 0x00, 0x00, 0x93, 0x82, 0xf2, 0xb6, 0x23, 0x2e, 0x51, 0xfe,
    0x13, 0x05, 0x00, 0x00, 0x93, 0x05, 0xc1, 0xff, 0x13, 0x06, 0x20, 0x00, 0x93, 0x08, 0x00, 0x01,
    0x73, 0x00, 0x00, 0x00, 0x13, 0x05, 0x00, 0x00, 0x93, 0x08, 0x00, 0x00, 0x73, 0x00, 0x00, 0x00,
    0x01, 0x00, 0x00, 0x00, 0x04, 0x00, 0x6d, 0x61, 0x69, 0x6e, 0x00, 0x00, 0x01, 0x00, 0x00, 0x00,
    0x01, 0x00, 0x00, 0x00, 0x00, 0x00, 0x01, 0x00, 0x00, 0x00, 0x03, 0x00, 0x62, 0x6f, 0x78, 0x01,
    0x00, 0x00, 0x00, 0x03, 0x00, 0x00, 0x00, 0x00, 0x00, 0x00, 0x00, 0x01, 0x00, 0x00, 0x00, 0x03,
    0x00, 0x6f, 0x75, 0x74, 0x01, 0x00, 0x00, 0x00, 0x02, 0x00, 0x00, 0x00, 0x00, 0x00, 0x00, 0x00,
    0x00, 0x00, 0x00, 0x00, 0x00, 0x00, 0x00, 0x00, 0x01, 0x00, 0x2f,
];

/// Where the fields of `IMAGE` begin, and the bytes after its lengths.
static STARTS: [usize; 38] = [
    0, 4, 8, 12, 16, 20, 24, 28, 32, 36, 40, 44, 48, 52, 56, 60, 64, 68, 70, 74, 78, 82, 86, 90,
    92, 95, 99, 103, 107, 111, 113, 116, 120, 124, 128, 132, 136, 138,
];

/// An image of two words with a procedure `main` and nothing else. Its word count is at 16, its table
/// of procedures at 28 (the name at 32, the address at 38), its entry at 42, the four other tables at
/// 46, 50, 54 and 58, its user at 62 and its root at 66.
pub(crate) static SMALL: [u8; 69] = [
    0x57, 0x45, 0x44, 0x47, 1, 0, 0, 0, 100, 0, 0, 0, 0, 0, 1, 0, 2, 0, 0, 0, 0x73, 0, 0, 0, 0x73,
    0, 0, 0, 1, 0, 0, 0, 4, 0, 0x6d, 0x61, 0x69, 0x6e, 0, 0, 1, 0, 0, 0, 1, 0, 0, 0, 0, 0, 0, 0, 0,
    0, 0, 0, 0, 0, 0, 0, 0, 0, 0, 0, 0, 0, 1, 0, 0x2f,
];

/// The fault for which an image was rejected, if it was.
fn fault_in(answer: Result<Image, ImageError>) -> Result<Option<(usize, Why)>, NoMemory> {
    match answer {
        Ok(_) => Ok(None),
        Err(ImageError::NoMemory) => Err(NoMemory),
        Err(ImageError::Fault(fault)) => Ok(Some((fault.at, fault.why))),
    }
}

pub(crate) fn fault_of(alloc: Global, bytes: &[u8]) -> Result<Option<(usize, Why)>, NoMemory> {
    fault_in(read_image(alloc, bytes))
}

/// The fault of the first bytes of `IMAGE`.
fn prefix_fault(alloc: Global, length: usize) -> Result<Option<(usize, Why)>, NoMemory> {
    match IMAGE.get(..length) {
        Some(front) => fault_of(alloc, front),
        None => Ok(None),
    }
}

/// The last start of a field that is at or before an offset.
fn last_start(place: usize) -> usize {
    let mut at = 0;
    for start in &STARTS {
        if *start <= place {
            at = *start;
        }
    }
    at
}

#[test]
fn each_proper_prefix(rt: HostRuntime) -> Result<(), Fail> {
    for length in 0..139 {
        let fault = prefix_fault(rt.alloc(), length)?;
        assert!(rt; fault == Some((last_start(length), Truncated)));
    }
    Ok(())
}

fn bytes(alloc: Global, text: &[u8]) -> Result<Bytes, NoMemory> {
    Bytes::from_slice(alloc, text)
}

/// One procedure at the base, of this name.
fn one_procedure(alloc: Global, name: Bytes) -> Result<Items<Procedure>, NoMemory> {
    let mut procedures = Vec::new(alloc);
    procedures.push(Procedure {
        name,
        address: 0x10000,
    })?;
    Ok(Items::new(procedures))
}

/// One file, a source with this content.
fn one_file(alloc: Global, content: Bytes) -> Result<Items<FileEntry>, NoMemory> {
    let path = bytes(alloc, b"/a")?;
    let mut files = Vec::new(alloc);
    files.push(FileEntry {
        path,
        owner: 7,
        mode: 15,
        kind: StreamKind::Source,
        content,
    })?;
    Ok(Items::new(files))
}

/// The parts of an image of one word, whose one procedure has a name that is given, with one file.
fn parts(alloc: Global, name: Bytes, content: Bytes) -> Result<ImageParts, NoMemory> {
    let procedures = one_procedure(alloc, name)?;
    let files = one_file(alloc, content)?;
    table_parts(alloc, procedures, files)
}

/// The parts of an image of one word, with these procedures and files.
fn table_parts(
    alloc: Global,
    procedures: Items<Procedure>,
    files: Items<FileEntry>,
) -> Result<ImageParts, NoMemory> {
    let root = bytes(alloc, b"/")?;
    let words = Vec::from_slice(alloc, &[0x73])?;
    Ok(ImageParts {
        fuel: 1,
        base: 0x10000,
        words: Items::new(words),
        procedures,
        entry: 0x10000,
        ranges: Items::new(Vec::new(alloc)),
        tags: Items::new(Vec::new(alloc)),
        fds: Items::new(Vec::new(alloc)),
        files,
        user: 0,
        root,
    })
}

/// The same, with these bytes as the name and as the content of the file.
fn named_parts(alloc: Global, name: &[u8], content: &[u8]) -> Result<ImageParts, NoMemory> {
    let name = bytes(alloc, name)?;
    parts(alloc, name, bytes(alloc, content)?)
}

fn finish_fault(alloc: Global, parts: ImageParts) -> Result<Option<(usize, Why)>, NoMemory> {
    fault_in(finish_image(alloc, parts))
}

/// The image that was accepted.
pub(crate) fn accepted(answer: Result<Image, ImageError>) -> Result<Image, Fail> {
    match answer {
        Ok(image) => Ok(image),
        Err(ImageError::NoMemory) => Err(NoMemory)?,
        Err(ImageError::Fault(_)) => Err("refused")?,
    }
}

fn first_image(alloc: Global) -> Result<Image, Fail> {
    accepted(read_image(alloc, &IMAGE))
}

/// The image that is made of parts, with a procedure of this name and a file of this content.
fn finished(alloc: Global, name: &[u8], content: &[u8]) -> Result<Image, Fail> {
    accepted(finish_image(alloc, named_parts(alloc, name, content)?))
}

/// Compares the numbers of `IMAGE`.
fn compares_numbers(rt: &impl Abort, image: &Image) {
    assert!(rt; image.fuel() == 100);
    assert!(rt; image.base() == 0x10000);
    assert!(rt; image.entry() == 0x10000);
    assert!(rt; image.user() == 0);
}

#[test]
fn numbers_of_an_image(rt: HostRuntime) -> Result<(), Fail> {
    let image = first_image(rt.alloc())?;
    compares_numbers(&rt, &image);
    drop(image);
    Ok(())
}

/// Compares the lengths of the lists of `IMAGE`.
fn compares_lengths(rt: &impl Abort, image: &Image) {
    assert!(rt; image.words().len() == 11);
    assert!(rt; image.procedures().len() == 1);
    assert!(rt; image.ranges().len() == 0);
    assert!(rt; image.files().len() == 0);
}

#[test]
fn lists_of_an_image(rt: HostRuntime) -> Result<(), Fail> {
    let image = first_image(rt.alloc())?;
    compares_lengths(&rt, &image);
    drop(image);
    Ok(())
}

/// Compares the root of `IMAGE`, and the base of its data.
fn compares_root(rt: &impl Abort, image: &Image) {
    assert!(rt; image.root().as_slice() == b"/".as_slice());
    assert!(rt; image.pristine().base == 0x10000);
}

#[test]
fn root_of_an_image(rt: HostRuntime) -> Result<(), Fail> {
    let image = first_image(rt.alloc())?;
    compares_root(&rt, &image);
    drop(image);
    Ok(())
}

/// Compares the one tag of `IMAGE`.
fn compares_tags(rt: &impl Abort, image: &Image) {
    assert!(rt; image.tags().len() == 1);
    for tag in image.tags() {
        assert!(rt; tag.name.as_slice() == b"box".as_slice());
        assert!(rt; tag.right == Some(Right::ReadWrite));
    }
}

#[test]
fn tags_of_an_image(rt: HostRuntime) -> Result<(), Fail> {
    let image = first_image(rt.alloc())?;
    compares_tags(&rt, &image);
    drop(image);
    Ok(())
}

/// Compares a descriptor that is named `out` and appends.
fn compares_descriptor(rt: &impl Abort, fd: &FdEntry) {
    assert!(rt; fd.name.as_slice() == b"out".as_slice());
    assert!(rt; fd.kind == StreamKind::Append);
    assert!(rt;
        fd.bits
            == FdBits {
                read: false,
                append: true
            }
    );
}

/// Compares the one descriptor of `IMAGE`.
fn compares_descriptors(rt: &impl Abort, image: &Image) {
    assert!(rt; image.fds().len() == 1);
    for fd in image.fds() {
        compares_descriptor(rt, fd);
    }
}

#[test]
fn descriptors_of_an_image(rt: HostRuntime) -> Result<(), Fail> {
    let image = first_image(rt.alloc())?;
    compares_descriptors(&rt, &image);
    drop(image);
    Ok(())
}

/// Compares the words of `IMAGE` at its second address and around its text.
fn compares_words(rt: &impl Abort, image: &Image) {
    assert!(rt; image.fetch(0x10004) == Some(0xb6f28293));
    assert!(rt; image.fetch(0x1002c) == None);
    assert!(rt; image.fetch(0xfffc) == None);
}

#[test]
fn words_at_addresses(rt: HostRuntime) -> Result<(), Fail> {
    let image = first_image(rt.alloc())?;
    compares_words(&rt, &image);
    drop(image);
    Ok(())
}

/// Compares the procedures of `IMAGE` that begin at an address or have it.
fn compares_procedures(rt: &impl Abort, image: &Image) {
    assert!(rt; image.proc_at(0x10000) == Some(0x10000));
    assert!(rt; image.proc_at(0x10004) == None);
    if image.is_in_text(0x10028, 1) {
        assert!(rt; image.proc_of(0x10028) == 0x10000);
    }
}

/// Whether the procedure at an address has this name.
fn is_procedure_name(
    alloc: Global,
    image: &Image,
    address: u32,
    name: &[u8],
) -> Result<bool, NoMemory> {
    Ok(image.procedure_name(alloc, address)?.as_slice() == name)
}

#[test]
fn procedures_at_addresses(rt: HostRuntime) -> Result<(), Fail> {
    let image = first_image(rt.alloc())?;
    compares_procedures(&rt, &image);
    let is_main = is_procedure_name(rt.alloc(), &image, 0x10000, b"main");
    drop(image);
    assert!(rt; is_main?);
    Ok(())
}

/// Compares the bytes of `IMAGE` at two addresses in its text.
fn compares_bytes(rt: &impl Abort, alloc: Global, image: &Image) -> Result<(), NoMemory> {
    if image.is_in_text(0x10006, 2) {
        assert!(rt; image.text_number(0x10006, 2) == 0xb6f2);
    }
    if image.is_in_text(0x10003, 3) {
        let text = image.text_bytes(alloc, 0x10003, 3)?;
        assert!(rt; text.as_slice() == [0x00, 0x93, 0x82].as_slice());
    }
    Ok(())
}

#[test]
fn bytes_at_addresses(rt: HostRuntime) -> Result<(), Fail> {
    let image = first_image(rt.alloc())?;
    let compared = compares_bytes(&rt, rt.alloc(), &image);
    drop(image);
    Ok(compared?)
}

/// Whether an image is written as these bytes.
pub(crate) fn is_written_as(alloc: Global, image: &Image, bytes: &[u8]) -> Result<bool, NoMemory> {
    Ok(write_image(alloc, image)?.as_slice() == bytes)
}

#[test]
fn written_as_it_was_read(rt: HostRuntime) -> Result<(), Fail> {
    let image = first_image(rt.alloc())?;
    let is_same = is_written_as(rt.alloc(), &image, &IMAGE);
    drop(image);
    assert!(rt; is_same?);
    Ok(())
}

/// How many bytes an image has when it is written.
fn written_length(alloc: Global, image: &Image) -> Result<usize, NoMemory> {
    Ok(write_image(alloc, image)?.len())
}

#[test]
fn finished_parts(rt: HostRuntime) -> Result<(), Fail> {
    let image = finished(rt.alloc(), b"main", b"hi")?;
    let length = written_length(rt.alloc(), &image);
    drop(image);
    assert!(rt; length? == 87);
    Ok(())
}

#[test]
fn finished_with_no_name(rt: HostRuntime) -> Result<(), Fail> {
    let alloc = rt.alloc();
    let no_name = named_parts(alloc, b"a b", b"hi")?;
    assert!(rt; finish_fault(alloc, no_name)? == Some((28, Range)));
    Ok(())
}

#[test]
fn finished_with_a_name_that_no_length_tells(rt: HostRuntime) -> Result<(), Fail> {
    let alloc = rt.alloc();
    let name = Items::new(vec![in alloc; 97u8; 70000]?);
    let long_name = parts(alloc, name, bytes(alloc, b"hi")?)?;
    assert!(rt; finish_fault(alloc, long_name)? == Some((28, Range)));
    Ok(())
}

#[test]
fn finished_with_a_file_that_is_too_large(rt: HostRuntime) -> Result<(), Fail> {
    let alloc = rt.alloc();
    let content = Items::new(vec![in alloc; 97u8; 16777216]?);
    let large_file = parts(alloc, bytes(alloc, b"a b")?, content)?;
    assert!(rt; finish_fault(alloc, large_file)? == Some((16777216, Limit)));
    Ok(())
}
