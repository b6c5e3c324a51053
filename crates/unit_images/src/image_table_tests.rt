//! Tables with as many entries as there may be.

use super::image_form_tests::{SMALL, accepted, fault_of, is_written_as};
use image_form::{Image, Why, read_image};
use std::alloc::Global;
use std::process::Abort;
use std::test::Fail;
use wedge_base::NoMemory;

/// No data, no tags and no descriptors.
static NO_TABLES: [u8; 12] = [0; 12];

fn push_number(bytes: &mut Vec<u8>, number: u32) -> Result<(), NoMemory> {
    bytes.extend_from_slice(&number.to_le_bytes())?;
    Ok(())
}

/// A string of two characters and four digits, with its length.
fn push_text(bytes: &mut Vec<u8>, start: &[u8; 2], number: u16) -> Result<(), NoMemory> {
    bytes.extend_from_slice(&[6, 0])?;
    bytes.extend_from_slice(start)?;
    for place in [1000u16, 100, 10, 1] {
        bytes.push(b'0' + (number / place % 10) as u8)?;
    }
    Ok(())
}

/// So many words.
fn push_words(bytes: &mut Vec<u8>, count: u16) -> Result<(), NoMemory> {
    push_number(bytes, u32::from(count))?;
    for _ in 0..count {
        push_number(bytes, 0x73)?;
    }
    Ok(())
}

/// So many procedures, each of one word. The last one has the address of the one at index `last`.
fn push_procedures(bytes: &mut Vec<u8>, count: u16, last: u16) -> Result<(), NoMemory> {
    push_number(bytes, u32::from(count))?;
    for place in 0..count {
        push_text(bytes, b"p_", place)?;
        let begins = if place < count - 1 { place } else { last };
        push_number(bytes, 0x10000 + 4 * u32::from(begins))?;
    }
    Ok(())
}

/// So many files.
fn push_files(bytes: &mut Vec<u8>, count: u16) -> Result<(), NoMemory> {
    push_number(bytes, u32::from(count))?;
    for place in 0..count {
        push_text(bytes, b"/f", place)?;
        bytes.extend_from_slice(&[0; 16])?;
    }
    Ok(())
}

/// An image of so many words and procedures, with so many files. The numbers before the words are those of `SMALL`. The last
/// procedure has the address of the one at index `last`.
fn image(alloc: Global, procedures: u16, last: u16, files: u16) -> Result<Vec<u8>, NoMemory> {
    let mut bytes = Vec::from_slice(alloc, &SMALL[..16])?;
    push_words(&mut bytes, procedures)?;
    push_procedures(&mut bytes, procedures, last)?;
    push_number(&mut bytes, 0x10000)?;
    bytes.extend_from_slice(&NO_TABLES)?;
    push_files(&mut bytes, files)?;
    bytes.extend_from_slice(&[0, 0, 0, 0, 1, 0, b'/'])?;
    Ok(bytes)
}

/// Compares the lengths of the tables of an image that has as many entries as there may be, and finds
/// the last procedure.
fn compares_full_tables(rt: &impl Abort, image: &Image) {
    assert!(rt; image.procedures().len() == 4096);
    assert!(rt; image.files().len() == 1024);
    let last = 0x10000 + 4 * 4095;
    assert!(rt; image.proc_at(last) == Some(last));
}

#[test]
fn as_many_procedures_and_files_as_may_be(rt: HostRuntime) -> Result<(), Fail> {
    let bytes = image(rt.alloc(), 4096, 4095, 1024)?;
    let image = accepted(read_image(rt.alloc(), &bytes))?;
    compares_full_tables(&rt, &image);
    let is_same = is_written_as(rt.alloc(), &image, &bytes);
    drop(image);
    assert!(rt; is_same?);
    Ok(())
}

/// The table of procedures begins after 20 bytes and 4 a word, and each entry has 12.
#[test]
fn the_last_procedure_where_another_is(rt: HostRuntime) -> Result<(), Fail> {
    let bytes = image(rt.alloc(), 4096, 4094, 0)?;
    let at = 20 + 4 * 4096 + 4 + 12 * 4095 + 8;
    assert!(rt; fault_of(rt.alloc(), &bytes)? == Some((at, Why::Overlap)));
    Ok(())
}

#[test]
fn one_procedure_too_many(rt: HostRuntime) -> Result<(), Fail> {
    let bytes = image(rt.alloc(), 4097, 4096, 0)?;
    let at = 20 + 4 * 4097;
    assert!(rt; fault_of(rt.alloc(), &bytes)? == Some((at, Why::Limit)));
    Ok(())
}

/// With one procedure the table of files begins at 56.
#[test]
fn one_file_too_many(rt: HostRuntime) -> Result<(), Fail> {
    let bytes = image(rt.alloc(), 1, 0, 1025)?;
    assert!(rt; fault_of(rt.alloc(), &bytes)? == Some((56, Why::Limit)));
    Ok(())
}
