//! Programs of ELF files, and how much memory they take.

use elf_in::{ElfProgram, read_elf};
use std::alloc::Global;
use std::process::Abort;
use std::test::Fail;
use wedge_base::NoMemory;

/// The words of a program that writes `ok`.
const WORDS: [u32; 11] = [
    0x000072b7, 0xb6f28293, 0xfe512e23, 0x00000513, 0xffc10593, 0x00200613, 0x01000893, 0x00000073,
    0x00000513, 0x00000893, 0x00000073,
];

fn push_words(file: &mut Vec<u8>, words: &[u32]) -> Result<(), NoMemory> {
    for word in words {
        file.extend_from_slice(&word.to_le_bytes())?;
    }
    Ok(())
}

/// A file's header: its entry, where its section headers begin, and how many program and section
/// headers it has.
fn push_header(
    file: &mut Vec<u8>,
    entry: u32,
    sections: u32,
    counts: [u32; 2],
) -> Result<(), NoMemory> {
    file.extend_from_slice(b"\x7fELF\x01\x01\x01\0\0\0\0\0\0\0\0\0")?;
    let [programs, section_count] = counts;
    push_words(file, &[0x00f3_0002, 1, entry, 52, sections, 0])?;
    push_words(file, &[0x0020_0034, 0x0028_0000 | programs, section_count])
}

/// A file of one load and no symbols.
fn small(alloc: Global) -> Result<Vec<u8>, NoMemory> {
    let mut file = Vec::new(alloc);
    push_header(&mut file, 0x10000, 0, [1, 0])?;
    push_words(&mut file, &[1, 84, 0x10000, 0, 44, 44, 5, 4])?;
    push_words(&mut file, &WORDS)?;
    Ok(file)
}

/// The program of a file.
fn program_of(alloc: Global, file: &[u8]) -> Result<ElfProgram<'_>, Fail> {
    Ok(read_elf(alloc, file).map_err(|_| "rejected")?)
}

/// Compares the numbers of the program of one load, and how much memory it fits in.
fn compares_numbers(rt: &impl Abort, program: &ElfProgram<'_>) {
    assert!(rt; program.base() == 0x10000 && program.entry() == 0x10000);
    assert!(rt; program.fits_in(44) && !program.fits_in(43));
}

/// Whether a program's words are `WORDS`.
fn has_words(alloc: Global, program: &ElfProgram<'_>) -> Result<bool, NoMemory> {
    Ok(program.words(alloc)?.as_slice() == WORDS.as_slice())
}

#[test]
fn one_load_without_symbols(rt: HostRuntime) -> Result<(), Fail> {
    let file = small(rt.alloc())?;
    assert!(rt; file.len() == 128);
    let program = program_of(rt.alloc(), &file)?;
    compares_numbers(&rt, &program);
    assert!(rt; has_words(rt.alloc(), &program)?);
    Ok(())
}

/// Whether a program has no ranges.
fn has_no_ranges(alloc: Global, program: &ElfProgram<'_>) -> Result<bool, NoMemory> {
    Ok(program.ranges(alloc)?.as_slice().is_empty())
}

/// Compares the one procedure of a program without symbols.
fn compares_procedures(
    rt: &impl Abort,
    alloc: Global,
    program: &ElfProgram<'_>,
) -> Result<(), NoMemory> {
    let procedures = program.procedures(alloc)?;
    assert!(rt; procedures.as_slice().len() == 1);
    for procedure in procedures.as_slice() {
        let name = procedure.name.as_slice();
        assert!(rt; name == b"text.start".as_slice() && procedure.address == 0x10000);
    }
    Ok(())
}

#[test]
fn lists_of_one_load(rt: HostRuntime) -> Result<(), Fail> {
    let file = small(rt.alloc())?;
    let program = program_of(rt.alloc(), &file)?;
    assert!(rt; has_no_ranges(rt.alloc(), &program)?);
    compares_procedures(&rt, rt.alloc(), &program)?;
    Ok(())
}

/// A file of 128 bytes whose load has 4 GiB less 64 KiB of memory.
fn large(alloc: Global) -> Result<Vec<u8>, NoMemory> {
    let mut file = small(alloc)?;
    for (at, byte) in [(72, 0), (73, 0), (74, 0xff), (75, 0xff)] {
        if let Some(old) = file.get_mut(at) {
            *old = byte;
        }
    }
    Ok(file)
}

#[test]
fn memory_is_measured_and_not_made(rt: HostRuntime) -> Result<(), Fail> {
    let file = large(rt.alloc())?;
    let program = program_of(rt.alloc(), &file)?;
    assert!(rt; program.fits_in(0xffff_0000));
    assert!(rt; !program.fits_in(0xfffe_ffff));
    Ok(())
}
