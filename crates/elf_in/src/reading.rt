//! Reading an ELF file.

ghost use Rattle.std.specs.Prelude.{◌≡◌, ◌≤◌, length, IfOk};
ghost use Rattle.elf_in.specs.Fields as fields;
ghost use Rattle.elf_in.specs.Reading as reading;
ghost use Rattle.elf_in.specs.Steps.{IsElfAnswer, passed};
ghost use Rattle.elf_in.specs.Checks as checks;
ghost use Rattle.elf_in.specs.Laws.{AreElfProcedures, KeepsLoads};
ghost use Rattle.elf_in.specs.Views.{symbols_view};

use crate::checking::{
    check_identity, check_kind, check_loads, program_headers, section_headers, text_of,
};
use crate::fault::ElfError;
use crate::fields::word_at;
use crate::headers::ProgramHeader;
use crate::loads::{data_loads, word_count};
use crate::procedures::procedures_of;
use crate::program::ElfProgram;
use crate::symbols::{SymbolTable, symbol_table};
use image_form::TextSpan;
use std::alloc::Global;
use wedge_base::{Items, NoMemory};

/// The program of a file whose headers and symbols are known.
#[tactic(auto, using(crate::proofs::Apart::procedures_law, crate::proofs::Keeps::keeps_law), unfolding(crate::specs::Reading::program_of, crate::specs::Loads::ranges_of))]
fn program_of<'a>(
    alloc: Global,
    file: &'a [u8],
    headers: &[ProgramHeader],
    text: ProgramHeader,
    symbols: &SymbolTable<'_>,
) -> Result<ElfProgram<'a>, NoMemory>
    requires headers { checks.program_headers file.now ≡ Ok headers.now }
    requires loads { checks.loads_check file.now headers.now ≡ passed }
    requires text { checks.text_header file.now headers.now ≡ Ok text }
    requires long { checks.header_size ≤ length file.now }
    ensures is { IfOk result (λ p.
        p ≡ reading.program_of file.now headers.now text (symbols_view symbols.now)) }
    ensures keeps { IfOk result (KeepsLoads file.now) }
    ensures apart { IfOk result (λ p. AreElfProcedures p.base p.entry p.procedures) }
{
    let entry = word_at(file, 24);
    let span = TextSpan {
        base: text.address,
        count: word_count(file, &text),
    };
    let procedures = procedures_of(alloc, span, entry, symbols)?;
    let data = data_loads(alloc, headers)?;
    Ok(ElfProgram {
        file,
        text,
        data,
        procedures: Items::new(procedures),
        entry,
    })
}

/// The program of an ELF file, or the first fault by the order of the checks (`docs/FORMATS.md`). Of
/// a file of more than 16,777,216 bytes none is looked at.
#[tactic(auto, unfolding(crate::specs::Reading::elf_program))]
pub fn read_elf(alloc: Global, bytes: &[u8]) -> Result<ElfProgram<'_>, ElfError>
    // The program, or which fault comes first: there is a program exactly where no check fails.
    ensures exact { IsElfAnswer (λ p. p) result (reading.elf_program bytes.now) }
    // Each byte of its text and data is a load's: the file's byte, or zero past the load's size in
    // the file; and what is around a load is zero.
    ensures bytes { IfOk result (KeepsLoads bytes.now) }
    // Its procedures have addresses and names of their own, and one begins at the base and one at
    // the entry.
    ensures procedures { IfOk result (λ p. AreElfProcedures p.base p.entry p.procedures) }
{
    check_identity(bytes)?;
    check_kind(bytes)?;
    let headers = program_headers(alloc, bytes)?;
    check_loads(bytes, &headers)?;
    let text = text_of(bytes, &headers)?;
    let sections = section_headers(alloc, bytes)?;
    let symbols = symbol_table(alloc, bytes, &sections)?;
    Ok(program_of(alloc, bytes, &headers, text, &symbols)?)
}
