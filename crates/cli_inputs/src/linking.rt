//! The image that an ELF file and a partition are joined to.

ghost use Rattle.std.specs.Prelude.{◌≡◌, ◌≤◌, ◌<◌, ℕ, List, length, vec_len, Ok, IfOk, IfErr, IfSome, MatchOption};
ghost use Rattle.host_io.specs.Exposed.{WhereExposed};
ghost use Rattle.elf_in.specs.Laws.{KeepsLoads};
ghost use Rattle.elf_in.specs.Reading.{elf_program};
ghost use Rattle.part_toml.specs.Joining.{Joins};
ghost use Rattle.cli_inputs.specs.Linking as linked;
ghost use Rattle.cli_inputs.specs.Linking.{IsJoinedImage, program_by, encoding_by};
ghost use Rattle.cli_inputs.specs.Loading.{most_partition, IsPartitionUnread};
ghost use Rattle.cli_inputs.specs.Replaying.{IsRefusalIn};

use crate::loading::{FileKind, read_file};
use crate::refusal::{PartRefusal, Refusal, refused_elf, refused_joining};
use elf_in::{ElfProgram, read_elf};
use host_io::Files;
use image_form::{Image, write_image};
use part_toml::read_partition_with;
use std::alloc::Global;

/// The bytes of a partition's file, or nothing where it has more than a partition may have: that is
/// reported only after the ELF file was checked.
pub fn read_partition_file<F: Files>(
    alloc: Global,
    files: &mut F,
    name: &str,
) -> Result<Option<Vec<u8>>, Refusal>
    ensures bytes { IfOk result (λ o. MatchOption o
        (WhereExposed (F.content files.old name.now) (λ bytes. most_partition < length bytes))
        (λ v. WhereExposed (F.content files.old name.now) (λ bytes. v.items ≡ bytes))) }
    ensures within { IfOk result (λ o. IfSome o (λ v. vec_len v ≤ most_partition)) }
    ensures refused { IfErr result (IsPartitionUnread name.now
        (F.faults files.old name.now) (F.faults files.new name.now)) }
    ensures content { (other : List ℕ) → F.content files.new other
        ≡ F.content files.old other }
    ensures rises { (other : List ℕ) → F.faults files.old other ≤ F.faults files.new other }
{
    match read_file(alloc, files, FileKind::Partition, name) {
        Ok(bytes) => Ok(Some(bytes)),
        Err(Refusal::Partition(..)) => Ok(None),
        Err(refusal) => Err(refusal),
    }
}

/// The program of an ELF file.
pub fn program_of(alloc: Global, elf: &[u8]) -> Result<ElfProgram<'_>, Refusal>
    ensures accepted { IfOk result (λ p. elf_program elf.now ≡ Ok p) }
    ensures keeps { IfOk result (KeepsLoads elf.now) }
    ensures rejected { IfErr result (IsRefusalIn (program_by (elf_program elf.now))) }
{
    match read_elf(alloc, elf) {
        Ok(program) => Ok(program),
        Err(error) => Err(refused_elf(error)),
    }
}

/// The image of a program and the bytes of a partition's file.
#[tactic(auto, unfolding(crate::specs::Linking::joined_of))]
fn joined_of(alloc: Global, program: &ElfProgram<'_>, bytes: &[u8]) -> Result<Image, Refusal>
    requires { length bytes.now ≤ most_partition }
    ensures accepted { IfOk result (λ i. linked.joined_of program.now bytes.now ≡ Ok i) }
    ensures joins { IfOk result (Joins program.now) }
    ensures rejected { IfErr result (IsRefusalIn (linked.joined_of program.now bytes.now)) }
{
    let Ok(text) = str::from_utf8(bytes) else {
        return Err(Refusal::Partition(PartRefusal::Toml));
    };
    match read_partition_with(alloc, text, program) {
        Ok(image) => Ok(image),
        Err(fault) => Err(refused_joining(fault)),
    }
}

/// The encoding of the image that a program and a partition are joined to.
pub fn link_text(alloc: Global, program: &ElfProgram<'_>, bytes: &[u8]) -> Result<Vec<u8>, Refusal>
    requires { length bytes.now ≤ most_partition }
    ensures text { IfOk result (λ v.
        encoding_by (linked.joined_of program.now bytes.now) ≡ Ok v.items) }
    ensures image { IfOk result (λ v. IsJoinedImage program.now v.items) }
    ensures rejected { IfErr result (IsRefusalIn (linked.joined_of program.now bytes.now)) }
{
    let image = joined_of(alloc, program, bytes)?;
    let text = write_image(alloc, &image)?;
    Ok(text)
}
