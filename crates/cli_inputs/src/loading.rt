//! From the name of a file to the image that is run, listed or written.

ghost use Rattle.std.specs.Prelude.{◌≡◌, ◌≤◌, ◌<◌, ℕ, List, length, vec_len, IfOk, IfErr, Ok};
ghost use Rattle.cli_inputs.specs.Loading.{IsUnread, IsRefusedBy, IsRefusalOf, image_from_bytes, built_of, most_of, most_partition, too_long};
ghost use Rattle.host_io.specs.Exposed.{WhereExposed};
ghost use Rattle.image_form.specs.Rules.{Encodes};
ghost use Rattle.part_toml.specs.Partition.{partition};

use crate::refusal::{PartRefusal, Refusal, ScheduleRefusal, refused, refused_partition};
use host_io::{Files, ReadFault, read_whole};
use image_form::{Fault, Image, Why, read_image};
use part_toml::read_partition;
use std::alloc::Global;
use trace_form::TraceFault;
use wedge_base::Bytes;

/// The most bytes of an image's file.
const MOST_BYTES: u64 = 16_777_216;

/// The most bytes of an ELF file.
const MOST_ELF: u64 = 16_777_216;

/// The most bytes of a partition's file.
const MOST_PARTITION: u64 = 4_194_304;

/// The most bytes of a schedule's file.
const MOST_SCHEDULE: u64 = 67_108_864;

/// The most bytes of a trace's file.
const MOST_TRACE: u64 = 67_108_864;

/// What a file is read as.
#[derive(Clone, Copy, Debug, PartialEq, Eq)]
pub enum FileKind {
    Image,
    Elf,
    Partition,
    Schedule,
    Trace,
}

/// The bytes of a file of a kind. One that has more than a file of the kind may have is refused as it is
/// read.
pub fn read_file<F: Files>(
    alloc: Global,
    files: &mut F,
    kind: FileKind,
    name: &str,
) -> Result<Vec<u8>, Refusal>
    ensures bytes { IfOk result (λ v. WhereExposed (F.content files.old name.now)
        (λ bytes. v.items ≡ bytes)) }
    ensures within { IfOk result (λ v. vec_len v ≤ most_of kind) }
    ensures refused { IfErr result (IsUnread kind name.now (F.content files.old name.now)
        (F.faults files.old name.now) (F.faults files.new name.now)) }
    ensures content { (other : List ℕ) → F.content files.new other
        ≡ F.content files.old other }
    ensures rises { (other : List ℕ) → F.faults files.old other ≤ F.faults files.new other }
{
    match read_whole(alloc, files, name, most_of(kind)) {
        Ok(bytes) => Ok(bytes),
        Err(ReadFault::NoMemory) => Err(Refusal::NoMemory),
        Err(ReadFault::Fault) => {
            let file = Bytes::from_slice(alloc, name.as_bytes())?;
            Err(Refusal::Read { file })
        }
        Err(ReadFault::TooLong { .. }) => Err(too_long(kind)),
    }
}

/// The most bytes of a file of a kind.
fn most_of(kind: FileKind) -> u64
    ensures { result ≡ most_of kind }
{
    match kind {
        FileKind::Image => MOST_BYTES,
        FileKind::Elf => MOST_ELF,
        FileKind::Partition => MOST_PARTITION,
        FileKind::Schedule => MOST_SCHEDULE,
        FileKind::Trace => MOST_TRACE,
    }
}

/// The refusal of a file of more bytes.
fn too_long(kind: FileKind) -> Refusal
    ensures { result ≡ too_long kind }
{
    match kind {
        FileKind::Image => Refusal::Image(Fault {
            at: MOST_BYTES as usize,
            why: Why::Limit,
        }),
        FileKind::Elf => Refusal::Elf(elf_in::Fault {
            at: MOST_ELF as usize,
            why: elf_in::Why::Limit,
        }),
        FileKind::Partition => Refusal::Partition(PartRefusal::Limit),
        FileKind::Schedule => Refusal::Schedule(ScheduleRefusal::Limit),
        FileKind::Trace => Refusal::Trace(TraceFault {
            at: 0,
            why: trace_form::Why::Limit,
        }),
    }
}

/// The image of a file.
pub fn load_image<F: Files>(alloc: Global, files: &mut F, name: &str) -> Result<Image, Refusal>
    ensures encoded { IfOk result (λ i. WhereExposed (F.content files.old name.now)
        (λ bytes. Encodes i bytes)) }
    ensures accepted { IfOk result (λ i. WhereExposed (F.content files.old name.now)
        (λ bytes. image_from_bytes bytes ≡ Ok i)) }
    ensures refused { IfErr result
        (IsRefusedBy image_from_bytes name.now (F.content files.old name.now)
        (F.faults files.old name.now) (F.faults files.new name.now)) }
    ensures content { (other : List ℕ) → F.content files.new other
        ≡ F.content files.old other }
    ensures rises { (other : List ℕ) → F.faults files.old other ≤ F.faults files.new other }
{
    let bytes = read_file(alloc, files, FileKind::Image, name)?;
    image_of(alloc, bytes.as_slice())
}

/// The image of a partition's file.
pub fn load_built<F: Files>(alloc: Global, files: &mut F, name: &str) -> Result<Image, Refusal>
    ensures partition { IfOk result (λ i. WhereExposed (F.content files.old name.now)
        (λ bytes. partition bytes ≡ Ok i)) }
    ensures accepted { IfOk result (λ i. WhereExposed (F.content files.old name.now)
        (λ bytes. built_of bytes ≡ Ok i)) }
    ensures refused { IfErr result (IsRefusedBy built_of name.now (F.content files.old name.now)
        (F.faults files.old name.now) (F.faults files.new name.now)) }
    ensures content { (other : List ℕ) → F.content files.new other
        ≡ F.content files.old other }
    ensures rises { (other : List ℕ) → F.faults files.old other ≤ F.faults files.new other }
{
    let bytes = read_file(alloc, files, FileKind::Partition, name)?;
    built_of(alloc, bytes.as_slice())
}

/// The image that bytes encode.
pub fn image_of(alloc: Global, bytes: &[u8]) -> Result<Image, Refusal>
    ensures encoded { IfOk result (λ i. Encodes i bytes.now) }
    ensures accepted { IfOk result (λ i. image_from_bytes bytes.now ≡ Ok i) }
    ensures refused { IfErr result (IsRefusalOf (image_from_bytes bytes.now)) }
{
    match read_image(alloc, bytes) {
        Ok(image) => Ok(image),
        Err(error) => Err(refused(error)),
    }
}

/// The image of a partition.
#[tactic(auto, unfolding(crate::specs::Loading::built_of))]
fn built_of(alloc: Global, bytes: &[u8]) -> Result<Image, Refusal>
    requires { length bytes.now ≤ most_partition }
    ensures partition { IfOk result (λ i. partition bytes.now ≡ Ok i) }
    ensures accepted { IfOk result (λ i. built_of bytes.now ≡ Ok i) }
    ensures refused { IfErr result (IsRefusalOf (built_of bytes.now)) }
{
    let Ok(text) = str::from_utf8(bytes) else {
        return Err(Refusal::Partition(PartRefusal::Toml));
    };
    match read_partition(alloc, text) {
        Ok(image) => Ok(image),
        Err(fault) => Err(refused_partition(fault)),
    }
}
