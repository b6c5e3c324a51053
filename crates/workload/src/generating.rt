//! The workload of N workers, as an image.

ghost use Rattle.std.specs.Prelude.{◌≡◌, ◌≤◌, ◌<◌, ◌^◌, IfOk};
ghost use Rattle.rv_isa.specs.Encoding.{encoded};
ghost use Rattle.image_form.specs.View.{image_of};
ghost use Rattle.workload.specs.Mnemonics.{li, s1};
ghost use Rattle.workload.specs.Workload as spec;

use image_form::{Image, ImageError, ImageParts, finish_image};
use std::alloc::Global;
use wedge_base::{Bytes, FdBits, FdEntry, Items, NoMemory, Procedure, Right, StreamKind, TagEntry};

/// The address of the first instruction, where the root begins.
const ROOT: u32 = 0x10000;
/// The address at which each worker begins.
const WORKER: u32 = 0x10080;

/// The indices of the two words that set s1 to the number of workers.
const COUNTS: [usize; 2] = [7, 19];

/// The words of the text, where s1 is set to 0.
const TEXT: [u32; 55] = [
    // main:
    0x0070_0893, // addi a7, zero, 7
    0x0000_0073, // ecall
    0x0005_0413, // addi s0, a0, 0
    0x0000_0593, // addi a1, zero, 0
    0x0020_0613, // addi a2, zero, 2
    0x0080_0893, // addi a7, zero, 8
    0x0000_0073, // ecall
    0x0000_0493, // addi s1, zero, 0
    0x0000_0913, // addi s2, zero, 0
    // more:
    0x0204_8463, // beq s1, zero, 40
    0x0004_0513, // addi a0, s0, 0
    0x0001_05b7, // lui a1, 0x10
    0x0805_8593, // addi a1, a1, 128
    0x0000_0613, // addi a2, zero, 0
    0x7d00_0693, // addi a3, zero, 2000
    0x0010_0893, // addi a7, zero, 1
    0x0000_0073, // ecall
    0xfff4_8493, // addi s1, s1, -1
    0xfddf_f06f, // jal zero, -36
    // all:
    0x0000_0493, // addi s1, zero, 0
    0x0010_0993, // addi s3, zero, 1
    // gather:
    0x0204_8063, // beq s1, zero, 32
    0x0009_8513, // addi a0, s3, 0
    0x0020_0893, // addi a7, zero, 2
    0x0000_0073, // ecall
    0x00a9_0933, // add s2, s2, a0
    0x0019_8993, // addi s3, s3, 1
    0xfff4_8493, // addi s1, s1, -1
    0xfe5f_f06f, // jal zero, -28
    // finish:
    0x0009_0513, // addi a0, s2, 0
    0x0000_0893, // addi a7, zero, 0
    0x0000_0073, // ecall
    // work:
    0x0010_0513, // addi a0, zero, 1
    0x0030_0893, // addi a7, zero, 3
    0x0000_0073, // ecall
    0x0006_0413, // addi s0, a2, 0
    0x0400_0493, // addi s1, zero, 64
    0x4000_0937, // lui s2, 0x40000
    0x0009_0913, // addi s2, s2, 0
    0x0000_0993, // addi s3, zero, 0
    // step:
    0x0004_8e63, // beq s1, zero, 28
    0x0009_2283, // lw t0, 0(s2)
    0x0059_89b3, // add s3, s3, t0
    0x0134_2023, // sw s3, 0(s0)
    0x0049_0913, // addi s2, s2, 4
    0xfff4_8493, // addi s1, s1, -1
    0xfe9f_f06f, // jal zero, -24
    // last:
    0x0000_0513, // addi a0, zero, 0
    0x0001_0593, // addi a1, sp, 0
    0x0000_0613, // addi a2, zero, 0
    0x0100_0893, // addi a7, zero, 16
    0x0000_0073, // ecall
    0x0004_2503, // lw a0, 0(s0)
    0x0000_0893, // addi a7, zero, 0
    0x0000_0073, // ecall
];

/// Returns the word of an instruction that sets s1.
fn set_s1(workers: u32) -> u32
    requires { workers < 2 ^ 11 }
    ensures { result ≡ encoded (li s1 workers) }
{
    0x0000_0493 + (workers << 20)
}

/// Returns the words of the text.
fn program_words(alloc: Global, workers: u32) -> Result<Items<u32>, NoMemory>
    requires { workers < 2 ^ 11 }
    ensures { IfOk result (λ w. w ≡ spec.program_words workers) }
{
    let mut words = Vec::from_slice(alloc, &TEXT)?;
    words[COUNTS[0]] = set_s1(workers);
    words[COUNTS[1]] = set_s1(workers);
    Ok(Items::new(words))
}

/// Returns word `i` of the tag `input`.
fn input_word(workers: u32, i: u32) -> u32
    requires { i < 64 }
    ensures { result ≡ spec.input_word workers i }
{
    ((u64::from(i) * 2_654_435_761 + u64::from(workers)) % (1 << 32)) as u32
}

/// Returns the bytes of the tag `input`.
fn input_bytes(alloc: Global, workers: u32) -> Result<Bytes, NoMemory>
    ensures { IfOk result (λ b. b ≡ spec.input_bytes workers) }
{
    let mut bytes = Vec::new(alloc);
    for i in 0..64 {
        bytes.extend_from_slice(&input_word(workers, i).to_le_bytes())?;
    }
    Ok(Items::new(bytes))
}

/// Returns the tag that each worker reads.
fn input_tag(alloc: Global, workers: u32) -> Result<TagEntry, NoMemory>
    ensures { IfOk result (λ t. t ≡ spec.input_tag workers) }
{
    Ok(TagEntry {
        name: Bytes::from_slice(alloc, b"input")?,
        pages: 1,
        right: Some(Right::Read),
        content: input_bytes(alloc, workers)?,
    })
}

/// Returns the stream to which no worker may append.
fn out_stream(alloc: Global) -> Result<FdEntry, NoMemory>
    ensures { IfOk result (λ f. f ≡ spec.out_stream) }
{
    Ok(FdEntry {
        name: Bytes::from_slice(alloc, b"out")?,
        kind: StreamKind::Append,
        bits: FdBits {
            read: false,
            append: true,
        },
        content: Items::new(Vec::new(alloc)),
    })
}

/// Returns a procedure of the text.
fn procedure(alloc: Global, name: &[u8], address: u32) -> Result<Procedure, NoMemory>
    ensures { IfOk result (λ p. p ≡ spec.named_procedure name.now address) }
{
    let name = Bytes::from_slice(alloc, name)?;
    Ok(Procedure { name, address })
}

/// Returns the procedures of the text, by name.
fn procedures(alloc: Global) -> Result<Items<Procedure>, NoMemory>
    ensures { IfOk result (λ ps. ps ≡ spec.two_procedures) }
{
    let main = procedure(alloc, b"main", ROOT)?;
    let work = procedure(alloc, b"work", WORKER)?;
    Ok(Items::new(vec![in alloc; main, work]?))
}

/// Returns the parts of the image.
fn parts(alloc: Global, workers: u32) -> Result<ImageParts, NoMemory>
    requires { workers ≤ 200 }
    ensures { IfOk result (λ p. image_of p ≡ spec.workload workers) }
{
    let tag = input_tag(alloc, workers)?;
    let stream = out_stream(alloc)?;
    Ok(ImageParts {
        fuel: 2020 * workers + 100,
        base: ROOT,
        words: program_words(alloc, workers)?,
        procedures: procedures(alloc)?,
        entry: ROOT,
        ranges: Items::new(Vec::new(alloc)),
        tags: Items::new(vec![in alloc; tag]?),
        fds: Items::new(vec![in alloc; stream]?),
        files: Items::new(Vec::new(alloc)),
        user: 0,
        root: Bytes::from_slice(alloc, b"/")?,
    })
}

/// Returns the workload of 1 to 200 workers: an image whose root creates them, joins them, and exits with the sum of the
/// values with which they exited. Each worker adds up the same words in a tag of its own, and is denied one append.
/// Fails only where out of memory.
pub fn generate(alloc: Global, workers: u32) -> Result<Image, NoMemory>
    requires some { 1 ≤ workers }
    requires few { workers ≤ 200 }
    ensures { IfOk result (λ i. i ≡ spec.workload workers) }
{
    match finish_image(alloc, parts(alloc, workers)?) {
        Ok(image) => Ok(image),
        Err(ImageError::NoMemory) => Err(NoMemory),
        Err(ImageError::Fault(_)) => unreachable!(),
    }
}
