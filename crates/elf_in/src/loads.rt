//! The memory of loads.

ghost use Rattle.std.specs.Prelude.{◌≡◌, ◌++◌, ◌+◌, ◌*◌, ◌^◌, ◌≤◌, length, filter, IfOk};
ghost use Rattle.wedge_base.specs.Bytes.{zeros, padded_to_words};
ghost use Rattle.elf_in.specs.Headers.{is_data as is_data_header};
ghost use Rattle.elf_in.specs.Loads as loads;

use crate::fields::{part, table};
use crate::headers::{ProgramHeader, is_data};
use stable_sort::{Sortable, sort};
use std::alloc::Global;
use std::cmp::Ordering;
use wedge_base::{Items, MemoryRange, NoMemory};

/// Bytes with so many zeros after them.
#[tactic(auto, unfolding(wedge_base::specs::Bytes::zeros))]
fn with_zeros(mut bytes: Vec<u8>, count: usize) -> Result<Vec<u8>, NoMemory>
    requires { length bytes.items + count ≤ 2 * 2 ^ 32 }
    ensures is { IfOk result (λ v. v.items ≡ bytes.items ++ zeros count) }
    ensures long { IfOk result (λ v. length v.items ≡ length bytes.items + count) }
{
    let len = bytes.len();
    bytes.resize(len + count, 0)?;
    Ok(bytes)
}

/// The bytes of a load after so many zeros, with zeros up to a multiple of four.
#[tactic(auto, unfolding(crate::specs::Loads::bytes_of_load))]
fn loaded(
    alloc: Global,
    file: &[u8],
    header: &ProgramHeader,
    before: usize,
) -> Result<Vec<u8>, NoMemory>
    requires { before ≤ 3 }
    ensures { IfOk result (λ v.
        v.items ≡ padded_to_words (zeros before ++ loads.bytes_of_load file.now header.now)) }
{
    let bytes = part(file, header.offset, header.file_size);
    let mut all = with_zeros(Vec::new(alloc), before)?;
    all.extend_from_slice(bytes)?;
    let rest = header.memory_size.saturating_sub(header.file_size);
    let all = with_zeros(all, rest as usize)?;
    let len = all.len();
    with_zeros(all, (4 - len % 4) % 4)
}

/// How many bytes a load has after so many zeros, with zeros up to a multiple of four.
#[tactic(auto, unfolding(crate::specs::Loads::bytes_of_load, wedge_base::specs::Bytes::zeros))]
pub(crate) fn memory_len(file: &[u8], header: &ProgramHeader, before: usize) -> usize
    requires { before ≤ 3 }
    ensures { result
        ≡ length (padded_to_words (zeros before ++ loads.bytes_of_load file.now header.now)) }
{
    let bytes = part(file, header.offset, header.file_size);
    let rest = header.memory_size.saturating_sub(header.file_size);
    let len = before + bytes.len() + rest as usize;
    len + (4 - len % 4) % 4
}

/// The words of the text.
#[tactic(auto, unfolding(crate::specs::Loads::text_words, crate::specs::Loads::words_of, wedge_base::specs::Bytes::zeros))]
pub(crate) fn text_words(
    alloc: Global,
    file: &[u8],
    text: &ProgramHeader,
) -> Result<Vec<u32>, NoMemory>
    ensures { IfOk result (λ v. v.items ≡ loads.text_words file.now text.now) }
{
    let bytes = loaded(alloc, file, text, 0)?;
    table(alloc, &bytes, 4, bytes.len() / 4, 0)
}

/// How many words the text has.
pub(crate) fn word_count(file: &[u8], text: &ProgramHeader) -> usize
    ensures { result ≡ length (loads.text_words file.now text.now) }
{
    memory_len(file, text, 0) / 4
}

/// The range of a load of data.
#[tactic(auto, unfolding(crate::specs::Loads::range_of))]
pub(crate) fn range_of(
    alloc: Global,
    file: &[u8],
    header: &ProgramHeader,
) -> Result<MemoryRange, NoMemory>
    ensures { IfOk result (λ r. r ≡ loads.range_of file.now header.now) }
{
    let bytes = loaded(alloc, file, header, (header.address % 4) as usize)?;
    Ok(MemoryRange {
        base: base_of(header),
        bytes: Items::new(bytes),
    })
}

/// How many bytes the range of a load of data has.
#[tactic(auto, unfolding(crate::specs::Loads::range_of))]
pub(crate) fn range_len(file: &[u8], header: &ProgramHeader) -> usize
    ensures { result ≡ length (loads.range_of file.now header.now).bytes }
{
    memory_len(file, header, (header.address % 4) as usize)
}

/// Where the range of a load begins: at the multiple of four at its address or below.
fn base_of(header: &ProgramHeader) -> u32
    ensures { result ≡ loads.base_of header.now }
{
    header.address - header.address % 4
}

/// The headers of loads of data, in the order of the file.
fn unsorted_data(alloc: Global, headers: &[ProgramHeader]) -> Result<Vec<ProgramHeader>, NoMemory>
    ensures { IfOk result (λ v. v.items ≡ filter is_data_header headers.now) }
{
    let mut data = Vec::new(alloc);
    for header in headers {
        if is_data(header) {
            data.push(*header)?;
        }
    }
    Ok(data)
}

/// The headers of loads of data, in the order of their ranges.
#[tactic(auto, unfolding(crate::specs::Loads::data_loads))]
pub(crate) fn data_loads(
    alloc: Global,
    headers: &[ProgramHeader],
) -> Result<Vec<ProgramHeader>, NoMemory>
    ensures { IfOk result (λ v. v.items ≡ loads.data_loads headers.now) }
{
    let mut data = unsorted_data(alloc, headers)?;
    sort(&mut data)?;
    Ok(data)
}

impl Sortable for ProgramHeader {
    ghost use Rattle.elf_in.specs.Loads.{load_before};
    ghost use Rattle.elf_in.specs.Orders.{load_order};

    ghost comes_before = { load_before };

    fn compare(&self, other: &ProgramHeader) -> Ordering {
        base_of(self).cmp(&base_of(other))
    }

    ghost is_order = { load_order };
}
