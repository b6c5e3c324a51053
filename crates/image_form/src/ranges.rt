//! Reading the table of data ranges.

ghost use Rattle.std.specs.Prelude.{◌≡◌, ◌+◌, ◌≤◌, [], ◌∷◌, ◌++◌, length, IfOk, OnOk};
ghost use Rattle.std.specs.List.{sum_by};
ghost use Rattle.image_form.specs.Rules as rules;
ghost use Rattle.image_form.specs.Reading as reading;
ghost use Rattle.image_form.specs.Reading.{IsImageAnswer, last_of};

use crate::fault::{ImageError, Why};
use crate::fields::{limited, number, refused, take};
use crate::text::{HIGH_END, base};
use crate::text_span::TextSpan;
use std::alloc::Global;
use wedge_base::{Bytes, MemoryRange, NoMemory};

/// The most data ranges of an image.
const MOST_RANGES: u32 = 16;

/// The most bytes of all data ranges together.
const MOST_RANGE_BYTES: u32 = 0x100000;

/// The ranges that were read so far.
#[derive(Drop)]
struct RangesRead {
    ranges: Vec<MemoryRange>,
    /// How many bytes they have together.
    sum: u32,
    /// Where the last one ends, or 0.
    end: u32,
    ghost summed: { sum ≡ sum_by (λ r. length r.bytes) ranges.items },
    ghost ended: { end ≡ last_of rules.range_end 0 ranges.items },
    ghost small: { sum ≤ rules.most_range_bytes },
}

impl RangesRead {
    fn push(&mut self, range: MemoryRange) -> Result<(), NoMemory>
        requires small { self.old.sum + length range.bytes ≤ rules.most_range_bytes }
        requires low { rules.range_end range ≤ rules.high_end }
        ensures { OnOk result (self.new.ranges.items ≡ self.old.ranges.items ++ range ∷ []) }
    {
        let size = range.bytes.as_slice().len() as u32;
        let end = range.base + size;
        self.ranges.push(range)?;
        self.sum += size;
        self.end = end;
        Ok(())
    }
}

/// Whether a range that begins at a base may have so many bytes.
fn is_range_length(base: u32, length: u32) -> bool
    ensures { result ≡ reading.is_range_length base length }
{
    length % 4 == 0 && 1 <= length && u64::from(base) + u64::from(length) <= u64::from(HIGH_END)
}

/// Whether so many bytes from an address on share none with the text.
fn is_off_text(text: TextSpan, address: u32, size: u32) -> bool
    ensures { result ≡ rules.is_off_text text.base text.count address size }
{
    u64::from(address) + u64::from(size) <= u64::from(text.base)
        || text.base <= address && text.count <= ((address - text.base) / 4) as usize
}

/// The length of a range, where the ranges before it have so many bytes together.
#[tactic(auto, unfolding(crate::specs::Reading::checked_at, crate::specs::Reading::range_length_at))]
fn range_length<'a>(
    base: u32,
    before: &RangesRead,
    total: usize,
    bytes: &'a [u8],
) -> Result<(u32, &'a [u8]), ImageError>
    ensures is { IsImageAnswer (λ x. (x.0, x.1.now)) result
        (reading.range_length_at base before.now.ranges.items total bytes.now) }
    ensures small { IfOk result (λ x. before.now.sum + x.0 ≤ rules.most_range_bytes) }
    ensures low { IfOk result (λ x. base + x.0 ≤ rules.high_end) }
{
    let (length, rest) = number(total, bytes)?;
    if !is_range_length(base, length) {
        return Err(refused(total, bytes, Why::Range));
    }
    if u64::from(MOST_RANGE_BYTES) < u64::from(before.sum) + u64::from(length) {
        return Err(refused(total, bytes, Why::Limit));
    }
    Ok((length, rest))
}

/// A range, where those before it are known, and how many bytes they have together.
#[tactic(auto, unfolding(crate::specs::Reading::range_entry_at))]
fn range<'a>(
    alloc: Global,
    text: TextSpan,
    before: &RangesRead,
    total: usize,
    bytes: &'a [u8],
) -> Result<(MemoryRange, &'a [u8]), ImageError>
    ensures is { IsImageAnswer (λ x. (x.0, x.1.now)) result
        (reading.range_entry_at text.base text.count total before.now.ranges.items bytes.now) }
    ensures small { IfOk result
        (λ x. before.now.sum + length x.0.bytes ≤ rules.most_range_bytes) }
    ensures low { IfOk result (λ x. rules.range_end x.0 ≤ rules.high_end) }
{
    let (base, after) = base(total, bytes)?;
    let (size, after) = range_length(base, before, total, after)?;
    if base < before.end || !is_off_text(text, base, size) {
        return Err(refused(total, bytes, Why::Overlap));
    }
    let (content, rest) = take(total, size as usize, after)?;
    let bytes = Bytes::from_slice(alloc, content)?;
    Ok((MemoryRange { base, bytes }, rest))
}

/// So many ranges.
fn range_list(
    alloc: Global,
    text: TextSpan,
    count: u32,
    total: usize,
    bytes: &[u8],
) -> Result<(Vec<MemoryRange>, &[u8]), ImageError>
    ensures { IsImageAnswer (λ x. (x.0.items, x.1.now)) result
        (reading.entries_at (reading.range_entry_at text.base text.count total) count [] bytes.now) }
{
    let mut before = RangesRead {
        ranges: Vec::new(alloc),
        sum: 0,
        end: 0,
    };
    let mut rest = bytes;
    for _ in 0..count {
        let (range, after) = range(alloc, text, &before, total, rest)?;
        before.push(range)?;
        rest = after;
    }
    Ok((before.ranges, rest))
}

/// The table of data ranges.
#[tactic(auto, unfolding(crate::specs::Reading::table_at, crate::specs::Reading::ranges_at))]
pub(crate) fn ranges(
    alloc: Global,
    text: TextSpan,
    total: usize,
    bytes: &[u8],
) -> Result<(Vec<MemoryRange>, &[u8]), ImageError>
    ensures { IsImageAnswer (λ x. (x.0.items, x.1.now)) result
        (reading.ranges_at text.base text.count total bytes.now) }
{
    let (count, rest) = limited(MOST_RANGES, total, bytes)?;
    range_list(alloc, text, count, total, rest)
}
