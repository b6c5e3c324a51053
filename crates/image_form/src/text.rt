//! Reading the text: its base and its words.

ghost use Rattle.std.specs.Prelude.{◌≡◌, ◌+◌, ◌*◌, ◌≤◌, [], length, IfOk};
ghost use Rattle.image_form.specs.Rules.{high_end};
ghost use Rattle.image_form.specs.Reading as reading;
ghost use Rattle.image_form.specs.Reading.{IsImageAnswer};
ghost use Rattle.image_form.specs.declared.fault.Why.TheVariants as why;

use crate::entries::entry_list;
use crate::fault::{ImageError, Why};
use crate::fields::{number, refused};
use std::alloc::Global;

/// The first address that text and data may use.
pub(crate) const LOW_END: u32 = 0x10000;

/// The address behind the last that they may use.
pub(crate) const HIGH_END: u32 = 0x10000000;

/// The address of the first word.
#[tactic(auto, unfolding(crate::specs::Reading::checked_at))]
pub(crate) fn base(total: usize, bytes: &[u8]) -> Result<(u32, &[u8]), ImageError>
    ensures { IsImageAnswer (λ x. (x.0, x.1.now)) result
        (reading.checked_at reading.is_base why.Range total bytes.now) }
{
    let (base, rest) = number(total, bytes)?;
    if base % 4 != 0 || base < LOW_END || HIGH_END <= base {
        return Err(refused(total, bytes, Why::Range));
    }
    Ok((base, rest))
}

/// The words after their count.
#[tactic(auto, unfolding(crate::specs::Reading::checked_at, crate::specs::Reading::words_at))]
pub(crate) fn words(
    alloc: Global,
    base: u32,
    total: usize,
    bytes: &[u8],
) -> Result<(Vec<u32>, &[u8]), ImageError>
    ensures is { IsImageAnswer
        (λ x. (x.0.items, x.1.now)) result (reading.words_at base total bytes.now) }
    ensures fit { IfOk result (λ x. base + 4 * length x.0.items ≤ high_end) }
{
    let (count, rest) = number(total, bytes)?;
    if count == 0 || u64::from(HIGH_END) < u64::from(base) + 4 * u64::from(count) {
        return Err(refused(total, bytes, Why::Range));
    }
    entry_list(alloc, count, total, rest)
}
