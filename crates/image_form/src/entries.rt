//! Reading the entries of tables.

ghost use Rattle.std.specs.Prelude.{◌≡◌, [], length, IfOk};
ghost use Rattle.image_form.specs.Reading as reading;
ghost use Rattle.image_form.specs.Reading.{IsImageAnswer};

use crate::fault::ImageError;
use crate::fields::{limited, number};
use std::alloc::Global;

/// An entry whose reading depends on the entries before it alone.
pub(crate) trait ReadEntry: Drop {
    ghost use Rattle.std.specs.Prelude.{ℕ, List};
    ghost use Rattle.image_form.specs.Reading.{Read, IsImageAnswer};

    ghost entry_at: { ℕ → List Self → List ℕ → Read Self };

    /// An entry, where those before it are known.
    fn read<'a>(
        alloc: Global,
        front: &[Self],
        total: usize,
        bytes: &'a [u8],
    ) -> Result<(Self, &'a [u8]), ImageError>
        ensures { IsImageAnswer
            (λ x. (x.0, x.1.now)) result (entry_at total front.now bytes.now) };
}

/// So many entries.
pub(crate) fn entry_list<T: ReadEntry>(
    alloc: Global,
    count: u32,
    total: usize,
    bytes: &[u8],
) -> Result<(Vec<T>, &[u8]), ImageError>
    ensures is { IsImageAnswer (λ x. (x.0.items, x.1.now)) result
        (reading.entries_at (T.entry_at total) count [] bytes.now) }
    ensures long { IfOk result (λ x. length x.0.items ≡ count) }
{
    let mut entries = Vec::new(alloc);
    let mut rest = bytes;
    for _ in 0..count {
        let (entry, after) = T::read(alloc, &entries, total, rest)?;
        entries.push(entry)?;
        rest = after;
    }
    Ok((entries, rest))
}

/// A table of at most so many entries.
#[tactic(auto, unfolding(crate::specs::Reading::table_at))]
pub(crate) fn entry_table<T: ReadEntry>(
    alloc: Global,
    most: u32,
    total: usize,
    bytes: &[u8],
) -> Result<(Vec<T>, &[u8]), ImageError>
    ensures { IsImageAnswer (λ x. (x.0.items, x.1.now)) result
        (reading.table_at most (T.entry_at total) total bytes.now) }
{
    let (count, rest) = limited(most, total, bytes)?;
    entry_list(alloc, count, total, rest)
}

impl ReadEntry for u32 {
    ghost use Rattle.image_form.specs.Reading.{number_at};

    ghost entry_at = { λ total _. number_at total };

    fn read<'a>(
        _alloc: Global,
        _front: &[u32],
        total: usize,
        bytes: &'a [u8],
    ) -> Result<(u32, &'a [u8]), ImageError> {
        number(total, bytes)
    }
}
