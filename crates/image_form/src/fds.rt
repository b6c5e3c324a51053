//! Reading the table of descriptors.

ghost use Rattle.std.specs.Prelude.{◌≡◌, []};
ghost use Rattle.image_form.specs.Reading as reading;
ghost use Rattle.image_form.specs.Reading.{IsImageAnswer, last_of};

use crate::entries::ReadEntry;
use crate::fault::{ImageError, Why};
use crate::fields::{kind, name_after, number, refused, stream_content};
use std::alloc::Global;
use wedge_base::{Bytes, FdBits, FdEntry};

/// The most descriptors of an image.
pub(crate) const MOST_DECLARED_FDS: u32 = 64;

/// The name of the last descriptor, or no bytes.
fn last_name(front: &[FdEntry]) -> &[u8]
    ensures { result.now ≡ last_of (λ f. f.name) [] front.now }
{
    match front.last() {
        Some(fd) => fd.name.as_slice(),
        None => &[],
    }
}

/// The root's bits on a descriptor.
#[tactic(auto, unfolding(crate::specs::Reading::checked_at, crate::specs::Reading::bits_at))]
fn bits(total: usize, bytes: &[u8]) -> Result<(FdBits, &[u8]), ImageError>
    ensures { IsImageAnswer (λ x. (x.0, x.1.now)) result (reading.bits_at total bytes.now) }
{
    let (number, rest) = number(total, bytes)?;
    if 3 < number {
        return Err(refused(total, bytes, Why::Range));
    }
    let bits = FdBits {
        read: number % 2 == 1,
        append: 2 <= number,
    };
    Ok((bits, rest))
}

impl ReadEntry for FdEntry {
    ghost use Rattle.image_form.specs.Reading.{fd_at};

    ghost entry_at = { fd_at };

    #[tactic(auto, unfolding(crate::specs::Reading::fd_at))]
    fn read<'a>(
        alloc: Global,
        front: &[FdEntry],
        total: usize,
        bytes: &'a [u8],
    ) -> Result<(FdEntry, &'a [u8]), ImageError> {
        let (name, rest) = name_after(last_name(front), total, bytes)?;
        let (kind, rest) = kind(total, rest)?;
        let (bits, rest) = bits(total, rest)?;
        let (content, rest) = stream_content(alloc, kind, total, rest)?;
        let name = Bytes::from_slice(alloc, name)?;
        Ok((
            FdEntry {
                name,
                kind,
                bits,
                content,
            },
            rest,
        ))
    }
}
