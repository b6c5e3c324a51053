//! Reading the table of tags.

ghost use Rattle.std.specs.Prelude.{◌≡◌, ◌*◌, ◌≤◌, [], IfOk, nat_le};
ghost use Rattle.wedge_base.specs.Images.{page};
ghost use Rattle.image_form.specs.declared.fault.Why.TheVariants as why;
ghost use Rattle.image_form.specs.Reading as reading;
ghost use Rattle.image_form.specs.Reading.{IsImageAnswer, last_of};

use crate::entries::ReadEntry;
use crate::fault::{ImageError, Why};
use crate::fields::{name_after, number, refused, take};
use std::alloc::Global;
use wedge_base::{Bytes, MOST_PAGES, PAGE, Right, TagEntry};

/// The most tags of an image.
pub(crate) const MOST_TAGS: u32 = 256;

/// The name of the last tag, or no bytes.
fn last_name(front: &[TagEntry]) -> &[u8]
    ensures { result.now ≡ last_of (λ t. t.name) [] front.now }
{
    match front.last() {
        Some(tag) => tag.name.as_slice(),
        None => &[],
    }
}

/// How many pages a tag has.
#[tactic(auto, unfolding(crate::specs::Reading::checked_at))]
fn pages(total: usize, bytes: &[u8]) -> Result<(u32, &[u8]), ImageError>
    ensures is { IsImageAnswer (λ x. (x.0, x.1.now)) result
        (reading.checked_at reading.is_page_count why.Range total bytes.now) }
    ensures few { IfOk result (λ x. x.0 ≤ 16) }
{
    let (pages, rest) = number(total, bytes)?;
    if pages < 1 || MOST_PAGES < pages {
        return Err(refused(total, bytes, Why::Range));
    }
    Ok((pages, rest))
}

/// The root's right on a tag.
#[tactic(auto, unfolding(crate::specs::Reading::checked_at, crate::specs::Reading::right_at))]
fn right(total: usize, bytes: &[u8]) -> Result<(Option<Right>, &[u8]), ImageError>
    ensures { IsImageAnswer (λ x. (x.0, x.1.now)) result (reading.right_at total bytes.now) }
{
    let (number, rest) = number(total, bytes)?;
    match number {
        0 => Ok((None, rest)),
        1 => Ok((Some(Right::Cow), rest)),
        2 => Ok((Some(Right::Read), rest)),
        3 => Ok((Some(Right::ReadWrite), rest)),
        _ => Err(refused(total, bytes, Why::Range)),
    }
}

/// The opening bytes of a tag of so many pages.
#[tactic(auto, unfolding(crate::specs::Reading::checked_at, crate::specs::Reading::content_at))]
fn tag_content(
    alloc: Global,
    pages: u32,
    total: usize,
    bytes: &[u8],
) -> Result<(Bytes, &[u8]), ImageError>
    requires { pages ≤ 16 }
    ensures { IsImageAnswer (λ x. (x.0, x.1.now)) result
        (reading.content_at (λ n. nat_le n (pages * page)) total bytes.now) }
{
    let (length, after) = number(total, bytes)?;
    if pages * PAGE < length {
        return Err(refused(total, bytes, Why::Range));
    }
    let (content, rest) = take(total, length as usize, after)?;
    Ok((Bytes::from_slice(alloc, content)?, rest))
}

impl ReadEntry for TagEntry {
    ghost use Rattle.image_form.specs.Reading.{tag_at};

    ghost entry_at = { tag_at };

    #[tactic(auto, unfolding(crate::specs::Reading::tag_at))]
    fn read<'a>(
        alloc: Global,
        front: &[TagEntry],
        total: usize,
        bytes: &'a [u8],
    ) -> Result<(TagEntry, &'a [u8]), ImageError> {
        let (name, rest) = name_after(last_name(front), total, bytes)?;
        let (pages, rest) = pages(total, rest)?;
        let (right, rest) = right(total, rest)?;
        let (content, rest) = tag_content(alloc, pages, total, rest)?;
        let name = Bytes::from_slice(alloc, name)?;
        Ok((
            TagEntry {
                name,
                pages,
                right,
                content,
            },
            rest,
        ))
    }
}
