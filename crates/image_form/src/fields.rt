//! Reading single fields. Each reader takes the length of the whole file and the bytes that are left
//! of it, and answers what it read with the bytes after it.

ghost use Rattle.std.specs.Prelude.{◌≡◌, length, IfOk, nat_le, nat_lt, ◌==◌};
ghost use Rattle.image_form.specs.declared.fault.ImageError.TheVariants as error;
ghost use Rattle.image_form.specs.declared.fault.Why.TheVariants as why;
ghost use Rattle.image_form.specs.Forms as forms;
ghost use Rattle.wedge_base.specs.Texts as texts;
ghost use Rattle.image_form.specs.Reading as reading;
ghost use Rattle.image_form.specs.Rules as rules;
ghost use Rattle.image_form.specs.Reading.{IsImageAnswer, place};

use crate::fault::{Fault, ImageError, Why};
use crate::forms::{is_below, is_path, is_root};
use std::alloc::Global;
use wedge_base::{Bytes, StreamKind, is_name};

/// A fault at the first of the bytes that are left.
pub(crate) fn refused(total: usize, rest: &[u8], why: Why) -> ImageError
    ensures { result ≡ error.Fault (record { at = place total rest.now; why = why }) }
{
    ImageError::Fault(Fault {
        at: total.saturating_sub(rest.len()),
        why,
    })
}

/// So many bytes.
#[tactic(auto, unfolding(crate::specs::Reading::bytes_at))]
pub(crate) fn take(total: usize, count: usize, bytes: &[u8]) -> Result<(&[u8], &[u8]), ImageError>
    ensures is { IsImageAnswer
        (λ x. (x.0.now, x.1.now)) result (reading.bytes_at total count bytes.now) }
    ensures long { IfOk result (λ x. length x.0.now ≡ count) }
{
    if bytes.len() < count {
        return Err(refused(total, bytes, Why::Truncated));
    }
    Ok(bytes.split_at(count))
}

/// A number of four bytes.
#[tactic(auto, unfolding(crate::specs::Reading::number_at))]
pub(crate) fn number(total: usize, bytes: &[u8]) -> Result<(u32, &[u8]), ImageError>
    ensures { IsImageAnswer (λ x. (x.0, x.1.now)) result (reading.number_at total bytes.now) }
{
    let (front, rest) = take(total, 4, bytes)?;
    let number = u32::from_le_bytes([front[0], front[1], front[2], front[3]]);
    Ok((number, rest))
}

/// A number of two bytes.
#[tactic(auto, unfolding(crate::specs::Reading::short_at))]
fn short(total: usize, bytes: &[u8]) -> Result<(u16, &[u8]), ImageError>
    ensures { IsImageAnswer (λ x. (x.0, x.1.now)) result (reading.short_at total bytes.now) }
{
    let (front, rest) = take(total, 2, bytes)?;
    let number = u16::from_le_bytes([front[0], front[1]]);
    Ok((number, rest))
}

/// A number that is at most a limit.
#[tactic(auto, unfolding(crate::specs::Reading::checked_at))]
pub(crate) fn limited(most: u32, total: usize, bytes: &[u8]) -> Result<(u32, &[u8]), ImageError>
    ensures { IsImageAnswer
        (λ x. (x.0, x.1.now)) result (reading.limited_at most total bytes.now) }
{
    let (number, rest) = number(total, bytes)?;
    if most < number {
        return Err(refused(total, bytes, Why::Limit));
    }
    Ok((number, rest))
}

/// A string.
#[tactic(auto, unfolding(crate::specs::Reading::string_at))]
fn string(total: usize, bytes: &[u8]) -> Result<(&[u8], &[u8]), ImageError>
    ensures { IsImageAnswer (λ x. (x.0.now, x.1.now)) result (reading.string_at total bytes.now) }
{
    let (count, rest) = short(total, bytes)?;
    take(total, usize::from(count), rest)
}

/// A name that is above the one before it, in byte order.
#[tactic(auto, unfolding(crate::specs::Reading::formed_at, crate::specs::Reading::key_at))]
pub(crate) fn name_after<'a>(
    before: &[u8],
    total: usize,
    bytes: &'a [u8],
) -> Result<(&'a [u8], &'a [u8]), ImageError>
    ensures { IsImageAnswer (λ x. (x.0.now, x.1.now)) result
        (reading.key_at texts.is_name before.now total bytes.now) }
{
    let (name, rest) = string(total, bytes)?;
    if !is_name(name) {
        return Err(refused(total, bytes, Why::Range));
    }
    if !is_below(before, name) {
        return Err(refused(total, bytes, Why::Order));
    }
    Ok((name, rest))
}

/// A canonical path that is above the one before it, in byte order.
#[tactic(auto, unfolding(crate::specs::Reading::formed_at, crate::specs::Reading::key_at))]
pub(crate) fn path_after<'a>(
    before: &[u8],
    total: usize,
    bytes: &'a [u8],
) -> Result<(&'a [u8], &'a [u8]), ImageError>
    ensures { IsImageAnswer (λ x. (x.0.now, x.1.now)) result
        (reading.key_at forms.is_entry_path before.now total bytes.now) }
{
    let (path, rest) = string(total, bytes)?;
    if !is_path(path) {
        return Err(refused(total, bytes, Why::Range));
    }
    if !is_below(before, path) {
        return Err(refused(total, bytes, Why::Order));
    }
    Ok((path, rest))
}

/// A root directory.
#[tactic(auto, unfolding(crate::specs::Reading::formed_at))]
pub(crate) fn root(alloc: Global, total: usize, bytes: &[u8]) -> Result<(Bytes, &[u8]), ImageError>
    ensures { IsImageAnswer
        (λ x. (x.0, x.1.now)) result (reading.formed_at forms.is_root total bytes.now) }
{
    let (root, rest) = string(total, bytes)?;
    if !is_root(root) {
        return Err(refused(total, bytes, Why::Range));
    }
    Ok((Bytes::from_slice(alloc, root)?, rest))
}

/// What a stream is.
#[tactic(auto, unfolding(crate::specs::Reading::checked_at, crate::specs::Reading::kind_at))]
pub(crate) fn kind(total: usize, bytes: &[u8]) -> Result<(StreamKind, &[u8]), ImageError>
    ensures { IsImageAnswer (λ x. (x.0, x.1.now)) result (reading.kind_at total bytes.now) }
{
    let (number, rest) = number(total, bytes)?;
    match number {
        0 => Ok((StreamKind::Source, rest)),
        1 => Ok((StreamKind::Append, rest)),
        _ => Err(refused(total, bytes, Why::Range)),
    }
}

/// The bytes of a stream: an append stream has none.
#[tactic(auto, unfolding(crate::specs::Reading::checked_at, crate::specs::Reading::content_at))]
pub(crate) fn stream_content(
    alloc: Global,
    kind: StreamKind,
    total: usize,
    bytes: &[u8],
) -> Result<(Bytes, &[u8]), ImageError>
    ensures { IsImageAnswer (λ x. (x.0, x.1.now)) result
        (reading.content_at (rules.may_hold kind) total bytes.now) }
{
    let (length, after) = number(total, bytes)?;
    if kind == StreamKind::Append && length != 0 {
        return Err(refused(total, bytes, Why::Range));
    }
    let (content, rest) = take(total, length as usize, after)?;
    Ok((Bytes::from_slice(alloc, content)?, rest))
}
