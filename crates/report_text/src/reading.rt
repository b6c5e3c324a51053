//! Reading a schedule.

ghost use Rattle.std.specs.Prelude.{◌≡◌, ◌==◌, ◌+◌, ◌*◌, ◌<◌, ◌∷◌, [], length, IfOk, IfNone, IfSome, SomeIff, IsTrue, ◌↔◌};
ghost use Rattle.std.specs.Char.{digit_value};
ghost use Rattle.std.specs.List.{position};
ghost use Rattle.report_text.specs.Schedules.{pieces_at, name_in, names_in, schedule_of, IsScheduleAnswer, BeginsNoNumber, IsNextDigit};
ghost use Rattle.report_text.specs.Schedules as schedules;
ghost use Rattle.report_text.specs.declared.fault.ScheduleFault.TheVariants as fault;

use crate::fault::ScheduleFault;
use std::alloc::Global;
use wedge_base::{ActorName, NoMemory, is_actor_name};

/// The index of the first byte that is this one.
fn position_of(byte: u8, bytes: &[u8]) -> Option<usize>
    ensures { result ≡ position (λ b. b == byte) bytes.now }
{
    bytes.iter().position(|b| *b == byte)
}

/// The bytes before the first one that is this one, and those behind it.
fn cut_at(byte: u8, bytes: &[u8]) -> Option<(&[u8], &[u8])>
    ensures none { IfNone result (pieces_at byte bytes.now ≡ bytes.now ∷ []) }
    ensures cut { IfSome result
        (λ x. pieces_at byte bytes.now ≡ x.0.now ∷ pieces_at byte x.1.now) }
    ensures less { IfSome result (λ x. length x.1.now < length bytes.now) }
{
    let end = position_of(byte, bytes)?;
    Some((&bytes[..end], &bytes[end + 1..]))
}

/// A number with one more decimal digit, if it is one and the number stays below 2 ^ 32.
fn with_digit(number: u32, byte: u8) -> Option<u32>
    ensures { SomeIff result (IsNextDigit number byte) (number * 10 + digit_value byte) }
{
    if !byte.is_ascii_digit() {
        return None;
    }
    number.checked_mul(10)?.checked_add(u32::from(byte - b'0'))
}

/// Whether bytes begin as no decimal form does: there are none, or a zero with more behind it.
fn begins_no_number(bytes: &[u8]) -> bool
    ensures { IsTrue result ↔ BeginsNoNumber bytes.now }
{
    bytes.is_empty() || (bytes[0] == b'0' && bytes.len() > 1)
}

/// The number whose decimal form these bytes are.
fn part_in(bytes: &[u8]) -> Option<u32>
    ensures { result ≡ schedules.part_in bytes.now }
{
    if begins_no_number(bytes) {
        return None;
    }
    let mut number = 0;
    for byte in bytes {
        number = with_digit(number, *byte)?;
    }
    Some(number)
}

/// The name that a line is.
fn read_name(alloc: Global, line: &[u8]) -> Result<Option<ActorName>, NoMemory>
    ensures { IfOk result (λ name. name ≡ name_in line.now) }
{
    let mut parts = Vec::new(alloc);
    let mut rest = line;
    while let Some((piece, after)) = cut_at(b'.', rest) {
        let Some(part) = part_in(piece) else {
            return Ok(None);
        };
        parts.push(part)?;
        rest = after;
    }
    let Some(part) = part_in(rest) else {
        return Ok(None);
    };
    parts.push(part)?;
    if !is_actor_name(parts.as_slice()) {
        return Ok(None);
    }
    Ok(Some(ActorName::of_parts(alloc, parts.as_slice())?))
}

/// The fault of the line behind those of these names.
fn form_behind(names: &[ActorName]) -> ScheduleFault
    ensures { result ≡ fault.Form (length names.now + 1) }
{
    ScheduleFault::Form {
        at: names.len() + 1,
    }
}

/// The names of a schedule's lines, in order. A line is a name and LF, and a name is `0` and up to 31
/// times `.k`, with k from 1 to 4294967295 in decimal without sign or leading zero. `Form` where a line
/// is anything else, also where the last one has no LF. No bytes are the schedule of no names.
#[tactic(auto, unfolding(crate::specs::Schedules::names_in))]
pub fn read_schedule(alloc: Global, bytes: &[u8]) -> Result<Vec<ActorName>, ScheduleFault>
    // The names of the lines, or the first line of another form.
    ensures exact { IsScheduleAnswer (λ names. names.items) result (names_in bytes.now) }
    // What is read is the text that is written for these names.
    ensures canonical { IfOk result (λ names. schedule_of names.items ≡ bytes.now) }
{
    let mut names = Vec::new(alloc);
    let mut rest = bytes;
    while let Some((line, after)) = cut_at(b'\n', rest) {
        let Some(name) = read_name(alloc, line)? else {
            return Err(form_behind(names.as_slice()));
        };
        names.push(name)?;
        rest = after;
    }
    if !rest.is_empty() {
        return Err(form_behind(names.as_slice()));
    }
    Ok(names)
}
