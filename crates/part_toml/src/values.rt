//! What the value of a key is read as.

ghost use Rattle.std.specs.Prelude.{◌≡◌, ◌<◌, IfOk, option_map};
ghost use Rattle.std.specs.List.{list_all};
ghost use Rattle.toml.specs.View.{view, items_view};
ghost use Rattle.part_toml.specs.Values as values;

use crate::keys::Kind;
use std::alloc::Global;
use toml::Value;
use wedge_base::{Bytes, FdBits, Items, NoMemory, Right, StreamKind};

/// An integer, if it fits 32 bits.
fn small(n: i64) -> Option<u32>
    ensures { result ≡ values.small n }
{
    u32::try_from(n).ok()
}

/// The number that a value is.
pub(crate) fn number_of(value: &Value) -> Option<u32>
    ensures { result ≡ values.u32_value (view value.now) }
{
    let n = value.as_integer()?;
    small(n)
}

/// The right that a string names.
pub(crate) fn right_named(word: &str) -> Option<Option<Right>>
    ensures { result ≡ values.right_named word.now }
{
    match word {
        "none" => Some(None),
        "Cow" => Some(Some(Right::Cow)),
        "Read" => Some(Some(Right::Read)),
        "ReadWrite" => Some(Some(Right::ReadWrite)),
        _ => None,
    }
}

/// The kind of stream that a string names.
pub(crate) fn stream_named(word: &str) -> Option<StreamKind>
    ensures { result ≡ values.stream_named word.now }
{
    match word {
        "source" => Some(StreamKind::Source),
        "append" => Some(StreamKind::Append),
        _ => None,
    }
}

/// The bits that a string names.
pub(crate) fn bits_named(word: &str) -> Option<FdBits>
    ensures { result ≡ values.bits_named word.now }
{
    let (read, append) = match word {
        "none" => (false, false),
        "read" => (true, false),
        "append" => (false, true),
        "both" => (true, true),
        _ => return None,
    };
    Some(FdBits { read, append })
}

fn is_digit(c: u8) -> bool
    ensures { result ≡ values.is_lower_hex c }
{
    matches!(c, b'0'..=b'9' | b'a'..=b'f')
}

fn are_digits(text: &[u8]) -> bool
    ensures { result ≡ list_all values.is_lower_hex text.now }
{
    text.iter().all(|c| is_digit(*c))
}

/// Whether a string is pairs of lower-case hexadecimal digits.
fn is_hex(text: &[u8]) -> bool
    ensures { result ≡ values.is_hex text.now }
{
    text.len() % 2 == 0 && are_digits(text)
}

/// The value of a digit, and 0 of any other byte.
fn digit(c: u8) -> u8
    ensures is { result ≡ values.digit c }
    ensures small { result < 16 }
{
    match c {
        b'0'..=b'9' => c - b'0',
        b'a'..=b'f' => c - b'a' + 10,
        _ => 0,
    }
}

/// The bytes that pairs of digits encode.
pub(crate) fn bytes_of(alloc: Global, text: &[u8]) -> Result<Bytes, NoMemory>
    ensures { IfOk result (λ b. b ≡ values.hex_bytes text.now) }
{
    let mut bytes = Items::new(Vec::new(alloc));
    let mut rest = text;
    while let [first, second, others @ ..] = rest {
        bytes.push(16 * digit(*first) + digit(*second))?;
        rest = others;
    }
    Ok(bytes)
}

fn are_tables(items: &[Value]) -> bool
    ensures { result ≡ values.are_tables (items_view items.now) }
{
    items.iter().all(|item| item.is_table())
}

/// Whether a string is of a kind that is no number and no array.
fn word_fits(kind: Kind, word: &str) -> bool
    ensures { result ≡ values.word_fits kind word.now }
{
    match kind {
        Kind::Hex => is_hex(word.as_bytes()),
        Kind::Right => right_named(word).is_some(),
        Kind::Stream => stream_named(word).is_some(),
        Kind::Bits => bits_named(word).is_some(),
        _ => true,
    }
}

/// Whether a value is of a kind.
pub(crate) fn fits(kind: Kind, value: &Value) -> bool
    ensures { result ≡ values.value_fits kind (view value.now) }
{
    match kind {
        Kind::Number => number_of(value).is_some(),
        Kind::Tables => match value.as_array() {
            Some(items) => are_tables(items),
            None => false,
        },
        _ => match value.as_str() {
            Some(word) => word_fits(kind, word),
            None => false,
        },
    }
}
