//! Integers, as they are written.

ghost use Rattle.std.specs.Prelude.{◌≡◌, ◌≤◌, min, option_map, IfSome};
ghost use Rattle.std.specs.List.{list_all};
ghost use Rattle.std.specs.Char.{digit_value};
ghost use Rattle.std.specs.Str.Parse.{digits_value};
ghost use Rattle.rv_asm.specs.Numbers as numbers;
ghost use Rattle.rv_asm.specs.Views.{number_view};

use crate::numbers::Number;
use wedge_base::is_name;

/// Larger literals count as this one, which is out of every range.
const PAST_ALL: u64 = 0x2_0000_0000;

fn all_digits(radix: u32, text: &[u8]) -> bool
    requires low { 2 ≤ radix }
    requires high { radix ≤ 16 }
    ensures { result ≡ list_all (numbers.is_digit radix) text.now }
{
    text.iter().all(|c| char::from(*c).is_digit(radix))
}

/// The value of a digit or a letter, and 36 for any other byte.
fn digit_value(c: u8) -> u64
    ensures is { result ≡ digit_value c }
    ensures small { result ≤ 36 }
{
    match c {
        b'0'..=b'9' => u64::from(c - b'0'),
        b'A'..=b'Z' => u64::from(c - b'A') + 10,
        b'a'..=b'z' => u64::from(c - b'a') + 10,
        _ => 36,
    }
}

/// The number that digits encode.
fn number_read(radix: u64, text: &[u8]) -> u64
    requires low { 2 ≤ radix }
    requires high { radix ≤ 16 }
    ensures { result ≡ min (digits_value radix text.now) numbers.past_all }
{
    let mut value = 0;
    for c in text {
        value = (value * radix + digit_value(*c)).min(PAST_ALL);
    }
    value
}

/// The number that digits of a radix encode.
#[tactic(auto, unfolding(crate::specs::Numbers::natural))]
fn natural(radix: u32, text: &[u8]) -> Option<u64>
    requires low { 2 ≤ radix }
    requires high { radix ≤ 16 }
    ensures is { result ≡ numbers.natural radix text.now }
    ensures small { IfSome result (λ n. n ≤ numbers.past_all) }
{
    if text.is_empty() || !all_digits(radix, text) {
        return None;
    }
    Some(number_read(u64::from(radix), text))
}

/// Decimal digits without leading zeros.
#[tactic(auto, unfolding(crate::specs::Numbers::decimal))]
pub(crate) fn decimal(text: &[u8]) -> Option<u64>
    ensures is { result ≡ numbers.decimal text.now }
    ensures small { IfSome result (λ n. n ≤ numbers.past_all) }
{
    match text {
        [] | [b'0', _, ..] => None,
        _ => natural(10, text),
    }
}

/// Decimal digits, or hexadecimal ones of either case after `0x`.
#[tactic(auto, unfolding(crate::specs::Numbers::magnitude))]
fn magnitude(text: &[u8]) -> Option<u64>
    ensures is { result ≡ numbers.magnitude text.now }
    ensures small { IfSome result (λ n. n ≤ numbers.past_all) }
{
    match text {
        [] => None,
        [b'0', b'x', digits @ ..] => natural(16, digits),
        _ => decimal(text),
    }
}

/// An integer: a magnitude, with or without a `-` before it.
#[tactic(auto, unfolding(crate::specs::Numbers::literal))]
fn literal(text: &[u8]) -> Option<i64>
    ensures { result ≡ numbers.literal text.now }
{
    match text {
        [] => None,
        [b'-', digits @ ..] => {
            let n = magnitude(digits)?;
            Some(0 - n as i64)
        }
        _ => {
            let n = magnitude(text)?;
            Some(n as i64)
        }
    }
}

/// An operand where an integer is expected.
#[tactic(auto, unfolding(crate::specs::Numbers::parse_number))]
pub(crate) fn number(text: &[u8]) -> Option<Number<'_>>
    ensures { option_map number_view result ≡ numbers.parse_number text.now }
{
    if is_name(text) {
        return Some(Number::Named(text));
    }
    let n = literal(text)?;
    Some(Number::Literal(n))
}
