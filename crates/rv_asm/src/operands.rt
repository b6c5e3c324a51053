//! The shapes of operands.

ghost use Rattle.std.specs.Prelude.{◌≡◌, ◌==◌, ◌<◌, option_map, position, IfSome};
ghost use Rattle.rv_asm.specs.Operands as operands;
ghost use Rattle.rv_asm.specs.Views.{number_view};

use crate::lexing::{one, second, three, two};
use crate::literals::number;
use crate::numbers::Number;
use crate::registers::register;
use wedge_base::is_name;

fn place_of_opening(text: &[u8]) -> Option<usize>
    ensures { result ≡ position operands.is_opening text.now }
{
    text.iter().position(|c| *c == b'(')
}

/// A register before a `)`.
#[tactic(auto, unfolding(crate::specs::Operands::closed_register))]
fn closed_register(text: &[u8]) -> Option<u8>
    ensures is { result ≡ operands.closed_register text.now }
    ensures fits { IfSome result (λ n. n < 32) }
{
    match text {
        [name @ .., b')'] => register(name),
        _ => None,
    }
}

/// `N(rs1)`: an offset, and the base register to which it is added.
#[tactic(auto, unfolding(crate::specs::Operands::based))]
fn based(text: &[u8]) -> Option<(Number<'_>, u8)>
    ensures is { option_map (λ x. (number_view x.0, x.1)) result ≡ operands.based text.now }
    ensures fits { IfSome result (λ x. x.1 < 32) }
{
    let place = place_of_opening(text)?;
    let offset = number(&text[..place])?;
    let base = closed_register(&text[place + 1..])?;
    Some((offset, base))
}

/// A number alone.
#[tactic(auto, unfolding(crate::specs::Operands::one_number))]
pub(crate) fn one_number(text: &[u8]) -> Option<Number<'_>>
    ensures { option_map number_view result ≡ operands.one_number text.now }
{
    number(one(text)?)
}

/// The second operand where it is a number or a name, whatever the others are.
#[tactic(auto, unfolding(crate::specs::Operands::second_number))]
pub(crate) fn second_number(text: &[u8]) -> Option<Number<'_>>
    ensures { option_map number_view result ≡ operands.second_number text.now }
{
    number(second(text)?)
}

/// A register and a number.
#[tactic(auto, unfolding(crate::specs::Operands::register_number))]
pub(crate) fn register_number(text: &[u8]) -> Option<(u8, Number<'_>)>
    ensures is { option_map (λ x. (x.0, number_view x.1)) result
        ≡ operands.register_number text.now }
    ensures fits { IfSome result (λ x. x.0 < 32) }
{
    let (first, second) = two(text)?;
    let first = register(first)?;
    let second = number(second)?;
    Some((first, second))
}

/// A register, and a base register with an offset.
#[tactic(auto, unfolding(crate::specs::Operands::register_base))]
pub(crate) fn register_base(text: &[u8]) -> Option<(u8, Number<'_>, u8)>
    ensures is { option_map (λ x. (x.0, number_view x.1, x.2)) result
        ≡ operands.register_base text.now }
    ensures fits { IfSome result (λ x. x.0 < 32) }
    ensures base_fits { IfSome result (λ x. x.2 < 32) }
{
    let (first, second) = two(text)?;
    let first = register(first)?;
    let (offset, base) = based(second)?;
    Some((first, offset, base))
}

/// A register and a label.
#[tactic(auto, unfolding(crate::specs::Operands::register_label))]
pub(crate) fn register_label(text: &[u8]) -> Option<(u8, &[u8])>
    ensures is { option_map (λ x. (x.0, x.1.now)) result ≡ operands.register_label text.now }
    ensures fits { IfSome result (λ x. x.0 < 32) }
{
    let (first, label) = two(text)?;
    let first = register(first)?;
    if is_name(label) {
        Some((first, label))
    } else {
        None
    }
}

/// Two registers.
#[tactic(auto, unfolding(crate::specs::Operands::two_registers))]
pub(crate) fn two_registers(text: &[u8]) -> Option<(u8, u8)>
    ensures is { result ≡ operands.two_registers text.now }
    ensures first { IfSome result (λ x. x.0 < 32) }
    ensures second { IfSome result (λ x. x.1 < 32) }
{
    let (first, second) = two(text)?;
    let first = register(first)?;
    let second = register(second)?;
    Some((first, second))
}

/// Two registers and a number.
#[tactic(auto, unfolding(crate::specs::Operands::two_registers_number))]
pub(crate) fn two_registers_number(text: &[u8]) -> Option<(u8, u8, Number<'_>)>
    ensures is { option_map (λ x. (x.0, x.1, number_view x.2)) result
        ≡ operands.two_registers_number text.now }
    ensures first { IfSome result (λ x. x.0 < 32) }
    ensures second { IfSome result (λ x. x.1 < 32) }
{
    let (first, second, third) = three(text)?;
    let first = register(first)?;
    let second = register(second)?;
    let third = number(third)?;
    Some((first, second, third))
}

/// Three registers.
#[tactic(auto, unfolding(crate::specs::Operands::three_registers))]
pub(crate) fn three_registers(text: &[u8]) -> Option<(u8, u8, u8)>
    ensures is { result ≡ operands.three_registers text.now }
    ensures first { IfSome result (λ x. x.0 < 32) }
    ensures second { IfSome result (λ x. x.1 < 32) }
    ensures third { IfSome result (λ x. x.2 < 32) }
{
    let (first, second, third) = three(text)?;
    let first = register(first)?;
    let second = register(second)?;
    let third = register(third)?;
    Some((first, second, third))
}
