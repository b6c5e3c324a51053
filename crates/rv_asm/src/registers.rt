//! Registers, by their names.

ghost use Rattle.std.specs.Prelude.{◌≡◌, ◌<◌, IfSome};
ghost use Rattle.rv_asm.specs.Operands as operands;

use crate::literals::decimal;
use rv_isa::register_name;

/// A register, by its name in the calling convention.
fn named_register(text: &[u8]) -> Option<u8>
    ensures is { result ≡ operands.named_register text.now }
    ensures fits { IfSome result (λ n. n < 32) }
{
    for n in 0..32 {
        if register_name(n).as_bytes() == text {
            return Some(n);
        }
    }
    None
}

/// A register, by its number, written after an `x`.
fn numbered_register(text: &[u8]) -> Option<u8>
    ensures is { result ≡ operands.numbered_register text.now }
    ensures fits { IfSome result (λ n. n < 32) }
{
    match text {
        [b'x', digits @ ..] => {
            let n = decimal(digits)?;
            if n < 32 { Some(n as u8) } else { None }
        }
        _ => None,
    }
}

/// A register.
#[tactic(auto, unfolding(crate::specs::Operands::register))]
pub(crate) fn register(text: &[u8]) -> Option<u8>
    ensures is { result ≡ operands.register text.now }
    ensures fits { IfSome result (λ n. n < 32) }
{
    if let Some(n) = named_register(text) {
        return Some(n);
    }
    match text {
        b"fp" => Some(8),
        _ => numbered_register(text),
    }
}
