//! Which numbers may be written for an instruction.

ghost use Rattle.std.specs.Prelude.{◌≡◌, ◌==◌, ◌-◌, ◌%◌, ◌≤◌, ◌≤ℤ◌, ◌^◌, ◌&&◌, pos, negsuc, int_le, IfOk};
ghost use Rattle.rv_isa.specs.Numbers.{word_of};
ghost use Rattle.rv_isa.specs.Ranges.{ranges};
ghost use Rattle.rv_asm.specs.Assembly as assembly;

use crate::encoding::word_of;
use crate::fault::Why;
use rv_isa::Form;

/// Whether a number is from `low` to `high`.
pub(crate) fn is_within(low: i64, high: i64, z: i64) -> bool
    ensures { result ≡ assembly.is_within low high z }
{
    low <= z && z <= high
}

/// Whether a number fits 32 bits, signed or unsigned.
pub(crate) fn is_word(z: i64) -> bool
    ensures { result ≡ assembly.is_word z }
{
    is_within(-0x8000_0000, 0xffff_ffff, z)
}

/// Whether one ADDI is enough to load a number.
pub(crate) fn is_small(z: i64) -> bool
    ensures { result ≡ assembly.is_small z }
{
    is_within(-2048, 2047, z) || is_within(0xffff_f800, 0xffff_ffff, z)
}

/// The least and the greatest number that may be written for a form; each is a multiple of the third
/// number.
fn range(form: Form) -> (i64, i64, u32)
    ensures low { result.0 ≡ (assembly.allowed form).low }
    ensures high { result.1 ≡ (assembly.allowed form).high }
    ensures step { result.2 ≡ (assembly.allowed form).step }
    ensures some { 1 ≤ result.2 }
{
    match form {
        Form::Upper => (0, 0xfffff, 1),
        Form::Jump => (-0x10_0000, 0xf_fffe, 2),
        Form::Branch => (-0x1000, 0xffe, 2),
        Form::Offset | Form::Store | Form::Immediate => (-0x800, 0x7ff, 1),
        Form::Shift => (0, 31, 1),
        Form::Register | Form::Whole => (0, 0, 1),
    }
}

/// Whether a number may be written for a form.
fn is_allowed(form: Form, z: i64) -> bool
    ensures { result ≡ assembly.is_allowed (assembly.allowed form) z }
{
    let (low, high, step) = range(form);
    is_within(low, high, z) && word_of(z) % step == 0
}

/// A number that fits 32 bits with a sign.
fn narrow(z: i64) -> i32
    requires low { negsuc (2 ^ 31 - 1) ≤ℤ z }
    requires high { z ≤ℤ pos (2 ^ 31 - 1) }
    ensures { result ≡ z }
{
    z as i32
}

/// The immediate that a written number gives, by the form.
#[tactic(auto, using(crate::proofs::Allowed::placed_plain, crate::proofs::Allowed::plain_low, crate::proofs::Allowed::plain_high, crate::proofs::Allowed::plain_step, crate::proofs::Allowed::least, crate::proofs::Allowed::greatest))]
pub(crate) fn immediate(form: Form, z: i64) -> Result<i32, Why>
    ensures is { result ≡ assembly.checked_immediate form z }
    ensures low { IfOk result (λ imm. (ranges form).low ≤ℤ imm) }
    ensures high { IfOk result (λ imm. imm ≤ℤ (ranges form).high) }
    ensures step { IfOk result (λ imm. word_of imm % (ranges form).step ≡ 0) }
{
    if !is_allowed(form, z) {
        return Err(Why::Range);
    }
    match form {
        Form::Upper => Ok((word_of(z) << 12).cast_signed()),
        _ => Ok(narrow(z)),
    }
}
