//! The results of the operations on two words. Sections 2.4, 7.1 and 7.2 of the manual.

ghost use Rattle.std.specs.Prelude.{◌≡◌, ◌^◌, pos, ◌+ℤ◌, ◌%◌};
ghost use Rattle.rv_hart.specs.Alu as alu;

/// A word plus a signed number, modulo 2^32.
#[inline(always)]
pub fn offset(base: u32, by: i32) -> u32
    ensures { result ≡ alu.as_word (pos base +ℤ by) }
{
    base.wrapping_add(by.cast_unsigned())
}

/// 1 where the first word is less than the second, both signed; else 0.
#[inline(always)]
pub fn slt(a: u32, b: u32) -> u32
    ensures { result ≡ alu.slt a b }
{
    u32::from(a.cast_signed() < b.cast_signed())
}

/// 1 where the first word is less than the second; else 0.
#[inline(always)]
pub fn sltu(a: u32, b: u32) -> u32
    ensures { result ≡ alu.sltu a b }
{
    u32::from(a < b)
}

/// A shift right that fills with the sign, by the low five bits of the second word.
#[inline(always)]
pub fn sra(a: u32, b: u32) -> u32
    ensures { result ≡ alu.sra a b }
{
    a.cast_signed().wrapping_shr(b).cast_unsigned()
}

/// Bits 63 to 32 of a product.
#[inline(always)]
fn high_word(product: i64) -> u32
    ensures { result ≡ alu.as_word (alu.floor_div product (2 ^ 32)) }
{
    (product.cast_unsigned() >> 32) as u32
}

/// The high word of the product of two signed words.
#[inline(always)]
pub fn mulh(a: u32, b: u32) -> u32
    ensures { result ≡ alu.mulh a b }
{
    high_word(i64::from(a.cast_signed()) * i64::from(b.cast_signed()))
}

/// The high word of the product of a signed word and an unsigned one.
#[inline(always)]
pub fn mulhsu(a: u32, b: u32) -> u32
    ensures { result ≡ alu.mulhsu a b }
{
    high_word(i64::from(a.cast_signed()) * i64::from(b))
}

/// The high word of the product of two words.
#[inline(always)]
pub fn mulhu(a: u32, b: u32) -> u32
    ensures { result ≡ alu.mulhu a b }
{
    (u64::from(a) * u64::from(b) >> 32) as u32
}

/// The quotient of signed words, rounded towards zero. By zero, each bit is 1; -2^31 by -1 is
/// -2^31.
#[inline(always)]
pub fn div(a: u32, b: u32) -> u32
    ensures { result ≡ alu.div a b }
{
    if b == 0 {
        return u32::MAX;
    }
    a.cast_signed()
        .wrapping_div(b.cast_signed())
        .cast_unsigned()
}

/// The quotient of two words; by zero, each bit is 1.
#[inline(always)]
pub fn divu(a: u32, b: u32) -> u32
    ensures { result ≡ alu.divu a b }
{
    if b == 0 { u32::MAX } else { a / b }
}

/// The remainder of signed words, with the sign of the first. By zero, it is the first; of -2^31 by
/// -1 it is 0.
#[inline(always)]
pub fn rem(a: u32, b: u32) -> u32
    ensures { result ≡ alu.rem a b }
{
    if b == 0 {
        return a;
    }
    a.cast_signed()
        .wrapping_rem(b.cast_signed())
        .cast_unsigned()
}

/// The remainder of two words; by zero, it is the first.
#[inline(always)]
pub fn remu(a: u32, b: u32) -> u32
    ensures { result ≡ alu.remu a b }
{
    if b == 0 { a } else { a % b }
}
