//! The fields of a word, and the immediates that are put together from them. Section 2.3 of the
//! manual.

ghost use Rattle.std.specs.Prelude.{◌≡◌, ◌*◌, ◌^◌, ◌<◌, ◌≤◌, pos, ◌-ℤ◌, nat_lt, if◌then◌else◌};
ghost use Rattle.rv_isa.specs.Numbers.{field};
ghost use Rattle.rv_isa.specs.Table.{upper_imm, jump_imm, branch_imm, immediate, store_imm};

/// `width` bits of a word, from bit `low` up.
pub fn field(word: u32, low: u32, width: u32) -> u32
    requires place { low < 32 }
    requires width { width < 32 }
    ensures is { result ≡ field word low width }
    ensures fits { result < 2 ^ width }
{
    (word >> low) & ((1 << width) - 1)
}

/// A two's complement number whose sign bit has the weight `sign`.
fn signed(number: u32, sign: u32) -> i32
    requires weight { sign ≤ 2 ^ 20 }
    requires fits { number < 2 * sign }
    ensures { result
        ≡ (if nat_lt number sign then pos number else pos number -ℤ pos (2 * sign)) }
{
    if number < sign {
        number as i32
    } else {
        number as i32 - 2 * sign as i32
    }
}

/// The immediate of the form `Upper`.
pub fn upper_imm(word: u32) -> i32
    ensures { result ≡ upper_imm word }
{
    (word >> 12 << 12).cast_signed()
}

/// The immediate of the form `Jump`.
pub fn jump_imm(word: u32) -> i32
    ensures { result ≡ jump_imm word }
{
    let number = (field(word, 31, 1) << 20)
        + (field(word, 12, 8) << 12)
        + (field(word, 20, 1) << 11)
        + (field(word, 21, 10) << 1);
    signed(number, 1 << 20)
}

/// The immediate of the form `Branch`.
pub fn branch_imm(word: u32) -> i32
    ensures { result ≡ branch_imm word }
{
    let number = (field(word, 31, 1) << 12)
        + (field(word, 7, 1) << 11)
        + (field(word, 25, 6) << 5)
        + (field(word, 8, 4) << 1);
    signed(number, 1 << 12)
}

/// The immediate of the forms `Offset` and `Immediate`.
pub fn immediate(word: u32) -> i32
    ensures { result ≡ immediate word }
{
    signed(field(word, 20, 12), 1 << 11)
}

/// The immediate of the form `Store`.
pub fn store_imm(word: u32) -> i32
    ensures { result ≡ store_imm word }
{
    signed((field(word, 25, 7) << 5) + field(word, 7, 5), 1 << 11)
}
