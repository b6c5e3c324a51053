//! Words of instructions.

ghost use Rattle.std.specs.Prelude.{◌≡◌, ◌+◌, ◌-◌, ◌%◌, ◌^◌, ◌<◌, ◌≤ℤ◌, [], ◌∷◌, pos, negsuc};
ghost use Rattle.rv_isa.specs.Encoding.{encoded};
ghost use Rattle.rv_isa.specs.Numbers.{word_of};
ghost use Rattle.rv_isa.specs.Ranges.{IsInRange};
ghost use Rattle.rv_isa.specs.Table.{instr};
ghost use Rattle.rv_isa.specs.declared.Op.TheVariants as op;
ghost use Rattle.rv_asm.specs.Assembly as assembly;

use rv_isa::{Instr, Op, encode};

/// The word of an instruction.
pub(crate) fn encoded(instr: Instr) -> u32
    requires { IsInRange instr }
    ensures { result ≡ encoded instr }
{
    encode(instr)
}

/// The number modulo 2^32.
pub(crate) fn word_of(z: i64) -> u32
    ensures { result ≡ word_of z }
{
    (z.cast_unsigned() % 0x1_0000_0000) as u32
}

/// The distance from one address to another: their difference modulo 2^32, as a signed number.
pub(crate) fn distance(from: u32, to: u32) -> i32
    ensures { result ≡ assembly.distance from to }
{
    to.wrapping_sub(from).cast_signed()
}

/// The word of an ADDI.
pub(crate) fn add_word(rd: u8, rs1: u8, imm: i32) -> u32
    requires to { rd < 32 }
    requires from { rs1 < 32 }
    requires low { negsuc 2047 ≤ℤ imm }
    requires high { imm ≤ℤ pos 2047 }
    ensures { result ≡ assembly.add_word rd rs1 imm }
{
    encoded(Instr {
        op: Op::Addi,
        rd,
        rs1,
        rs2: 0,
        imm,
    })
}

/// The word of an ECALL.
pub(crate) fn call_word() -> u32
    ensures { result ≡ encoded (instr op.Ecall 0 0 0 (pos 0)) }
{
    encoded(Instr {
        op: Op::Ecall,
        rd: 0,
        rs1: 0,
        rs2: 0,
        imm: 0,
    })
}

/// What LUI loads for a number: the nearest multiple of 2^12, so that an ADDI completes it.
fn upper_part(n: u32) -> u32
    ensures is { result ≡ assembly.upper_part n }
    ensures low { negsuc 2047 ≤ℤ assembly.distance result n }
    ensures high { assembly.distance result n ≤ℤ pos 2047 }
{
    n.wrapping_add(0x800) >> 12 << 12
}

/// LUI and ADDI.
#[tactic(auto, unfolding(crate::specs::Assembly::load_two))]
pub(crate) fn load_two(rd: u8, n: u32) -> (u32, u32)
    requires { rd < 32 }
    ensures { result.0 ∷ result.1 ∷ [] ≡ assembly.load_two rd n }
{
    let upper = upper_part(n);
    let first = encoded(Instr {
        op: Op::Lui,
        rd,
        rs1: 0,
        rs2: 0,
        imm: upper.cast_signed(),
    });
    (first, add_word(rd, rd, distance(upper, n)))
}
