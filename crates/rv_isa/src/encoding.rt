//! From an instruction to its word. Sections 2.2 and 2.3 of the manual, and the listings of chapter 24.

ghost use Rattle.std.specs.Prelude.{ℕ, ◌≡◌, ◌^◌, ◌<◌, Some};
ghost use Rattle.rv_isa.specs.Table.{row_for, form_of, decode, HasRegisters, IsOfRow};
ghost use Rattle.rv_isa.specs.Encoding.{operand_bits};

use crate::immediates::field;
use crate::{Form, Instr, Op};

/// The fixed fields of an operation's words: opcode, and for most funct3 and funct7.
fn fixed_fields(op: Op) -> u32
    ensures { result ≡ (row_for op).value }
{
    match op {
        Op::Lui => 0x0000_0037,
        Op::Auipc => 0x0000_0017,
        Op::Jal => 0x0000_006f,
        Op::Jalr => 0x0000_0067,
        Op::Beq => 0x0000_0063,
        Op::Bne => 0x0000_1063,
        Op::Blt => 0x0000_4063,
        Op::Bge => 0x0000_5063,
        Op::Bltu => 0x0000_6063,
        Op::Bgeu => 0x0000_7063,
        Op::Lb => 0x0000_0003,
        Op::Lh => 0x0000_1003,
        Op::Lw => 0x0000_2003,
        Op::Lbu => 0x0000_4003,
        Op::Lhu => 0x0000_5003,
        Op::Sb => 0x0000_0023,
        Op::Sh => 0x0000_1023,
        Op::Sw => 0x0000_2023,
        Op::Addi => 0x0000_0013,
        Op::Slti => 0x0000_2013,
        Op::Sltiu => 0x0000_3013,
        Op::Xori => 0x0000_4013,
        Op::Ori => 0x0000_6013,
        Op::Andi => 0x0000_7013,
        Op::Slli => 0x0000_1013,
        Op::Srli => 0x0000_5013,
        Op::Srai => 0x4000_5013,
        Op::Add => 0x0000_0033,
        Op::Sll => 0x0000_1033,
        Op::Slt => 0x0000_2033,
        Op::Sltu => 0x0000_3033,
        Op::Xor => 0x0000_4033,
        Op::Srl => 0x0000_5033,
        Op::Or => 0x0000_6033,
        Op::And => 0x0000_7033,
        Op::Sub => 0x4000_0033,
        Op::Sra => 0x4000_5033,
        Op::Mul => 0x0200_0033,
        Op::Mulh => 0x0200_1033,
        Op::Mulhsu => 0x0200_2033,
        Op::Mulhu => 0x0200_3033,
        Op::Div => 0x0200_4033,
        Op::Divu => 0x0200_5033,
        Op::Rem => 0x0200_6033,
        Op::Remu => 0x0200_7033,
        Op::Fence => 0x0000_000f,
        Op::Ecall => 0x0000_0073,
        Op::Ebreak => 0x0010_0073,
    }
}

/// The operands of an instruction, each in its bits of the word.
fn operand_bits(instr: Instr) -> u32
    requires { HasRegisters instr }
    ensures { result ≡ operand_bits (form_of instr.op) instr }
{
    let rd = u32::from(instr.rd) << 7;
    let rs1 = u32::from(instr.rs1) << 15;
    let rs2 = u32::from(instr.rs2) << 20;
    let imm = instr.imm.cast_unsigned();
    match instr.op.form() {
        Form::Upper => rd + (field(imm, 12, 20) << 12),
        Form::Jump => {
            rd + (field(imm, 12, 8) << 12)
                + (field(imm, 11, 1) << 20)
                + (field(imm, 1, 10) << 21)
                + (field(imm, 20, 1) << 31)
        }
        Form::Branch => {
            rs1 + rs2
                + (field(imm, 11, 1) << 7)
                + (field(imm, 1, 4) << 8)
                + (field(imm, 5, 6) << 25)
                + (field(imm, 12, 1) << 31)
        }
        Form::Offset | Form::Immediate => rd + rs1 + (field(imm, 0, 12) << 20),
        Form::Store => rs1 + rs2 + (field(imm, 0, 5) << 7) + (field(imm, 5, 7) << 25),
        Form::Shift => rd + rs1 + (field(imm, 0, 5) << 20),
        Form::Register => rd + rs1 + rs2,
        Form::Whole => 0,
    }
}

/// The one word that an instruction of the table has. Sections 2.2 and 2.3 of the manual.
pub fn encode(instr: Instr) -> u32
    requires { IsOfRow instr }
    ensures is { decode result ≡ Some instr }
    ensures only { (word : ℕ) → word < 2 ^ 32 → decode word ≡ Some instr
        → word ≡ result }
{
    fixed_fields(instr.op) + operand_bits(instr)
}
