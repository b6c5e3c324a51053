//! From a word to its instruction, by cases on the fields opcode, funct3 and funct7. The listings of
//! chapter 24 of the manual.

ghost use Rattle.std.specs.Prelude.{ℕ, ◌≡◌, IfSome};
ghost use Rattle.rv_isa.specs.Fields.{op_at};
ghost use Rattle.rv_isa.specs.Table.{decode, form_of, instr, instr_of_form, HasRegisters, IsOfRow};

use crate::immediates::{branch_imm, field, immediate, jump_imm, store_imm, upper_imm};
use crate::{Form, Instr, Op};

/// The branch of a funct3.
fn branch_at(funct3: u32) -> Option<Op>
    ensures { (funct7 : ℕ) (word : ℕ) → result ≡ op_at 0x63 funct3 funct7 word }
{
    match funct3 {
        0 => Some(Op::Beq),
        1 => Some(Op::Bne),
        4 => Some(Op::Blt),
        5 => Some(Op::Bge),
        6 => Some(Op::Bltu),
        7 => Some(Op::Bgeu),
        _ => None,
    }
}

/// The load of a funct3.
fn load_at(funct3: u32) -> Option<Op>
    ensures { (funct7 : ℕ) (word : ℕ) → result ≡ op_at 0x03 funct3 funct7 word }
{
    match funct3 {
        0 => Some(Op::Lb),
        1 => Some(Op::Lh),
        2 => Some(Op::Lw),
        4 => Some(Op::Lbu),
        5 => Some(Op::Lhu),
        _ => None,
    }
}

/// The store of a funct3.
fn store_at(funct3: u32) -> Option<Op>
    ensures { (funct7 : ℕ) (word : ℕ) → result ≡ op_at 0x23 funct3 funct7 word }
{
    match funct3 {
        0 => Some(Op::Sb),
        1 => Some(Op::Sh),
        2 => Some(Op::Sw),
        _ => None,
    }
}

/// The operation on a register and an immediate.
fn immediate_at(funct3: u32, funct7: u32) -> Option<Op>
    ensures { (word : ℕ) → result ≡ op_at 0x13 funct3 funct7 word }
{
    match (funct3, funct7) {
        (0, _) => Some(Op::Addi),
        (2, _) => Some(Op::Slti),
        (3, _) => Some(Op::Sltiu),
        (4, _) => Some(Op::Xori),
        (6, _) => Some(Op::Ori),
        (7, _) => Some(Op::Andi),
        (1, 0) => Some(Op::Slli),
        (5, 0) => Some(Op::Srli),
        (5, 0x20) => Some(Op::Srai),
        _ => None,
    }
}

/// The operation on two registers.
fn register_at(funct3: u32, funct7: u32) -> Option<Op>
    ensures { (word : ℕ) → result ≡ op_at 0x33 funct3 funct7 word }
{
    match (funct7, funct3) {
        (0, 0) => Some(Op::Add),
        (0, 1) => Some(Op::Sll),
        (0, 2) => Some(Op::Slt),
        (0, 3) => Some(Op::Sltu),
        (0, 4) => Some(Op::Xor),
        (0, 5) => Some(Op::Srl),
        (0, 6) => Some(Op::Or),
        (0, 7) => Some(Op::And),
        (0x20, 0) => Some(Op::Sub),
        (0x20, 5) => Some(Op::Sra),
        (1, 0) => Some(Op::Mul),
        (1, 1) => Some(Op::Mulh),
        (1, 2) => Some(Op::Mulhsu),
        (1, 3) => Some(Op::Mulhu),
        (1, 4) => Some(Op::Div),
        (1, 5) => Some(Op::Divu),
        (1, 6) => Some(Op::Rem),
        (1, 7) => Some(Op::Remu),
        _ => None,
    }
}

/// The operation of a word that is fixed as a whole: ECALL or EBREAK.
fn whole_at(word: u32) -> Option<Op>
    ensures { (funct3 : ℕ) (funct7 : ℕ) → result ≡ op_at 0x73 funct3 funct7 word }
{
    match word {
        0x0000_0073 => Some(Op::Ecall),
        0x0010_0073 => Some(Op::Ebreak),
        _ => None,
    }
}

/// The operation of a word with these fields.
fn op_at(opcode: u32, funct3: u32, funct7: u32, word: u32) -> Option<Op>
    ensures { result ≡ op_at opcode funct3 funct7 word }
{
    match opcode {
        0x37 => Some(Op::Lui),
        0x17 => Some(Op::Auipc),
        0x6f => Some(Op::Jal),
        0x67 if funct3 == 0 => Some(Op::Jalr),
        0x63 => branch_at(funct3),
        0x03 => load_at(funct3),
        0x23 => store_at(funct3),
        0x13 => immediate_at(funct3, funct7),
        0x33 => register_at(funct3, funct7),
        0x0f if funct3 == 0 => Some(Op::Fence),
        0x73 => whole_at(word),
        _ => None,
    }
}

/// An instruction of these parts.
fn instr(op: Op, rd: u8, rs1: u8, rs2: u8, imm: i32) -> Instr
    ensures { result ≡ instr op rd rs1 rs2 imm }
{
    Instr {
        op,
        rd,
        rs1,
        rs2,
        imm,
    }
}

/// The operands of an operation in a word.
fn operands(op: Op, word: u32) -> Instr
    ensures { result ≡ instr_of_form (form_of op) op word }
{
    let rd = field(word, 7, 5) as u8;
    let rs1 = field(word, 15, 5) as u8;
    let rs2 = field(word, 20, 5) as u8;
    match op.form() {
        Form::Upper => instr(op, rd, 0, 0, upper_imm(word)),
        Form::Jump => instr(op, rd, 0, 0, jump_imm(word)),
        Form::Branch => instr(op, 0, rs1, rs2, branch_imm(word)),
        Form::Offset | Form::Immediate => instr(op, rd, rs1, 0, immediate(word)),
        Form::Store => instr(op, 0, rs1, rs2, store_imm(word)),
        Form::Shift => instr(op, rd, rs1, 0, i32::from(rs2)),
        Form::Register => instr(op, rd, rs1, rs2, 0),
        Form::Whole => instr(op, 0, 0, 0, 0),
    }
}

/// The instruction that a word encodes, or `None` exactly where the word has no row of the table.
/// The listings of chapter 24 of the manual.
pub fn decode(word: u32) -> Option<Instr>
    ensures is { result ≡ decode word }
    ensures of_row { IfSome result IsOfRow }
    ensures registers { IfSome result HasRegisters }
{
    let op = op_at(
        field(word, 0, 7),
        field(word, 12, 3),
        field(word, 25, 7),
        word,
    )?;
    Some(operands(op, word))
}
