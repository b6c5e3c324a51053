//! The assembler text of an instruction. Chapter 25 of the manual has the registers' names.

ghost use Rattle.std.specs.Prelude.{◌≡◌, ◌<◌, ◌++◌, OnOk, OnErr, IfOk, string_bytes, codes, false};
ghost use Rattle.std.specs.Fmt.{digits, signed_decimal};
ghost use Rattle.rv_isa.specs.Table.{HasRegisters};
ghost use Rattle.rv_isa.specs.Text.{mnemonic, register_name, text};

use crate::{Form, Instr, Op};
use std::alloc::{AllocError, Global};

/// The name of a register in the calling convention. Chapter 25 of the manual.
pub fn register_name(n: u8) -> &'static str
    requires { n < 32 }
    ensures { result.now ≡ register_name n }
{
    match n {
        0 => "zero",
        1 => "ra",
        2 => "sp",
        3 => "gp",
        4 => "tp",
        5 => "t0",
        6 => "t1",
        7 => "t2",
        8 => "s0",
        9 => "s1",
        10 => "a0",
        11 => "a1",
        12 => "a2",
        13 => "a3",
        14 => "a4",
        15 => "a5",
        16 => "a6",
        17 => "a7",
        18 => "s2",
        19 => "s3",
        20 => "s4",
        21 => "s5",
        22 => "s6",
        23 => "s7",
        24 => "s8",
        25 => "s9",
        26 => "s10",
        27 => "s11",
        28 => "t3",
        29 => "t4",
        30 => "t5",
        31 => "t6",
        _ => unreachable!(),
    }
}

impl Op {
    /// The mnemonic of the operation. Chapter 24 of the manual.
    pub fn mnemonic(self) -> &'static str
        ensures { result.now ≡ mnemonic self }
    {
        match self {
            Op::Lui => "lui",
            Op::Auipc => "auipc",
            Op::Jal => "jal",
            Op::Jalr => "jalr",
            Op::Beq => "beq",
            Op::Bne => "bne",
            Op::Blt => "blt",
            Op::Bge => "bge",
            Op::Bltu => "bltu",
            Op::Bgeu => "bgeu",
            Op::Lb => "lb",
            Op::Lh => "lh",
            Op::Lw => "lw",
            Op::Lbu => "lbu",
            Op::Lhu => "lhu",
            Op::Sb => "sb",
            Op::Sh => "sh",
            Op::Sw => "sw",
            Op::Addi => "addi",
            Op::Slti => "slti",
            Op::Sltiu => "sltiu",
            Op::Xori => "xori",
            Op::Ori => "ori",
            Op::Andi => "andi",
            Op::Slli => "slli",
            Op::Srli => "srli",
            Op::Srai => "srai",
            Op::Add => "add",
            Op::Sll => "sll",
            Op::Slt => "slt",
            Op::Sltu => "sltu",
            Op::Xor => "xor",
            Op::Srl => "srl",
            Op::Or => "or",
            Op::And => "and",
            Op::Sub => "sub",
            Op::Sra => "sra",
            Op::Mul => "mul",
            Op::Mulh => "mulh",
            Op::Mulhsu => "mulhsu",
            Op::Mulhu => "mulhu",
            Op::Div => "div",
            Op::Divu => "divu",
            Op::Rem => "rem",
            Op::Remu => "remu",
            Op::Fence => "fence",
            Op::Ecall => "ecall",
            Op::Ebreak => "ebreak",
        }
    }
}

/// A mnemonic, a register and the upper 20 bits of a word.
fn with_upper(alloc: Global, name: &str, rd: &str, upper: u32) -> Result<String, AllocError>
    ensures { IfOk result (λ s. string_bytes s ≡
        name.now ++ (codes " " ++ (rd.now ++ (codes ", 0x" ++ digits 16 false upper)))) }
{
    format!(in alloc; "{name} {rd}, 0x{upper:x}")
}

/// A mnemonic, a register and a number.
fn with_number(alloc: Global, name: &str, rd: &str, n: i32) -> Result<String, AllocError>
    ensures { IfOk result (λ s. string_bytes s ≡
        name.now ++ (codes " " ++ (rd.now ++ (codes ", " ++ signed_decimal n)))) }
{
    format!(in alloc; "{name} {rd}, {n}")
}

/// A mnemonic, two registers and a number.
fn with_two(alloc: Global, name: &str, a: &str, b: &str, n: i32) -> Result<String, AllocError>
    ensures { IfOk result (λ s. string_bytes s ≡
        name.now ++ (codes " " ++ (a.now ++ (codes ", " ++ (b.now ++ (codes ", "
        ++ signed_decimal n)))))) }
{
    format!(in alloc; "{name} {a}, {b}, {n}")
}

/// A mnemonic, a register, and a base register with an offset.
fn with_base(alloc: Global, name: &str, a: &str, n: i32, base: &str) -> Result<String, AllocError>
    ensures { IfOk result (λ s. string_bytes s ≡
        name.now ++ (codes " " ++ (a.now ++ (codes ", " ++ (signed_decimal n ++ (codes "("
        ++ (base.now ++ codes ")"))))))) }
{
    format!(in alloc; "{name} {a}, {n}({base})")
}

/// A mnemonic and three registers.
fn with_three(alloc: Global, name: &str, a: &str, b: &str, c: &str) -> Result<String, AllocError>
    ensures { IfOk result (λ s. string_bytes s ≡
        name.now ++ (codes " " ++ (a.now ++ (codes ", " ++ (b.now ++ (codes ", " ++ c.now)))))) }
{
    format!(in alloc; "{name} {a}, {b}, {c}")
}

/// The text of an instruction, in a string of its own.
fn text_in(alloc: Global, instr: Instr) -> Result<String, AllocError>
    requires { HasRegisters instr }
    ensures { IfOk result (λ s. string_bytes s ≡ text instr) }
{
    let name = instr.op.mnemonic();
    let rd = register_name(instr.rd);
    let rs1 = register_name(instr.rs1);
    let rs2 = register_name(instr.rs2);
    let imm = instr.imm;
    match instr.op.form() {
        Form::Upper => with_upper(alloc, name, rd, imm.cast_unsigned() >> 12),
        Form::Jump => with_number(alloc, name, rd, imm),
        Form::Branch => with_two(alloc, name, rs1, rs2, imm),
        Form::Offset => with_base(alloc, name, rd, imm, rs1),
        Form::Store => with_base(alloc, name, rs2, imm, rs1),
        Form::Immediate => with_two(alloc, name, rd, rs1, imm),
        Form::Shift => with_two(alloc, name, rd, rs1, imm),
        Form::Register => with_three(alloc, name, rd, rs1, rs2),
        Form::Whole => String::from_str(alloc, name),
    }
}

/// Appends the assembler text of an instruction: its mnemonic of chapter 24 of the manual, and its
/// operands. The error is `std`'s own, since this crate uses no other: out of memory, and
/// `out` is as it was.
pub fn text_of(instr: Instr, out: &mut String) -> Result<(), AllocError>
    requires { HasRegisters instr }
    ensures ok { OnOk result (string_bytes out.new ≡ string_bytes out.old ++ text instr) }
    ensures err { OnErr result (string_bytes out.new ≡ string_bytes out.old) }
{
    let text = text_in(*out.allocator(), instr)?;
    out.push_str(text.as_str())
}
