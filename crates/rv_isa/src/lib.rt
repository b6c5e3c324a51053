//! The instruction set of a hart: RV32I version 2.1 with the M extension version 2.0, as the RISC-V
//! Unprivileged ISA manual, document 20191213, gives them.
#![tactic(auto)]

mod decoding;
mod encoding;
mod immediates;
mod text;

ghost use Rattle.std.specs.Prelude.{◌≡◌, ◌↔◌, ℕ, true, Some};
ghost use Rattle.rv_isa.specs.Table.{row_for, row_of, has_fields, form_of, IsOfRow, HasRegisters};
ghost use Rattle.rv_isa.specs.Ranges.{IsInRange};
ghost use Rattle.rv_isa.specs.declared.Op.{Op};
ghost use Rattle.rv_isa.specs.declared.Instr.{Instr};

pub use decoding::decode;
pub use encoding::encode;
pub use text::{register_name, text_of};

/// An operation: one row of the instruction table. Chapters 2 and 7 of the manual say what each does.
#[derive(Clone, Copy, Debug, PartialEq, Eq)]
pub enum Op {
    /// Load upper immediate.
    Lui,
    /// Add upper immediate to pc.
    Auipc,
    /// Jump and link.
    Jal,
    /// Jump and link register.
    Jalr,
    /// Branch if equal.
    Beq,
    /// Branch if not equal.
    Bne,
    /// Branch if less than, signed.
    Blt,
    /// Branch if greater than or equal, signed.
    Bge,
    /// Branch if less than, unsigned.
    Bltu,
    /// Branch if greater than or equal, unsigned.
    Bgeu,
    /// Load a byte, with its sign.
    Lb,
    /// Load a halfword, with its sign.
    Lh,
    /// Load a word.
    Lw,
    /// Load a byte, unsigned.
    Lbu,
    /// Load a halfword, unsigned.
    Lhu,
    /// Store a byte.
    Sb,
    /// Store a halfword.
    Sh,
    /// Store a word.
    Sw,
    /// Add an immediate.
    Addi,
    /// Set if less than an immediate, signed.
    Slti,
    /// Set if less than an immediate, unsigned.
    Sltiu,
    /// Exclusive or with an immediate.
    Xori,
    /// Or with an immediate.
    Ori,
    /// And with an immediate.
    Andi,
    /// Shift left by an immediate.
    Slli,
    /// Shift right by an immediate, filling with zeros.
    Srli,
    /// Shift right by an immediate, filling with the sign.
    Srai,
    /// Add.
    Add,
    /// Shift left.
    Sll,
    /// Set if less than, signed.
    Slt,
    /// Set if less than, unsigned.
    Sltu,
    /// Exclusive or.
    Xor,
    /// Shift right, filling with zeros.
    Srl,
    /// Or.
    Or,
    /// And.
    And,
    /// Subtract.
    Sub,
    /// Shift right, filling with the sign.
    Sra,
    /// Multiply: the low word of the product.
    Mul,
    /// The high word of the product of signed numbers.
    Mulh,
    /// The high word of the product of a signed and an unsigned number.
    Mulhsu,
    /// The high word of the product of unsigned numbers.
    Mulhu,
    /// Divide, signed.
    Div,
    /// Divide, unsigned.
    Divu,
    /// Remainder, signed.
    Rem,
    /// Remainder, unsigned.
    Remu,
    /// Order memory accesses; here it does nothing.
    Fence,
    /// Call the environment.
    Ecall,
    /// Return control to a debugger.
    Ebreak,
}

impl Op {
    /// Which operands the operation has. Section 2.2 of the manual.
    pub fn form(self) -> Form
        ensures { result ≡ form_of self }
    {
        match self {
            Op::Lui | Op::Auipc => Form::Upper,
            Op::Jal => Form::Jump,
            Op::Beq | Op::Bne | Op::Blt | Op::Bge | Op::Bltu | Op::Bgeu => Form::Branch,
            Op::Jalr | Op::Lb | Op::Lh | Op::Lw | Op::Lbu | Op::Lhu => Form::Offset,
            Op::Sb | Op::Sh | Op::Sw => Form::Store,
            Op::Addi | Op::Slti | Op::Sltiu | Op::Xori | Op::Ori | Op::Andi | Op::Fence => {
                Form::Immediate
            }
            Op::Slli | Op::Srli | Op::Srai => Form::Shift,
            Op::Ecall | Op::Ebreak => Form::Whole,
            _ => Form::Register,
        }
    }
}

/// Which operands an operation has, in which bits of its words they are, and how its text is
/// written. Sections 2.2 and 2.3 of the manual; its I-type is the forms `Offset`, `Immediate` and
/// `Shift`.
#[derive(Clone, Copy, Debug, PartialEq, Eq)]
pub enum Form {
    /// A destination and the upper 20 bits of a word.
    Upper,
    /// A destination and a distance from pc.
    Jump,
    /// Two sources and a distance from pc.
    Branch,
    /// A destination, and a base register with an offset.
    Offset,
    /// A source, and a base register with an offset.
    Store,
    /// A destination, a source and a number of 12 bits.
    Immediate,
    /// A destination, a source and a number of 5 bits.
    Shift,
    /// A destination and two sources.
    Register,
    /// No operands: the whole word is fixed.
    Whole,
}

/// An instruction: an operation with its operands. An operand that its form lacks is 0.
#[derive(Clone, Copy, Debug, PartialEq, Eq)]
pub struct Instr {
    pub op: Op,
    /// The destination register, below 32.
    pub rd: u8,
    /// The first source register, below 32.
    pub rs1: u8,
    /// The second source register, below 32.
    pub rs2: u8,
    /// The immediate, with its sign. Of `Upper` it is the whole number, whose low twelve bits are 0; of
    /// `Jump` and `Branch` a distance in bytes, even; of `Shift` 0 to 31.
    pub imm: i32,
}

/// Each operation has a row of the table, and the fixed bits of the row are a word of it.
pub fn each_operation_has_its_row()
    ensures { (op : Op) → row_of (row_for op).value ≡ Some (row_for op) }
{}

/// An instruction is one of the table exactly where each of its operands is in the range of its form.
/// Its registers are then among the 32.
pub fn instructions_are_those_in_range()
    ensures range { (i : Instr) → IsOfRow i ↔ IsInRange i }
    ensures registers { (i : Instr) → IsOfRow i → HasRegisters i }
{}

/// No word has the fixed fields of two rows: a word is at most one instruction.
pub fn rows_are_apart()
    ensures { (word : ℕ) (o p : Op) → has_fields word (row_for o) ≡ true
        → has_fields word (row_for p) ≡ true → o ≡ p }
{}
