//! The first words of lines.

ghost use Rattle.std.specs.Prelude.{◌≡◌};
ghost use Rattle.rv_asm.specs.Parsing as parsing;

use rv_isa::Op;

/// A directive or pseudoinstruction.
#[derive(Clone, Copy, Debug, PartialEq, Eq)]
pub(crate) enum Shorthand {
    Word,
    Procedure,
    LoadNumber,
    LoadAddress,
    Move,
    Jump,
    Call,
    Return,
    BranchZero,
    BranchNotZero,
    Nothing,
    Service,
}

/// What the first word of a line is: the mnemonic of an instruction, or a directive or
/// pseudoinstruction.
#[derive(Clone, Copy, Debug, PartialEq, Eq)]
pub(crate) enum Head {
    Machine(Op),
    Short(Shorthand),
}

const OPS: [Op; 48] = [
    Op::Lui,
    Op::Auipc,
    Op::Jal,
    Op::Jalr,
    Op::Beq,
    Op::Bne,
    Op::Blt,
    Op::Bge,
    Op::Bltu,
    Op::Bgeu,
    Op::Lb,
    Op::Lh,
    Op::Lw,
    Op::Lbu,
    Op::Lhu,
    Op::Sb,
    Op::Sh,
    Op::Sw,
    Op::Addi,
    Op::Slti,
    Op::Sltiu,
    Op::Xori,
    Op::Ori,
    Op::Andi,
    Op::Slli,
    Op::Srli,
    Op::Srai,
    Op::Add,
    Op::Sll,
    Op::Slt,
    Op::Sltu,
    Op::Xor,
    Op::Srl,
    Op::Or,
    Op::And,
    Op::Sub,
    Op::Sra,
    Op::Mul,
    Op::Mulh,
    Op::Mulhsu,
    Op::Mulhu,
    Op::Div,
    Op::Divu,
    Op::Rem,
    Op::Remu,
    Op::Fence,
    Op::Ecall,
    Op::Ebreak,
];

/// The operation that has a mnemonic.
fn op_named(word: &[u8]) -> Option<Op>
    ensures { result ≡ parsing.op_named word.now }
{
    OPS.iter()
        .copied()
        .find(|op| op.mnemonic().as_bytes() == word)
}

fn shorthand_named(word: &[u8]) -> Option<Shorthand>
    ensures { result ≡ parsing.shorthand_named word.now }
{
    match word {
        b".word" => Some(Shorthand::Word),
        b".proc" => Some(Shorthand::Procedure),
        b"li" => Some(Shorthand::LoadNumber),
        b"la" => Some(Shorthand::LoadAddress),
        b"mv" => Some(Shorthand::Move),
        b"j" => Some(Shorthand::Jump),
        b"call" => Some(Shorthand::Call),
        b"ret" => Some(Shorthand::Return),
        b"beqz" => Some(Shorthand::BranchZero),
        b"bnez" => Some(Shorthand::BranchNotZero),
        b"nop" => Some(Shorthand::Nothing),
        b"svc" => Some(Shorthand::Service),
        _ => None,
    }
}

/// What a first word is, if it is known.
#[tactic(auto, unfolding(crate::specs::Parsing::head_named))]
pub(crate) fn head_named(word: &[u8]) -> Option<Head>
    ensures { result ≡ parsing.head_named word.now }
{
    if let Some(op) = op_named(word) {
        return Some(Head::Machine(op));
    }
    let shorthand = shorthand_named(word)?;
    Some(Head::Short(shorthand))
}
