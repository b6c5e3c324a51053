//! Results worked out by hand from chapters 2 and 7 of the manual.

ghost use Rattle.std.specs.Prelude.{◌<◌};
ghost use Rattle.rv_isa.specs.Table.{HasRegisters};

use rv_hart::{Hart, Need, Reply};
use rv_isa::{Instr, Op};
use std::process::Abort;

fn instr(op: Op, rd: u8, rs1: u8, rs2: u8, imm: i32) -> Instr
    requires rd { rd < 32 }

    requires rs1 { rs1 < 32 }
    requires rs2 { rs2 < 32 }
    ensures { HasRegisters result }
{
    Instr {
        op,
        rd,
        rs1,
        rs2,
        imm,
    }
}

/// Begins a step and, where the reply is of the kind that is needed, finishes it.
fn step(hart: &mut Hart, instr: Instr, reply: Reply) -> Need
    requires { HasRegisters instr }
{
    let need = hart.begin::<()>(&instr);
    match (need, reply) {
        (Need::Load { .. }, Reply::Loaded(_)) => hart.finish(instr, reply),
        (Need::Store { .. }, Reply::Stored) => hart.finish(instr, reply),
        (Need::Call, Reply::Answered { .. }) => hart.finish(instr, reply),
        _ => {}
    }
    need
}

/// What an operation gives of two registers.
fn of_two(op: Op, a: u32, b: u32) -> u32 {
    let mut hart = Hart::new(0x1000);
    hart.put(5, a);
    hart.put(6, b);
    let _need = hart.begin::<()>(&instr(op, 7, 5, 6, 0));
    hart.reg(7)
}

/// Operations on two numbers, and their results.
#[rattlefmt::skip]
static OF_TWO: [(Op, u32, u32, u32); 31] = [
    (Op::Add, 0xffff_ffff, 1, 0),
    (Op::Sub, 0, 1, 0xffff_ffff),
    (Op::Sll, 1, 33, 2),
    (Op::Slt, 0xffff_ffff, 0, 1),
    (Op::Sltu, 0xffff_ffff, 0, 0),
    (Op::Xor, 0xff00, 0x0ff0, 0xf0f0),
    (Op::Srl, 0x8000_0000, 31, 1),
    (Op::Srl, 0x8000_0000, 32, 0x8000_0000),
    (Op::Srl, 0x8000_0000, 0xffff_ffe1, 0x4000_0000),
    (Op::Sra, 0x8000_0000, 31, 0xffff_ffff),
    (Op::Sra, 0x8000_0000, 32, 0x8000_0000),
    (Op::Sra, 0x8000_0000, 0xffff_ffe1, 0xc000_0000),
    (Op::Or, 0xff00, 0x0ff0, 0xfff0),
    (Op::And, 0xff00, 0x0ff0, 0x0f00),
    (Op::Mul, 0xffff_ffff, 7, 0xffff_fff9),
    (Op::Mulh, 0x8000_0000, 0x8000_0000, 0x4000_0000),
    (Op::Mulh, 0x8000_0000, 2, 0xffff_ffff),
    (Op::Mulhsu, 0xffff_ffff, 0xffff_ffff, 0xffff_ffff),
    (Op::Mulhsu, 0x8000_0000, 2, 0xffff_ffff),
    (Op::Mulhsu, 2, 0x8000_0000, 1),
    (Op::Mulhu, 0xffff_ffff, 0xffff_ffff, 0xffff_fffe),
    (Op::Div, 7, 0, 0xffff_ffff),
    (Op::Div, 0x8000_0000, 0xffff_ffff, 0x8000_0000),
    (Op::Div, 0xffff_fff9, 2, 0xffff_fffd),
    (Op::Divu, 7, 0, 0xffff_ffff),
    (Op::Divu, 0xffff_fff9, 2, 0x7fff_fffc),
    (Op::Rem, 7, 0, 7),
    (Op::Rem, 0x8000_0000, 0xffff_ffff, 0),
    (Op::Rem, 0xffff_fff9, 2, 0xffff_ffff),
    (Op::Remu, 7, 0, 7),
    (Op::Remu, 0xffff_ffff, 10, 5),
];

#[test]
fn results_of_two_registers(rt: HostRuntime) {
    for (op, a, b, want) in &OF_TWO {
        assert_eq!(rt; of_two(*op, *a, *b), *want, "{op:?} of {a:x} and {b:x}");
    }
}

/// After an operation on a number and an immediate.
fn after_immediate(rt: &impl Abort, op: Op, a: u32, imm: i32) -> Hart {
    let mut hart = Hart::new(0x1000);
    hart.put(5, a);
    hart.put(7, 9);
    assert!(rt; hart.begin::<()>(&instr(op, 7, 5, 0, imm)) == Need::Done && hart.pc == 0x1004);
    hart
}

/// Operations on a number and an immediate, and what is then in the register of the result, which has 9 before.
#[rattlefmt::skip]
static OF_IMMEDIATE: [(Op, u32, i32, u32); 14] = [
    (Op::Addi, 5, -6, 0xffff_ffff),
    (Op::Slti, 0xffff_fffe, -1, 1),
    (Op::Slti, 5, -1, 0),
    (Op::Sltiu, 5, -1, 1),
    (Op::Xori, 0x0f0f, -1, 0xffff_f0f0),
    (Op::Ori, 0xf000_0000, 0x55, 0xf000_0055),
    (Op::Ori, 0, -1, 0xffff_ffff),
    (Op::Andi, 0x1234_5678, -16, 0x1234_5670),
    (Op::Slli, 3, 31, 0x8000_0000),
    (Op::Srli, 0x8000_0000, 4, 0x0800_0000),
    (Op::Srai, 0x8000_0000, 4, 0xf800_0000),
    (Op::Lui, 0, -4096, 0xffff_f000),
    (Op::Auipc, 0, -4096, 0),
    (Op::Fence, 0, 255, 9),
];

#[test]
fn results_of_an_immediate(rt: HostRuntime) {
    for (op, a, imm, want) in &OF_IMMEDIATE {
        let hart = after_immediate(&rt, *op, *a, *imm);
        assert_eq!(rt; hart.reg(7), *want, "{op:?} of {a:x} and {imm}");
    }
}

/// The address after a branch on two numbers by -8.
fn after_branch(rt: &impl Abort, op: Op, a: u32, b: u32) -> u32 {
    let mut hart = Hart::new(0x1000);
    hart.put(5, a);
    hart.put(6, b);
    assert!(rt; hart.begin::<()>(&instr(op, 0, 5, 6, -8)) == Need::Done);
    hart.pc
}

/// Branches on two numbers, and whether they are taken.
#[rattlefmt::skip]
static BRANCHES: [(Op, u32, u32, bool); 14] = [
    (Op::Beq, 7, 7, true),
    (Op::Beq, 7, 8, false),
    (Op::Bne, 7, 8, true),
    (Op::Bne, 7, 7, false),
    (Op::Blt, 0xffff_ffff, 0, true),
    (Op::Blt, 0, 0xffff_ffff, false),
    (Op::Blt, 7, 7, false),
    (Op::Bge, 0, 0xffff_ffff, true),
    (Op::Bge, 0xffff_ffff, 0, false),
    (Op::Bge, 7, 7, true),
    (Op::Bltu, 0, 0xffff_ffff, true),
    (Op::Bltu, 7, 7, false),
    (Op::Bgeu, 7, 7, true),
    (Op::Bgeu, 0, 0xffff_ffff, false),
];

#[test]
fn branches_by_their_condition(rt: HostRuntime) {
    for (op, a, b, taken) in &BRANCHES {
        let wanted = if *taken { 0xff8 } else { 0x1004 };
        assert_eq!(rt; after_branch(&rt, *op, *a, *b), wanted, "{op:?}");
    }
}

#[test]
fn jumps_and_their_links(rt: HostRuntime) {
    let mut hart = Hart::new(0x1000);
    assert!(rt; hart.begin::<()>(&instr(Op::Jal, 1, 0, 0, -0x1004)) == Need::Done);
    assert!(rt; hart.pc == 0xffff_fffc && hart.reg(1) == 0x1004);

    // Bit 0 of the target is cleared, and the target is taken before the link is written.
    hart.put(5, 0x2004);
    assert!(rt; hart.begin::<()>(&instr(Op::Jalr, 5, 5, 0, 1)) == Need::Done);
    assert!(rt; hart.pc == 0x2004 && hart.reg(5) == 0);
}

/// A jump or a branch at 0x1000 by this immediate needs this, and leaves the registers as they were, and this address.
fn leaves(rt: &impl Abort, op: Op, rd: u8, imm: i32, need: Need, pc: u32)
    requires { rd < 32 }
{
    let mut hart = Hart::new(0x1000);
    hart.put(1, 7);
    let before = hart;
    assert!(rt;
        hart.begin::<()>(&instr(op, rd, 0, 0, imm)) == need,
        "{op:?}"
    );
    assert!(rt; hart.regs == before.regs, "{op:?}");
    assert!(rt; hart.pc == pc, "{op:?}");
}

/// A target that is no multiple of 4 writes no register.
#[test]
fn jumps_to_no_multiple_of_four(rt: HostRuntime) {
    leaves(&rt, Op::Jal, 1, 6, Need::JumpMisaligned, 0x1000);
    leaves(&rt, Op::Jalr, 1, 2, Need::JumpMisaligned, 0x1000);
    leaves(&rt, Op::Beq, 0, 2, Need::JumpMisaligned, 0x1000);
    leaves(&rt, Op::Bne, 0, 2, Need::Done, 0x1004);
}

/// What a load puts into the register, of a value that comes for what it needs.
fn after_load(rt: &impl Abort, op: Op, value: u32, need: Need) -> u32 {
    let mut hart = Hart::new(0x1000);
    hart.put(5, 3);
    let needed = step(&mut hart, instr(op, 7, 5, 0, -4), Reply::Loaded(value));
    assert!(rt; needed == need && hart.pc == 0x1004, "{op:?}");
    hart.reg(7)
}

/// Loads, their width and whether they extend a sign, the value that comes, and what is then in the register.
#[rattlefmt::skip]
static LOADS: [(Op, u8, bool, u32, u32); 7] = [
    (Op::Lb, 1, true, 0x80, 0xffff_ff80),
    (Op::Lb, 1, true, 0x7f, 0x7f),
    (Op::Lbu, 1, false, 0x80, 0x80),
    (Op::Lh, 2, true, 0x8000, 0xffff_8000),
    (Op::Lh, 2, true, 0x7fff, 0x7fff),
    (Op::Lhu, 2, false, 0x8000, 0x8000),
    (Op::Lw, 4, false, 0x8000_0000, 0x8000_0000),
];

#[test]
fn loads_by_their_width_and_sign(rt: HostRuntime) {
    for (op, width, signed, value, want) in &LOADS {
        let need = Need::Load {
            address: 0xffff_ffff,
            width: *width,
            signed: *signed,
        };
        assert_eq!(rt; after_load(&rt, *op, *value, need), *want, "{op:?}");
    }
}

/// A store of a register at an address around the end needs this.
fn stores(rt: &impl Abort, op: Op, width: u8) {
    let mut hart = Hart::new(0xffff_fffc);
    hart.put(5, 0x2000);
    hart.put(6, 0x1234_5678);
    let need = Need::Store {
        address: 0x2008,
        width,
        value: 0x1234_5678,
    };
    let needed = step(&mut hart, instr(op, 0, 5, 6, 8), Reply::Stored);
    assert!(rt; needed == need && hart.pc == 0, "{op:?}");
}

#[test]
fn stores_by_their_width(rt: HostRuntime) {
    stores(&rt, Op::Sb, 1);
    stores(&rt, Op::Sh, 2);
    stores(&rt, Op::Sw, 4);
}

/// A call answered so leaves this in register 12, which has 7 before.
fn calls(rt: &impl Abort, a0: u32, a1: u32, a2: Option<u32>, left: u32) {
    let call = instr(Op::Ecall, 0, 0, 0, 0);
    let mut hart = Hart::new(0x1000);
    hart.put(12, 7);
    assert!(rt; step(&mut hart, call, Reply::Answered { a0, a1, a2 }) == Need::Call);
    assert!(rt; hart.reg(10) == a0 && hart.reg(11) == a1 && hart.reg(12) == left);
    assert!(rt; hart.pc == 0x1004);
}

#[test]
fn calls_and_their_answers(rt: HostRuntime) {
    calls(&rt, 1, 2, None, 7);
    calls(&rt, 3, 4, Some(5), 5);
    let mut hart = Hart::new(0x1008);
    let stop = instr(Op::Ebreak, 0, 0, 0, 0);
    assert!(rt; step(&mut hart, stop, Reply::Stored) == Need::Break);
    assert!(rt; hart.pc == 0x1008);
}

#[test]
fn register_0_reads_0(rt: HostRuntime) {
    let mut hart = Hart::new(0x1000);
    hart.put(0, 5);
    assert_eq!(rt; hart.begin::<()>(&instr(Op::Addi, 0, 0, 0, 5)), Need::Done);
    assert_eq!(rt; hart.reg(0), 0);
    assert_eq!(rt; of_two(Op::Add, 0, 0), 0);
}
