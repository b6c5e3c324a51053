//! The local step of a hart: what an instruction does to its registers and pc. RISC-V Unprivileged
//! ISA manual, document 20191213, chapters 2 and 7.
#![tactic(auto)]

mod alu;

ghost use Rattle.std.specs.Prelude.{◌≡◌, ◌≢◌, ◌<◌, ◌*◌, ◌^◌, replicate, IsTrue, nat_lt, pos, ◌-ℤ◌, if◌then◌else◌};
ghost use Rattle.rv_isa.specs.Table.{HasRegisters};
ghost use Rattle.rv_hart.specs.Local.{reg, put, a, b, address, local, sets, advances_pc, goes, branches, hart_after_load, hart_after_store, hart_after_call_with, hart_after_reply, is_reply_to, is_load_need, loaded_value, HasWidth};
ghost use Rattle.rv_hart.specs.Alu.{as_word};

use alu::{div, divu, mulh, mulhsu, mulhu, offset, rem, remu, slt, sltu, sra};
use rv_isa::{Instr, Op};

/// What a hart needs before its step can be completed.
#[derive(Clone, Copy, Debug, PartialEq, Eq)]
pub enum Need {
    /// Nothing: the step is complete.
    Done,
    /// A load of bytes, little-endian. The address need not be a multiple of the width.
    Load {
        address: u32,
        /// 1, 2 or 4 bytes.
        width: u8,
        /// Whether the value is extended by its sign.
        signed: bool,
    },
    /// A store of the low bytes of a value, little-endian. The address need not be a multiple of
    /// the width.
    Store {
        address: u32,
        /// 1, 2 or 4 bytes.
        width: u8,
        value: u32,
    },
    /// A call of the environment: ECALL.
    Call,
    /// A debugger: EBREAK.
    Break,
    /// The target of a jump or taken branch is no multiple of 4. Nothing is changed.
    JumpMisaligned,
}

/// The reply to what a hart needed.
#[derive(Clone, Copy, Debug, PartialEq, Eq)]
pub enum Reply {
    /// The loaded bytes, as an unsigned number.
    Loaded(u32),
    /// The value is stored.
    Stored,
    /// What a call answers in a0, a1 and, where it gives a third value, a2.
    Answered { a0: u32, a1: u32, a2: Option<u32> },
}

/// A hart: its pc and its registers. Register 0 reads 0, whatever `regs[0]` holds.
#[derive(Clone, Copy, Debug, PartialEq, Eq)]
pub struct Hart {
    /// The address of the instruction that is executed next.
    pub pc: u32,
    /// Registers x0 to x31.
    pub regs: [u32; 32],
}

impl Hart {
    /// A hart whose registers are all 0.
    pub fn new(pc: u32) -> Hart
        ensures { result ≡ record { pc = pc; regs = replicate 32 0 } }
    {
        Hart { pc, regs: [0; 32] }
    }

    /// The value of a register.
    #[inline(always)]
    pub fn reg(&self, n: u8) -> u32
        requires { n < 32 }
        ensures { result ≡ reg self.now.regs n }
    {
        if n == 0 { 0 } else { self.regs[usize::from(n)] }
    }

    /// Sets a register; register 0 is never changed.
    #[inline(always)]
    pub fn put(&mut self, n: u8, value: u32)
        requires { n < 32 }
        ensures { self.new ≡ record self.old { regs = put self.old.regs n value } }
    {
        if n != 0 {
            self.regs[usize::from(n)] = value;
        }
    }

    /// Goes on to the next instruction.
    #[inline(always)]
    pub fn advance(&mut self)
        ensures { self.new ≡ hart_after_store self.old }
    {
        self.pc = self.pc.wrapping_add(4);
    }

    /// The step of an instruction that sets a register.
    #[inline(always)]
    fn set(&mut self, instr: &Instr, value: u32) -> Need
        requires { HasRegisters instr.now }
        ensures { record { hart = self.new; need = result } ≡ sets instr.now self.old value }
    {
        self.put(instr.rd, value);
        self.advance();
        Need::Done
    }

    /// The step that only goes on to the next instruction.
    #[inline(always)]
    fn pass(&mut self) -> Need
        ensures { record { hart = self.new; need = result } ≡ advances_pc self.old }
    {
        self.advance();
        Need::Done
    }

    /// The step of a jump to a target, with the return address in rd.
    #[inline(always)]
    fn jump(&mut self, instr: &Instr, target: u32) -> Need
        requires { HasRegisters instr.now }
        ensures { record { hart = self.new; need = result } ≡ goes instr.now self.old target }
    {
        if target % 4 != 0 {
            return Need::JumpMisaligned;
        }
        self.put(instr.rd, self.pc.wrapping_add(4));
        self.pc = target;
        Need::Done
    }

    /// The step of a branch that is taken or not.
    #[inline(always)]
    fn branch(&mut self, instr: &Instr, taken: bool) -> Need
        ensures { record { hart = self.new; need = result } ≡ branches instr.now self.old taken }
    {
        if !taken {
            return self.pass();
        }
        let target = offset(self.pc, instr.imm);
        if target % 4 == 0 {
            self.pc = target;
            Need::Done
        } else {
            Need::JumpMisaligned
        }
    }

    /// The value of the first source register.
    #[inline(always)]
    fn first(&self, instr: &Instr) -> u32
        requires { HasRegisters instr.now }
        ensures { result ≡ a instr.now self.now }
    {
        self.reg(instr.rs1)
    }

    /// The value of the second source register.
    #[inline(always)]
    fn second(&self, instr: &Instr) -> u32
        requires { HasRegisters instr.now }
        ensures { result ≡ b instr.now self.now }
    {
        self.reg(instr.rs2)
    }

    /// The first source register with the immediate added.
    #[inline(always)]
    fn address(&self, instr: &Instr) -> u32
        requires { HasRegisters instr.now }
        ensures { result ≡ address instr.now self.now }
    {
        offset(self.reg(instr.rs1), instr.imm)
    }

    /// Begins the step of an instruction, by chapters 2 and 7 of the manual, and completes it where
    /// nothing is needed for it. Where something is needed, nothing is changed, and `finish`
    /// completes the step.
    ///
    /// `Site` is a type of its own for each place that calls this: so each has its own copy, and the compiler inlines a
    /// large function that is called once.
    #[inline]
    #[tactic(auto, unfolding(crate::specs::Local::local))]
    pub fn begin<Site>(&mut self, instr: &Instr) -> Need
        requires { HasRegisters instr.now }
        ensures step { record { hart = self.new; need = result } ≡ local instr.now self.old }
        ensures kept { result ≢ Need.Done → self.new ≡ self.old }
        ensures width { HasWidth result }
    {
        let imm = instr.imm.cast_unsigned();
        match instr.op {
            Op::Lui => self.set(instr, imm),
            Op::Auipc => self.set(instr, self.pc.wrapping_add(imm)),
            Op::Jal => self.jump(instr, offset(self.pc, instr.imm)),
            Op::Jalr => self.jump(instr, self.address(instr) & !1),
            Op::Beq => self.branch(instr, self.first(instr) == self.second(instr)),
            Op::Bne => self.branch(instr, self.first(instr) != self.second(instr)),
            Op::Blt => self.branch(
                instr,
                self.first(instr).cast_signed() < self.second(instr).cast_signed(),
            ),
            Op::Bge => self.branch(
                instr,
                self.first(instr).cast_signed() >= self.second(instr).cast_signed(),
            ),
            Op::Bltu => self.branch(instr, self.first(instr) < self.second(instr)),
            Op::Bgeu => self.branch(instr, self.first(instr) >= self.second(instr)),
            Op::Lb => wants_load(self.address(instr), 1, true),
            Op::Lh => wants_load(self.address(instr), 2, true),
            Op::Lw => wants_load(self.address(instr), 4, false),
            Op::Lbu => wants_load(self.address(instr), 1, false),
            Op::Lhu => wants_load(self.address(instr), 2, false),
            Op::Sb => wants_store(self.address(instr), 1, self.second(instr)),
            Op::Sh => wants_store(self.address(instr), 2, self.second(instr)),
            Op::Sw => wants_store(self.address(instr), 4, self.second(instr)),
            Op::Addi => self.set(instr, self.first(instr).wrapping_add(imm)),
            Op::Slti => self.set(instr, slt(self.first(instr), imm)),
            Op::Sltiu => self.set(instr, sltu(self.first(instr), imm)),
            Op::Xori => self.set(instr, self.first(instr) ^ imm),
            Op::Ori => self.set(instr, self.first(instr) | imm),
            Op::Andi => self.set(instr, self.first(instr) & imm),
            Op::Slli => self.set(instr, self.first(instr).wrapping_shl(imm)),
            Op::Srli => self.set(instr, self.first(instr).wrapping_shr(imm)),
            Op::Srai => self.set(instr, sra(self.first(instr), imm)),
            Op::Add => self.set(instr, self.first(instr).wrapping_add(self.second(instr))),
            Op::Sll => self.set(instr, self.first(instr).wrapping_shl(self.second(instr))),
            Op::Slt => self.set(instr, slt(self.first(instr), self.second(instr))),
            Op::Sltu => self.set(instr, sltu(self.first(instr), self.second(instr))),
            Op::Xor => self.set(instr, self.first(instr) ^ self.second(instr)),
            Op::Srl => self.set(instr, self.first(instr).wrapping_shr(self.second(instr))),
            Op::Or => self.set(instr, self.first(instr) | self.second(instr)),
            Op::And => self.set(instr, self.first(instr) & self.second(instr)),
            Op::Sub => self.set(instr, self.first(instr).wrapping_sub(self.second(instr))),
            Op::Sra => self.set(instr, sra(self.first(instr), self.second(instr))),
            Op::Mul => self.set(instr, self.first(instr).wrapping_mul(self.second(instr))),
            Op::Mulh => self.set(instr, mulh(self.first(instr), self.second(instr))),
            Op::Mulhsu => self.set(instr, mulhsu(self.first(instr), self.second(instr))),
            Op::Mulhu => self.set(instr, mulhu(self.first(instr), self.second(instr))),
            Op::Div => self.set(instr, div(self.first(instr), self.second(instr))),
            Op::Divu => self.set(instr, divu(self.first(instr), self.second(instr))),
            Op::Rem => self.set(instr, rem(self.first(instr), self.second(instr))),
            Op::Remu => self.set(instr, remu(self.first(instr), self.second(instr))),
            Op::Fence => self.pass(),
            Op::Ecall => Need::Call,
            Op::Ebreak => Need::Break,
        }
    }

    /// Whether the step of an instruction needs a load.
    #[inline(always)]
    #[tactic(auto, unfolding(crate::specs::Local::local))]
    pub fn needs_load(&self, instr: Instr) -> bool
        ensures { result ≡ is_load_need (local instr self.now).need }
    {
        match instr.op {
            Op::Lb | Op::Lh | Op::Lw | Op::Lbu | Op::Lhu => true,
            _ => false,
        }
    }

    /// Completes the step that was begun, with the reply to what it needed: a load sets its
    /// register, a call's answer goes to a0, a1 and, where it gives a third value, a2.
    #[inline(always)]
    #[tactic(auto, unfolding(crate::specs::Local::local))]
    pub fn finish(&mut self, instr: Instr, reply: Reply)
        requires registers { HasRegisters instr }
        requires needed { IsTrue (is_reply_to (local instr self.old).need reply) }
        ensures { self.new ≡ hart_after_reply instr self.old (local instr self.old).need reply }
    {
        match reply {
            Reply::Loaded(value) => self.load(instr, value),
            Reply::Stored => self.advance(),
            Reply::Answered { a0, a1, a2 } => self.answer(a0, a1, a2),
        }
    }

    /// Completes the step of a load: the register gets the value, extended as the operation does.
    #[inline(always)]
    fn load(&mut self, instr: Instr, value: u32)
        requires { HasRegisters instr }
        ensures { self.new ≡ hart_after_load instr self.old (loaded_value instr.op value) }
    {
        self.put(instr.rd, loaded_value(instr.op, value));
        self.advance();
    }

    /// Completes the step of a call: its answer goes to a0, a1 and, where it gives a third value,
    /// a2.
    #[inline(never)]
    pub fn answer(&mut self, a0: u32, a1: u32, a2: Option<u32>)
        ensures { self.new ≡ hart_after_call_with self.old a0 a1 a2 }
    {
        self.put(10, a0);
        self.put(11, a1);
        if let Some(a2) = a2 {
            self.put(12, a2);
        }
        self.advance();
    }
}

/// The need of a load.
#[inline(always)]
fn wants_load(address: u32, width: u8, signed: bool) -> Need
    ensures { result ≡ Need.Load address width signed }
{
    Need::Load {
        address,
        width,
        signed,
    }
}

/// The need of a store.
#[inline(always)]
fn wants_store(address: u32, width: u8, value: u32) -> Need
    ensures { result ≡ Need.Store address width value }
{
    Need::Store {
        address,
        width,
        value,
    }
}

/// The value that the load of an operation gives: LB and LH extend it by its sign.
#[inline(always)]
fn loaded_value(op: Op, value: u32) -> u32
    ensures { result ≡ loaded_value op value }
{
    match op {
        Op::Lb => extended(value, 0x80),
        Op::Lh => extended(value, 0x8000),
        _ => value,
    }
}

/// The word of a two's complement number whose sign bit has the weight `sign`.
#[inline(always)]
fn extended(number: u32, sign: u32) -> u32
    requires { sign < 2 ^ 31 }
    ensures { result
        ≡ as_word (if nat_lt number sign then pos number else pos number -ℤ pos (2 * sign)) }
{
    if number < sign {
        number
    } else {
        number.wrapping_sub(2 * sign)
    }
}
