//! Chains of calls.

ghost use Rattle.std.specs.Prelude.{◌≡◌, ◌<◌, ◌++◌, ◌∷◌, ◌-◌, [], length, take, IfOk, OnErr, OnOk};
ghost use Rattle.run_notes.specs.Chains as chains;
ghost use Rattle.run_notes.specs.Procedures.{AreProceduresOf};

use crate::procedures::Procedures;
use image_form::Image;
use rv_isa::{Instr, Op};
use std::alloc::Global;
use std::marker::Model;
use std::sync::Arc;
use wedge_base::NoMemory;

/// The most frames of a chain.
const MOST_FRAMES: usize = 64;

/// The number of the register ra, which has the return address of a call.
const RA: u8 = 1;

/// The addresses of procedures, outermost first. All copies hold the list once, so a note takes no memory for it.
#[derive(Debug, Drop)]
pub struct Frames {
    list: Arc<Vec<u32>>,
}

impl Model for Frames {
    ghost use Rattle.std.specs.Prelude.{ℕ, List};
    ghost use Rattle.std.specs.Arc.{arc_value};

    ghost Value = { List ℕ };

    ghost view = { λ f. (arc_value f.list).items };
}

impl Frames {
    /// One frame.
    fn one(alloc: Global, procedure: u32) -> Result<Frames, NoMemory>
        ensures { IfOk result (λ f. f ≡ procedure ∷ []) }
    {
        Ok(Frames {
            list: Arc::new(alloc, Vec::from_slice(alloc, &[procedure])?)?,
        })
    }

    /// Returns the addresses.
    pub fn as_slice(&self) -> &[u32]
        ensures { result.now ≡ self.now }
    {
        self.list.as_slice()
    }

    /// Equal frames, which take no memory of their own.
    pub fn copy(&self) -> Result<Frames, NoMemory>
        ensures { IfOk result (λ f. f ≡ self.now) }
    {
        Ok(Frames {
            list: Arc::try_clone(&self.list)?,
        })
    }

    /// Adds a frame. The list is copied where others hold it.
    fn push(&mut self, procedure: u32) -> Result<(), NoMemory>
        ensures ok { OnOk result (self.new ≡ self.old ++ procedure ∷ []) }
        ensures err { OnErr result (self.new ≡ self.old) }
    {
        let list = Arc::make_mut(&mut self.list)?;
        list.push(procedure)?;
        Ok(())
    }

    /// Takes the last frame off. The list is copied where others hold it.
    fn pop(&mut self) -> Result<(), NoMemory>
        requires { 0 < length self.old }
        ensures ok { OnOk result (self.new ≡ take (length self.old - 1) self.old) }
        ensures err { OnErr result (self.new ≡ self.old) }
    {
        let list = Arc::make_mut(&mut self.list)?;
        list.pop();
        Ok(())
    }
}

/// The procedures that an actor has called and has not returned from, and how many calls beyond the 64th are open.
#[derive(Debug, Drop)]
pub struct CallChain {
    pub frames: Frames,
    pub beyond: u64,
}

impl CallChain {
    /// The chain with which an actor begins: the procedure at its entry.
    pub fn opening(alloc: Global, compartment: u32) -> Result<CallChain, NoMemory>
        ensures { IfOk result (λ c. c ≡ chains.opening_chain compartment) }
    {
        Ok(CallChain {
            frames: Frames::one(alloc, compartment)?,
            beyond: 0,
        })
    }

    /// A procedure is called. A full chain counts the call.
    fn call(&mut self, procedure: u32) -> Result<(), NoMemory>
        ensures ok { OnOk result (self.new ≡ chains.with_call self.old procedure) }
        ensures err { OnErr result (self.new ≡ self.old) }
    {
        if self.frames.as_slice().len() < MOST_FRAMES {
            self.frames.push(procedure)?;
        } else {
            self.beyond = self.beyond.checked_add(1).ok_or(NoMemory)?;
        }
        Ok(())
    }

    /// A call returns: one that was counted, or else the innermost frame, but never the first one.
    fn drop_call(&mut self) -> Result<(), NoMemory>
        ensures ok { OnOk result (self.new ≡ chains.with_return self.old) }
        ensures err { OnErr result (self.new ≡ self.old) }
    {
        if self.beyond > 0 {
            self.beyond -= 1;
        } else if self.frames.as_slice().len() > 1 {
            self.frames.pop()?;
        }
        Ok(())
    }

    /// Follows an instruction that was made, after which the pc is this. Out of memory the chain is as it was.
    pub fn follow(
        &mut self,
        image: &Image,
        procedures: &Procedures,
        instr: &Instr,
        target: u32,
    ) -> Result<(), NoMemory>
        requires { AreProceduresOf image.now procedures.now }
        ensures ok { OnOk result
            (self.new ≡ chains.chain_after image.now instr.now target self.old) }
        ensures err { OnErr result (self.new ≡ self.old) }
    {
        if is_call(instr) {
            if image.is_in_text(target, 1) {
                self.call(procedures.proc_of(target))?;
            }
        } else if is_return(instr) {
            self.drop_call()?;
        }
        Ok(())
    }
}

/// Whether an instruction is a call: JAL or JALR with rd = ra.
pub(crate) fn is_call(instr: &Instr) -> bool
    ensures { result ≡ chains.is_call instr.now }
{
    matches!(instr.op, Op::Jal | Op::Jalr) && instr.rd == RA
}

/// Whether an instruction is a return: JALR with rd = x0, rs1 = ra and no offset.
pub(crate) fn is_return(instr: &Instr) -> bool
    ensures { result ≡ chains.is_return instr.now }
{
    matches!(instr.op, Op::Jalr) && instr.rd == 0 && instr.rs1 == RA && instr.imm == 0
}
