//! An instruction whose immediate is an operand that may be a name.

ghost use Rattle.std.specs.Prelude.{◌<◌};
ghost use Rattle.rv_isa.specs.Table.{form_of};
ghost use Rattle.rv_isa.specs.Ranges.{ranges};

use crate::numbers::Number;
use rv_isa::Op;

/// An operation with its registers, and the operand that gives its immediate. An operand that the
/// operation's form lacks is 0.
#[derive(Clone, Copy, Debug)]
pub(crate) struct Template<'a> {
    pub op: Op,
    pub rd: u8,
    pub rs1: u8,
    pub rs2: u8,
    pub imm: Number<'a>,
    ghost rd_fits: { rd < (ranges (form_of op)).rd },
    ghost rs1_fits: { rs1 < (ranges (form_of op)).rs1 },
    ghost rs2_fits: { rs2 < (ranges (form_of op)).rs2 },
}

/// A register.
#[derive(Clone, Copy, Debug)]
pub(crate) struct Register {
    pub number: u8,
    ghost fits: { number < 32 },
}
