//! What a run ends with.

ghost use Rattle.std.specs.Prelude.{◌≡◌, IfOk};

use crate::errors::NoMemory;
use crate::items::{Bytes, Items};
use crate::names::ActorName;
use crate::numbers::FdNo;
use crate::rights::{Denial, End};
use std::alloc::Global;

/// A denial, and the address of the instruction that was denied.
#[derive(Clone, Debug, Drop)]
pub struct DenialAt {
    pub pc: u32,
    pub denial: Denial,
}

/// What became of an actor.
#[derive(Clone, Debug, Drop)]
pub struct ActorLine {
    pub name: ActorName,
    /// The name of the procedure at which it began.
    pub compartment: Bytes,
    pub end: End,
    /// The address of the instruction or fetch that ended it.
    pub pc: u32,
    /// The units of fuel that were left.
    pub fuel: u32,
    /// Its denials, in order.
    pub denials: Items<DenialAt>,
}

/// What an append stream held at the end.
#[derive(Clone, Debug, Drop)]
pub struct StreamLine {
    pub number: FdNo,
    /// The name under which it was declared, or the path of the file that was opened.
    pub label: Bytes,
    pub bytes: Bytes,
}

/// What a run ends with: a line for each actor, in order of name, and one for each append stream, by
/// number.
#[derive(Clone, Debug, Drop)]
pub struct Outcome {
    pub actors: Items<ActorLine>,
    pub streams: Items<StreamLine>,
}

/// Equal denials, in the same order.
pub fn copy_denials(alloc: Global, denials: &Items<DenialAt>) -> Result<Items<DenialAt>, NoMemory>
    ensures { IfOk result (λ ds. ds ≡ denials.now) }
{
    let mut copies = Vec::new(alloc);
    let all = denials.as_slice();
    for one in all {
        copies.push(DenialAt {
            pc: one.pc,
            denial: one.denial.copy()?,
        })?;
    }
    Ok(Items::new(copies))
}
