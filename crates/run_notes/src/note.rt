//! One access of a run.

use crate::chain::Frames;
use crate::items::NoteItem;
use trace_form::{Kind, Mode};
use wedge_base::ActorName;

/// An access that succeeded: by which actor, at which address, what it does, whether to what is shared or to a private
/// copy, in which compartment, under which procedures, and to what.
#[derive(Debug, Drop)]
pub struct Note {
    pub actor: ActorName,
    /// The address of the instruction.
    pub pc: u32,
    pub kind: Kind,
    pub mode: Mode,
    /// The address of the compartment's procedure.
    pub compartment: u32,
    /// The addresses of procedures, outermost first.
    pub chain: Frames,
    pub item: NoteItem,
}
