//! What a history is made of, and who adds to it.

use wedge_base::{ActorName, Stamp};

/// One exchange with a cell: its stamp, the actor that asked, the ask and the reply.
#[derive(Debug, Drop)]
pub struct Entry<Q, R> {
    pub stamp: Stamp,
    pub actor: ActorName,
    pub ask: Q,
    pub reply: R,
}

/// What an actor brings to a cell: its name, and its clock, which is the stamp of its last event, or that
/// of its start where it has done none.
#[derive(Debug, Drop)]
pub struct Pass<'a> {
    pub name: &'a ActorName,
    pub clock: Stamp,
}
