//! Where in a run an access was made.

use wedge_base::ActorName;

/// Where in a run an access was made. The n-th mark is that of the n-th record of the run's trace.
#[derive(Debug, Drop)]
pub struct Mark {
    /// The turn of the run, from 1.
    pub turn: u64,
    /// The actor whose access it is.
    pub actor: ActorName,
    /// The address in bytes of the instruction of the access.
    pub pc: u32,
}
