//! The pace of a run on threads: what a running actor calls before each shared event.

use wedge_base::ActorName;

/// What is called before each shared event of a run on threads.
pub trait Pace {
    /// Called by a running actor before it does a shared event. It holds no lock then but that of a
    /// gate under which it runs.
    fn before(&self, name: &ActorName);
}

/// The pace of an ordinary run: none waits for another.
#[derive(Clone, Copy, Debug, PartialEq, Eq)]
pub struct NoPace;

impl Pace for NoPace {
    fn before(&self, _name: &ActorName) {}
}
