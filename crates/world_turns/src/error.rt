//! Why there is no turn, and why a schedule is rejected.

ghost use Rattle.std.specs.Prelude.{◌≡◌};
ghost use Rattle.world_turns.specs.declared.error.NoTurn.TheVariants as errors;
ghost use Rattle.world_turns.specs.declared.error.ReplayFault.TheVariants as faults;

use wedge_base::NoMemory;

/// Why there is no turn.
#[derive(Clone, Copy, Debug, PartialEq, Eq)]
pub enum NoTurn {
    /// Out of memory. The world has stopped: each later turn answers so too.
    NoMemory,
    /// No actor of that name has started.
    Unknown,
    /// The actor has ended.
    Ended,
    /// The actor awaits a child or the run of a gate that has not ended.
    Waits,
    /// The actor is to enter a recycled gate in which a run is.
    Busy,
}

impl From<NoMemory> for NoTurn {
    ghost from_gives = { λ _ e. e ≡ errors.NoMemory };

    fn from(_e: NoMemory) -> NoTurn {
        NoTurn::NoMemory
    }
}

/// Why a schedule is rejected at one of its names.
#[derive(Clone, Copy, Debug, PartialEq, Eq)]
pub enum Why {
    /// No actor of that name has started.
    Unknown,
    /// The actor has ended.
    Ended,
    /// The actor awaits a child or the run of a gate that has not ended.
    Waits,
    /// The actor is to enter a recycled gate in which a run is.
    Busy,
    /// No name is left, and the root has not ended.
    Short,
    /// The root has ended before this name.
    Extra,
}

/// Why a schedule has no replay.
#[derive(Clone, Copy, Debug, PartialEq, Eq)]
pub enum ReplayFault {
    /// Out of memory.
    NoMemory,
    /// The schedule is rejected at the name of this number, from 1. A schedule that is too short is rejected at
    /// the number of its names plus 1.
    BadSchedule { at: usize, why: Why },
}

impl From<NoMemory> for ReplayFault {
    ghost from_gives = { λ _ e. e ≡ faults.NoMemory };

    fn from(_e: NoMemory) -> ReplayFault {
        ReplayFault::NoMemory
    }
}
