//! From what an actor wants to what it asks.

ghost use Rattle.std.specs.Prelude.{◌≡◌, IfOk};
ghost use Rattle.wedge_events.specs.Wants.{cell_wanted, asked_with};

use crate::cells::Live;
use crate::events::{Ask, CellName, Want};
use wedge_base::NoMemory;

impl Want {
    /// The cell of the event; none of a start, a join, and the enter and leave of a fresh gate.
    pub fn cell(&self) -> Result<Option<CellName>, NoMemory>
        ensures { IfOk result (λ c. c ≡ cell_wanted self.now) }
    {
        Ok(match self {
            Want::Slots(_) => Some(CellName::Slots),
            Want::Slot { slot, .. } => Some(CellName::Slot { slot: *slot }),
            Want::Fds(_) => Some(CellName::Fds),
            Want::Fd { fd, .. } => Some(CellName::Fd { fd: *fd }),
            Want::Lives(_) => Some(CellName::Lives),
            Want::Gate { gate, .. } => Some(CellName::Gate { gate: gate.copy()? }),
            Want::Start { .. } | Want::Join { .. } | Want::Enter { .. } | Want::Leave { .. } =>
                None,
        })
    }

    /// What is asked where this tag lives in the slot, on which the actor has this right.
    #[inline(always)]
    pub fn with(self, live: Option<Live>) -> Ask
        ensures { result ≡ asked_with self live }
    {
        match self {
            Want::Slots(ask) => Ask::Slots(ask),
            Want::Slot { slot, want } => Ask::Slot {
                slot,
                ask: want.with(live),
            },
            Want::Fds(ask) => Ask::Fds(ask),
            Want::Fd { fd, ask } => Ask::Fd { fd, ask },
            Want::Lives(ask) => Ask::Lives(ask),
            Want::Gate { gate, ask } => Ask::Gate { gate, ask },
            Want::Start { child } => Ask::Start { child },
            Want::Join { child } => Ask::Join { child },
            Want::Enter { run } => Ask::Enter { run },
            Want::Leave { end } => Ask::Leave { end },
        }
    }
}
