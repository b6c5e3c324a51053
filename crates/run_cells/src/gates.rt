//! The events of an actor on the cell of a recycled gate, whose lock it holds.

ghost use Rattle.std.specs.Prelude.{◌≡◌, IfOk, OnOk, Some, true, false};
ghost use Rattle.wedge_events.specs.declared.cells.GateAsk.TheVariants as gate_ask;
ghost use Rattle.wedge_events.specs.declared.cells.GateReply.TheVariants as gate_reply;
ghost use Rattle.wedge_events.specs.declared.events.Event.TheVariants as event;
ghost use Rattle.wedge_events.specs.declared.events.Want.{Want as AWant};
ghost use Rattle.machine.specs.Between.{WantFits};
ghost use Rattle.machine.specs.Take.{current_want};
ghost use Rattle.run_cells.specs.Entries.{IsPlainEntry, IsCreatingEntry, IsKeptInGate};

use crate::enter::pass_of;
use crate::entries::gate_entry;
use crate::locked_cell::LockedCell;
use actor_run::ActorRun;
use journal_cell::RunOf;
use recycled_gate::Kept;
use std::alloc::Global;
use wedge_base::{ActorName, End, GateId, NoMemory};
use wedge_events::{GateAsk, LogEntry, SavedView};

/// The actor enters the gate, in which no run is. Returns the entry that the cell keeps of it. Fails only where
/// out of memory, or where no stamp is left; the gate may be entered then.
pub fn enter_gate<I: RunOf>(
    alloc: Global,
    locked: &mut LockedCell<Kept, I>,
    run: &ActorRun<I>,
    gate: GateId,
    child: ActorName,
    memory: SavedView,
) -> Result<LogEntry, NoMemory>
    requires wants { current_want run.now.progress.state
        ≡ Some (AWant.Gate gate (gate_ask.Enter child memory)) }
    requires fits { WantFits run.now.progress.state
        (AWant.Gate gate (gate_ask.Enter child memory)) }
    requires free { locked.old.state.entered ≡ false }
    ensures entry { IfOk result (IsCreatingEntry I.image run.now.progress) }
    ensures kept { IfOk result (IsKeptInGate gate (gate_ask.Enter child memory)
        run.now.progress locked.old locked.new) }
    ensures entered { OnOk result (locked.new.state.entered ≡ true) }
{
    run.affords_gate();
    let mut pass = pass_of(run);
    let ask = GateAsk::Enter { run: child, memory };
    let entry = locked.enter(&mut pass, ask)?;
    gate_entry(alloc, gate, entry)
}

/// The actor, which is the run that is in the gate, leaves it. Returns the entry that the cell keeps of it. Fails
/// only where out of memory, or where no stamp is left; the gate may be left then.
pub fn leave_gate<I: RunOf>(
    alloc: Global,
    locked: &mut LockedCell<Kept, I>,
    run: &ActorRun<I>,
    gate: GateId,
    end: End,
    memory: SavedView,
) -> Result<LogEntry, NoMemory>
    requires wants { current_want run.now.progress.state
        ≡ Some (AWant.Gate gate (gate_ask.Leave end memory)) }
    requires entered { locked.old.state.entered ≡ true }
    ensures entry { IfOk result (IsPlainEntry I.image run.now.progress) }
    ensures event { IfOk result (λ e. e.event
        ≡ event.Gate gate (gate_ask.Leave end memory) gate_reply.Left) }
    ensures kept { IfOk result (IsKeptInGate gate (gate_ask.Leave end memory)
        run.now.progress locked.old locked.new) }
    ensures free { OnOk result (locked.new.state.entered ≡ false) }
{
    let mut pass = pass_of(run);
    let entry = locked.enter(&mut pass, GateAsk::Leave { end, memory })?;
    gate_entry(alloc, gate, entry)
}
