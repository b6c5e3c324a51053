//! The recycled gates of a world, by identity.

ghost use Rattle.std.specs.Prelude.{◌≡◌, ◌++◌, ◌∷◌, [], IfSome, IfNone, IfOk, OnOk, OnErr};
ghost use Rattle.wedge_events.specs.Gates.{Kept as AKept, GateFits, gate_opening, gate_reply, gate_next};
ghost use Rattle.wedge_base.specs.Identities.{same_gate};
ghost use Rattle.machine.specs.Cells.{kept_among, put_kept};
ghost use Rattle.world_cells.specs.GateIndices.{IsGateAt};

use recycled_gate::Kept;
use std::alloc::Global;
use std::marker::Model;
use wedge_base::{GateId, NoMemory};
use wedge_events::{GateAsk, GateReply, Object};

/// The cell of a recycled gate.
#[derive(Drop)]
pub(crate) struct GateCell {
    id: GateId,
    kept: Kept,
}

impl Model for GateCell {
    ghost use Rattle.machine.specs.Cells.{GateCell as Plain};

    ghost Value = { Plain };

    ghost view = { λ c. record { id = c.id; kept = c.kept } };
}

impl GateCell {
    /// Whether it is the cell of this gate.
    fn is_of(&self, id: &GateId) -> bool
        ensures { result ≡ same_gate self.now.id id.now }
    {
        self.id.is_same(id)
    }
}

/// Whether a run is in a gate.
pub(crate) fn is_entered(gates: &[GateCell], id: &GateId) -> bool
    ensures { result ≡ (kept_among gates.now id.now).entered }
{
    match index_of(gates, id) {
        Some(index) => {
            let cell = &gates[index];
            cell.kept.entered()
        }
        None => false,
    }
}

/// Asks the cell of a gate. One that was never asked begins now.
pub(crate) fn ask_gate(
    alloc: Global,
    gates: &mut Vec<GateCell>,
    id: &GateId,
    ask: &GateAsk,
) -> Result<GateReply, NoMemory>
    requires { GateFits (kept_among gates.old.items id.now) ask.now }
    ensures is { IfOk result (λ r. r ≡ gate_reply (kept_among gates.old.items id.now) ask.now) }
    ensures after { OnOk result (gates.new.items
        ≡ put_kept gates.old.items id.now
        (gate_next (kept_among gates.old.items id.now) ask.now)) }
    ensures err { OnErr result (gates.new.items ≡ gates.old.items) }
{
    match index_of(gates, id) {
        Some(index) => ask_at(gates, index, id, ask),
        None => ask_new(alloc, gates, id, ask),
    }
}

/// Asks the gate at an index.
fn ask_at(
    gates: &mut Vec<GateCell>,
    index: usize,
    id: &GateId,
    ask: &GateAsk,
) -> Result<GateReply, NoMemory>
    requires there { IsGateAt gates.old.items id.now index }
    requires fits { GateFits (kept_among gates.old.items id.now) ask.now }
    ensures is { IfOk result (λ r. r ≡ gate_reply (kept_among gates.old.items id.now) ask.now) }
    ensures after { OnOk result (gates.new.items
        ≡ put_kept gates.old.items id.now
        (gate_next (kept_among gates.old.items id.now) ask.now)) }
    ensures err { OnErr result (gates.new.items ≡ gates.old.items) }
{
    let cell = &mut gates[index];
    cell.kept.act_once(ask)
}

/// Asks a gate that was never asked before.
fn ask_new(
    alloc: Global,
    gates: &mut Vec<GateCell>,
    id: &GateId,
    ask: &GateAsk,
) -> Result<GateReply, NoMemory>
    requires { GateFits gate_opening ask.now }
    ensures is { IfOk result (λ r. r ≡ gate_reply gate_opening ask.now) }
    ensures after { OnOk result (gates.new.items
        ≡ gates.old.items ++ record { id = id.now; kept = gate_next gate_opening ask.now } ∷ []) }
    ensures err { OnErr result (gates.new.items ≡ gates.old.items) }
{
    let mut kept = Kept::new(alloc);
    let reply = kept.act_once(ask)?;
    let id = id.copy()?;
    gates.push(GateCell { id, kept })?;
    Ok(reply)
}

/// The index of the cell of a gate.
fn index_of(gates: &[GateCell], id: &GateId) -> Option<usize>
    ensures found { IfSome result (IsGateAt gates.now id.now) }
    ensures unknown { IfNone result (kept_among gates.now id.now ≡ gate_opening) }
    ensures behind { IfNone result ((k : AKept)
        → put_kept gates.now id.now k ≡ gates.now ++ record { id = id.now; kept = k } ∷ []) }
{
    for i in 0..gates.len() {
        if gates[i].is_of(id) {
            return Some(i);
        }
    }
    None
}
