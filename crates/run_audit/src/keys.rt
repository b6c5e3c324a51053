//! The order of cells.

ghost use Rattle.std.specs.Prelude.{◌≡◌, Some, []};
ghost use Rattle.std.specs.Cmp.Lexicographic.{slice_cmp};
ghost use Rattle.std.specs.Ordering.{nat_cmp};
ghost use Rattle.wedge_events.specs.Journals.{cell_of};
ghost use Rattle.thread_laws.specs.Replaying.{cell_in};
ghost use Rattle.run_audit.specs.CellOrder.{IsKeyOf, keys_order};
ghost use Rattle.run_audit.specs.HistoryEntries.{kept_as};

use crate::kept::KeptEntry;
use std::cmp::Ordering;
use thread_laws::CellHistory;
use wedge_base::GateId;
use wedge_events::Event;

/// The key by which cells are ordered: the kind, the maker of a gate, and a number.
#[derive(Clone, Copy, Debug)]
pub(crate) struct CellKey<'a> {
    pub kind: u32,
    pub maker: &'a [u32],
    pub number: u32,
}

/// Returns the key of a kind that has one cell.
fn only_key<'a>(kind: u32) -> CellKey<'a>
    ensures kind { result.kind ≡ kind }
    ensures maker { result.maker.now ≡ [] }
    ensures number { result.number ≡ 0 }
{
    numbered_key(kind, 0)
}

/// Returns the key of a cell with a number.
fn numbered_key<'a>(kind: u32, number: u32) -> CellKey<'a>
    ensures kind { result.kind ≡ kind }
    ensures maker { result.maker.now ≡ [] }
    ensures number { result.number ≡ number }
{
    CellKey {
        kind,
        maker: &[],
        number,
    }
}

/// Returns the key of a gate.
fn gate_key(gate: &GateId) -> CellKey<'_>
    ensures kind { result.kind ≡ 5 }
    ensures maker { result.maker.now ≡ gate.now.maker }
    ensures number { result.number ≡ gate.now.number }
{
    CellKey {
        kind: 5,
        maker: gate.maker.parts(),
        number: gate.number,
    }
}

/// Returns the key of the cell of an event; that of an event of no cell comes last.
pub(crate) fn event_key(event: &Event) -> CellKey<'_>
    ensures { IsKeyOf result (cell_of event.now) }
{
    match event {
        Event::Slots { .. } => only_key(0),
        Event::Slot { slot, .. } => numbered_key(1, slot.0),
        Event::Fds { .. } => only_key(2),
        Event::Fd { fd, .. } => numbered_key(3, fd.0),
        Event::Lives { .. } => only_key(4),
        Event::Gate { gate, .. } => gate_key(gate),
        _ => only_key(6),
    }
}

/// Returns the key of the cell of a history.
pub(crate) fn history_key(history: &CellHistory) -> CellKey<'_>
    ensures { IsKeyOf result (Some (cell_in history.now)) }
{
    match history {
        CellHistory::Slots { .. } => only_key(0),
        CellHistory::Slot { slot, .. } => numbered_key(1, slot.0),
        CellHistory::Fds { .. } => only_key(2),
        CellHistory::Fd { fd, .. } => numbered_key(3, fd.0),
        CellHistory::Lives { .. } => only_key(4),
        CellHistory::Gate { gate, .. } => gate_key(gate),
    }
}

/// Returns the key of the cell of a kept entry.
pub(crate) fn kept_key<'a>(kept: &KeptEntry<'a>) -> CellKey<'a>
    ensures { IsKeyOf result (cell_of (kept_as kept.now).event) }
{
    match kept {
        KeptEntry::Slots { .. } => only_key(0),
        KeptEntry::Slot { slot, .. } => numbered_key(1, slot.0),
        KeptEntry::Fds { .. } => only_key(2),
        KeptEntry::Fd { fd, .. } => numbered_key(3, fd.0),
        KeptEntry::Lives { .. } => only_key(4),
        KeptEntry::Gate { gate, .. } => gate_key(gate),
    }
}

/// Compares the makers of two gates. Most cells are no gates, and have none.
#[inline]
fn maker_order(a: &[u32], b: &[u32]) -> Ordering
    ensures { result ≡ slice_cmp nat_cmp a.now b.now }
{
    if a.is_empty() && b.is_empty() {
        return Ordering::Equal;
    }
    a.cmp(b)
}

/// Compares two keys.
pub(crate) fn key_order(a: &CellKey<'_>, b: &CellKey<'_>) -> Ordering
    ensures { result ≡ keys_order a.now.kind a.now.maker.now a.now.number
        b.now.kind b.now.maker.now b.now.number }
{
    match a.kind.cmp(&b.kind) {
        Ordering::Equal => match maker_order(a.maker, b.maker) {
            Ordering::Equal => a.number.cmp(&b.number),
            order => order,
        },
        order => order,
    }
}
