//! The sheet that a draft gives.

ghost use Rattle.std.specs.Prelude.{◌≡◌, None, map, filter_map, unwrap_or, IfOk};
ghost use Rattle.wedge_base.specs.Maps as maps;
ghost use Rattle.wedge_base.specs.Sheets as sheets;
ghost use Rattle.grant_sheet.specs.Granting.{IsWithin};

use crate::draft::Draft;
use crate::made::Made;
use crate::number_map::NumberMap;
use crate::rights::{gate_at, slot_on};
use crate::sheet::Sheet;
use std::alloc::Global;
use wedge_base::{GateId, Grant, NoMemory, PathText, Right, Slot, TagNo};

/// The sheet that a draft gives, for a draft of which its creator may grant every part: each tag in
/// the slot in which the creator holds it, the gates that the creator has at the entries, and the
/// creator's user and root directory where the draft leaves them unset. It is within what the
/// creator holds.
#[tactic(auto, using(crate::proofs::SheetWithin::sheet_within))]
pub fn sheet_of(alloc: Global, sheet: &Sheet, made: &Made, draft: &Draft) -> Result<Sheet, NoMemory>
    requires { sheets.first_excess sheet.now made.now draft.now ≡ None }
    ensures sheet { IfOk result (λ s. s ≡ sheets.sheet_of_draft sheet.now made.now draft.now) }
    ensures within { IfOk result (IsWithin sheet.now made.now) }
{
    Ok(Sheet::new(
        tags_of(alloc, sheet, made, draft.tags().as_slice())?,
        draft.fds().copy(alloc)?,
        gates_of(alloc, sheet, made, draft.gates().as_slice())?,
        draft.user().unwrap_or(sheet.user()),
        root_of(sheet, draft)?,
    ))
}

/// The rights of a draft on tags, each with the slot in which the creator holds the tag.
fn tags_of(
    alloc: Global,
    sheet: &Sheet,
    made: &Made,
    tags: &[(u32, Right)],
) -> Result<NumberMap<Grant>, NoMemory>
    requires { maps.AreRising 0 (maps.keys tags.now) }
    ensures { IfOk result (λ m. m ≡ map (sheets.tag_granted sheet.now made.now) tags.now) }
{
    let mut grants = Vec::new(alloc);
    for (tag, right) in tags {
        let slot = slot_on(sheet, made, TagNo(*tag)).unwrap_or(Slot(0));
        let right = *right;
        grants.push((*tag, Grant { right, slot }))?;
    }
    Ok(NumberMap::from_entries(grants))
}

/// The gates that the creator has at the entries of a draft.
fn gates_of(
    alloc: Global,
    sheet: &Sheet,
    made: &Made,
    entries: &[(u32, ())],
) -> Result<NumberMap<GateId>, NoMemory>
    requires { maps.AreRising 0 (maps.keys entries.now) }
    ensures { IfOk result (λ m.
        m ≡ filter_map (sheets.gate_granted sheet.now made.now) (maps.keys entries.now)) }
{
    let mut gates = Vec::new(alloc);
    for (entry, _) in entries {
        let Some(gate) = gate_at(sheet, made, *entry) else {
            continue;
        };
        gates.push((*entry, gate.copy()?))?;
    }
    Ok(NumberMap::from_entries(gates))
}

/// The root directory that a draft gives: the creator's where it is unset.
fn root_of(sheet: &Sheet, draft: &Draft) -> Result<PathText, NoMemory>
    ensures { IfOk result (λ p. p ≡ unwrap_or draft.now.root sheet.now.root) }
{
    match draft.root_path() {
        Some(root) => root.copy(),
        None => sheet.root_path().copy(),
    }
}
