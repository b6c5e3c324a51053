//! Grants of copies of tags.

ghost use Rattle.std.specs.Prelude.{◌≡◌, IfOk, false};
ghost use Rattle.wedge_base.specs.Sheets.{sheet_of_draft, is_copy};
ghost use Rattle.machine.specs.Between.{AreInSlots, HoldsInSlots};
ghost use Rattle.machine.specs.CopyGrant as grants;

use grant_sheet::{Draft, Made, Sheet, slot_on};
use std::alloc::Global;
use wedge_base::{NoMemory, Right, Slot, TagNo};

/// A grant of a private copy of a tag, and the slot in which the tag was opened, where the copy is seen.
#[derive(Clone, Copy, Debug, PartialEq, Eq)]
pub struct CopyGrant {
    pub tag: TagNo,
    pub slot: Slot,
}

/// The grants of copies of the sheet that a draft gives, in the order of the tags' numbers.
pub fn copy_grants(
    alloc: Global,
    sheet: &Sheet,
    made: &Made,
    draft: &Draft,
) -> Result<Vec<CopyGrant>, NoMemory>
    requires { HoldsInSlots sheet.now made.now }
    ensures is { IfOk result (λ v. v.items
        ≡ grants.copy_grants (sheet_of_draft sheet.now made.now draft.now).tags) }
    ensures placed { IfOk result (λ v. AreInSlots v.items) }
{
    let mut grants = Vec::new(alloc);
    let tags = draft.tags().as_slice();
    for (number, right) in tags {
        if is_copy(*right) {
            let tag = TagNo(*number);
            let slot = slot_on(sheet, made, tag).unwrap_or(Slot(0));
            grants.push(CopyGrant { tag, slot })?;
        }
    }
    Ok(grants)
}

/// Whether a right is to a copy alone.
pub fn is_copy(right: Right) -> bool
    ensures { result ≡ is_copy right }
{
    matches!(right, Right::Cow)
}

/// Whether this is the right to a copy alone.
pub fn is_copy_alone(right: Option<Right>) -> bool
    ensures { result ≡ grants.is_copy_alone right }
{
    matches!(right, Some(Right::Cow))
}
