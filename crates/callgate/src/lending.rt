//! Lending to a gate, and the sheet of a run.

ghost use Rattle.std.specs.Prelude.{◌≡◌, IfOk, option_copied};
ghost use Rattle.std.specs.List.{list_any};
ghost use Rattle.wedge_base.specs.Sheets as sheets;
ghost use Rattle.callgate.specs.Lending.{IsRunSheet};

use crate::gate::Gate;
use grant_sheet::{Draft, Sheet};
use std::alloc::Global;
use wedge_base::{NoMemory, Right};

/// The sheet of a run: the gate's, with the lent grants on tags and descriptors that the gate's sheet does not name.
/// Whatever is lent, the gate's own grants, gates, user and root directory stay.
pub fn run_sheet(alloc: Global, gate: &Gate, lent: Option<&Sheet>) -> Result<Sheet, NoMemory>
    ensures sheet { let lent = option_copied lent.entry in
        IfOk result (λ s. s ≡ sheets.lent_to gate.now.sheet lent) }
    ensures run { IfOk result (IsRunSheet gate.now.sheet (option_copied lent.entry)) }
{
    let own = &gate.sheet;
    let (tags, fds) = match lent {
        Some(lent) => (
            own.tags().joined(alloc, lent.tags())?,
            own.fds().joined(alloc, lent.fds())?,
        ),
        None => (own.tags().copy(alloc)?, own.fds().copy(alloc)?),
    };
    let gates = own.copy_gates(alloc)?;
    let root = own.root_path().copy()?;
    Ok(Sheet::new(tags, fds, gates, own.user(), root))
}

/// Whether a draft may be lent to a gate: it has no grant of a copy, no gate, no user and no root directory.
pub fn is_lendable(draft: &Draft) -> bool
    ensures { result ≡ sheets.is_lendable draft.now }
{
    !has_copy(draft.tags().as_slice())
        && draft.gates().len() == 0
        && draft.user().is_none()
        && draft.root_path().is_none()
}

/// Whether some right is to a copy alone.
fn has_copy(tags: &[(u32, Right)]) -> bool
    ensures { result ≡ list_any (λ e. sheets.is_copy e.1) tags.now }
{
    tags.iter().any(|(_, right)| is_copy(*right))
}

/// Whether a right is to a copy alone.
fn is_copy(right: Right) -> bool
    ensures { result ≡ sheets.is_copy right }
{
    match right {
        Right::Cow => true,
        Right::Read | Right::ReadWrite => false,
    }
}
