//! Gates.

ghost use Rattle.std.specs.Prelude.{◌≡◌, map, option_map};
ghost use Rattle.std.specs.Arc.{arc_value};
ghost use Rattle.callgate.specs.Gate as known;

use cow_pages::PrivateView;
use grant_sheet::Sheet;
use std::sync::Arc;
use wedge_base::{GateId, GateKind};

/// A gate: all that its maker fixed when it made the gate. Nothing changes it afterwards.
#[derive(Debug)]
pub struct Gate {
    pub id: GateId,
    /// The address of the procedure at which a run begins.
    pub entry: u32,
    /// What each run holds, whoever calls. Its user and root directory are the maker's.
    pub sheet: Sheet,
    /// The trusted argument, which a run has in a1.
    pub argument: u32,
    /// The units of fuel with which each run begins.
    pub fuel: u32,
    pub kind: GateKind,
    /// The private memory with which each run of a fresh gate begins, and the first of a recycled one.
    pub memory: PrivateView,
}

// By hand: a derived drop would be proved again in each function that drops one.
impl Drop for Gate {
    fn drop(self) {
        let Self {
            id: _,
            entry: _,
            sheet: _,
            argument: _,
            fuel: _,
            kind: _,
            memory: _,
        } = self;
    }
}

/// Returns the gate of an identity, if it is among these.
pub fn gate_named<'a>(gates: &'a [Arc<Gate>], id: &GateId) -> Option<&'a Arc<Gate>>
    ensures { option_map (λ g. arc_value g.now) result
        ≡ known.gate_named (map arc_value gates.now) id.now }
{
    for gate in gates {
        if gate.id.is_same(id) {
            return Some(gate);
        }
    }
    None
}
