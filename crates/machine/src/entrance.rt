//! A gate that an actor is about to enter.

ghost use Rattle.std.specs.Prelude.{◌≡◌, IfOk};
ghost use Rattle.std.specs.Arc.{arc_value};

use callgate::Gate;
use grant_sheet::Sheet;
use std::alloc::Global;
use std::marker::Model;
use std::sync::Arc;
use wedge_base::NoMemory;

/// A gate that an actor is about to enter, and the sheet with which the run begins.
#[derive(Debug, Drop)]
pub struct Entrance {
    // Boxed, so that what an actor is at is no larger than what it wants.
    inside: Box<Inside>,
}

#[derive(Debug, Drop)]
struct Inside {
    gate: Arc<Gate>,
    sheet: Sheet,
}

impl Model for Entrance {
    ghost use Rattle.std.specs.Arc.{arc_value};
    ghost use Rattle.machine.specs.Entrance.{Entrance as Plain};

    ghost Value = { Plain };

    ghost view = { λ e. record {
      gate = arc_value e.inside.value.gate;
      sheet = e.inside.value.sheet;
    } };
}

impl Entrance {
    /// The entrance to a gate with this sheet for the run.
    pub fn new(alloc: Global, gate: Arc<Gate>, sheet: Sheet) -> Result<Entrance, NoMemory>
        ensures { IfOk result (λ e. e ≡ record { gate = arc_value gate; sheet = sheet }) }
    {
        let inside = Inside { gate, sheet };
        Ok(Entrance {
            inside: Box::new(alloc, inside)?,
        })
    }

    /// Returns the gate.
    pub fn gate(&self) -> &Gate
        ensures { result.now ≡ self.now.gate }
    {
        &self.inside.gate
    }

    /// Consumes the entrance and returns the gate and the sheet of the run.
    pub fn into_parts(self) -> (Arc<Gate>, Sheet)
        ensures gate { arc_value result.0 ≡ self.gate }
        ensures sheet { result.1 ≡ self.sheet }
    {
        let Entrance { inside } = self;
        let Inside { gate, sheet } = Box::into_inner(inside);
        (gate, sheet)
    }
}
