//! What a recycled gate keeps between its runs.

ghost use Rattle.std.specs.Prelude.{◌≡◌, true, false, None, Some, unwrap_or, option_copied};
ghost use Rattle.wedge_events.specs.Gates as gates;

use std::alloc::Global;
use std::marker::Model;
use wedge_events::SavedView;

/// The state of a recycled gate: whether a run is in it, and what the last run left.
#[derive(Debug, Drop)]
pub struct Kept {
    pub(crate) alloc: Global,
    entered: bool,
    kept: Option<SavedView>,
}

impl Model for Kept {
    ghost use Rattle.std.specs.Prelude.{◌≡◌, true, None};
    ghost use Rattle.wedge_events.specs.Gates.{Kept as Plain};

    ghost Value = { Plain };

    ghost view = { λ k. record { entered = k.entered; kept = k.kept } };

    ghost invariant = { λ k. k.entered ≡ true → k.kept ≡ None };
}

impl Kept {
    /// A gate that is free, with nothing kept.
    pub fn new(alloc: Global) -> Kept
        ensures { result ≡ gates.gate_opening }
    {
        Kept {
            alloc,
            entered: false,
            kept: None,
        }
    }

    /// Whether a run is in the gate.
    pub fn entered(&self) -> bool
        ensures { result ≡ self.now.entered }
    {
        self.entered
    }

    /// Returns what is kept. While a run is in the gate, nothing is.
    pub fn kept(&self) -> Option<&SavedView>
        ensures is { option_copied result ≡ self.now.kept }
        ensures nothing { self.now.entered ≡ true → self.now.kept ≡ None }
    {
        self.kept.as_ref()
    }

    /// Begins a run: returns what the last run left, or the opening memory where nothing is kept.
    pub fn enter(&mut self, opening: SavedView) -> SavedView
        requires { self.old.entered ≡ false }
        ensures memory { result ≡ unwrap_or self.old.kept opening }
        ensures after { self.new ≡ record { entered = true; kept = None } }
    {
        self.entered = true;
        self.kept.take().unwrap_or(opening)
    }

    /// Ends the run that is in the gate, which leaves this memory.
    pub fn leave(&mut self, memory: SavedView)
        requires { self.old.entered ≡ true }
        ensures { self.new ≡ record { entered = false; kept = Some memory } }
    {
        self.entered = false;
        self.kept = Some(memory);
    }
}
