//! Which entries the log of an actor keeps.

ghost use Rattle.std.specs.Prelude.{◌≡◌};
ghost use Rattle.thread_laws.specs.KeptEntries.{is_on_declared};

use wedge_events::Event;

/// Returns whether an event is on one of the first `declared` slots.
#[inline(always)]
pub fn is_on_declared(declared: usize, event: &Event) -> bool
    ensures { result ≡ is_on_declared declared event.now }
{
    match event {
        Event::Slot { slot, .. } => (slot.0 as usize) < declared,
        _ => false,
    }
}
