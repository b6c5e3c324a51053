//! Equality of what the events of a run hold.

ghost use Rattle.std.specs.Prelude.{◌≡◌, true, ◌↔◌};

use crate::cells::{GateAsk, GateReply};
use crate::events::{CellName, Event, LogEntry};
use crate::saved_view::SavedView;

impl PartialEq for SavedView {
    ghost use Rattle.cow_pages.specs.Equality.{is_same_memory, same_memory_laws};

    ghost eq = { is_same_memory };

    ghost laws = { same_memory_laws };

    fn eq(&self, other: &Self) -> bool {
        *self.view() == *other.view()
    }
}

impl SavedView {
    /// Whether both are the same memory.
    pub fn is_same(&self, other: &SavedView) -> bool
        ensures { (result ≡ true) ↔ (self.now ≡ other.now) }
    {
        *self == *other
    }
}

impl CellName {
    /// Whether both are the same.
    pub fn is_same(&self, other: &CellName) -> bool
        ensures { (result ≡ true) ↔ (self.now ≡ other.now) }
    {
        *self == *other
    }
}

impl GateAsk {
    /// Whether both are the same.
    pub fn is_same(&self, other: &GateAsk) -> bool
        ensures { (result ≡ true) ↔ (self.now ≡ other.now) }
    {
        *self == *other
    }
}

impl GateReply {
    /// Whether both are the same.
    pub fn is_same(&self, other: &GateReply) -> bool
        ensures { (result ≡ true) ↔ (self.now ≡ other.now) }
    {
        *self == *other
    }
}

impl Event {
    /// Whether both are the same.
    pub fn is_same(&self, other: &Event) -> bool
        ensures { (result ≡ true) ↔ (self.now ≡ other.now) }
    {
        *self == *other
    }
}

impl LogEntry {
    /// Whether both are the same.
    pub fn is_same(&self, other: &LogEntry) -> bool
        ensures { (result ≡ true) ↔ (self.now ≡ other.now) }
    {
        *self == *other
    }
}
