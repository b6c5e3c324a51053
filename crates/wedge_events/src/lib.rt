//! The shared state of a run in cells: what each kind of cell is asked and replies, the events that actors do on
//! them, and the journal of a run. The definitions in `specs/` say how each cell replies and goes on.
#![tactic(auto)]

mod boxed;
mod cells;
mod copies;
mod equality;
mod events;
mod object;
mod saved_view;
mod wants;

pub use boxed::Boxed;
pub use cells::{
    DirectoryAsk, DirectoryReply, GateAsk, GateReply, Live, LivesAsk, LivesReply, SlotAsk,
    SlotReply, StreamAsk, StreamReply,
};
pub use events::{Ask, CellName, Event, Journal, LogEntry, SlotWant, Turn, Want};
pub use object::Object;
pub use saved_view::SavedView;
