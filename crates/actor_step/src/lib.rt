//! One instruction of an actor: its accesses, and its service calls up to the event that each wants. What it does is
//! defined in `machine`.
#![tactic(auto)]

mod access;
mod accesses;
mod calls;
mod drafting;
mod entering;
mod files;
mod making;
mod roots;
mod starting;
mod steps;
mod streams;
mod tags;

pub use access::{Access, want_access};
pub use making::go_on_making;
pub use starting::preparation;
pub use steps::step;
