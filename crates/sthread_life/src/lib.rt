//! Actors: the local run of each up to its next shared event, and its part of that event. What these do is defined in
//! `machine`.
#![tactic(auto)]

mod entering;
mod events;
mod resting;
mod starting;
mod streams;
mod wants;

pub use entering::resume;
pub use events::{take, take_access, take_alone};
pub use machine::{Actor, Next};
pub use resting::{next, rest, wants_fit};
