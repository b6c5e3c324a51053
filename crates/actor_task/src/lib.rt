//! An actor on its thread: the actor with those that it created, and how it creates another. The steps that it makes alone are
//! in `actor_steps`; how it learns how others ended, and how it ends itself, in `actor_ends`; threads are started in
//! `gate_runner`.
#![tactic(auto)]

mod created;
mod creating;
mod step;
mod task;

pub use created::{Created, Returned, ReturnsFamily};
pub use creating::{Creating, NewActor, cellless_entry};
pub use step::{GateEntry, Last, Step};
pub use task::ActorTask;
