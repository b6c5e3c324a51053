//! The abstract machine: what an actor is, what each of its instructions does and what becomes of it at a shared event,
//! as definitions in `specs/`, with the types that they speak of. How an actor computes it is in `actor_step` and
//! `sthread_life`; the world and its runs are defined here too, and computed in `wedge_core`.
#![tactic(auto)]

mod actor;
mod children;
mod copy_grant;
mod ended;
mod entrance;
mod lives;
mod next;
mod opening;
mod phase;
mod preparation;
mod registers;
mod resident;

pub use actor::Actor;
pub use children::Children;
pub use copy_grant::{CopyGrant, copy_grants};
pub use ended::EndedActor;
pub use entrance::Entrance;
pub use lives::Lives;
pub use next::Next;
pub use opening::{FileOpening, StreamLabel};
pub use phase::Phase;
pub use preparation::Preparation;
pub use registers::{A0, A1, A2, A3, A4, A7, SP};
pub use resident::Resident;
