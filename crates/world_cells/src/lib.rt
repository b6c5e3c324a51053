//! The cells of a world, as a run in one thread keeps them: the directories, the slots, the descriptors, the count of live
//! sthreads and the recycled gates. How each replies and goes on is defined in `wedge_events`, and all together in
//! `machine`.
#![tactic(auto)]

mod cells;
mod gates;

pub use cells::Cells;
