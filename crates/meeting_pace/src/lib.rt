//! A pace at which actors wait for one another: for tests that several threads of a run are there at once.
#![tactic(auto)]

mod meeting;

pub use meeting::Meeting;
