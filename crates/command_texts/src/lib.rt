//! The texts of the commands that run nothing on threads: listings, images, replays, traces, and what is read off traces.
#![tactic(auto)]

mod checks;
mod texts;

pub use texts::command_text;
