//! An image, ready to be run: each word of its text is decoded once, and its data ranges are in pages.
#![tactic(auto)]

mod program;

pub use program::Program;
