//! The line that the program writes for each refusal, and the status with which it ends.
#![tactic(auto)]

mod lines;

pub use lines::{no_memory_line, refusal_line, usage_line, write_fault_line};
