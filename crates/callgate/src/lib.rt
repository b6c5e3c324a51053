//! Callgates: what a maker fixes of a gate, and the sheet with which a run of it begins.
#![tactic(auto)]

mod gate;
mod lending;

pub use gate::{Gate, gate_named};
pub use lending::{is_lendable, run_sheet};
