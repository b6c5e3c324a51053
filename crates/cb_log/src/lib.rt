//! The log of a run as the text of a trace.
#![tactic(auto)]

mod logging;
mod marking;
mod names;
mod texts;

pub use logging::log;
pub use marking::{Marked, log_marked};
pub use texts::{record_text, trace_text};
