//! The program: from the arguments of the command line to what is written.
#![tactic(auto)]

mod commands;
mod status;
mod top;
mod workloads;
mod writing;

pub use cli_inputs::{
    Command, PartRefusal, Query, Refusal, RunFlag, ScheduleRefusal, WordsFault, listing, read_words,
};
pub use status::Ended;
pub use top::{exit_status, out_of_memory, wedge};
pub use writing::{KeptRun, SinkName, Text};
