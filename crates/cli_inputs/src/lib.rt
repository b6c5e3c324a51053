//! What the commands read: the arguments of the command line, and the files that these name, up to what is made of them;
//! with the cause of each refusal.
#![tactic(auto)]

mod enforcing;
mod headings;
mod linking;
mod loading;
mod refusal;
mod replaying;
mod show;
mod traces;
mod words;

pub use enforcing::{emulate_text, enforce_text, own_traces_permit};
pub use linking::{link_text, program_of, read_partition_file};
pub use loading::{FileKind, load_built, load_image, read_file};
pub use refusal::{PartRefusal, Refusal, ScheduleRefusal};
pub use replaying::{log_text, replay_text};
pub use show::listing;
pub use traces::{load_trace, query_text, sheets_text};
pub use words::{Command, Query, RunFlag, WordsFault, read_words};
