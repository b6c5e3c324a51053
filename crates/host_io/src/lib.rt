//! The outside: files that are read, sinks that are written, and the pace of a run. Each counts how
//! often it has failed, and may expose its bytes to contracts.
#![tactic(auto)]

mod count;
mod errors;
mod files;
mod mem_file;
mod mem_files;
mod mem_sink;
mod pace;
mod plan;
mod real_files;
mod real_sinks;
mod sinks;
mod whole;

pub use errors::{Failed, ReadFault, WriteFault};
pub use files::Files;
pub use mem_file::MemFile;
pub use mem_files::MemFiles;
pub use mem_sink::MemSink;
pub use pace::{NoPace, Pace};
pub use real_files::RealFiles;
pub use real_sinks::{RealErr, RealOut, RealSink};
pub use sinks::Sink;
pub use whole::{read_whole, write_whole};
