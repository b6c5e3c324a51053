//! Programs in statically linked ELF files of 32 bits for RISC-V.
#![tactic(auto)]

mod checking;
mod fault;
mod fields;
mod headers;
mod laws;
mod loads;
mod procedures;
mod program;
mod reading;
mod symbols;

pub use fault::{ElfError, Fault, Why};
pub use laws::{loads_keep_their_bytes, procedures_are_apart};
pub use program::ElfProgram;
pub use reading::read_elf;
