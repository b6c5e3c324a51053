//! The assembler: from a text to the words and procedures of an image, or the first invalid line.
#![tactic(auto)]

mod assembled;
mod assembly;
mod emission;
mod encoding;
mod fault;
mod labels;
mod laws;
mod lexing;
mod literals;
mod mnemonics;
mod numbers;
mod operands;
mod parsing;
mod ranges;
mod registers;
mod services;
mod statements;
mod templates;

pub use assembled::{Assembled, Equate};
pub use assembly::assemble;
pub use fault::{AsmError, Fault, Why};
pub use laws::{texts_are_read_back, words_are_counted};
