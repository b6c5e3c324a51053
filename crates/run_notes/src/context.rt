//! What accesses are noted by.

use crate::items::Makings;
use crate::procedures::Procedures;
use ready_text::Program;

/// What accesses are noted by: the program, its procedures by address, and what the run has made so far.
#[derive(Drop)]
pub struct Context<'a, 'p> {
    pub program: &'a Program<'p>,
    pub procedures: &'a Procedures,
    pub makings: &'a Makings,
}
