//! Laws of the definitions: each is the contract of a function that does nothing.

ghost use Rattle.recycled_gate.specs.Laws.{BeginsWithWhatWasLeft};

/// However a gate is asked as it fits, each run begins with what the run before left, and the first
/// with the memory that its own enter brings.
#[tactic(auto, using(crate::proofs::Leaving::begins_with_what_was_left))]
pub fn next_begins_with_what_was_left()
    ensures { BeginsWithWhatWasLeft }
{}
