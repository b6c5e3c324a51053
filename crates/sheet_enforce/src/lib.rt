//! The accesses of a run that derived sheets do not permit, and their lines. One pass over a trace
//! tests them; a name is copied only into a violation.
#![tactic(auto)]

mod laws;
mod marks;
mod texts;
mod violations;

pub use laws::{no_violation_is_permitted, own_sheets_permit};
pub use marks::Mark;
pub use texts::{write_enforced, write_violation};
pub use violations::{Violation, check};
