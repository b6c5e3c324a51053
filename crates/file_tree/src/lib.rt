//! Paths of files under an actor's root, the file of a path, and who may open a file.
#![tactic(auto)]

mod fault;
mod lookup;
mod modes;
mod paths;

pub use fault::PathFault;
pub use lookup::file_at;
pub use modes::may_open;
pub use paths::resolve;
