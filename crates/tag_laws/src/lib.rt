//! What the locks of declared tags kept is what the actors logged, without an audit: as definitions, and as laws.
//! Nothing here is run.
#![tactic(auto)]

mod laws;

pub use laws::{closed_cells_are_ruled, declared_have_all, ruled_cells_agree};
