//! Sheets: what an actor holds, the drafts from which sheets are made, and the first part of a
//! draft that its creator may not grant.
#![tactic(auto)]

mod draft;
mod excess;
mod fault;
mod granting;
mod laws;
mod made;
mod number_map;
mod paths;
mod rights;
mod sheet;

pub use draft::{Draft, MOST_GRANTS};
pub use excess::first_excess;
pub use fault::DraftFault;
pub use granting::sheet_of;
pub use laws::{drafts_take_one_grant, excess_names_the_missing_grant, root_sheets_are_declared};
pub use made::Made;
pub use number_map::NumberMap;
pub use paths::is_under;
pub use rights::{bits_on, gate_at, may_grant, right_on, slot_on};
pub use sheet::Sheet;
