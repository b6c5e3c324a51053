//! The types that every crate of wedge uses: bytes, names, pages, rights, sheets, images, and what
//! a run reports. The definitions in `specs/` say what they mean.
#![tactic(auto)]

mod address;
mod errors;
mod grants;
mod image;
mod items;
mod limits;
mod names;
mod numbers;
mod outcome;
mod page;
mod pages;
mod paths;
mod rights;
mod service;
mod texts;

pub use address::{Place, address_of, slot_of};
pub use errors::{NameFault, NoMemory};
pub use grants::{GateId, GateKind, Item};
pub use image::{FdEntry, FileEntry, MemoryRange, Pristine, Procedure, TagEntry, begins_at};
pub use items::{Bytes, Items};
pub use limits::{
    MOST_BUFFER, MOST_FDS, MOST_LIVES, MOST_PAGES, MOST_PARTS, PAGE, PRIVATE_BASE, PRIVATE_SIZE,
    SLOTS, WINDOW, WINDOWS_BASE, WINDOWS_END,
};
pub use names::{ActorName, is_actor_name};
pub use numbers::{FdNo, Slot, Stamp, TagNo};
pub use outcome::{ActorLine, DenialAt, Outcome, StreamLine, copy_denials};
pub use page::Page;
pub use pages::{PageAt, PageList};
pub use paths::{PathText, is_canonical};
pub use rights::{Code, Denial, End, FdBits, Grant, Right, StreamKind};
pub use service::{SERVICES, Service};
pub use texts::{are_printed, is_name};
