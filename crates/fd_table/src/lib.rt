//! Streams: the cells of the descriptors.
#![tactic(auto)]

mod fault;
mod object;
mod opened;
mod stream;

pub use fault::StreamFault;
pub use stream::Stream;
