//! An image: the type, and its binary form.
#![tactic(auto)]

mod entries;
mod fault;
mod fds;
mod fields;
mod files;
mod finishing;
mod forms;
mod image;
mod measuring;
mod parts;
mod procedures;
mod ranges;
mod reading;
mod tables;
mod tags;
mod text;
mod text_span;
mod writing;

pub use fault::{Fault, ImageError, Why};
pub use finishing::finish_image;
pub use image::Image;
pub use parts::ImageParts;
pub use reading::read_image;
pub use text_span::TextSpan;
pub use writing::write_image;
