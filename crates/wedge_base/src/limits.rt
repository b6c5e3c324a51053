//! Limits and addresses of the machine, each said once.

/// Bytes of a page.
pub const PAGE: u32 = 4096;
/// The most pages of a tag.
pub const MOST_PAGES: u32 = 16;
/// How many slots there are. Each has a window in the address space.
pub const SLOTS: u32 = 4096;
/// Where the windows begin, as an address.
pub const WINDOWS_BASE: u32 = 0x4000_0000;
/// Where the windows end, as an address.
pub const WINDOWS_END: u32 = 0x5000_0000;
/// Bytes of a window.
pub const WINDOW: u32 = 0x1_0000;
/// Where the private range (stack and heap) begins, as an address.
pub const PRIVATE_BASE: u32 = 0x2000_0000;
/// Bytes of the private range.
pub const PRIVATE_SIZE: u32 = 0x2_0000;
/// How many descriptors there are.
pub const MOST_FDS: u32 = 1024;
/// The most sthreads that live at a time, the root among them.
pub const MOST_LIVES: u32 = 256;
/// The most parts of an actor's name.
pub const MOST_PARTS: usize = 32;
/// The most bytes of a buffer that a service call reads or fills.
pub const MOST_BUFFER: u32 = 256;
