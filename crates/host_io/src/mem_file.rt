//! A file that lies in memory.

/// A file that lies in memory.
#[derive(Debug, Drop)]
pub struct MemFile {
    /// The name by which it is read.
    pub name: String,
    /// All that it holds.
    pub bytes: Vec<u8>,
}
