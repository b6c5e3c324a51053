//! The registers of the calling convention that the machine reads and writes.

/// The register of the stack pointer.
pub const SP: u8 = 2;
/// The register of a call's first argument, and of its value.
pub const A0: u8 = 10;
/// The register of a call's second argument.
pub const A1: u8 = 11;
/// The register of a call's third argument.
pub const A2: u8 = 12;
/// The register of a call's fourth argument.
pub const A3: u8 = 13;
/// The register of a call's fifth argument.
pub const A4: u8 = 14;
/// The register of a call's number.
pub const A7: u8 = 17;
