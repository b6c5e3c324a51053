//! Operands where an integer is expected.

/// An integer literal, or the name of an equate or of a label.
#[derive(Clone, Copy, Debug)]
pub(crate) enum Number<'a> {
    Literal(i64),
    Named(&'a [u8]),
}
