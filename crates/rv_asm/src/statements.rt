//! The statement of a line, in which names have no values yet.

use crate::fault::Why;
use crate::numbers::Number;
use crate::templates::{Register, Template};
use wedge_base::Service;

/// The statement of a line. A label's line is `sound` where it is well formed.
#[derive(Clone, Copy, Debug)]
pub(crate) enum Statement<'a> {
    /// Nothing.
    Blank,
    /// The address of the next word gets a name.
    Label { name: &'a [u8], sound: bool },
    /// The address of the next word gets a name, and a procedure begins there.
    Procedure { name: &'a [u8], sound: bool },
    /// A word.
    Word(Number<'a>),
    /// An instruction.
    Instruction(Template<'a>),
    /// A register gets a number.
    LoadNumber { rd: Register, number: Number<'a> },
    /// A register gets the address of a label.
    LoadAddress { rd: Register, label: &'a [u8] },
    /// A service call.
    Service(Service),
    /// The line is invalid whatever its names mean, for this reason, and counts this many words.
    Faulty { why: Why, words: u8 },
    /// An `li` whose operands are invalid but whose second is a number: it counts the words that the
    /// number takes.
    FaultyLoad { number: Number<'a> },
}
