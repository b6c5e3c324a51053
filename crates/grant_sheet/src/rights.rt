//! What an actor holds, and what it may grant.

ghost use Rattle.std.specs.Prelude.{◌≡◌, option_copied};
ghost use Rattle.wedge_base.specs.Rights.{at_least, bits_within};
ghost use Rattle.wedge_base.specs.Sheets as sheets;

use crate::made::Made;
use crate::number_map::NumberMap;
use crate::sheet::Sheet;
use wedge_base::{FdBits, FdNo, GateId, Item, Right, Slot, TagNo};

/// The right of an actor on a tag: ReadWrite where it made the tag, else what its sheet gives, if
/// anything. It allocates nothing.
#[inline]
pub fn right_on(sheet: &Sheet, made: &Made, tag: TagNo) -> Option<Right>
    ensures { result ≡ sheets.right_on sheet.now made.now tag }
{
    if made.tags().contains_key(tag.0) {
        return Some(Right::ReadWrite);
    }
    sheet.tags().get(tag.0).map(|grant| grant.right)
}

/// The bits of an actor on a descriptor: those of its sheet, and those with which it opened the
/// descriptor. It allocates nothing.
#[inline]
pub fn bits_on(sheet: &Sheet, made: &Made, fd: FdNo) -> FdBits
    ensures { result ≡ sheets.bits_on sheet.now made.now fd }
{
    let given = bits_in(sheet.fds(), fd);
    let opened = bits_in(made.fds(), fd);
    FdBits {
        read: given.read || opened.read,
        append: given.append || opened.append,
    }
}

/// Returns the gate of an actor at an entry: the last that it made there, else its sheet's, if any.
pub fn gate_at<'a>(sheet: &'a Sheet, made: &'a Made, entry: u32) -> Option<&'a GateId>
    ensures { option_copied result ≡ sheets.gate_at sheet.now made.now entry }
{
    match made.gates().get(entry) {
        Some(gate) => Some(gate),
        None => sheet.gates().get(entry),
    }
}

/// The slot of a tag on which an actor has a right; none for any other tag.
pub fn slot_on(sheet: &Sheet, made: &Made, tag: TagNo) -> Option<Slot>
    ensures { result ≡ sheets.slot_on sheet.now made.now tag }
{
    match made.tags().get(tag.0) {
        Some(slot) => Some(*slot),
        None => sheet.tags().get(tag.0).map(|grant| grant.slot),
    }
}

/// Whether an actor may grant an item: it has at least this right on the tag, each of these bits on
/// the descriptor, or a gate at the entry.
pub fn may_grant(sheet: &Sheet, made: &Made, item: &Item) -> bool
    ensures { result ≡ sheets.may_grant sheet.now made.now item.now }
{
    match *item {
        Item::Tag { tag, right } => is_at_least(right_on(sheet, made, tag), right),
        Item::Fd { fd, bits } => are_bits_within(bits, bits_on(sheet, made, fd)),
        Item::Gate { entry } => gate_at(sheet, made, entry).is_some(),
    }
}

/// The bits on a descriptor, or none.
#[inline]
fn bits_in(fds: &NumberMap<FdBits>, fd: FdNo) -> FdBits
    ensures { result ≡ sheets.bits_in fds.now fd }
{
    let none = FdBits {
        read: false,
        append: false,
    };
    fds.get(fd.0).copied().unwrap_or(none)
}

/// Whether a right is at least the one that is asked for.
fn is_at_least(held: Option<Right>, asked: Right) -> bool
    ensures { result ≡ at_least held asked }
{
    match (held, asked) {
        (None, _) => false,
        (Some(_), Right::Cow) => true,
        (Some(Right::Cow), _) => false,
        (Some(_), Right::Read) => true,
        (Some(Right::Read), Right::ReadWrite) => false,
        (Some(Right::ReadWrite), Right::ReadWrite) => true,
    }
}

/// Whether each bit that is asked for is among those held.
fn are_bits_within(asked: FdBits, held: FdBits) -> bool
    ensures { result ≡ bits_within asked held }
{
    (held.read || !asked.read) && (held.append || !asked.append)
}
