//! Laws of the definitions: each the contract of a function that does nothing.

ghost use Rattle.grant_sheet.specs.Editing.{DraftsTakeOneGrant};
ghost use Rattle.grant_sheet.specs.Missing.{ExcessNamesTheMissingGrant};
ghost use Rattle.grant_sheet.specs.RootSheets.{RootSheetsAreDeclared};

/// The first excess of a draft is the first part that its creator lacks: of the tags by number, then the
/// descriptors by number, then the gates by entry, then the user, then the root directory. There is none
/// exactly where the creator holds each item that the draft asks for and may give its user and its root
/// directory. An actor holds every right on a tag that it made, the right of its sheet's grant and those
/// below it, the bits on a descriptor of its sheet and those with which it opened it, and the gates of
/// its sheet and those that it made. It may give its own user and root directory, and as user 0 any user
/// and any root directory under its own. The tags, descriptors and gates of the draft are in order.
pub fn excess_names_the_missing_grant()
    ensures { ExcessNamesTheMissingGrant }
{}

/// A draft with one grant more asks for exactly that grant: the right that was put on its tag, the bits
/// that were put on its descriptor, or the gate at its entry. It asks for every other tag, descriptor
/// and gate, for its user and for its root directory as before, and where its items were in order they
/// still are. An actor that made one thing more made
/// exactly that: the tag in its slot, the descriptor with its bits, or the gate at its entry, which is
/// counted. All else that it made is as before.
pub fn drafts_take_one_grant()
    ensures { DraftsTakeOneGrant }
{}

/// The root of a run begins with exactly what its image declares. Its right on the tag of each
/// number is the one that is declared for the tag of that index, in the slot of that number; where
/// none is declared, or there is no such tag, it has none. Its bits on the descriptor of each number
/// are those that are declared for the descriptor of that index. It has no gates, and the user and
/// the root directory that are given.
pub fn root_sheets_are_declared()
    ensures { RootSheetsAreDeclared }
{}
