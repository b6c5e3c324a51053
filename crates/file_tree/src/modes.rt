//! Who may open a file.

ghost use Rattle.std.specs.Prelude.{◌≡◌};
ghost use Rattle.wedge_base.specs.Files.{bits_from, may_open};
ghost use Rattle.wedge_base.specs.Rights.{bits_within};

use wedge_base::{FdBits, FileEntry};

/// Whether a user may open a file with bits. User 0 may open any; the owner by bits 0 (read) and 1
/// (append) of the file's mode, others by bits 2 and 3.
pub fn may_open(user: u32, file: &FileEntry, bits: FdBits) -> bool
    ensures { result ≡ may_open user file.now bits }
{
    let mode = if user == file.owner {
        file.mode
    } else {
        file.mode / 4
    };
    user == 0 || is_within(bits, bits_of(mode))
}

/// The bits that the two low bits of a mode allow: read, then append.
fn bits_of(mode: u32) -> FdBits
    ensures { result ≡ bits_from mode }
{
    FdBits {
        read: mode % 2 == 1,
        append: mode / 2 % 2 == 1,
    }
}

/// Whether each bit that is asked is among those held.
fn is_within(asked: FdBits, held: FdBits) -> bool
    ensures { result ≡ bits_within asked held }
{
    (held.read || !asked.read) && (held.append || !asked.append)
}
