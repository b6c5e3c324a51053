//! How many bytes the parts of an image take when they are written. Each function answers what they
//! leave of so much room, or nothing where they take more.

ghost use Rattle.std.specs.Prelude.{◌≡◌, ◌<◌, ◌≤◌, ◌^◌, length, OnSome, IfSome, IsSome, IsTrue, ◌↔◌};
ghost use Rattle.image_form.specs.Encoding as encoded;
ghost use Rattle.image_form.specs.Fitting as fitting;
ghost use Rattle.image_form.specs.Fitting.{Leaves};
ghost use Rattle.image_form.specs.View.{lent_image};

use crate::parts::LentParts;
use crate::reading::{MAGIC, MOST_BYTES, VERSION};
use crate::tables::after_table;

#[tactic(auto, unfolding(crate::specs::Encoding::encode_number))]
pub(crate) fn after_number(room: usize, n: u32) -> Option<usize>
    ensures leaves { Leaves room (encoded.encode_number n) result }
    ensures less { IfSome result (λ left. left < room) }
{
    // Each number takes four bytes; which one it is, the contract alone asks.
    let _ = n;
    room.checked_sub(4)
}

#[tactic(auto, unfolding(crate::specs::Encoding::encode_string))]
pub(crate) fn after_string(room: usize, text: &[u8]) -> Option<usize>
    ensures leaves { Leaves room (encoded.encode_string text.now) result }
    ensures less { IfSome result (λ left. left < room) }
{
    let room = room.checked_sub(2)?;
    room.checked_sub(text.len())
}

#[tactic(auto, unfolding(crate::specs::Encoding::encode_content, crate::specs::Encoding::encode_number))]
pub(crate) fn after_content(room: usize, bytes: &[u8]) -> Option<usize>
    requires { room ≤ 16777216 }
    ensures leaves { Leaves room (encoded.encode_content bytes.now) result }
    ensures fits { OnSome result (length bytes.now < 2 ^ 32) }
{
    let room = room.checked_sub(4)?;
    room.checked_sub(bytes.len())
}

#[tactic(auto, unfolding(crate::specs::Encoding::encoding))]
fn after_parts(room: usize, parts: LentParts<'_>) -> Option<usize>
    requires { room ≤ 16777216 }
    ensures leaves { Leaves room (encoded.encoding (lent_image parts.entry)) result }
    ensures fits { OnSome result (fitting.PartsFit (lent_image parts.entry)) }
{
    let room = after_number(room, MAGIC)?;
    let room = after_number(room, VERSION)?;
    let room = after_number(room, parts.fuel)?;
    let room = after_number(room, parts.base)?;
    let room = after_table(room, parts.words)?;
    let room = after_table(room, parts.procedures)?;
    let room = after_number(room, parts.entry)?;
    let room = after_table(room, parts.ranges)?;
    let room = after_table(room, parts.tags)?;
    let room = after_table(room, parts.fds)?;
    let room = after_table(room, parts.files)?;
    let room = after_number(room, parts.user)?;
    after_string(room, parts.root)
}

/// Whether the bytes that encode the parts are no more than an image's file may have.
pub(crate) fn is_small(parts: LentParts<'_>) -> bool
    ensures is { IsTrue result
        ↔ (length (encoded.encoding (lent_image parts.entry)) ≤ encoded.most_bytes) }
    ensures fits { IsTrue result → fitting.PartsFit (lent_image parts.entry) }
{
    after_parts(MOST_BYTES, parts).is_some()
}
