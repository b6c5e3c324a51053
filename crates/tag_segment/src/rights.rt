//! How an access is checked by the asker's right.

ghost use Rattle.std.specs.Prelude.{◌≡◌};
ghost use Rattle.wedge_base.specs.Rights.{at_least};
ghost use Rattle.wedge_events.specs.Slots as slots;

use wedge_base::Right;
use wedge_events::Live;

/// The right in an ask's pair.
pub fn right_in(live: Option<Live>) -> Option<Right>
    ensures { result ≡ slots.right_in live }
{
    live?.right
}

/// Whether a right is at least the one that is asked.
pub fn at_least(held: Option<Right>, asked: Right) -> bool
    ensures { result ≡ at_least held asked }
{
    match (held, asked) {
        (None, _) => false,
        (Some(_), Right::Cow) => true,
        (Some(Right::Cow), _) => false,
        (Some(_), Right::Read) => true,
        (Some(Right::Read), Right::ReadWrite) => false,
        (Some(Right::ReadWrite), Right::ReadWrite) => true,
    }
}
