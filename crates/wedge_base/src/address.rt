//! The windows in which tags are seen.

ghost use Rattle.std.specs.Prelude.{◌≡◌, ◌<◌, IfSome};
ghost use Rattle.wedge_base.specs.Images as images;

use crate::limits::{WINDOW, WINDOWS_BASE, WINDOWS_END};
use crate::numbers::Slot;

/// A slot, and an offset in its window in bytes.
#[derive(Clone, Copy, Debug, PartialEq, Eq)]
pub struct Place {
    pub slot: Slot,
    pub offset: u32,
}

/// The window in which an address lies; none outside the windows.
pub fn slot_of(address: u32) -> Option<Place>
    ensures is { result ≡ images.slot_of address }
    ensures inside { IfSome result (λ p. p.slot < images.slots) }
{
    if address < WINDOWS_BASE || address >= WINDOWS_END {
        return None;
    }
    let place = address - WINDOWS_BASE;
    Some(Place {
        slot: Slot(place / WINDOW),
        offset: place % WINDOW,
    })
}

/// The address of an offset in a slot's window.
pub fn address_of(slot: Slot, offset: u32) -> u32
    requires slot { slot < images.slots }
    requires offset { offset < images.window }
    ensures { result ≡ images.address_of slot offset }
{
    WINDOWS_BASE + slot.0 * WINDOW + offset
}
