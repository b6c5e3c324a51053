//! Laws of pages.

ghost use Rattle.std.specs.Prelude.{◌≡◌, ◌+◌, ◌%◌, ◌≤◌, ◌⊎◌, ℕ, List, length, true, ◌↔◌, IfOk, OnOk, OnErr};
ghost use Rattle.wedge_base.specs.Bytes.{overwrite, bytes_of};
ghost use Rattle.wedge_base.specs.Images.{page};
ghost use Rattle.wedge_base.specs.Pages.{pages_of};
ghost use Rattle.cow_pages.specs.Equality.{is_same_memory};
ghost use Rattle.cow_pages.specs.Listed.{bytes_listed};
ghost use Rattle.cow_pages.specs.PrivateMemory.{PrivateMemory};

use crate::pages::Pages;
use wedge_base::NoMemory;

/// The pages of whole pages of bytes, one after another, are those bytes.
pub fn snaps_are_the_bytes()
    ensures { (b : List ℕ) → length b % page ≡ 0 → bytes_listed (pages_of b) ≡ b }
{}

/// `==` of private memory answers whether it is the same: the ranges with their addresses and bytes, and
/// the copies with their slots and bytes.
pub fn equal_memory_is_the_same()
    ensures { (a b : PrivateMemory) → (is_same_memory a b ≡ true) ↔ (a ≡ b) }
{}

/// A snapshot, and then a store into its source, which leaves the snapshot as it was. When out of
/// memory, the source is unchanged.
pub fn store_after_snapshot(
    source: &mut Pages,
    offset: u32,
    width: u8,
    value: u32,
) -> Result<Pages, NoMemory>
    requires width { (width ≡ 1) ⊎ (width ≡ 2) ⊎ (width ≡ 4) }
    requires aligned { offset % width ≡ 0 }
    requires inside { offset + width ≤ length source.old }
    ensures source { OnOk result (source.new
        ≡ overwrite source.old offset (bytes_of width value)) }
    ensures len { length source.new ≡ length source.old }
    ensures snapshot { IfOk result (λ s. s ≡ source.old) }
    ensures err { OnErr result (source.new ≡ source.old) }
{
    let snapshot = source.snapshot()?;
    source.store(offset, width, value)?;
    Ok(snapshot)
}

/// A snapshot, and then a store into it, which leaves the source as it was.
pub fn store_into_snapshot(
    source: &Pages,
    offset: u32,
    width: u8,
    value: u32,
) -> Result<Pages, NoMemory>
    requires width { (width ≡ 1) ⊎ (width ≡ 2) ⊎ (width ≡ 4) }
    requires aligned { offset % width ≡ 0 }
    requires inside { offset + width ≤ length source.now }
    ensures { IfOk result (λ s. s ≡ overwrite source.now offset (bytes_of width value)) }
{
    let mut snapshot = source.snapshot()?;
    snapshot.store(offset, width, value)?;
    Ok(snapshot)
}
