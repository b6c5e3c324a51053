//! The names that the text of a partition may use.

ghost use Rattle.std.specs.Prelude.{◌≡◌, ◌++◌, ◌∷◌, [], map, IfOk, OnOk};
ghost use Rattle.part_toml.specs.Parts as parts;

use crate::entries::NamedRange;
use rv_asm::Equate;
use std::alloc::Global;
use wedge_base::{FdEntry, Items, NoMemory, TagEntry, WINDOW, WINDOWS_BASE};

/// Adds an equate, whose name is a prefix and a name.
fn push(
    alloc: Global,
    equates: &mut Vec<Equate>,
    prefix: &str,
    name: &[u8],
    value: u32,
) -> Result<(), NoMemory>
    ensures { OnOk result (equates.new.items
        ≡ equates.old.items ++ parts.equate prefix.now name.now value ∷ []) }
{
    let mut full = Vec::from_slice(alloc, prefix.as_bytes())?;
    full.extend_from_slice(name)?;
    let name = Items::new(full);
    equates.push(Equate { name, value })?;
    Ok(())
}

/// The address of the tag at an index, in the slot of that number (modulo 2^32).
fn tag_address(place: u32) -> u32
    ensures { result ≡ parts.tag_address place }
{
    WINDOWS_BASE.wrapping_add(place.wrapping_mul(WINDOW))
}

/// Adds the numbers of tags.
fn push_tags(alloc: Global, equates: &mut Vec<Equate>, tags: &[TagEntry]) -> Result<(), NoMemory>
    ensures { OnOk result (equates.new.items
        ≡ equates.old.items ++ parts.numbered_equates parts.tag_equate 0 tags.now) }
{
    let mut place: u32 = 0;
    for tag in tags {
        push(alloc, equates, "tag_", tag.name.as_slice(), place)?;
        place = place.wrapping_add(1);
    }
    Ok(())
}

/// Adds the addresses of tags.
fn push_windows(alloc: Global, equates: &mut Vec<Equate>, tags: &[TagEntry]) -> Result<(), NoMemory>
    ensures { OnOk result (equates.new.items
        ≡ equates.old.items ++ parts.numbered_equates parts.window_equate 0 tags.now) }
{
    let mut place: u32 = 0;
    for tag in tags {
        push(
            alloc,
            equates,
            "seg_",
            tag.name.as_slice(),
            tag_address(place),
        )?;
        place = place.wrapping_add(1);
    }
    Ok(())
}

/// Adds the numbers of descriptors.
fn push_fds(alloc: Global, equates: &mut Vec<Equate>, fds: &[FdEntry]) -> Result<(), NoMemory>
    ensures { OnOk result (equates.new.items
        ≡ equates.old.items ++ parts.numbered_equates parts.fd_equate 0 fds.now) }
{
    let mut place: u32 = 0;
    for fd in fds {
        push(alloc, equates, "fd_", fd.name.as_slice(), place)?;
        place = place.wrapping_add(1);
    }
    Ok(())
}

/// Adds the addresses at which data begin.
fn push_ranges(
    alloc: Global,
    equates: &mut Vec<Equate>,
    ranges: &[NamedRange],
) -> Result<(), NoMemory>
    ensures { OnOk result (equates.new.items
        ≡ equates.old.items ++ map parts.range_equate ranges.now) }
{
    for named in ranges {
        push(
            alloc,
            equates,
            "data_",
            named.name.as_slice(),
            named.range.base,
        )?;
    }
    Ok(())
}

/// The numbers of tags, their addresses, the numbers of descriptors, and where data begin.
#[tactic(auto, unfolding(crate::specs::Parts::equates))]
pub(crate) fn equates(
    alloc: Global,
    tags: &[TagEntry],
    fds: &[FdEntry],
    ranges: &[NamedRange],
) -> Result<Vec<Equate>, NoMemory>
    ensures { IfOk result (λ v. v.items ≡ parts.equates tags.now fds.now ranges.now) }
{
    let mut equates = Vec::new(alloc);
    push_tags(alloc, &mut equates, tags)?;
    push_windows(alloc, &mut equates, tags)?;
    push_fds(alloc, &mut equates, fds)?;
    push_ranges(alloc, &mut equates, ranges)?;
    Ok(equates)
}
