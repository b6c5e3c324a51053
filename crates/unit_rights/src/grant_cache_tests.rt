//! Tests of grant_cache.

ghost use Rattle.std.specs.Prelude.{◌≤◌};

use grant_cache::{CAPACITY, CacheCount, GrantCache};
use grant_sheet::{Made, NumberMap, Sheet};
use std::alloc::Global;
use std::process::Abort;
use std::test::Fail;
use wedge_base::{Bytes, Grant, NoMemory, PathText, Right, Slot, TagNo, is_canonical};

/// The path of the directory above all others.
fn root_path(rt: &(impl Abort + AllocGlobal)) -> Result<PathText, NoMemory> {
    let text = b"/";
    assert!(rt; is_canonical(text));
    Ok(PathText::new(Bytes::from_slice(rt.alloc(), text)?))
}

/// Cow on tag 0 and Read on tag 1.
fn tags(alloc: Global) -> Result<NumberMap<Grant>, NoMemory> {
    let mut tags = NumberMap::new(alloc);
    for (tag, right) in [(0, Right::Cow), (1, Right::Read)] {
        let slot = Slot(tag);
        tags.insert(tag, Grant { right, slot })?;
    }
    Ok(tags)
}

/// A sheet with Cow on tag 0 and Read on tag 1.
fn sheet(rt: &(impl Abort + AllocGlobal)) -> Result<Sheet, NoMemory> {
    let root = root_path(rt)?;
    let tags = tags(rt.alloc())?;
    let (fds, gates) = (NumberMap::new(rt.alloc()), NumberMap::new(rt.alloc()));
    Ok(Sheet::new(tags, fds, gates, 0, root))
}

/// The counts of a cache of this capacity, after look-ups of these tags.
fn counts(alloc: Global, capacity: u32, sheet: &Sheet, tags: &[u32]) -> Result<CacheCount, NoMemory>
    requires { 1 ≤ capacity }
{
    let made = Made::new(alloc);
    let mut cache = GrantCache::new(alloc, capacity)?;
    for tag in tags {
        cache.right(sheet, &made, TagNo(*tag));
    }
    Ok(cache.count())
}

/// Capacities of a cache, and its hits of six look-ups.
static HITS: [(u32, u64); 3] = [(1, 0), (2, 1), (CAPACITY, 3)];

/// Finds that a cache of this capacity has so many hits of six look-ups.
fn check_hits(
    rt: &(impl Abort + AllocGlobal),
    sheet: &Sheet,
    capacity: u32,
    hits: u64,
) -> Result<(), NoMemory> {
    assert!(rt; capacity >= 1, "no capacity");
    let count = counts(rt.alloc(), capacity, sheet, &[0, 1, 0, 2, 1, 0])?;
    assert!(rt; count.lookups == 6 && count.refused == 0, "{capacity}");
    assert!(rt; count.hits == hits, "{capacity}: {}", count.hits);
    Ok(())
}

/// Hits of six look-ups, at three capacities.
#[test]
fn tags_used_last_are_found(rt: HostRuntime) -> Result<(), Fail> {
    let sheet = sheet(&rt)?;
    for (capacity, hits) in &HITS {
        check_hits(&rt, &sheet, *capacity, *hits)?;
    }
    Ok(())
}

/// The right on tag 7 before and after it is made, and then the right on tag 1.
fn rights_found(alloc: Global, sheet: &Sheet) -> Result<[Option<Right>; 3], NoMemory> {
    let mut made = Made::new(alloc);
    let mut cache = GrantCache::of_actor(alloc)?;
    let before = cache.right(sheet, &made, TagNo(7));
    made.put_tag(TagNo(7), Slot(9))?;
    let after = cache.right(sheet, &made, TagNo(7));
    let given = cache.right(sheet, &made, TagNo(1));
    Ok([before, after, given])
}

/// Finds the rights on tag 7 before and after it is made, and on tag 1.
fn check_rights(rt: &(impl Abort + AllocGlobal), sheet: &Sheet) -> Result<(), NoMemory> {
    let [before, after, given] = rights_found(rt.alloc(), sheet)?;
    assert!(rt; before.is_none());
    assert!(rt; after == Some(Right::ReadWrite));
    assert!(rt; given == Some(Right::Read));
    Ok(())
}

/// A tag that is made after it was looked up is its maker's to write; others are as the sheet gives them.
#[test]
fn made_tags_are_looked_up_beside_the_cache(rt: HostRuntime) -> Result<(), Fail> {
    let sheet = sheet(&rt)?;
    check_rights(&rt, &sheet)?;
    Ok(())
}
