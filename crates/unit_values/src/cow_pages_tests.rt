//! Pages at work.

ghost use Rattle.std.specs.Prelude.{◌≡◌, ◌<◌, ◌%◌, ◌^◌, ◌⊎◌, length, IfOk, IsTrue};

use cow_pages::{
    PagedRange, Pages, PrivateView, equal_memory_is_the_same, snaps_are_the_bytes,
    store_after_snapshot, store_into_snapshot,
};
use std::alloc::Global;
use std::process::Abort;
use std::test::Fail;
use wedge_base::{Bytes, NoMemory, Place, Slot};

/// Sixteen pages, of which page k begins with the byte k + 1.
fn table(alloc: Global) -> Result<Pages, NoMemory>
    ensures { IfOk result (λ p. length p ≡ 65536) }
{
    let mut pages = Pages::new(alloc, &[1], 16)?;
    for k in 1..16u32 {
        pages.store(k * 4096, 4, k + 1)?;
    }
    Ok(pages)
}

/// A snapshot of sixteen pages, with two bytes written at the start of page k.
fn written_at_page(source: &Pages, k: u32) -> Result<Pages, NoMemory>
    requires len { length source.now ≡ 65536 }

    requires page { k < 16 }
{
    let mut snapshot = source.snapshot()?;
    snapshot.store(k * 4096, 2, 0x1_0799)?;
    Ok(snapshot)
}

/// All bytes of sixteen pages.
fn all_bytes(rt: &(impl Abort + AllocGlobal), pages: &Pages) -> Result<Bytes, NoMemory> {
    assert!(rt; pages.len() == 65536);
    pages.copy(rt.alloc(), 0, 65536)
}

/// The bytes of the table, with 0x99 and 7 at the start of page k.
fn bytes_written_at(alloc: Global, k: usize) -> Result<Vec<u8>, NoMemory> {
    let mut bytes = vec![in alloc; 0u8; 65536]?;
    let all = bytes.as_mut_slice();
    for (j, byte) in all.iter_mut().enumerate() {
        *byte = match (j % 4096, j / 4096 == k) {
            (0, true) => 0x99,
            (1, true) => 7,
            (0, false) => (j / 4096 % 16) as u8 + 1,
            _ => 0,
        };
    }
    Ok(bytes)
}

/// Whether an access has a width and is aligned.
fn is_aligned(address: u32, width: u8) -> bool
    ensures width { IsTrue result → (width ≡ 1) ⊎ (width ≡ 2) ⊎ (width ≡ 4) }

    ensures aligned { IsTrue result → address % width ≡ 0 }
{
    match width {
        1 => true,
        2 => address % 2 == 0,
        4 => address % 4 == 0,
        _ => false,
    }
}

#[test]
fn sixteen_snapshots_each_written_at_another_page(rt: HostRuntime) -> Result<(), Fail> {
    let source = table(rt.alloc())?;
    let mut snapshots = Vec::new(rt.alloc());
    for k in 0..16u32 {
        snapshots.push(written_at_page(&source, k)?)?;
    }
    for (k, snapshot) in snapshots.iter().enumerate() {
        let bytes = all_bytes(&rt, snapshot)?;
        let wanted = bytes_written_at(rt.alloc(), k)?;
        assert!(rt; bytes.as_slice() == wanted.as_slice(), "snapshot {k}");
    }
    let bytes = all_bytes(&rt, &source)?;
    let wanted = bytes_written_at(rt.alloc(), 16)?;
    assert!(rt; bytes.as_slice() == wanted.as_slice(), "source");
    Ok(())
}

#[test]
fn buffers_of_pages(rt: HostRuntime) -> Result<(), Fail> {
    let mut pages = table(rt.alloc())?;
    let snapshot = pages.snapshot()?;
    pages.write(4094, &[1, 2, 3, 4])?;
    pages.write(8192, &[9])?;
    let part = pages.copy(rt.alloc(), 4092, 8)?;
    assert!(rt; part.as_slice() == [0, 0, 1, 2, 3, 4, 0, 0].as_slice());
    assert!(rt; pages.load(8192, 2) == 9 && snapshot.load(4096, 4) == 2);
    Ok(())
}

#[test]
fn lists_of_pages(rt: HostRuntime) -> Result<(), Fail> {
    let pages = table(rt.alloc())?;
    let list = pages.list(rt.alloc())?;
    let indices = list.as_slice().iter().map(|item| item.place);
    assert!(rt; indices.eq(0..16u32));
    let again = all_bytes(&rt, &Pages::of_list(rt.alloc(), &list)?)?;
    assert!(rt; again.as_slice() == all_bytes(&rt, &pages)?.as_slice());
    Ok(())
}

#[test]
fn what_the_laws_call(rt: HostRuntime) -> Result<(), Fail> {
    snaps_are_the_bytes();
    equal_memory_is_the_same();
    let mut source = table(rt.alloc())?;
    let before = store_after_snapshot(&mut source, 4096, 1, 7)?;
    let after = store_into_snapshot(&source, 4096, 1, 8)?;
    assert!(rt; before.len() == 65536 && after.len() == 65536 && source.len() == 65536);
    assert!(rt; before.load(4096, 4) == 2 && source.load(4096, 4) == 7);
    assert!(rt; after.load(4096, 4) == 8);
    Ok(())
}

/// A range of eight bytes.
fn eight_bytes(alloc: Global) -> Result<PagedRange, NoMemory>
    ensures { IfOk result (λ r. (r.base ≡ 65792) × (length r.bytes ≡ 8)) }
{
    PagedRange::new(alloc, 0x0001_0100, &[42, 0, 0, 0, 1, 2, 3, 4])
}

/// Addresses and sizes, and whether the range of eight bytes has them.
#[rattlefmt::skip]
static HELD: [(u32, u32, bool); 6] = [
    (0x0001_0100, 8, true),
    (0x0001_0107, 1, true),
    (0x0001_0108, 0, true),
    (0x0001_0107, 2, false),
    (0x0001_00ff, 2, false),
    (u32::MAX, u32::MAX, false),
];

#[test]
fn what_a_range_holds(rt: HostRuntime) -> Result<(), Fail> {
    let range = eight_bytes(rt.alloc())?;
    for (address, size, held) in &HELD {
        assert!(rt;
            range.holds(*address, *size) == *held,
            "{size} at {address}"
        );
    }
    let zeros = PagedRange::zeroed(rt.alloc(), 0, 2)?;
    assert!(rt; zeros.holds(0, 8192) && !zeros.holds(0, 8193));
    Ok(())
}

/// Two bytes and two more are written into the range.
fn write_into(rt: &impl Abort, range: &mut PagedRange) -> Result<(), NoMemory> {
    assert!(rt; range.holds(0x0001_0104, 2));
    range.store(0x0001_0104, 2, 0x0009_0807)?;
    assert!(rt; range.holds(0x0001_0103, 2));
    range.write(0x0001_0103, &[5, 6])
}

#[test]
fn a_range_and_its_snapshot(rt: HostRuntime) -> Result<(), Fail> {
    let mut range = eight_bytes(rt.alloc())?;
    let other = range.snapshot()?;
    write_into(&rt, &mut range)?;
    assert!(rt; range.holds(0x0001_0104, 4) && other.holds(0x0001_0102, 6));
    assert!(rt; range.load(0x0001_0104, 4) == 0x0403_0806);
    let bytes = other.copy(rt.alloc(), 0x0001_0102, 6)?;
    assert!(rt; bytes.as_slice() == [0, 0, 1, 2, 3, 4].as_slice());
    Ok(())
}

/// An actor's memory with the range of eight bytes.
fn view_of_eight(alloc: Global) -> Result<PrivateView, NoMemory> {
    PrivateView::new(alloc, &[eight_bytes(alloc)?])
}

/// Addresses and widths, what is there after a store of 7 at the start of the range and of 9 at the end of the private range, and what
/// was there before.
#[rattlefmt::skip]
static LOADED: [(u32, u8, Option<u32>, Option<u32>); 6] = [
    (0x0001_0100, 4, Some(7), Some(42)),
    (0x0001_0106, 2, Some(0x0403), Some(0x0403)),
    (0x0001_0108, 4, None, None),
    (0x2000_0000, 4, Some(0), Some(0)),
    (0x2001_fffc, 4, Some(9), Some(0)),
    (0x2002_0000, 1, None, None),
];

#[test]
fn loads_and_stores_of_an_actor(rt: HostRuntime) -> Result<(), Fail> {
    let mut view = view_of_eight(rt.alloc())?;
    let other = view_of_eight(rt.alloc())?;
    assert!(rt; view.store(0x0001_0100, 4, 7)? && view.store(0x2001_fffc, 4, 9)?);
    assert!(rt; !view.store(0x2002_0000, 4, 9)?);
    for (address, width, here, there) in &LOADED {
        assert!(rt; is_aligned(*address, *width));
        assert!(rt; view.load(*address, *width) == *here, "here at {address}");
        assert!(rt;
            other.load(*address, *width) == *there,
            "there at {address}"
        );
    }
    Ok(())
}

#[test]
fn buffers_of_an_actor(rt: HostRuntime) -> Result<(), Fail> {
    let mut view = view_of_eight(rt.alloc())?;
    assert!(rt; view.holds(0x0001_0104, 4) && !view.holds(0x0001_0104, 5));
    view.has_no_range(0x4000_0000, 4);
    assert!(rt; view.write(0x2000_0fff, &[1, 2])? && !view.write(0x0001_0107, &[1, 2])?);
    let bytes = view.copy_of(rt.alloc(), 0x2000_0ffe, 4)?;
    let bytes = bytes.ok_or("they lie in the private range")?;
    assert!(rt; bytes.as_slice() == [0, 1, 2, 0].as_slice());
    assert!(rt; view.copy_of(rt.alloc(), 0x0001_0104, 5)?.is_none());
    assert!(rt; view.holds(0x2000_0000, 0x2_0000));
    view.clear();
    assert!(rt; !view.holds(0x2000_0000, 0));
    Ok(())
}

const FIRST: Place = Place {
    slot: Slot(3),
    offset: 0x1000,
};

const PAST: Place = Place {
    slot: Slot(3),
    offset: 0xfffc,
};

const OUTSIDE: Place = Place {
    slot: Slot(2),
    offset: 0x1000,
};

/// An actor's memory with a copy of a tag in slot 3, and one of a page in slot 2.
fn view_of_copies(alloc: Global, tag: &Pages) -> Result<PrivateView, NoMemory> {
    let mut view = PrivateView::new(alloc, &[])?;
    view.put_copy(Slot(3), tag.snapshot()?)?;
    view.put_copy(Slot(2), Pages::new(alloc, &[6], 1)?)?;
    Ok(view)
}

#[test]
fn an_actor_without_copies(rt: HostRuntime) -> Result<(), Fail> {
    let mut view = PrivateView::new(rt.alloc(), &[])?;
    assert!(rt; view.load_copy(FIRST, 4).is_none());
    assert!(rt; view.store_copy(FIRST, 4, 5)?.is_none());
    Ok(())
}

#[test]
fn loads_and_stores_of_copies(rt: HostRuntime) -> Result<(), Fail> {
    let tag = table(rt.alloc())?;
    let mut view = view_of_copies(rt.alloc(), &tag)?;
    assert!(rt; view.load_copy(FIRST, 4) == Some(Some(2)));
    assert!(rt; view.store_copy(FIRST, 1, 5)? == Some(true));
    assert!(rt; view.store_copy(PAST, 4, 8)? == Some(true));
    assert!(rt; view.load_copy(FIRST, 4) == Some(Some(5)) && tag.load(0x1000, 4) == 2);
    assert!(rt; view.load_copy(PAST, 2) == Some(Some(8)) && tag.load(0xfffc, 4) == 0);
    assert!(rt; view.load_copy(OUTSIDE, 4) == Some(None));
    assert!(rt; view.store_copy(OUTSIDE, 4, 5)? == Some(false));
    Ok(())
}

#[test]
fn copies_come_and_go(rt: HostRuntime) -> Result<(), Fail> {
    let mut view = view_of_copies(rt.alloc(), &table(rt.alloc())?)?;
    let length = view.copy_at(Slot(2)).map(|copy| copy.len());
    assert!(rt; length == Some(4096));
    view.drop_copy(Slot(3));
    assert!(rt; view.copy_at(Slot(3)).is_none() && view.copy_at(Slot(2)).is_some());
    assert!(rt; view.load_copy(FIRST, 4).is_none());
    view.clear();
    assert!(rt; view.copy_at(Slot(2)).is_none());
    Ok(())
}

/// A snapshot begins with the ranges and the copies of its source, and neither of the two has what is stored into the other.
#[test]
fn a_snapshot_of_an_actors_memory(rt: HostRuntime) -> Result<(), Fail> {
    let mut view = view_of_copies(rt.alloc(), &table(rt.alloc())?)?;
    assert!(rt; view.store(0x2000_0000, 4, 7)?);
    let mut snapshot = view.snapshot()?;
    assert!(rt; view.store(0x2000_0000, 4, 8)? && view.store(0x2000_0004, 4, 1)?);
    assert!(rt; snapshot.store_copy(FIRST, 1, 9)? == Some(true));
    assert!(rt; snapshot.load(0x2000_0000, 4) == Some(7));
    assert!(rt; snapshot.load(0x2000_0004, 4) == Some(0));
    assert!(rt; view.load(0x2000_0000, 4) == Some(8));
    assert!(rt; snapshot.load_copy(FIRST, 4) == Some(Some(9)));
    assert!(rt; view.load_copy(FIRST, 4) == Some(Some(2)));
    Ok(())
}

/// A page of sevens and three more.
fn sevens(alloc: Global) -> Result<Vec<u8>, NoMemory>
    ensures { IfOk result (λ v. length v.items ≡ 4099) }
{
    Ok(vec![in alloc; 7u8; 4099]?)
}

/// The same, and this byte behind them.
fn past_a_page(alloc: Global, last: u8) -> Result<Vec<u8>, NoMemory>
    ensures { IfOk result (λ v. length v.items ≡ 4100) }
{
    let mut bytes = sevens(alloc)?;
    bytes.push(last)?;
    Ok(bytes)
}

#[test]
fn pages_are_equal_by_their_bytes(rt: HostRuntime) -> Result<(), Fail> {
    let pages = table(rt.alloc())?;
    let mut other = table(rt.alloc())?;
    assert!(rt; pages == other && pages == pages.snapshot()?);
    other.store(0xffff, 1, 1)?;
    assert!(rt; pages != other, "the last byte of the last page");
    other.store(0xffff, 1, 0)?;
    assert!(rt; pages == other);
    let one = Pages::new(rt.alloc(), &[1], 1)?;
    assert!(rt; pages != one && one != pages, "other lengths");
    Ok(())
}

/// Whether a range is equal to one of these bytes at this address.
fn is_range_of(range: &PagedRange, alloc: Global, base: u32, bytes: &[u8]) -> Result<bool, NoMemory>
    requires base { base % 4 ≡ 0 }
    requires size { length bytes.now < 2 ^ 32 }
{
    let other = PagedRange::new(alloc, base, bytes)?;
    Ok(*range == other && other == *range)
}

#[test]
fn ranges_are_equal_by_address_and_bytes(rt: HostRuntime) -> Result<(), Fail> {
    let zero_last = past_a_page(rt.alloc(), 0)?;
    let one_last = past_a_page(rt.alloc(), 1)?;
    let less = sevens(rt.alloc())?;
    let range = PagedRange::new(rt.alloc(), 64, zero_last.as_slice())?;
    let same = is_range_of(&range, rt.alloc(), 64, zero_last.as_slice())?;
    let elsewhere = is_range_of(&range, rt.alloc(), 68, zero_last.as_slice())?;
    let shorter = is_range_of(&range, rt.alloc(), 64, less.as_slice())?;
    let other = is_range_of(&range, rt.alloc(), 64, one_last.as_slice())?;
    assert!(rt; same, "the same bytes in other pages");
    assert!(rt; !elsewhere, "another address");
    assert!(rt; !shorter, "a byte less, in equal pages");
    assert!(rt; !other, "the last byte of a part of a page");
    Ok(())
}

/// An actor's memory with a range of four bytes.
fn small_view(alloc: Global) -> Result<PrivateView, NoMemory> {
    PrivateView::new(
        alloc,
        &[PagedRange::new(alloc, 0x0001_0100, &[42, 0, 0, 0])?],
    )
}

/// Puts a copy of a page that begins with this byte at a slot.
fn put_page(view: &mut PrivateView, alloc: Global, slot: Slot, first: u8) -> Result<(), NoMemory> {
    view.put_copy(slot, Pages::new(alloc, &[first], 1)?)
}

/// What is done to an actor's memory in turn, to compare it with one that has the range and the page 6 at slot 3.
fn change(view: &mut PrivateView, alloc: Global, turn: usize) -> Result<(), NoMemory> {
    match turn {
        0 => Ok(()),
        1 => put_page(view, alloc, Slot(4), 6),
        2 => {
            view.drop_copy(Slot(4));
            put_page(view, alloc, Slot(3), 7)
        }
        3 => put_page(view, alloc, Slot(3), 6),
        _ => {
            view.store(0x2001_fffc, 4, 1)?;
            Ok(())
        }
    }
}

/// What is different after each turn: the copy, its slot, the page, nothing, the last word of the private range.
static EQUAL: [bool; 5] = [false, false, false, true, false];

#[test]
fn private_memory_is_equal_by_ranges_and_copies(rt: HostRuntime) -> Result<(), Fail> {
    let mut view = small_view(rt.alloc())?;
    put_page(&mut view, rt.alloc(), Slot(3), 6)?;
    assert!(rt; view == view.snapshot()?);
    let mut other = small_view(rt.alloc())?;
    for (turn, equal) in EQUAL.iter().enumerate() {
        change(&mut other, rt.alloc(), turn)?;
        assert!(rt; (view == other) == *equal, "after turn {turn}");
    }
    Ok(())
}

#[test]
fn private_memory_without_copies_is_equal_by_ranges(rt: HostRuntime) -> Result<(), Fail> {
    let view = small_view(rt.alloc())?;
    assert!(rt; view == small_view(rt.alloc())?);
    let fewer = PrivateView::new(rt.alloc(), &[])?;
    assert!(rt; view != fewer && fewer != view, "a range less");
    Ok(())
}

#[test]
fn stores_find_the_last_word_of_the_private_range(rt: HostRuntime) -> Result<(), Fail> {
    let mut view = small_view(rt.alloc())?;
    assert_eq!(rt; view.store(0x2001_fffc, 4, 1)?, true);
    Ok(())
}
