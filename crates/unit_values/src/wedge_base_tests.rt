//! Tests of wedge_base.

use std::test::Fail;
use wedge_base::{
    ActorName, Bytes, NameFault, Page, SERVICES, Service, Slot, address_of, is_actor_name,
    is_canonical, slot_of,
};

/// Addresses, and their slots and offsets, worked out by hand.
#[rattlefmt::skip]
static PLACES: [(u32, Option<(u32, u32)>); 6] = [
    (0x4000_0000, Some((0, 0))),
    (0x4000_ffff, Some((0, 0xffff))),
    (0x4001_0000, Some((1, 0))),
    (0x4fff_ffff, Some((4095, 0xffff))),
    (0x3fff_ffff, None),
    (0x5000_0000, None),
];

#[test]
fn windows_begin_and_end_where_they_should(rt: HostRuntime) {
    for (address, wanted) in &PLACES {
        let place = slot_of(*address).map(|place| (place.slot.0, place.offset));
        assert_eq!(rt; place, *wanted, "at {address:x}");
    }
    assert!(rt; address_of(Slot(1), 4) == 0x4001_0004);
}

/// Each call on a name that takes memory, once.
#[test]
fn names_with_ample_memory(rt: HostRuntime) -> Result<(), Fail> {
    let root = ActorName::root(rt.alloc())?;
    let child = root.child(rt.alloc(), 7)?;
    assert!(rt; root.is_same(&root.copy()?) && !child.is_same(&root));
    assert!(rt; root.parts() == [0].as_slice() && child.parts() == [0, 7].as_slice());
    Ok(())
}

/// Each call on bytes that takes memory, once.
#[test]
fn bytes_with_ample_memory(rt: HostRuntime) -> Result<(), Fail> {
    let mut bytes = Bytes::from_slice(rt.alloc(), b"abcdefgh")?;
    bytes.push(b'i')?;
    let copy = bytes.clone()?.into_vec();
    assert!(rt; bytes.as_slice() == b"abcdefghi".as_slice());
    assert!(rt; copy.as_slice() == b"abcdefghi".as_slice());
    Ok(())
}

/// A page after some writes.
fn written_page() -> Page {
    let mut page = Page::beginning(b"abcdefghi");
    page.write_number(0, 4, 0x1122_3344);
    page.write_number(4, 2, 0xaabb_ccdd);
    page.write_number(7, 1, 0x99);
    page.write(4094, &[5, 6]);
    page
}

/// Numbers in a page are little-endian, and what is not written stays.
#[test]
fn numbers_in_a_page(rt: HostRuntime) {
    let page = written_page();
    let bytes = page.as_slice();
    assert!(rt; bytes.starts_with(&[0x44, 0x33, 0x22, 0x11, 0xdd, 0xcc, b'g', 0x99, b'i', 0]));
    assert!(rt; bytes.ends_with(&[0, 5, 6]));
    assert!(rt; page.number_at(4092, 4) == 0x0605_0000 && page.number_at(4, 2) == 0xccdd);
    assert!(rt; Page::zero().number_at(4095, 1) == 0);
}

/// A name has 32 parts at most.
#[test]
fn names_are_32_parts_deep(rt: HostRuntime) -> Result<(), Fail> {
    let mut name = ActorName::root(rt.alloc())?;
    for _ in 0..40 {
        match name.child(rt.alloc(), 1) {
            Ok(child) => name = child,
            Err(fault) => assert_eq!(rt; fault, NameFault::Deep),
        }
    }
    assert_eq!(rt; name.parts().len(), 32);
    Ok(())
}

/// Lists of numbers, and whether they are a name: 0 and then numbers from 1.
#[rattlefmt::skip]
static PARTS: [(&[u32], bool); 6] = [
    (&[0, 1, 4_294_967_295], true),
    (&[0], true),
    (&[], false),
    (&[1], false),
    (&[0, 1, 0], false),
    (&[0, 9, 9, 9], true),
];

#[test]
fn parts_of_names(rt: HostRuntime) -> Result<(), Fail> {
    for (parts, is_name) in &PARTS {
        assert!(rt; is_actor_name(parts) == *is_name);
        if is_actor_name(parts) {
            let name = ActorName::of_parts(rt.alloc(), parts)?;
            assert!(rt; name.parts() == *parts);
        }
    }
    Ok(())
}

/// Texts, and whether they are canonical paths.
#[rattlefmt::skip]
static PATHS: [(&str, bool); 15] = [
    ("/", true), ("/a", true), ("/a/b", true), ("/.a", true), ("/...", true), ("/~", true),
    ("", false), ("a", false), ("//", false), ("/a/", false), ("/.", false), ("/a/..", false),
    ("/a//b", false), ("/ ", false), ("/a\u{7f}", false),
];

#[test]
fn canonical_paths(rt: HostRuntime) {
    for (text, wanted) in &PATHS {
        assert!(rt; is_canonical(text.as_bytes()) == *wanted, "{text}");
    }
}

/// Each service call has a number and a name of its own.
#[test]
fn services_are_numbered_in_order(rt: HostRuntime) {
    for (number, service) in SERVICES.iter().enumerate() {
        assert!(rt; service.number() as usize == number);
    }
    assert!(rt; Service::FdAppend.name() == "fd_append");
}
