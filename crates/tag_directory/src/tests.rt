//! The last number of a directory, of a kind that only a test makes.

use super::*;
use std::process::Abort;
use std::test::Fail;

/// Claims a slot: the slot and the number that are expected.
fn claims(rt: &impl Abort, directory: &mut Directory, place: u32, number: u32) {
    let claimed = directory.claim();
    assert!(rt;
        matches!(claimed, Ok(c) if c.place == place && c.number == number),
        "place {place}"
    );
}

/// Finds the directory full, twice.
fn is_full(rt: &impl Abort, directory: &mut Directory) {
    assert!(rt; matches!(directory.claim(), Err(ClaimFault::Full)));
    assert!(rt; matches!(directory.claim(), Err(ClaimFault::Full)));
}

/// Releases a slot, which must be claimed.
fn releases(rt: &impl Abort, directory: &mut Directory, place: u32) {
    let claimed = directory.is_claimed(place);
    assert!(rt; claimed, "place {place}");
    if claimed {
        directory.release(place);
    }
    assert!(rt; !directory.is_claimed(place));
}

/// The last number is 4,294,967,294.
#[test]
fn numbers_end(rt: HostRuntime) {
    let mut directory = Directory::numbered_from(rt.alloc(), 4096, 4_294_967_293);
    claims(&rt, &mut directory, 0, 4_294_967_293);
    claims(&rt, &mut directory, 1, 4_294_967_294);
    is_full(&rt, &mut directory);
    releases(&rt, &mut directory, 0);
    is_full(&rt, &mut directory);
}
