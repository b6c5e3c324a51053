//! Tests of tag_directory.

use std::process::Abort;
use std::test::Fail;
use tag_directory::{ClaimFault, Claimed, Directory};
use wedge_base::NoMemory;
use wedge_events::{DirectoryAsk, DirectoryReply, Object};

/// Claims a slot: the slot and the number that are expected.
fn claims(rt: &impl Abort, directory: &mut Directory, place: u32, number: u32) {
    let claimed = directory.claim();
    assert!(rt;
        matches!(claimed, Ok(c) if c.place == place && c.number == number),
        "place {place}"
    );
}

/// Finds the directory full, twice.
fn is_full(rt: &impl Abort, directory: &mut Directory) {
    assert!(rt; matches!(directory.claim(), Err(ClaimFault::Full)));
    assert!(rt; matches!(directory.claim(), Err(ClaimFault::Full)));
}

/// Releases a slot, which must be claimed.
fn releases(rt: &impl Abort, directory: &mut Directory, place: u32) {
    let claimed = directory.is_claimed(place);
    assert!(rt; claimed, "place {place}");
    if claimed {
        directory.release(place);
    }
    assert!(rt; !directory.is_claimed(place));
}

/// A directory runs to its end, and is filled again with the slot released last first.
#[test]
fn last_released_is_claimed_first(rt: HostRuntime) -> Result<(), Fail> {
    let mut directory = Directory::new(rt.alloc(), 4, 1)?;
    claims(&rt, &mut directory, 1, 1);
    claims(&rt, &mut directory, 2, 2);
    releases(&rt, &mut directory, 1);
    claims(&rt, &mut directory, 1, 3);
    claims(&rt, &mut directory, 3, 4);
    is_full(&rt, &mut directory);
    for place in [0, 3, 1] {
        releases(&rt, &mut directory, place);
    }
    claims(&rt, &mut directory, 1, 5);
    claims(&rt, &mut directory, 3, 6);
    claims(&rt, &mut directory, 0, 7);
    is_full(&rt, &mut directory);
    let mut empty = Directory::new(rt.alloc(), 0, 0)?;
    is_full(&rt, &mut empty);
    Ok(())
}

/// Every slot is claimed, released and claimed again; no number comes twice.
#[test]
fn all_slots_are_claimed_again(rt: HostRuntime) -> Result<(), Fail> {
    let mut directory = Directory::new(rt.alloc(), 4096, 2)?;
    for place in 2..4096 {
        claims(&rt, &mut directory, place, place);
    }
    is_full(&rt, &mut directory);
    for place in 0..4096 {
        releases(&rt, &mut directory, place);
    }
    for place in 0..4096 {
        claims(&rt, &mut directory, 4095 - place, 4096 + place);
    }
    is_full(&rt, &mut directory);
    Ok(())
}

const CLAIM: DirectoryAsk = DirectoryAsk::Claim;

const RELEASED: DirectoryReply = DirectoryReply::Released;

/// Asks of a directory of two slots, one after another, and its replies.
#[rattlefmt::skip]
static REPLIES: [(DirectoryAsk, DirectoryReply); 9] = [
    (CLAIM, DirectoryReply::Claimed { place: 0, number: 0 }),
    (DirectoryAsk::Release { place: 1 }, RELEASED),
    (CLAIM, DirectoryReply::Claimed { place: 1, number: 1 }),
    (CLAIM, DirectoryReply::Full),
    (DirectoryAsk::Release { place: 2 }, RELEASED),
    (DirectoryAsk::Release { place: 0 }, RELEASED),
    (DirectoryAsk::Release { place: 0 }, RELEASED),
    (CLAIM, DirectoryReply::Claimed { place: 0, number: 2 }),
    (CLAIM, DirectoryReply::Full),
];

/// Asks a directory by a copy of the ask, and compares both copies of its reply.
fn replies(
    rt: &impl Abort,
    directory: &mut Directory,
    ask: DirectoryAsk,
    wanted: DirectoryReply,
) -> Result<(), NoMemory> {
    let copy = Directory::copy_ask(&ask)?;
    assert_eq!(rt; copy, ask);
    let (first, second) = directory.act(&copy)?;
    assert_eq!(rt; first, wanted);
    assert_eq!(rt; second, wanted);
    Ok(())
}

/// What a directory replies as a cell, in two copies. A release of a slot that is not claimed
/// changes nothing.
#[test]
fn asks_are_replied_to(rt: HostRuntime) -> Result<(), Fail> {
    let mut directory = Directory::new(rt.alloc(), 2, 0)?;
    for (ask, wanted) in &REPLIES {
        replies(&rt, &mut directory, *ask, *wanted)?;
    }
    Ok(())
}

/// A directory does what it is asked with one reply.
#[test]
fn one_reply_is_enough(rt: HostRuntime) -> Result<(), Fail> {
    let mut directory = Directory::new(rt.alloc(), 3, 2)?;
    let claimed = directory.act_once(&DirectoryAsk::Claim)?;
    let wanted = DirectoryReply::Claimed {
        place: 2,
        number: 2,
    };
    assert_eq!(rt; claimed, wanted);
    let full = directory.act_once(&DirectoryAsk::Claim)?;
    assert_eq!(rt; full, DirectoryReply::Full);
    Ok(())
}
