//! An image of one tag `box` whose root stores 5 in its first word: its turns one by one, a complete run, and the replays of
//! schedules.

use image_form::{Image, ImageParts, finish_image};
use std::alloc::Global;
use std::process::Abort;
use std::test::Fail;
use wedge_base::{
    ActorName, Bytes, FdEntry, Items, MemoryRange, NoMemory, Outcome, Procedure, Right, Slot,
    TagEntry,
};
use wedge_core::{ReplayFault, Why, World, open_world, outcome, replay, serial, turn};
use wedge_events::Journal;

/// LUI t0, 0x40000; ADDI t0, t0, 0; ADDI t1, zero, 5; SW t1, 0(t0).
static STORE_FIVE: [u32; 4] = [0x4000_02b7, 0x0002_8293, 0x0050_0313, 0x0062_a023];

/// The image, with this right of the root on the tag, which has some content.
fn image(alloc: Global, right: Option<Right>) -> Result<Image, Fail> {
    let mut procedures = Vec::new(alloc);
    procedures.push(Procedure {
        name: Bytes::from_slice(alloc, b"main")?,
        address: 0x1_0000,
    })?;
    let mut tags = Vec::new(alloc);
    tags.push(TagEntry {
        name: Bytes::from_slice(alloc, b"box")?,
        pages: 1,
        right,
        content: Bytes::from_slice(alloc, &[1, 2, 3, 4, 9])?,
    })?;
    let parts = ImageParts {
        fuel: 100,
        base: 0x1_0000,
        words: Items::new(Vec::from_slice(alloc, &STORE_FIVE)?),
        procedures: Items::new(procedures),
        entry: 0x1_0000,
        ranges: Items::<MemoryRange>::new(Vec::new(alloc)),
        tags: Items::new(tags),
        fds: Items::<FdEntry>::new(Vec::new(alloc)),
        files: Items::new(Vec::new(alloc)),
        user: 0,
        root: Bytes::from_slice(alloc, b"/")?,
    };
    Ok(finish_image(alloc, parts).ok().ok_or("an image")?)
}

/// The bytes of the tag in a slot of an image's initial state, if one lives there.
fn opened_bytes(alloc: Global, image: &Image, slot: Slot) -> Result<Option<Bytes>, Fail> {
    let world = open_world(alloc, image).ok().ok_or("a world")?;
    Ok(world.cells().copy_bytes(slot)?)
}

/// The first six bytes of the tag in the first slot.
fn first_bytes(alloc: Global, world: &World) -> Result<Bytes, Fail> {
    let bytes = world.cells().copy_bytes(Slot(0))?.ok_or("a tag")?;
    let first = bytes.as_slice().get(..6).ok_or("six bytes")?;
    Ok(Bytes::from_slice(alloc, first)?)
}

/// Asks for four turns of the root, and returns the number of the last one that it took.
fn take_turns(world: &mut World, root: &ActorName) -> usize {
    let mut taken = 0;
    for number in 1..5 {
        if turn(world, root).is_ok() {
            taken = number;
        }
    }
    taken
}

/// The first bytes of the tag after the root's turns, and the number of the last one that it took.
fn bytes_after_turns(alloc: Global, image: &Image) -> Result<(Bytes, usize), Fail> {
    let root = ActorName::root(alloc)?;
    let mut world = open_world(alloc, image).ok().ok_or("a world")?;
    let taken = take_turns(&mut world, &root);
    Ok((first_bytes(alloc, &world)?, taken))
}

/// The same of the image with this right of the root.
fn after_turns(alloc: Global, right: Option<Right>) -> Result<(Bytes, usize), Fail> {
    let image = image(alloc, right)?;
    bytes_after_turns(alloc, &image)
}

/// The root has two turns: its store and its end.
fn check(
    rt: &impl Abort,
    alloc: Global,
    right: Option<Right>,
    wanted: &[u8; 6],
) -> Result<(), Fail> {
    let (bytes, taken) = after_turns(alloc, right)?;
    assert_eq!(rt; bytes.as_slice(), wanted.as_slice());
    assert_eq!(rt; taken, 2);
    Ok(())
}

#[test]
fn store_with_the_right_is_seen(rt: HostRuntime) -> Result<(), Fail> {
    check(&rt, rt.alloc(), Some(Right::ReadWrite), &[5, 0, 0, 0, 9, 0])
}

#[test]
fn store_without_it_changes_nothing(rt: HostRuntime) -> Result<(), Fail> {
    check(&rt, rt.alloc(), Some(Right::Read), &[1, 2, 3, 4, 9, 0])?;
    check(&rt, rt.alloc(), None, &[1, 2, 3, 4, 9, 0])
}

/// Whether no tag lives in a slot of the image's initial state.
fn has_no_tag(alloc: Global, slot: Slot) -> Result<bool, Fail> {
    let image = image(alloc, None)?;
    Ok(opened_bytes(alloc, &image, slot)?.is_none())
}

#[test]
fn a_slot_without_a_tag_has_no_bytes(rt: HostRuntime) -> Result<(), Fail> {
    for slot in [1, 4095] {
        assert!(rt; has_no_tag(rt.alloc(), Slot(slot))?);
    }
    Ok(())
}

/// The names of the actors of a journal's entries.
fn schedule_of(alloc: Global, journal: &Journal) -> Result<Vec<ActorName>, NoMemory> {
    let mut names = Vec::new(alloc);
    for entry in journal.entries.as_slice() {
        names.push(entry.actor.copy()?)?;
    }
    Ok(names)
}

/// The names of the actors of a run of an image, and the fuel that is left at its end.
fn run_of(alloc: Global, image: &Image) -> Result<(Vec<ActorName>, Option<u32>), NoMemory> {
    let (journal, outcome) = serial(alloc, image)?;
    let names = schedule_of(alloc, &journal)?;
    Ok((names, fuel_left(&outcome)))
}

/// The fuel that the first actor of an outcome has left.
fn fuel_left(outcome: &Outcome) -> Option<u32> {
    Some(outcome.actors.as_slice().first()?.fuel)
}

/// The same of the replay of a schedule, or why it has none.
fn replay_of(
    alloc: Global,
    image: &Image,
    names: &[ActorName],
) -> Result<Option<u32>, ReplayFault> {
    let world = replay(alloc, image, names)?;
    let outcome = outcome(alloc, &world)?;
    Ok(fuel_left(&outcome))
}

/// How many turns a run of the image has, the fuel that is left at its end, and what its schedule replays to.
fn run_and_replay(
    alloc: Global,
) -> Result<(usize, Option<u32>, Result<Option<u32>, ReplayFault>), Fail> {
    let image = image(alloc, Some(Right::ReadWrite))?;
    let (names, fuel) = run_of(alloc, &image)?;
    let replayed = replay_of(alloc, &image, &names);
    Ok((names.len(), fuel, replayed))
}

#[test]
fn the_schedule_of_a_run_replays_to_its_outcome(rt: HostRuntime) -> Result<(), Fail> {
    let (turns, fuel, replayed) = run_and_replay(rt.alloc())?;
    assert_eq!(rt; turns, 2);
    assert_eq!(rt; fuel, Some(96));
    assert_eq!(rt; replayed, Ok(fuel));
    Ok(())
}

/// A schedule: the root for 0, and its k-th child for k.
fn schedule(alloc: Global, numbers: &[u32]) -> Result<Vec<ActorName>, Fail> {
    let mut names = Vec::new(alloc);
    for number in numbers {
        names.push(name_of(alloc, *number)?)?;
    }
    Ok(names)
}

/// The root for 0, and its k-th child for k.
fn name_of(alloc: Global, number: u32) -> Result<ActorName, Fail> {
    let root = ActorName::root(alloc)?;
    if number == 0 {
        return Ok(root);
    }
    Ok(root.child(alloc, number).ok().ok_or("a name")?)
}

/// What a schedule replays to, over the image whose root has two turns.
fn try_schedule(alloc: Global, numbers: &[u32]) -> Result<Result<Option<u32>, ReplayFault>, Fail> {
    let image = image(alloc, Some(Right::ReadWrite))?;
    let names = schedule(alloc, numbers)?;
    Ok(replay_of(alloc, &image, &names))
}

/// A schedule that is rejected at the name of this number.
struct Rejected {
    numbers: &'static [u32],
    at: usize,
    why: Why,
}

#[rattlefmt::skip]
static REJECTED: [Rejected; 7] = [
    Rejected { numbers: &[], at: 1, why: Why::Short },
    Rejected { numbers: &[0], at: 2, why: Why::Short },
    Rejected { numbers: &[0, 0, 0], at: 3, why: Why::Extra },
    Rejected { numbers: &[0, 0, 1], at: 3, why: Why::Extra },
    Rejected { numbers: &[1], at: 1, why: Why::Unknown },
    Rejected { numbers: &[0, 1], at: 2, why: Why::Unknown },
    Rejected { numbers: &[0, 2, 0, 0], at: 2, why: Why::Unknown },
];

#[test]
fn a_schedule_is_rejected_at_its_first_bad_name(rt: HostRuntime) -> Result<(), Fail> {
    for Rejected { numbers, at, why } in &REJECTED {
        let got = try_schedule(rt.alloc(), numbers)?;
        assert_eq!(rt; got, Err(ReplayFault::BadSchedule { at: *at, why: *why }));
    }
    Ok(())
}
