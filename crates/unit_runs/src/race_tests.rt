//! Runs on threads that race.

use crate::race_parts::{
    BOX, COUNT, CROWD, FILED, FULL, MEET, ONE_BY_ONE, RACE, READ, SIGN, SIGNED, TAGS,
};
use run_check::{CheckedRun, ended, exit_of_root, image_of, length, run_at_once};
use std::alloc::{AllocError, Global};
use std::test::Fail;
use wedge_base::End;
use wedge_events::{Event, LogEntry};

/// Two children are at their first shared events at once. Where one ran to its end before the other began, they would
/// not meet.
#[test]
fn children_meet(rt: HostRuntime) -> Result<(), Fail> {
    let alloc = rt.alloc();
    let image = image_of(alloc, 1000, MEET, BOX)?;
    let audited = run_at_once(&rt, alloc, &image, 2)?;
    assert_eq!(&rt; exit_of_root(&audited), Some(6));
    assert_eq!(&rt; ended(&audited, End::Exited(1)), 1);
    assert_eq!(&rt; ended(&audited, End::Exited(5)), 1);
    assert_eq!(&rt; length(&audited), 15);
    Ok(())
}

/// Whether a run left one stream, of either bytes.
fn has_either(audited: &CheckedRun, one: &[u8], other: &[u8]) -> bool {
    match audited.outcome.streams.as_slice() {
        [stream] => {
            let bytes = stream.bytes.as_slice();
            bytes == one || bytes == other
        }
        _ => false,
    }
}

/// Of three children two have their messages signed, and the one that was sent astray is denied the key.
#[test]
fn messages_are_signed(rt: HostRuntime) -> Result<(), Fail> {
    let alloc = rt.alloc();
    let image = image_of(alloc, 2000, SIGN, SIGNED)?;
    let audited = run_at_once(&rt, alloc, &image, 3)?;
    assert_eq!(&rt; exit_of_root(&audited), Some(1));
    assert_eq!(&rt; ended(&audited, End::Denied), 1);
    assert_eq!(&rt; ended(&audited, End::Exited(0)), 2);
    assert!(&rt; has_either(&audited, b"12", b"21"));
    assert_eq!(&rt; length(&audited), 25);
    Ok(())
}

/// Eight children load and store at once in one tag that is declared, of which four take turns while others stay
/// outside. Each is let in, to its end.
#[test]
fn all_that_stay_outside_are_let_in(rt: HostRuntime) -> Result<(), Fail> {
    let alloc = rt.alloc();
    let image = image_of(alloc, 10_000, CROWD, BOX)?;
    let audited = run_at_once(&rt, alloc, &image, 8)?;
    assert_eq!(&rt; exit_of_root(&audited), Some(1));
    assert_eq!(&rt; ended(&audited, End::Exited(0)), 8);
    assert_eq!(&rt; length(&audited), 833);
    Ok(())
}

/// Eight children enter a recycled gate at once. One run of it comes after another, and counts them all.
#[test]
fn runs_of_a_recycled_gate_are_counted(rt: HostRuntime) -> Result<(), Fail> {
    let alloc = rt.alloc();
    let image = image_of(alloc, 10_000, COUNT, BOX)?;
    let audited = run_at_once(&rt, alloc, &image, 8)?;
    assert_eq!(&rt; exit_of_root(&audited), Some(36));
    for value in 1..9 {
        // a child, and the run that it waited for
        assert_eq!(&rt; ended(&audited, End::Exited(value)), 2);
    }
    assert_eq!(&rt; length(&audited), 49);
    Ok(())
}

/// Whether the event of an entry is of no slot, or of a slot of these.
fn is_of_slots(entry: &LogEntry, first: u32, last: u32) -> bool {
    match &entry.event {
        Event::Slot { slot, .. } => first <= slot.0 && slot.0 <= last,
        _ => true,
    }
}

/// Whether all entries of a journal are of no slot, or of a slot of these.
fn are_of_slots(audited: &CheckedRun, first: u32, last: u32) -> bool {
    let entries = audited.journal.entries.as_slice();
    entries.iter().all(|entry| is_of_slots(entry, first, last))
}

/// Sixteen children make and delete tags at once. The numbers are those from 1 to 160, each tag is of zeros, and no
/// more slots are used than there are tags at once.
#[test]
fn tags_are_made_and_deleted(rt: HostRuntime) -> Result<(), Fail> {
    let alloc = rt.alloc();
    let image = image_of(alloc, 20_000, TAGS, BOX)?;
    let audited = run_at_once(&rt, alloc, &image, 16)?;
    assert_eq!(&rt; exit_of_root(&audited), Some(12_880));
    assert!(&rt; are_of_slots(&audited, 1, 16));
    assert_eq!(&rt; length(&audited), 1025);
    Ok(())
}

/// 255 children live at once beside the root, and the next create answers Full. All are held before their ends until
/// the root has entered a gate after that.
#[test]
fn at_most_256_live(rt: HostRuntime) -> Result<(), Fail> {
    let alloc = rt.alloc();
    let image = image_of(alloc, 100_000, FULL, BOX)?;
    let audited = run_at_once(&rt, alloc, &image, 256)?;
    assert_eq!(&rt; exit_of_root(&audited), Some(2));
    assert_eq!(&rt; ended(&audited, End::Exited(0)), 257);
    assert_eq!(&rt; length(&audited), 1028);
    Ok(())
}

/// Returns the tables of a file of this text.
fn file_of(alloc: Global, text: &str) -> Result<String, AllocError> {
    format!(in alloc; "{FILED}text = \"{text}\"\n{BOX}")
}

/// Returns the hash that the children compute.
fn hash_of(text: &str) -> u32 {
    let mut hash = 0u32;
    for byte in text.as_bytes() {
        hash = hash.wrapping_mul(31).wrapping_add(u32::from(*byte));
    }
    hash
}

/// Four children open one file at once, and each reads all of it.
#[test]
fn each_reads_all_of_a_file(rt: HostRuntime) -> Result<(), Fail> {
    let alloc = rt.alloc();
    let text = "0123456789".repeat(alloc, 60)?;
    let tables = file_of(alloc, text.as_str())?;
    let image = image_of(alloc, 30_000, READ, tables.as_str())?;
    let audited = run_at_once(&rt, alloc, &image, 4)?;
    let hash = hash_of(text.as_str());
    assert_eq!(&rt; exit_of_root(&audited), Some(0));
    assert_eq!(&rt; ended(&audited, End::Exited(hash)), 4);
    assert_eq!(&rt; length(&audited), 41);
    Ok(())
}

/// 20,000 children, one after another.
#[test]
fn children_one_after_another(rt: HostRuntime) -> Result<(), Fail> {
    let alloc = rt.alloc();
    let image = image_of(alloc, 1_000_000, ONE_BY_ONE, BOX)?;
    let audited = run_at_once(&rt, alloc, &image, 1)?;
    assert_eq!(&rt; exit_of_root(&audited), Some(0));
    assert_eq!(&rt; ended(&audited, End::Exited(7)), 20_000);
    assert_eq!(&rt; length(&audited), 80_001);
    Ok(())
}

/// Two children add one to a word, 100 times each and without a lock. Additions may be lost, and the run is one all the
/// same.
#[test]
fn additions_may_be_lost(rt: HostRuntime) -> Result<(), Fail> {
    let alloc = rt.alloc();
    let image = image_of(alloc, 5000, RACE, BOX)?;
    let audited = run_at_once(&rt, alloc, &image, 2)?;
    let sum = exit_of_root(&audited).unwrap_or(0);
    assert!(&rt; 2 <= sum && sum <= 200);
    assert_eq!(&rt; length(&audited), 410);
    Ok(())
}
