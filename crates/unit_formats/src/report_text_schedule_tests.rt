//! Schedules that were written by hand.

use report_text::{read_schedule, write_schedule};
use std::alloc::Global;
use std::process::Abort;
use std::test::Fail;
use wedge_base::{ActorName, End, Items, Stamp, is_actor_name};
use wedge_events::{Event, Journal, LogEntry};

/// The entry of an actor with this stamp, an end.
fn entry_of(alloc: Global, stamp: u64, parts: &[u32]) -> Result<LogEntry, Fail> {
    if !is_actor_name(parts) {
        return Err("a name".into());
    }
    Ok(LogEntry {
        stamp: Stamp(stamp),
        actor: ActorName::of_parts(alloc, parts)?,
        event: Event::Leave { end: End::Break },
    })
}

/// A journal with an entry of each actor, all of them ends.
fn journal_of(alloc: Global, names: &[&[u32]]) -> Result<Journal, Fail> {
    let mut entries = Vec::new(alloc);
    for (before, parts) in names.iter().enumerate() {
        entries.push(entry_of(alloc, before as u64 + 1, parts)?)?;
    }
    Ok(Journal {
        entries: Items::new(entries),
    })
}

/// The schedule of these actors.
fn schedule_of(alloc: Global, names: &[&[u32]]) -> Result<Vec<u8>, Fail> {
    let journal = journal_of(alloc, names)?;
    Ok(write_schedule(alloc, &journal)?)
}

/// Compares the names that were read with the parts of these.
fn compares_names(rt: &impl Abort, read: &[ActorName], names: &[&[u32]]) {
    assert!(rt; read.len() == names.len());
    for (name, parts) in read.iter().zip(names) {
        assert!(rt; name.parts() == *parts);
    }
}

#[test]
fn names_are_written_and_read(rt: HostRuntime) -> Result<(), Fail> {
    let names: [&[u32]; 6] = [
        &[0],
        &[0, 1],
        &[0],
        &[0, 1, 4294967295],
        &[0, 20, 300],
        &[0, 1],
    ];
    let text = schedule_of(rt.alloc(), &names)?;
    let want = b"0\n0.1\n0\n0.1.4294967295\n0.20.300\n0.1\n";
    assert!(rt; text.as_slice() == want.as_slice());
    let read = read_schedule(rt.alloc(), text.as_slice())?;
    compares_names(&rt, &read, &names);
    Ok(())
}

#[test]
fn no_entries_and_no_bytes(rt: HostRuntime) -> Result<(), Fail> {
    let alloc = rt.alloc();
    let text = schedule_of(alloc, &[])?;
    assert!(rt; text.as_slice() == [].as_slice());
    assert!(rt; read_schedule(alloc, &[])?.len() == 0);
    Ok(())
}
