//! Runs that no single thread makes, through the program: each prints a schedule, which replays to its report.

use super::harness::{Left, built, call, call_at, files, replays};
use super::parts::HANDSHAKE;
use meeting_pace::Meeting;
use std::alloc::Global;
use std::sync::Wait;
use std::test::Fail;
use std::thread::Threads;

/// How many bytes a stream takes: a schedule with as many turns as the children's fuel gives.
const WIDE: usize = 8_000_000;

/// Whether a report says of three actors that they exited with 0.
fn three_exit(report: &[u8]) -> bool {
    match str::from_utf8(report) {
        Ok(text) => {
            text.lines()
                .filter(|line| line.contains(" exited 0 "))
                .count()
                == 3
        }
        Err(_) => false,
    }
}

/// Whether a run with its schedule left the ends of three actors, and a schedule that replays to them.
fn is_replayed<R: Threads + Wait + Sync>(
    rt: &R,
    alloc: Global,
    image: &[u8],
    left: &Left,
) -> Result<bool, Fail> {
    let (schedule, report) = (left.out.as_slice(), left.err.as_slice());
    let again = replays(rt, alloc, image, schedule, report)?;
    Ok(left.status == 0 && three_exit(report) && again)
}

#[test]
fn handshake_replays(rt: HostRuntime) -> Result<(), Fail> {
    let alloc = rt.alloc();
    let image = built(&rt, alloc, HANDSHAKE)?;
    let left = call(
        &rt,
        alloc,
        &["run", "a", "--schedule"],
        image.as_slice(),
        b"",
        WIDE,
    )?;
    assert!(rt; is_replayed(&rt, alloc, image.as_slice(), &left)?);
    Ok(())
}

/// Each child is held before its first shared event until the other has come there.
#[test]
fn children_meet(rt: HostRuntime) -> Result<(), Fail> {
    let alloc = rt.alloc();
    let image = built(&rt, alloc, HANDSHAKE)?;
    let files = files(alloc, image.as_slice(), b"")?;
    let meeting = Meeting::new(&rt, 2);
    let left = call_at(
        &rt,
        alloc,
        &["run", "a", "--schedule"],
        files,
        WIDE,
        &meeting,
    )?;
    assert!(rt; meeting.took_place());
    assert!(rt; is_replayed(&rt, alloc, image.as_slice(), &left)?);
    Ok(())
}
