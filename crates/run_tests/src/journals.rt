//! The journal that the top call returns: a run has one, and nothing else does.

use super::harness::{ROOM, built, files, strings};
use super::orders::COPIED;
use super::prefixes::SERVER;
use host_io::{MemSink, NoPace};
use std::alloc::Global;
use std::sync::Wait;
use std::test::Fail;
use std::thread::Threads;
use wedge_cli::wedge;

/// How many entries the journal has that a call over the file `a` returns, if it returns one.
fn journal_of<R: Threads + Wait + Sync>(
    rt: &R,
    alloc: Global,
    words: &[&str],
    a: &[u8],
) -> Result<Option<usize>, Fail> {
    let words = strings(alloc, words)?;
    let words = words.as_slice();
    let mut files = files(alloc, a, b"")?;
    let mut out = MemSink::new(alloc, ROOM, Vec::new(alloc))?;
    let mut err = MemSink::new(alloc, ROOM, Vec::new(alloc))?;
    let ended = wedge(rt, alloc, words, &mut files, &mut out, &mut err, &NoPace);
    match &ended.journal {
        Some(journal) => Ok(Some(journal.len()?)),
        None => Ok(None),
    }
}

#[test]
fn a_run_alone_has_a_journal(rt: HostRuntime) -> Result<(), Fail> {
    let alloc = rt.alloc();
    let image = built(&rt, alloc, COPIED)?;
    assert!(rt; journal_of(&rt, alloc, &["run", "a"], image.as_slice())? == Some(7));
    assert!(rt; journal_of(&rt, alloc, &["build", "a"], COPIED.as_bytes())?.is_none());
    Ok(())
}

#[test]
fn a_trace_has_no_journal(rt: HostRuntime) -> Result<(), Fail> {
    let alloc = rt.alloc();
    assert!(rt; journal_of(&rt, alloc, &["derive", "a"], SERVER)?.is_none());
    assert!(rt; journal_of(&rt, alloc, &["derive", "a"], b"wedge")?.is_none());
    Ok(())
}
