//! What the tests share: a call of the program over files that lie in memory.

use host_io::{MemFile, MemFiles, MemSink, NoPace, Pace};
use std::alloc::{AllocError, Global};
use std::sync::Wait;
use std::test::Fail;
use std::thread::Threads;
use wedge_cli::exit_status;

/// How many bytes a stream takes.
pub(crate) const ROOM: usize = 2_000_000;

/// What a call left: the status, and the bytes on the output and on the error stream.
#[derive(Drop)]
pub(crate) struct Left {
    pub status: u8,
    pub out: Vec<u8>,
    pub err: Vec<u8>,
}

/// The arguments as the program takes them.
pub(crate) fn strings(alloc: Global, words: &[&str]) -> Result<Vec<String>, AllocError> {
    let mut strings = Vec::new(alloc);
    for word in words {
        strings.push(String::from_str(alloc, word)?)?;
    }
    Ok(strings)
}

/// A file of this name and these bytes.
fn file(alloc: Global, name: &str, bytes: &[u8]) -> Result<MemFile, AllocError> {
    Ok(MemFile {
        name: String::from_str(alloc, name)?,
        bytes: Vec::from_slice(alloc, bytes)?,
    })
}

/// The files `a` and `s` of these bytes.
pub(crate) fn files(alloc: Global, a: &[u8], s: &[u8]) -> Result<MemFiles, Fail> {
    let files = vec![in alloc; file(alloc, "a", a)?, file(alloc, "s", s)?]?;
    if MemFiles::names_differ(files.as_slice()) {
        Ok(MemFiles::new(files, Vec::new(alloc)))
    } else {
        Err("names that differ".into())
    }
}

/// Calls the program with these arguments, over the files `a` and `s`, with room for so many bytes on each stream.
pub(crate) fn call<R: Threads + Wait + Sync>(
    rt: &R,
    alloc: Global,
    words: &[&str],
    a: &[u8],
    s: &[u8],
    room: usize,
) -> Result<Left, Fail> {
    let files = files(alloc, a, s)?;
    call_at(rt, alloc, words, files, room, &NoPace)
}

/// Calls the program with these arguments over files, at a pace, with room for so many bytes on each stream.
pub(crate) fn call_at<R: Threads + Wait + Sync, P: Pace + Sync>(
    rt: &R,
    alloc: Global,
    words: &[&str],
    mut files: MemFiles,
    room: usize,
    pace: &P,
) -> Result<Left, Fail> {
    let words = strings(alloc, words)?;
    let mut out = MemSink::new(alloc, room, Vec::new(alloc))?;
    let mut err = MemSink::new(alloc, room, Vec::new(alloc))?;
    let words = words.as_slice();
    let status = exit_status(rt, alloc, words, &mut files, &mut out, &mut err, pace);
    let out = Vec::from_slice(alloc, out.bytes())?;
    let err = Vec::from_slice(alloc, err.bytes())?;
    Ok(Left { status, out, err })
}

/// Whether a call left this status and these bytes.
pub(crate) fn is_left(left: &Left, status: u8, out: &[u8], err: &[u8]) -> bool {
    left.status == status && left.out.as_slice() == out && left.err.as_slice() == err
}

/// The image that `build` makes of a partition's file.
pub(crate) fn built<R: Threads + Wait + Sync>(
    rt: &R,
    alloc: Global,
    part: &str,
) -> Result<Vec<u8>, Fail> {
    let left = call(rt, alloc, &["build", "a"], part.as_bytes(), b"", ROOM)?;
    if left.status == 0 && left.err.is_empty() {
        Ok(left.out)
    } else {
        Err("an image".into())
    }
}

/// Whether a replay of a schedule gives a report.
pub(crate) fn replays<R: Threads + Wait + Sync>(
    rt: &R,
    alloc: Global,
    image: &[u8],
    schedule: &[u8],
    report: &[u8],
) -> Result<bool, Fail> {
    let left = call(rt, alloc, &["replay", "a", "s"], image, schedule, ROOM)?;
    Ok(is_left(&left, 0, report, b""))
}

/// Whether `run` takes its turns in the order of a schedule, and gives a report.
pub(crate) fn runs<R: Threads + Wait + Sync>(
    rt: &R,
    alloc: Global,
    image: &[u8],
    schedule: &[u8],
    report: &[u8],
) -> Result<bool, Fail> {
    let left = call(rt, alloc, &["run", "a", "--schedule"], image, b"", ROOM)?;
    Ok(is_left(&left, 0, schedule, report))
}
