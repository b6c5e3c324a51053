//! Rows: a command, what it left, and what it should leave.

ghost use Rattle.std.specs.Prelude.{◌≡◌, ◌↔◌, IsTrue};

use crate::files::FileSet;
use crate::value::{bytes_of, file_name, malformed, number, push_line};
use host_io::{MemFile, MemFiles, MemSink, NoPace};
use std::alloc::Global;
use std::sync::Wait;
use std::thread::Threads;
use std::{io, mem};
use wedge_cli::exit_status;

/// How many bytes a stream takes.
const ROOM: u32 = 2_000_000;

/// What a command leaves: its status, and the bytes on the output and on the error stream.
struct Left {
    status: u8,
    out: Vec<u8>,
    err: Vec<u8>,
}

// By hand, as that of each struct here: a derived drop would be proved again in each function that drops one.
impl Drop for Left {
    fn drop(self) {
        let Self {
            status: _,
            out: _,
            err: _,
        } = self;
    }
}

/// What a command left and what it should leave. Its output may have gone to a file, and a line may have said its status.
pub(crate) struct Row {
    left: Left,
    wanted: Left,
    is_kept: bool,
    has_status: bool,
}

impl Drop for Row {
    fn drop(self) {
        let Self {
            left: _,
            wanted: _,
            is_kept: _,
            has_status: _,
        } = self;
    }
}

impl Row {
    /// Carries out a command over files. Behind ` > ` stands the file that its output goes to. It should leave the status 0 and no bytes.
    pub(crate) fn new<R: Threads + Wait + Sync>(
        rt: &R,
        files: &mut FileSet,
        text: &str,
    ) -> io::Result<Row> {
        let alloc = files.alloc;
        let (arguments, into) = match text.split_once(" > ") {
            Some((arguments, into)) => (arguments, Some(file_name(alloc, into)?)),
            None => (text, None),
        };
        let mut left = Command::new(alloc, arguments)?.run(rt, files)?;
        let is_kept = into.is_some();
        if let Some(name) = into {
            files.put(name, mem::replace(&mut left.out, Vec::new(alloc)))?;
        }
        Ok(Row {
            left,
            wanted: Left {
                status: 0,
                out: Vec::new(alloc),
                err: Vec::new(alloc),
            },
            is_kept,
            has_status: false,
        })
    }

    /// Adds to what the command should leave.
    pub(crate) fn add(&mut self, files: &FileSet, head: &str, rest: &str) -> io::Result<()> {
        let Left { status, out, err } = &mut self.wanted;
        match head {
            "|" if !self.is_kept => push_line(out, rest)?,
            "out" if !self.is_kept => out.extend_from_slice(&bytes_of(files, rest)?)?,
            "!" => push_line(err, rest)?,
            "err" => err.extend_from_slice(&bytes_of(files, rest)?)?,
            "status" if !self.has_status => {
                *status = rest
                    .parse()
                    .map_err(|_| malformed("no status stands here"))?;
                self.has_status = true;
            }
            _ => return Err(malformed("no such line belongs to this command")),
        }
        Ok(())
    }

    /// What is said of the row, if the command left something else than it should.
    pub(crate) fn difference(&self, alloc: Global) -> io::Result<Option<String>> {
        if is_same(&self.left, &self.wanted) {
            return Ok(None);
        }
        let wanted = shown(alloc, &self.wanted)?;
        let left = shown(alloc, &self.left)?;
        Ok(Some(format!(in alloc; "wanted {wanted}\n  and got {left}")?))
    }
}

/// Whether a command left the status and the bytes that were wanted.
fn is_same(left: &Left, wanted: &Left) -> bool
    ensures { IsTrue result ↔ ((left.now.status ≡ wanted.now.status)
        × ((left.now.out.items ≡ wanted.now.out.items) × (left.now.err.items ≡ wanted.now.err.items))) }
{
    left.status == wanted.status && left.out == wanted.out && left.err == wanted.err
}

/// What a command leaves, as a line.
fn shown(alloc: Global, left: &Left) -> io::Result<String> {
    let Left { status, out, err } = left;
    let out = String::from_utf8_lossy(alloc, out.as_slice())?;
    let err = String::from_utf8_lossy(alloc, err.as_slice())?;
    Ok(format!(in alloc; "status {status}, output {out:?}, error stream {err:?}")?)
}

/// The arguments of `wedge`; the calls that fail under it, by their numbers from 1; and how many bytes the output takes.
struct Command {
    arguments: Vec<String>,
    read_fails: Vec<u64>,
    err_fails: Vec<u64>,
    out_room: u32,
}

impl Drop for Command {
    fn drop(self) {
        let Self {
            arguments: _,
            read_fails: _,
            err_fails: _,
            out_room: _,
        } = self;
    }
}

impl Command {
    /// The command of a text: devices as `out-room=10`, `wedge`, and its arguments, `""` for one without a letter.
    fn new(alloc: Global, text: &str) -> io::Result<Command> {
        let mut command = Command {
            arguments: Vec::new(alloc),
            read_fails: Vec::new(alloc),
            err_fails: Vec::new(alloc),
            out_room: ROOM,
        };
        let mut is_begun = false;
        for word in text.split_whitespace() {
            match word {
                "wedge" if !is_begun => is_begun = true,
                _ if !is_begun => command.set(word)?,
                "\"\"" => command.arguments.push(String::new(alloc))?,
                _ => command.arguments.push(String::from_str(alloc, word)?)?,
            }
        }
        if is_begun {
            Ok(command)
        } else {
            Err(malformed("a command begins with wedge"))
        }
    }

    /// Sets what a device says, as `read-fails=1`.
    fn set(&mut self, word: &str) -> io::Result<()> {
        let parts = word.split_once('=');
        let (device, value) = parts.ok_or(malformed("a device is NAME=N"))?;
        let value = number(value)?;
        match device {
            "read-fails" => self.read_fails.push(u64::from(value))?,
            "err-fails" => self.err_fails.push(u64::from(value))?,
            "out-room" => self.out_room = value,
            _ => return Err(malformed("there is no such device")),
        }
        Ok(())
    }

    /// Calls `wedge` over copies of files in memory.
    fn run<R: Threads + Wait + Sync>(self, rt: &R, files: &FileSet) -> io::Result<Left> {
        let Self {
            arguments,
            read_fails,
            err_fails,
            out_room,
        } = self;
        let (alloc, words) = (files.alloc, arguments.as_slice());
        let named = files.named(words)?;
        if !MemFiles::names_differ(named.as_slice()) {
            return Err(malformed("two files have one name"));
        }
        let mut files = MemFiles::new(named, read_fails);
        let mut out = sink(alloc, out_room, Vec::new(alloc))?;
        let mut err = sink(alloc, ROOM, err_fails)?;
        let status = exit_status(rt, alloc, words, &mut files, &mut out, &mut err, &NoPace);
        let out = Vec::from_slice(alloc, out.bytes())?;
        let err = Vec::from_slice(alloc, err.bytes())?;
        Ok(Left { status, out, err })
    }
}

/// A stream that takes so many bytes, of which these calls fail.
fn sink(alloc: Global, room: u32, fails: Vec<u64>) -> io::Result<MemSink> {
    MemSink::new(alloc, room as usize, fails).map_err(|_| io::Error::other("out of memory"))
}
