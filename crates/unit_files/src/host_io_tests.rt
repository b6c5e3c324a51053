//! Reads and writes whose answers were worked out by hand.

ghost use Rattle.std.specs.Prelude.{Option, Some, List, ℕ};

use host_io::{
    Failed, Files, MemFile, MemFiles, MemSink, NoPace, Pace, ReadFault, RealErr, RealFiles,
    RealOut, RealSink, Sink, WriteFault, read_whole, write_whole,
};
use std::alloc::Global;
use std::fmt::Display;
use std::io::{self, Print};
use std::process::{self, Abort};
use std::test::Fail;
use std::{env, fs, rt};
use wedge_base::{ActorName, NoMemory};

/// So many bytes, which count up and begin again after 250.
fn counting_bytes(alloc: Global, length: usize) -> Result<Vec<u8>, NoMemory> {
    let mut bytes = Vec::new(alloc);
    for i in 0..length {
        bytes.push((i % 251) as u8)?;
    }
    Ok(bytes)
}

/// A file of so many bytes, which count up.
fn counting(alloc: Global, name: &str, length: usize) -> Result<MemFile, NoMemory> {
    let name = String::from_str(alloc, name)?;
    let bytes = counting_bytes(alloc, length)?;
    Ok(MemFile { name, bytes })
}

/// Files of names and lengths, the bytes of which count up.
fn counting_files(alloc: Global, list: &[(&str, usize)]) -> Result<Vec<MemFile>, NoMemory> {
    let mut files = Vec::new(alloc);
    for (name, length) in list {
        files.push(counting(alloc, name, *length)?)?;
    }
    Ok(files)
}

/// Files of memory, where some calls fail.
fn files_of(rt: &impl Abort, files: Vec<MemFile>, fails: Vec<u64>) -> MemFiles {
    assert!(rt; MemFiles::names_differ(files.as_slice()));
    MemFiles::new(files, fails)
}

/// A file is read whole up to a limit, where one call fails: its length, the limit, the call, and the number of its bytes or the fault.
struct WholeRead {
    length: usize,
    limit: u64,
    fails: u64,
    want: Result<usize, ReadFault>,
}

#[rattlefmt::skip]
static WHOLE_READS: [WholeRead; 13] = [
    WholeRead { length: 0, limit: 0, fails: 0, want: Ok(0) },
    WholeRead { length: 0, limit: 0, fails: 1, want: Err(ReadFault::Fault) },
    WholeRead { length: 1, limit: 0, fails: 0, want: Err(ReadFault::TooLong { limit: 0 }) },
    WholeRead { length: 10, limit: 10, fails: 0, want: Ok(10) },
    WholeRead { length: 11, limit: 10, fails: 0, want: Err(ReadFault::TooLong { limit: 10 }) },
    WholeRead { length: 10, limit: u64::MAX, fails: 2, want: Err(ReadFault::Fault) },
    WholeRead { length: 10, limit: u64::MAX, fails: 3, want: Ok(10) },
    WholeRead { length: 65536, limit: 65536, fails: 0, want: Ok(65536) },
    WholeRead { length: 65537, limit: 65536, fails: 0, want: Err(ReadFault::TooLong { limit: 65536 }) },
    WholeRead { length: 200000, limit: 200000, fails: 0, want: Ok(200000) },
    WholeRead { length: 200000, limit: 200000, fails: 4, want: Err(ReadFault::Fault) },
    WholeRead { length: 200000, limit: 199999, fails: 0, want: Err(ReadFault::TooLong { limit: 199999 }) },
    WholeRead { length: 200000, limit: 70000, fails: 3, want: Err(ReadFault::TooLong { limit: 70000 }) },
];

/// The file of a row beside another.
fn files_of_row(rt: &impl Abort, alloc: Global, row: &WholeRead) -> Result<MemFiles, NoMemory> {
    let files = counting_files(alloc, &[("a", row.length), ("b", 3)])?;
    let fails = vec![in alloc; row.fails]?;
    Ok(files_of(rt, files, fails))
}

/// What is read of the file of a row, beside another file.
fn read_of(
    rt: &impl Abort,
    alloc: Global,
    row: &WholeRead,
) -> Result<Result<Vec<u8>, ReadFault>, NoMemory> {
    let mut files = files_of_row(rt, alloc, row)?;
    Ok(read_whole(alloc, &mut files, "a", row.limit))
}

/// Whether so many bytes count up.
fn are_counting(alloc: Global, bytes: &[u8], length: usize) -> Result<bool, NoMemory> {
    let wanted = counting_bytes(alloc, length)?;
    Ok(bytes == wanted.as_slice())
}

/// Reads the file of a row, and compares.
fn check_read(rt: &impl Abort, alloc: Global, row: &WholeRead) -> Result<(), NoMemory> {
    match read_of(rt, alloc, row)? {
        Ok(read) => {
            assert!(rt; are_counting(alloc, read.as_slice(), row.length)?);
            assert_eq!(rt; Ok(read.len()), row.want);
        }
        Err(fault) => assert_eq!(rt; Err(fault), row.want),
    }
    Ok(())
}

#[test]
fn whole_files_are_read_up_to_the_limit(rt: HostRuntime) -> Result<(), Fail> {
    for row in &WHOLE_READS {
        check_read(&rt, rt.alloc(), row)?;
    }
    Ok(())
}

/// A read of four bytes at an offset of a file: the answer, and what is then in a buffer of four dots.
struct Four {
    name: &'static str,
    at: u64,
    want: Result<usize, Failed>,
    left: &'static [u8; 4],
}

#[rattlefmt::skip]
static FOURS: [Four; 9] = [
    Four { name: "a", at: 0, want: Ok(4), left: b"abcd" },
    Four { name: "a", at: 4, want: Ok(2), left: b"ef.." },
    Four { name: "a", at: 0, want: Err(Failed), left: b"...." },
    Four { name: "b", at: 0, want: Err(Failed), left: b"...." },
    Four { name: "b", at: 0, want: Err(Failed), left: b"...." },
    Four { name: "a", at: 6, want: Ok(0), left: b"...." },
    Four { name: "a", at: u64::MAX, want: Ok(0), left: b"...." },
    Four { name: "a", at: 1, want: Ok(4), left: b"bcde" },
    Four { name: "", at: 0, want: Err(Failed), left: b"...." },
];

/// Reads four bytes of a file, and compares.
fn reads<F: Files>(
    rt: &impl Abort,
    files: &mut F,
    name: &str,
    at: u64,
    want: Result<usize, Failed>,
    left: &[u8; 4],
) {
    let mut buf = *b"....";
    let read = files.read(name, at, &mut buf);
    assert!(rt; read == want, "{name} at {at}");
    assert!(rt; buf == *left, "{name} at {at}");
}

/// A file of six bytes, where the third and the fifth call fail.
fn six_bytes(rt: &(impl Abort + AllocGlobal)) -> Result<MemFiles, NoMemory> {
    let alloc = rt.alloc();
    let name = String::from_str(alloc, "a")?;
    let bytes = b"abcdef".to_vec(alloc)?;
    let files = vec![in alloc; MemFile { name, bytes }]?;
    let fails = vec![in alloc; 3, 5]?;
    Ok(files_of(rt, files, fails))
}

#[test]
fn reads_give_what_is_there_and_fits(rt: HostRuntime) -> Result<(), Fail> {
    let mut files = six_bytes(&rt)?;
    for row in &FOURS {
        reads(&rt, &mut files, row.name, row.at, row.want, row.left);
    }
    assert!(rt; files.read("a", 0, &mut []) == Ok(0));
    Ok(())
}

/// Three names of files, and whether they differ.
#[rattlefmt::skip]
static NAMES: [(&str, &str, &str, bool); 4] = [
    ("a", "b", "c", true),
    ("a", "a", "c", false),
    ("a", "b", "a", false),
    ("", "b", "b", false),
];

/// Whether the names of three files differ.
fn three_differ(alloc: Global, first: &str, second: &str, third: &str) -> Result<bool, NoMemory> {
    let files = counting_files(alloc, &[(first, 0), (second, 1), (third, 2)])?;
    Ok(MemFiles::names_differ(files.as_slice()))
}

#[test]
fn two_files_of_one_name_are_told_apart(rt: HostRuntime) -> Result<(), Fail> {
    for (first, second, third, want) in &NAMES {
        let differ = three_differ(rt.alloc(), first, second, third)?;
        assert!(rt; differ == *want, "{first} {second} {third}");
    }
    assert!(rt; MemFiles::names_differ(&[]));
    Ok(())
}

/// A sink that takes at most three bytes of a piece.
#[derive(Drop)]
struct Slow {
    inner: MemSink,
}

impl Sink for Slow {
    ghost written = { λ s. Some s.inner.bytes };

    ghost faults = { λ s. s.inner.faults };

    fn write(&mut self, piece: &[u8]) -> Result<usize, Failed> {
        let count = piece.len().min(3);
        self.inner.write(&piece[..count])
    }
}

/// A text of 20 bytes is written into a sink with some room, where one call fails: whether it is written by a sink that takes all it
/// can and by a slow one, and how many bytes each has then.
struct WholeWrite {
    room: usize,
    fails: u64,
    is_written: bool,
    taken: usize,
    is_slowly_written: bool,
    slowly_taken: usize,
}

#[rattlefmt::skip]
static WHOLE_WRITES: [WholeWrite; 8] = [
    WholeWrite { room: 20, fails: 0, is_written: true, taken: 20, is_slowly_written: true, slowly_taken: 20 },
    WholeWrite { room: 10, fails: 0, is_written: false, taken: 10, is_slowly_written: false, slowly_taken: 10 },
    WholeWrite { room: 19, fails: 0, is_written: false, taken: 19, is_slowly_written: false, slowly_taken: 19 },
    WholeWrite { room: 0, fails: 0, is_written: false, taken: 0, is_slowly_written: false, slowly_taken: 0 },
    WholeWrite { room: 20, fails: 1, is_written: false, taken: 0, is_slowly_written: false, slowly_taken: 0 },
    WholeWrite { room: 20, fails: 2, is_written: true, taken: 20, is_slowly_written: false, slowly_taken: 3 },
    WholeWrite { room: 20, fails: 7, is_written: true, taken: 20, is_slowly_written: false, slowly_taken: 18 },
    WholeWrite { room: 20, fails: 8, is_written: true, taken: 20, is_slowly_written: true, slowly_taken: 20 },
];

static TEXT: &[u8; 20] = b"0123456789abcdefghij";

/// Writes the text into a sink: whether it is written, or a write failed.
fn is_written<S: Sink>(sink: &mut S) -> bool {
    match write_whole(sink, TEXT) {
        Ok(()) => true,
        Err(WriteFault::Fault) => false,
    }
}

/// A sink of a row, with room and a call that fails.
fn sink_of(alloc: Global, row: &WholeWrite) -> Result<MemSink, NoMemory> {
    let fails = vec![in alloc; row.fails]?;
    MemSink::new(alloc, row.room, fails)
}

/// The text's first bytes, so many.
fn has_taken(sink: &MemSink, taken: usize) -> bool {
    TEXT.get(..taken) == Some(sink.bytes())
}

/// Writes the text into a sink of a row, and compares.
fn check_write(rt: &impl Abort, alloc: Global, row: &WholeWrite) -> Result<(), NoMemory> {
    let mut sink = sink_of(alloc, row)?;
    assert!(rt; is_written(&mut sink) == row.is_written);
    assert!(rt; has_taken(&sink, row.taken));
    Ok(())
}

/// Writes the text into a slow sink of a row, and compares.
fn check_slow_write(rt: &impl Abort, alloc: Global, row: &WholeWrite) -> Result<(), NoMemory> {
    let inner = sink_of(alloc, row)?;
    let mut slow = Slow { inner };
    assert!(rt; is_written(&mut slow) == row.is_slowly_written);
    assert!(rt; has_taken(&slow.inner, row.slowly_taken));
    Ok(())
}

#[test]
fn whole_texts_are_written_or_a_part_of_them(rt: HostRuntime) -> Result<(), Fail> {
    for row in &WHOLE_WRITES {
        check_write(&rt, rt.alloc(), row)?;
    }
    Ok(())
}

#[test]
fn whole_texts_are_written_slowly_or_a_part_of_them(rt: HostRuntime) -> Result<(), Fail> {
    for row in &WHOLE_WRITES {
        check_slow_write(&rt, rt.alloc(), row)?;
    }
    Ok(())
}

#[rattlefmt::skip]
static PIECES: [(&[u8], Result<usize, Failed>); 5] = [
    (b"abc", Err(Failed)),
    (b"abcd", Ok(3)),
    (b"d", Err(Failed)),
    (b"", Ok(0)),
    (b"abc", Err(Failed)),
];

/// A sink with room for three bytes, where the first call fails.
fn three_bytes(alloc: Global) -> Result<MemSink, NoMemory> {
    let fails = vec![in alloc; 1]?;
    MemSink::new(alloc, 3, fails)
}

/// The first call to fail is still to come after a text of no bytes.
#[test]
fn a_text_of_no_bytes_is_not_written(rt: HostRuntime) -> Result<(), Fail> {
    let mut sink = three_bytes(rt.alloc())?;
    assert!(rt; write_whole(&mut sink, b"") == Ok(()));
    for (piece, want) in &PIECES {
        assert!(rt; sink.write(piece) == *want);
    }
    assert!(rt; sink.bytes() == b"abc".as_slice());
    Ok(())
}

/// A name for a file that is this process's own.
fn own_name(rt: &HostRuntime, ending: &str) -> io::Result<String> {
    let folder = env::temp_dir(rt)?;
    let id = process::id(rt.process());
    Ok(format!(in rt.alloc(); "{}/host_io-{id}{ending}", folder.display())?)
}

/// Reads a file of the system whole up to a limit: how many bytes it has, or the fault.
fn whole_length(rt: &HostRuntime, name: &str, limit: u64) -> Result<usize, ReadFault> {
    let mut files = RealFiles::new(rt, rt.alloc());
    read_whole(rt.alloc(), &mut files, name, limit).map(|bytes| bytes.len())
}

/// The name of a new file of this process, which has these bytes.
fn written(rt: &HostRuntime, ending: &str, bytes: &[u8]) -> io::Result<String> {
    let name = own_name(rt, ending)?;
    fs::write(rt, name.as_str(), bytes)?;
    Ok(name)
}

/// Reads a file of eight bytes, and one that is not there.
fn reads_eight(rt: &(impl Abort + AllocGlobal + rt::Files), name: &str) {
    let mut files = RealFiles::new(rt, rt.alloc());
    reads(rt, &mut files, name, 2, Ok(4), b"cdef");
    reads(rt, &mut files, name, 6, Ok(2), b"g\n..");
    reads(rt, &mut files, name, 0, Ok(4), b"abcd");
    reads(rt, &mut files, "no such file", 0, Err(Failed), b"....");
}

#[test]
fn files_of_the_system_are_read(rt: HostRuntime) -> Result<(), Fail> {
    let name = written(&rt, "", b"abcdefg\n")?;
    reads_eight(&rt, name.as_str());
    fs::remove_file(&rt, name.as_str())?;
    Ok(())
}

/// Whether a file of the system, which is read whole up to a limit, has these bytes.
fn has_bytes(rt: &HostRuntime, name: &str, limit: u64, bytes: &[u8]) -> Result<bool, ReadFault> {
    let mut files = RealFiles::new(rt, rt.alloc());
    let whole = read_whole(rt.alloc(), &mut files, name, limit)?;
    Ok(whole.as_slice() == bytes)
}

#[test]
fn files_of_the_system_are_read_whole(rt: HostRuntime) -> Result<(), Fail> {
    let name = written(&rt, "-whole", b"abcdefg\n")?;
    assert!(rt; has_bytes(&rt, name.as_str(), 8, b"abcdefg\n")?);
    assert!(rt; whole_length(&rt, name.as_str(), 7) == Err(ReadFault::TooLong { limit: 7 }));
    fs::remove_file(&rt, name.as_str())?;
    assert!(rt; whole_length(&rt, name.as_str(), 8) == Err(ReadFault::Fault));
    Ok(())
}

/// The name of the folder for files that do not last.
fn folder_name(rt: &HostRuntime) -> io::Result<String> {
    let folder = env::temp_dir(rt)?;
    Ok(format!(in rt.alloc(); "{}", folder.display())?)
}

/// Reads of a file of the system, which fail.
fn read_fails(rt: &(impl Abort + AllocGlobal + rt::Files), name: &str) {
    let mut files = RealFiles::new(rt, rt.alloc());
    reads(rt, &mut files, name, 0, Err(Failed), b"....");
}

#[test]
fn a_folder_is_no_file(rt: HostRuntime) -> Result<(), Fail> {
    let folder = folder_name(&rt)?;
    read_fails(&rt, folder.as_str());
    assert!(rt; whole_length(&rt, folder.as_str(), 8) == Err(ReadFault::Fault));
    Ok(())
}

/// Reads two files of eight bytes, in turn.
fn reads_two(rt: &(impl Abort + AllocGlobal + rt::Files), one: &str, other: &str) {
    let mut files = RealFiles::new(rt, rt.alloc());
    reads(rt, &mut files, one, 0, Ok(4), b"abcd");
    reads(rt, &mut files, other, 4, Ok(4), b"EFGH");
    reads(rt, &mut files, one, 4, Ok(4), b"efgh");
}

/// Removes two files.
fn removes_two(rt: &HostRuntime, one: &str, other: &str) -> io::Result<()> {
    fs::remove_file(rt, one)?;
    fs::remove_file(rt, other)
}

#[test]
fn two_files_of_the_system_are_told_apart(rt: HostRuntime) -> Result<(), Fail> {
    let one = written(&rt, "-one", b"abcdefgh")?;
    let other = written(&rt, "-other", b"ABCDEFGH")?;
    reads_two(&rt, one.as_str(), other.as_str());
    removes_two(&rt, one.as_str(), other.as_str())?;
    Ok(())
}

/// An output that takes at most so many bytes at once.
#[derive(Drop)]
struct Narrow(usize);

impl Print for Narrow {
    fn print<D: Display + Drop>(&self, _value: D) -> io::Result<()> {
        Ok(())
    }

    fn println<D: Display + Drop>(&self, _value: D) -> io::Result<()> {
        Ok(())
    }

    fn write_all(&self, _bytes: &[u8]) -> io::Result<()> {
        Ok(())
    }

    fn write_some(&self, bytes: &[u8]) -> io::Result<usize> {
        Ok(bytes.len().min(self.0))
    }
}

/// What is written of a piece by an output that takes at most so many bytes.
#[rattlefmt::skip]
static NARROW: [(usize, &[u8], Result<usize, Failed>); 4] = [
    (2, b"abc", Ok(2)),
    (9, b"abc", Ok(3)),
    (0, b"abc", Err(Failed)),
    (0, b"", Ok(0)),
];

#[test]
fn an_output_that_takes_nothing_has_failed(rt: HostRuntime) {
    for (room, piece, want) in &NARROW {
        assert!(rt; RealSink::new(Narrow(*room)).write(piece) == *want);
    }
    assert!(rt; RealOut::new(rt.stdout()).write(b"") == Ok(0));
    assert!(rt; RealErr::new(rt.stderr()).write(b"") == Ok(0));
}

#[test]
fn nobody_waits_without_a_pace(rt: HostRuntime) -> Result<(), Fail> {
    NoPace.before(&ActorName::root(rt.alloc())?);
    Ok(())
}
