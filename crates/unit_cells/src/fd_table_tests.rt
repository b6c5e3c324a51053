//! Tests of fd_table.

use fd_table::{Stream, StreamFault};
use std::alloc::Global;
use std::process::Abort;
use std::test::Fail;
use wedge_base::{Bytes, FdBits, FdEntry, NoMemory, StreamKind};
use wedge_events::{Boxed, Object, StreamAsk, StreamReply};

const NONE: FdBits = FdBits {
    read: false,
    append: false,
};

const READ: FdBits = FdBits {
    read: true,
    append: false,
};

const APPEND: FdBits = FdBits {
    read: false,
    append: true,
};

const BOTH: FdBits = FdBits {
    read: true,
    append: true,
};

/// A declared source of three bytes.
fn declared_source(alloc: Global) -> Result<Stream, NoMemory> {
    let name = Bytes::from_slice(alloc, b"in")?;
    let content = Bytes::from_slice(alloc, b"abc")?;
    let entry = FdEntry {
        name,
        kind: StreamKind::Source,
        bits: READ,
        content,
    };
    Stream::declared(alloc, &entry)
}

/// A declared stream begins with its content.
#[test]
fn declared_stream_has_its_content(rt: HostRuntime) -> Result<(), Fail> {
    let stream = declared_source(rt.alloc())?;
    assert!(rt; stream.is_live());
    assert!(rt; matches!(stream.kind(), Some(StreamKind::Source)));
    assert!(rt; stream.bytes() == b"abc".as_slice());
    Ok(())
}

/// How many bytes a read of a source gives, and what is then in the buffer.
#[rattlefmt::skip]
static PIECES: [(usize, &[u8; 3]); 5] = [
    (3, b"abc"),
    (3, b"def"),
    (2, b"ghf"),
    (0, b"ghf"),
    (0, b"ghf"),
];

/// A source is read in pieces and past its end; what a piece does not fill of the buffer stays.
#[test]
fn source_is_read_past_its_end(rt: HostRuntime) -> Result<(), Fail> {
    let mut stream = Stream::source(rt.alloc(), b"abcdefgh")?;
    let mut buf = [b'-'; 3];
    for (count, held) in &PIECES {
        let found = stream.read(READ, &mut buf);
        assert!(rt; matches!(found, Ok(n) if n == *count), "{count} bytes");
        assert!(rt; buf == **held);
    }
    assert!(rt; stream.bytes() == b"abcdefgh".as_slice());
    Ok(())
}

/// An append stream grows at its end.
#[test]
fn append_stream_grows(rt: HostRuntime) {
    let mut stream = Stream::append_only(rt.alloc());
    assert!(rt; stream.bytes().is_empty());
    for piece in ["ab", "", "c"] {
        assert!(rt; stream.append(APPEND, piece.as_bytes()).is_ok());
    }
    assert!(rt; stream.bytes() == b"abc".as_slice());
    assert!(rt; matches!(stream.kind(), Some(StreamKind::Append)));
}

/// What a call on a stream answers under these bits, if it is a fault.
fn read_fault(stream: &mut Stream, bits: FdBits) -> Option<StreamFault> {
    stream.read(bits, &mut [0; 4]).err()
}

fn append_fault(stream: &mut Stream, bits: FdBits) -> Option<StreamFault> {
    stream.append(bits, b"x").err()
}

fn close_fault(stream: &mut Stream, bits: FdBits) -> Option<StreamFault> {
    stream.close(bits).err()
}

const WANTS_READ: Option<StreamFault> = Some(StreamFault::Denied { wants: READ });

const WANTS_APPEND: Option<StreamFault> = Some(StreamFault::Denied { wants: APPEND });

/// What lacks a bit is denied, and names it, before the kind is checked.
#[test]
fn bits_are_checked_before_a_source(rt: HostRuntime) -> Result<(), Fail> {
    let mut source = Stream::source(rt.alloc(), b"ab")?;
    assert!(rt; read_fault(&mut source, APPEND) == WANTS_READ);
    assert!(rt; append_fault(&mut source, NONE) == WANTS_APPEND);
    assert!(rt; append_fault(&mut source, BOTH) == Some(StreamFault::Bad));
    assert!(rt; close_fault(&mut source, APPEND) == WANTS_READ);
    assert!(rt; source.is_live() && source.bytes() == b"ab".as_slice());
    Ok(())
}

#[test]
fn bits_are_checked_before_an_append_stream(rt: HostRuntime) {
    let mut growing = Stream::append_only(rt.alloc());
    assert!(rt; read_fault(&mut growing, NONE) == WANTS_READ);
    assert!(rt; read_fault(&mut growing, BOTH) == Some(StreamFault::Bad));
    assert!(rt; append_fault(&mut growing, READ) == WANTS_APPEND);
    assert!(rt; close_fault(&mut growing, READ) == WANTS_APPEND);
    assert!(rt; growing.is_live() && growing.bytes().is_empty());
}

/// Whether no call finds a stream.
fn is_gone(stream: &mut Stream) -> bool {
    !stream.is_live()
        && read_fault(stream, NONE) == Some(StreamFault::NoSuch)
        && append_fault(stream, BOTH) == Some(StreamFault::NoSuch)
        && close_fault(stream, BOTH) == Some(StreamFault::NoSuch)
}

/// A closed stream is no stream, but its bytes stay.
#[test]
fn closed_streams_are_gone(rt: HostRuntime) -> Result<(), Fail> {
    let mut source = Stream::source(rt.alloc(), b"ab")?;
    assert!(rt; source.close(READ).is_ok());
    assert!(rt; source.bytes() == b"ab".as_slice());
    assert!(rt; matches!(source.kind(), Some(StreamKind::Source)));
    assert!(rt; is_gone(&mut source));
    Ok(())
}

/// A stream that was never opened is no stream, and has no bytes.
#[test]
fn unopened_streams_are_gone(rt: HostRuntime) {
    let mut unopened = Stream::unopened();
    assert!(rt; is_gone(&mut unopened));
    assert!(rt; unopened.kind().is_none() && unopened.bytes().is_empty());
}

/// Bytes as an ask has them.
fn boxed(alloc: Global, bytes: &[u8]) -> Result<Boxed<Bytes>, NoMemory> {
    Ok(Boxed::new(alloc, Bytes::from_slice(alloc, bytes)?)?)
}

/// A copy of the ask to open a source of these bytes.
fn open_ask(alloc: Global, bytes: &[u8]) -> Result<StreamAsk, NoMemory> {
    let open = StreamAsk::Open {
        kind: StreamKind::Source,
        bytes: boxed(alloc, bytes)?,
    };
    Stream::copy_ask(&open)
}

/// Opens a stream through its cell, by a copy of the ask.
fn opens(
    rt: &(impl Abort + AllocGlobal),
    stream: &mut Stream,
    bytes: &[u8],
) -> Result<(), NoMemory> {
    let ask = open_ask(rt.alloc(), bytes)?;
    let (first, second) = stream.act(&ask)?;
    assert!(rt; matches!(first, StreamReply::Opened) && matches!(second, StreamReply::Opened));
    Ok(())
}

/// Whether a reply gives these bytes.
fn gives(reply: &StreamReply, bytes: &[u8]) -> bool {
    matches!(reply, StreamReply::Given { bytes: b } if b.as_slice() == bytes)
}

/// Reads three bytes through the cell.
fn reads(rt: &impl Abort, stream: &mut Stream, bytes: &[u8]) -> Result<(), NoMemory> {
    let ask = StreamAsk::Read {
        bits: READ,
        count: 3,
    };
    let (first, second) = stream.act(&ask)?;
    assert!(rt; gives(&first, bytes) && gives(&second, bytes));
    Ok(())
}

/// Whether both copies of the reply to a close say so.
fn closes(stream: &mut Stream) -> Result<bool, NoMemory> {
    let ask = StreamAsk::Close { bits: READ };
    let (first, second) = stream.act(&ask)?;
    Ok(matches!(first, StreamReply::Closed) && matches!(second, StreamReply::Closed))
}

/// The one reply to a read of two bytes.
fn reply_once(stream: &mut Stream) -> Result<StreamReply, NoMemory> {
    let read = StreamAsk::Read {
        bits: READ,
        count: 2,
    };
    stream.act_once(&read)
}

/// Whether the one reply to a read of two bytes is that there is no stream.
fn finds_none_once(stream: &mut Stream) -> Result<bool, NoMemory> {
    let none = reply_once(stream)?;
    Ok(matches!(none, StreamReply::NoSuch))
}

/// Whether the one reply to a read of two bytes gives these bytes.
fn gives_once(stream: &mut Stream, bytes: &[u8]) -> Result<bool, NoMemory> {
    let reply = reply_once(stream)?;
    Ok(gives(&reply, bytes))
}

static GIVEN: [&str; 3] = ["ab", "c", ""];

/// A cell does what it is asked with one reply.
#[test]
fn one_reply_is_enough(rt: HostRuntime) -> Result<(), Fail> {
    let mut stream = Stream::unopened();
    assert!(rt; finds_none_once(&mut stream)?);
    opens(&rt, &mut stream, b"abc")?;
    for wanted in &GIVEN {
        assert!(rt; gives_once(&mut stream, wanted.as_bytes())?);
    }
    Ok(())
}

/// Opens a cell, reads past its end and closes it, and opens and reads it again.
fn opens_reads_and_closes(
    rt: &(impl Abort + AllocGlobal),
    stream: &mut Stream,
) -> Result<(), NoMemory> {
    opens(rt, stream, b"abcd")?;
    reads(rt, stream, b"abc")?;
    reads(rt, stream, b"d")?;
    reads(rt, stream, b"")?;
    assert!(rt; closes(stream)?);
    assert!(rt; !closes(stream)?);
    opens(rt, stream, b"ef")?;
    reads(rt, stream, b"ef")
}

/// A cell is opened, read past its end, closed and opened again.
#[test]
fn cells_are_opened_read_and_closed(rt: HostRuntime) -> Result<(), Fail> {
    let mut stream = Stream::unopened();
    opens_reads_and_closes(&rt, &mut stream)?;
    Ok(())
}

/// Whether both copies of the reply to an append say so.
fn grows(stream: &mut Stream, grow: &StreamAsk) -> Result<bool, NoMemory> {
    let (first, second) = stream.act(grow)?;
    Ok(matches!(first, StreamReply::Appended) && matches!(second, StreamReply::Appended))
}

/// Whether a stream takes the ask to append two bytes twice.
fn grows_twice(alloc: Global, stream: &mut Stream) -> Result<bool, NoMemory> {
    let grow = StreamAsk::Append {
        bits: BOTH,
        bytes: boxed(alloc, b"ab")?,
    };
    let first = grows(stream, &grow)?;
    let second = grows(stream, &grow)?;
    Ok(first && second)
}

/// An append stream grows through its cell.
#[test]
fn cells_grow(rt: HostRuntime) -> Result<(), Fail> {
    let mut stream = Stream::append_only(rt.alloc());
    assert!(rt; grows_twice(rt.alloc(), &mut stream)?);
    assert!(rt; stream.bytes() == b"abab".as_slice());
    Ok(())
}
