//! A stream that was opened.

ghost use Rattle.std.specs.Prelude.{◌≡◌, ◌≢◌, ◌+◌, ◌≤◌, ℕ, List, Some, Err, take, drop, length, IfErr, IfOk, OnOk, OnErr};
ghost use Rattle.wedge_events.specs.Streams as streams;
ghost use Rattle.wedge_events.specs.declared.cells.StreamAsk.TheVariants as ask;
ghost use Rattle.wedge_events.specs.declared.cells.StreamReply.TheVariants as reply;
ghost use Rattle.fd_table.specs.Faults.{reply_of};

use crate::fault::StreamFault;
use std::alloc::Global;
use std::marker::Model;
use wedge_base::{FdBits, StreamKind};

/// The bit to read alone.
const READ: FdBits = FdBits {
    read: true,
    append: false,
};
/// The bit to append alone.
const APPEND: FdBits = FdBits {
    read: false,
    append: true,
};

/// A stream that was opened, live or closed.
#[derive(Debug, Drop)]
pub(crate) struct Opened {
    kind: StreamKind,
    bytes: Vec<u8>,
    /// How many bytes were read.
    position: usize,
    live: bool,
}

impl Model for Opened {
    ghost use Rattle.std.specs.Prelude.{length, ◌≤◌};
    ghost use Rattle.wedge_events.specs.Streams.{Stream as Plain};

    ghost Value = { Plain };

    ghost view = { λ s. record { kind = s.kind; bytes = s.bytes.items; position = s.position; live = s.live } };

    ghost invariant = { λ s. s.position ≤ length s.bytes.items };
}

impl Opened {
    /// A live stream that begins with these bytes.
    pub fn new(kind: StreamKind, bytes: Vec<u8>) -> Opened
        ensures { result ≡ streams.new_stream kind bytes.items }
    {
        Opened {
            kind,
            bytes,
            position: 0,
            live: true,
        }
    }

    /// Whether it is read or grows at the end.
    pub fn kind(&self) -> StreamKind
        ensures { result ≡ self.now.kind }
    {
        self.kind
    }

    /// Returns all its bytes.
    pub fn bytes(&self) -> &[u8]
        ensures { result.now ≡ self.now.bytes }
    {
        self.bytes.as_slice()
    }

    /// Whether it is not closed.
    pub fn is_live(&self) -> bool
        ensures { result ≡ self.now.live }
    {
        self.live
    }

    /// The allocator of its bytes.
    pub fn allocator(&self) -> Global {
        *self.bytes.allocator()
    }

    /// Whether it may be read with bits.
    pub fn check_read(&self, bits: FdBits) -> Result<(), StreamFault>
        ensures ok { OnOk result ((count : ℕ)
            → streams.stream_reply (Some self.now) (ask.Read bits count)
            ≡ reply.Given (take count (drop self.now.position self.now.bytes))) }
        ensures fault { IfErr result (λ e. (count : ℕ)
            → reply_of e ≡ Some (streams.stream_reply (Some self.now) (ask.Read bits count))) }
    {
        if !self.live {
            return Err(StreamFault::NoSuch);
        }
        if !bits.read {
            return Err(StreamFault::Denied { wants: READ });
        }
        match self.kind {
            StreamKind::Source => Ok(()),
            StreamKind::Append => Err(StreamFault::Bad),
        }
    }

    /// Returns the next bytes, so many at most.
    pub fn next_bytes(&self, count: usize) -> &[u8]
        ensures bytes { result.now ≡ take count (drop self.now.position self.now.bytes) }
        ensures inside { self.now.position + length result.now ≤ length self.now.bytes }
        ensures most { length result.now ≤ count }
    {
        let rest = &self.bytes[self.position..];
        &rest[..count.min(rest.len())]
    }

    /// Goes on by so many bytes.
    pub fn go_on(&mut self, count: usize)
        requires { self.old.position + count ≤ length self.old.bytes }
        ensures { self.new ≡ streams.with_bytes_read count self.old }
    {
        self.position += count;
    }

    /// Adds bytes at the end.
    pub fn append(&mut self, bits: FdBits, bytes: &[u8]) -> Result<(), StreamFault>
        ensures ok { OnOk result (streams.stream_reply (Some self.old) (ask.Append bits bytes.now)
            ≡ reply.Appended) }
        ensures next { OnOk result (self.new ≡ streams.with_more_bytes bytes.now self.old) }
        ensures fault { IfErr result (λ e. e ≢ StreamFault.NoMemory
            → reply_of e ≡ Some (streams.stream_reply (Some self.old)
            (ask.Append bits bytes.now))) }
        ensures memory { result ≡ Err StreamFault.NoMemory
            → streams.stream_reply (Some self.old) (ask.Append bits bytes.now) ≡ reply.Appended }
        ensures err { OnErr result (self.new ≡ self.old) }
    {
        if !self.live {
            return Err(StreamFault::NoSuch);
        }
        if !bits.append {
            return Err(StreamFault::Denied { wants: APPEND });
        }
        match self.kind {
            StreamKind::Source => Err(StreamFault::Bad),
            StreamKind::Append => {
                self.bytes.extend_from_slice(bytes)?;
                Ok(())
            }
        }
    }

    /// Closes it.
    pub fn close(&mut self, bits: FdBits) -> Result<(), StreamFault>
        ensures ok { OnOk result (streams.stream_reply (Some self.old) (ask.Close bits)
            ≡ reply.Closed) }
        ensures next { OnOk result (self.new ≡ streams.closed_stream self.old) }
        ensures fault { IfErr result (λ e. reply_of e
            ≡ Some (streams.stream_reply (Some self.old) (ask.Close bits))) }
        ensures err { OnErr result (self.new ≡ self.old) }
    {
        if !self.live {
            return Err(StreamFault::NoSuch);
        }
        let (held, wants) = match self.kind {
            StreamKind::Source => (bits.read, READ),
            StreamKind::Append => (bits.append, APPEND),
        };
        if !held {
            return Err(StreamFault::Denied { wants });
        }
        self.live = false;
        Ok(())
    }
}
