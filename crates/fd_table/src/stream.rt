//! The stream behind a descriptor.

ghost use Rattle.std.specs.Prelude.{◌≡◌, ◌≢◌, [], Some, None, Err, take, drop, length, ◌≤◌, false, unwrap_or, option_map, IfErr, IfOk, OnOk, OnErr};
ghost use Rattle.wedge_events.specs.Streams as streams;
ghost use Rattle.wedge_events.specs.declared.cells.StreamAsk.TheVariants as ask;
ghost use Rattle.wedge_events.specs.declared.cells.StreamReply.TheVariants as reply;
ghost use Rattle.wedge_base.specs.declared.rights.StreamKind.TheVariants as kind;
ghost use Rattle.fd_table.specs.Faults.{reply_of};

use crate::fault::StreamFault;
use crate::opened::Opened;
use std::alloc::Global;
use std::marker::Model;
use wedge_base::{Bytes, FdBits, FdEntry, NoMemory, StreamKind};
use wedge_events::Boxed;

/// The cell of a descriptor: the stream behind it, once it is opened.
#[derive(Debug, Drop)]
pub struct Stream {
    pub(crate) opened: Option<Opened>,
}

impl Model for Stream {
    ghost use Rattle.std.specs.Prelude.{Option};
    ghost use Rattle.wedge_events.specs.Streams.{Stream as Plain};

    ghost Value = { Option Plain };

    ghost view = { λ s. s.opened };
}

impl Stream {
    /// A descriptor behind which no stream was opened.
    pub fn unopened() -> Stream
        ensures { result ≡ None }
    {
        Stream { opened: None }
    }

    /// A live source with these bytes.
    pub fn source(alloc: Global, bytes: &[u8]) -> Result<Stream, NoMemory>
        ensures { IfOk result (λ s. s ≡ Some (streams.new_stream kind.Source bytes.now)) }
    {
        let bytes = Vec::from_slice(alloc, bytes)?;
        let opened = Opened::new(StreamKind::Source, bytes);
        Ok(Stream {
            opened: Some(opened),
        })
    }

    /// A live append stream with no bytes.
    pub fn append_only(alloc: Global) -> Stream
        ensures { result ≡ Some (streams.new_stream kind.Append []) }
    {
        let opened = Opened::new(StreamKind::Append, Vec::new(alloc));
        Stream {
            opened: Some(opened),
        }
    }

    /// The stream of a declared descriptor, as a run begins.
    pub fn declared(alloc: Global, fd: &FdEntry) -> Result<Stream, NoMemory>
        ensures { IfOk result (λ s. s ≡ Some (streams.declared_stream fd.now)) }
    {
        let bytes = Vec::from_slice(alloc, fd.content.as_slice())?;
        let opened = Opened::new(fd.kind, bytes);
        Ok(Stream {
            opened: Some(opened),
        })
    }

    /// Whether it is read or grows at the end; none of one that was never opened.
    pub fn kind(&self) -> Option<StreamKind>
        ensures { result ≡ option_map (λ s. s.kind) self.now }
    {
        let opened = self.opened.as_ref()?;
        Some(opened.kind())
    }

    /// Returns all its bytes, also once it is closed.
    pub fn bytes(&self) -> &[u8]
        ensures { result.now ≡ unwrap_or (option_map (λ s. s.bytes) self.now) [] }
    {
        match &self.opened {
            Some(opened) => opened.bytes(),
            None => &[],
        }
    }

    /// Whether it is open.
    pub fn is_live(&self) -> bool
        ensures { result ≡ unwrap_or (option_map (λ s. s.live) self.now) false }
    {
        match &self.opened {
            Some(opened) => opened.is_live(),
            None => false,
        }
    }

    /// Reads the next bytes into a buffer, as many as it holds or as are left, and returns how many; 0 at
    /// the end. The rest of the buffer stays. `NoSuch` where it is not live, else `Denied` without the bit
    /// to read, else `Bad` where it is no source. It takes no memory.
    pub fn read(&mut self, bits: FdBits, buf: &mut [u8]) -> Result<usize, StreamFault>
        ensures ok { IfOk result
            (λ n. streams.stream_reply self.old (ask.Read bits (length buf.old))
            ≡ reply.Given (take n buf.new)) }
        ensures count { IfOk result (λ n. n ≤ length buf.new) }
        ensures rest { IfOk result (λ n. drop n buf.new ≡ drop n buf.old) }
        ensures next { OnOk result (self.new
            ≡ streams.stream_next self.old (ask.Read bits (length buf.old))) }
        ensures fault { IfErr result (λ e. reply_of e
            ≡ Some (streams.stream_reply self.old (ask.Read bits (length buf.old)))) }
        ensures err { OnErr result (self.new ≡ self.old) }
        ensures err_buf { OnErr result (buf.new ≡ buf.old) }
    {
        let Some(opened) = &mut self.opened else {
            return Err(StreamFault::NoSuch);
        };
        opened.check_read(bits)?;
        let next = opened.next_bytes(buf.len());
        let count = next.len();
        buf[..count].copy_from_slice(next);
        opened.go_on(count);
        Ok(count)
    }

    /// Begins a live stream with a copy of these bytes, whatever was there.
    pub(crate) fn begin(&mut self, kind: StreamKind, bytes: &Bytes) -> Result<(), NoMemory>
        ensures next { OnOk result (self.new ≡ Some (streams.new_stream kind bytes.now)) }
        ensures err { OnErr result (self.new ≡ self.old) }
    {
        let bytes = bytes.copy()?.into_vec();
        self.opened = Some(Opened::new(kind, bytes));
        Ok(())
    }

    /// Copies the next bytes, so many at most, and stays where it is.
    fn next_copied(&self, bits: FdBits, count: usize) -> Result<Boxed<Bytes>, StreamFault>
        ensures ok { let q = ask.Read bits count
            in IfOk result (λ b. streams.stream_reply self.now q ≡ reply.Given b) }
        ensures fault { let q = ask.Read bits count
            in let reply = streams.stream_reply self.now q
            in IfErr result (λ e. e ≢ StreamFault.NoMemory → reply_of e ≡ Some reply) }
    {
        let Some(opened) = &self.opened else {
            return Err(StreamFault::NoSuch);
        };
        opened.check_read(bits)?;
        let next = opened.next_bytes(count);
        let copy = Bytes::from_slice(opened.allocator(), next)?;
        Ok(Boxed::new(opened.allocator(), copy)?)
    }

    /// Reads the next bytes, so many at most.
    pub(crate) fn give(&mut self, bits: FdBits, count: usize) -> Result<Boxed<Bytes>, StreamFault>
        ensures ok { let q = ask.Read bits count
            in IfOk result (λ b. streams.stream_reply self.old q ≡ reply.Given b) }
        ensures next { OnOk result (self.new
            ≡ streams.stream_next self.old (ask.Read bits count)) }
        ensures fault { let q = ask.Read bits count
            in let reply = streams.stream_reply self.old q
            in IfErr result (λ e. e ≢ StreamFault.NoMemory → reply_of e ≡ Some reply) }
        ensures err { OnErr result (self.new ≡ self.old) }
    {
        let Some(opened) = &mut self.opened else {
            return Err(StreamFault::NoSuch);
        };
        opened.check_read(bits)?;
        let next = opened.next_bytes(count);
        let given = Bytes::from_slice(opened.allocator(), next)?;
        let given = Boxed::new(opened.allocator(), given)?;
        opened.go_on(given.as_slice().len());
        Ok(given)
    }

    /// Reads the next bytes, so many at most, in two copies.
    pub(crate) fn give_twice(
        &mut self,
        bits: FdBits,
        count: usize,
    ) -> Result<(Boxed<Bytes>, Boxed<Bytes>), StreamFault>
        ensures first { let q = ask.Read bits count
            in IfOk result (λ r. streams.stream_reply self.old q ≡ reply.Given r.0) }
        ensures second { IfOk result (λ r. r.1 ≡ r.0) }
        ensures next { OnOk result (self.new
            ≡ streams.stream_next self.old (ask.Read bits count)) }
        ensures fault { let q = ask.Read bits count
            in let reply = streams.stream_reply self.old q
            in IfErr result (λ e. e ≢ StreamFault.NoMemory → reply_of e ≡ Some reply) }
        ensures err { OnErr result (self.new ≡ self.old) }
    {
        let copy = self.next_copied(bits, count)?;
        let given = self.give(bits, count)?;
        Ok((given, copy))
    }

    /// Adds bytes at the end. `NoSuch` where it is not live, else `Denied` without the bit to append, else
    /// `Bad` where it is a source.
    pub fn append(&mut self, bits: FdBits, bytes: &[u8]) -> Result<(), StreamFault>
        ensures ok { OnOk result (streams.stream_reply self.old (ask.Append bits bytes.now)
            ≡ reply.Appended) }
        ensures next { OnOk result (self.new
            ≡ streams.stream_next self.old (ask.Append bits bytes.now)) }
        ensures fault { IfErr result (λ e. e ≢ StreamFault.NoMemory
            → reply_of e ≡ Some (streams.stream_reply self.old (ask.Append bits bytes.now))) }
        ensures memory { result ≡ Err StreamFault.NoMemory
            → streams.stream_reply self.old (ask.Append bits bytes.now) ≡ reply.Appended }
        ensures err { OnErr result (self.new ≡ self.old) }
    {
        match &mut self.opened {
            Some(opened) => opened.append(bits, bytes),
            None => Err(StreamFault::NoSuch),
        }
    }

    /// Closes it; its bytes stay. `NoSuch` where it is not live, else `Denied` without the bit to read of a
    /// source, or to append of an append stream. It takes no memory.
    pub fn close(&mut self, bits: FdBits) -> Result<(), StreamFault>
        ensures ok { OnOk result (streams.stream_reply self.old (ask.Close bits) ≡ reply.Closed) }
        ensures next { OnOk result (self.new ≡ streams.stream_next self.old (ask.Close bits)) }
        ensures fault { IfErr result (λ e. reply_of e
            ≡ Some (streams.stream_reply self.old (ask.Close bits))) }
        ensures err { OnErr result (self.new ≡ self.old) }
    {
        match &mut self.opened {
            Some(opened) => opened.close(bits),
            None => Err(StreamFault::NoSuch),
        }
    }
}
