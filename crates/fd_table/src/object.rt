//! A stream as a cell.

ghost use Rattle.std.specs.Prelude.{◌≡◌, Some, IfOk, OnErr};
ghost use Rattle.fd_table.specs.Faults.{reply_of};

use crate::fault::StreamFault;
use crate::opened::Opened;
use crate::stream::Stream;
use wedge_base::NoMemory;
use wedge_events::{Object, StreamAsk, StreamReply};

impl Object for Stream {
    ghost use Rattle.std.specs.Prelude.{◌≡◌, IfOk, OnErr};
    ghost use Rattle.wedge_events.specs.Streams.{stream_reply, stream_next, StreamFits};
    ghost use Rattle.fd_table.specs.Openings.{initial_stream};

    type Ask = StreamAsk;

    type Reply = StreamReply;

    ghost reply = { stream_reply };

    ghost next = { stream_next };

    ghost opening = { initial_stream };

    ghost fits = { λ _ s q. StreamFits s q };

    fn act(&mut self, ask: &StreamAsk) -> Result<(StreamReply, StreamReply), NoMemory>
        ensures first { IfOk result (λ r. r.0 ≡ stream_reply self.old ask.now) }
        ensures second { IfOk result (λ r. r.1 ≡ stream_reply self.old ask.now) }
        ensures after { IfOk result (λ r. self.new ≡ stream_next self.old ask.now) }
        ensures err { OnErr result (self.new ≡ self.old) }
    {
        match ask {
            StreamAsk::Open { kind, bytes } => {
                self.begin(*kind, bytes)?;
                Ok((StreamReply::Opened, StreamReply::Opened))
            }
            StreamAsk::Read { bits, count } => match self.give_twice(*bits, *count as usize) {
                Ok((bytes, copy)) => Ok((
                    StreamReply::Given { bytes },
                    StreamReply::Given { bytes: copy },
                )),
                Err(fault) => replies(fault),
            },
            StreamAsk::Append { bits, bytes } => match self.append(*bits, bytes.as_slice()) {
                Ok(()) => Ok((StreamReply::Appended, StreamReply::Appended)),
                Err(fault) => replies(fault),
            },
            StreamAsk::Close { bits } => match self.close(*bits) {
                Ok(()) => Ok((StreamReply::Closed, StreamReply::Closed)),
                Err(fault) => replies(fault),
            },
        }
    }

    fn act_once(&mut self, ask: &StreamAsk) -> Result<StreamReply, NoMemory>
        ensures is { IfOk result (λ r. r ≡ stream_reply self.old ask.now) }
        ensures after { IfOk result (λ r. self.new ≡ stream_next self.old ask.now) }
        ensures err { OnErr result (self.new ≡ self.old) }
    {
        match ask {
            StreamAsk::Open { kind, bytes } => {
                self.begin(*kind, bytes)?;
                Ok(StreamReply::Opened)
            }
            StreamAsk::Read { bits, count } => match self.give(*bits, *count as usize) {
                Ok(bytes) => Ok(StreamReply::Given { bytes }),
                Err(fault) => reply_to(fault),
            },
            StreamAsk::Append { bits, bytes } => match self.append(*bits, bytes.as_slice()) {
                Ok(()) => Ok(StreamReply::Appended),
                Err(fault) => reply_to(fault),
            },
            StreamAsk::Close { bits } => match self.close(*bits) {
                Ok(()) => Ok(StreamReply::Closed),
                Err(fault) => reply_to(fault),
            },
        }
    }

    fn copy_ask(ask: &StreamAsk) -> Result<StreamAsk, NoMemory> {
        ask.copy()
    }
}

/// The reply that a fault stands for.
fn reply_to(fault: StreamFault) -> Result<StreamReply, NoMemory>
    ensures ok { IfOk result (λ r. reply_of fault ≡ Some r) }
    ensures err { OnErr result (fault ≡ StreamFault.NoMemory) }
{
    match fault {
        StreamFault::NoMemory => Err(NoMemory),
        StreamFault::NoSuch => Ok(StreamReply::NoSuch),
        StreamFault::Denied { wants } => Ok(StreamReply::Denied { wants }),
        StreamFault::Bad => Ok(StreamReply::Bad),
    }
}

/// The reply that a fault stands for, in two copies.
fn replies(fault: StreamFault) -> Result<(StreamReply, StreamReply), NoMemory>
    ensures first { IfOk result (λ r. reply_of fault ≡ Some r.0) }
    ensures second { IfOk result (λ r. reply_of fault ≡ Some r.1) }
    ensures err { OnErr result (fault ≡ StreamFault.NoMemory) }
{
    match fault {
        StreamFault::NoMemory => Err(NoMemory),
        StreamFault::NoSuch => Ok((StreamReply::NoSuch, StreamReply::NoSuch)),
        StreamFault::Denied { wants } => Ok((
            StreamReply::Denied { wants },
            StreamReply::Denied { wants },
        )),
        StreamFault::Bad => Ok((StreamReply::Bad, StreamReply::Bad)),
    }
}
