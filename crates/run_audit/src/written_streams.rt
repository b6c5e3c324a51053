//! What is written to the stream of a descriptor, by the entries of its history.

ghost use Rattle.std.specs.Prelude.{◌≡◌, option_map, IfOk};
ghost use Rattle.wedge_events.specs.Streams.{stream_after, stream_opening, with_more_bytes};
ghost use Rattle.run_audit.specs.StreamsLeft.{as_written, stream_over};

use image_form::Image;
use journal_cell::Entry;
use std::alloc::Global;
use std::marker::Model;
use wedge_base::{NoMemory, StreamKind};
use wedge_events::{StreamAsk, StreamReply};

/// The kind of a stream, and all its bytes. Contracts see it as a stream that was just opened with
/// them.
#[derive(Drop)]
pub(crate) struct WrittenStream {
    pub kind: StreamKind,
    pub bytes: Vec<u8>,
}

impl Model for WrittenStream {
    ghost use Rattle.wedge_events.specs.Streams.{Stream, new_stream};

    ghost Value = { Stream };

    ghost view = { λ s. new_stream s.kind s.bytes.items };
}

/// Returns the stream of a descriptor as a run begins.
fn stream_opening(alloc: Global, image: &Image, fd: u32) -> Result<Option<WrittenStream>, NoMemory>
    ensures { IfOk result (λ s. s ≡ stream_opening image.now fd) }
{
    match image.fds().get(fd as usize) {
        None => Ok(None),
        Some(entry) => Ok(Some(WrittenStream {
            kind: entry.kind,
            bytes: Vec::from_slice(alloc, entry.content.as_slice())?,
        })),
    }
}

/// Adds bytes at the end of a stream, if there is one.
fn with_more_bytes(
    written: Option<WrittenStream>,
    bytes: &[u8],
) -> Result<Option<WrittenStream>, NoMemory>
    ensures { IfOk result (λ s. as_written s
        ≡ as_written (option_map (with_more_bytes bytes.now) written)) }
{
    match written {
        None => Ok(None),
        Some(mut stream) => {
            stream.bytes.extend_from_slice(bytes)?;
            Ok(Some(stream))
        }
    }
}

/// Returns what an entry of its history makes of a stream.
fn apply_entry(
    alloc: Global,
    written: Option<WrittenStream>,
    entry: &Entry<StreamAsk, StreamReply>,
) -> Result<Option<WrittenStream>, NoMemory>
    ensures { IfOk result (λ s. as_written s
        ≡ as_written (stream_after written entry.now.ask entry.now.reply)) }
{
    match &entry.ask {
        StreamAsk::Open { kind, bytes } => Ok(Some(WrittenStream {
            kind: *kind,
            bytes: Vec::from_slice(alloc, bytes.as_slice())?,
        })),
        StreamAsk::Append { bytes, .. } => match &entry.reply {
            StreamReply::Appended => with_more_bytes(written, bytes.as_slice()),
            _ => Ok(written),
        },
        _ => Ok(written),
    }
}

/// Returns the stream of a descriptor as the entries of its history leave it.
pub(crate) fn stream_written(
    alloc: Global,
    image: &Image,
    fd: u32,
    entries: &[Entry<StreamAsk, StreamReply>],
) -> Result<Option<WrittenStream>, NoMemory>
    ensures { IfOk result (λ s. as_written s
        ≡ as_written (stream_over (stream_opening image.now fd) entries.now)) }
{
    let mut written = stream_opening(alloc, image, fd)?;
    for entry in entries {
        written = apply_entry(alloc, written, entry)?;
    }
    Ok(written)
}
