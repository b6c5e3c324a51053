//! The lines of append streams, read off the histories of descriptors.

ghost use Rattle.std.specs.Prelude.{◌≡◌, ◌++◌, ◌∷◌, [], length, IfOk, OnOk};
ghost use Rattle.machine.specs.Cells.{opening_cells};
ghost use Rattle.machine.specs.Outcomes as outcomes;
ghost use Rattle.thread_laws.specs.Joining.{streams_left};
ghost use Rattle.run_audit.specs.StreamsLeft.{stream_entries, stream_histories};

use crate::labels::{LabelReference, label_of};
use crate::sorts::HistoryByCell;
use crate::written_streams::{WrittenStream, stream_written};
use image_form::Image;
use journal_cell::Entry;
use std::alloc::Global;
use thread_laws::CellHistory;
use wedge_base::{FdNo, Items, MOST_FDS, NoMemory, StreamKind, StreamLine};
use wedge_events::{StreamAsk, StreamReply};

/// Adds a history after others, if it is that of a descriptor.
fn add_stream_history<'a>(
    mut all: Vec<HistoryByCell<'a>>,
    history: &'a CellHistory,
) -> Result<Vec<HistoryByCell<'a>>, NoMemory>
    ensures { IfOk result (λ v. v.items
        ≡ all.entry.items ++ stream_histories (history.now ∷ [])) }
{
    match history {
        CellHistory::Fd { .. } => {
            all.push(HistoryByCell { history })?;
            Ok(all)
        }
        _ => Ok(all),
    }
}

/// Returns the histories of descriptors.
fn stream_histories<'a>(
    alloc: Global,
    cells: &'a [CellHistory],
) -> Result<Vec<HistoryByCell<'a>>, NoMemory>
    ensures { IfOk result (λ v. v.items ≡ stream_histories cells.now) }
{
    let mut all = Vec::new(alloc);
    for history in cells {
        all = add_stream_history(all, history)?;
    }
    Ok(all)
}

/// Returns the entries of the first history of a descriptor; none where it is not listed.
fn stream_entries<'a>(
    histories: &[HistoryByCell<'a>],
    number: u32,
) -> &'a [Entry<StreamAsk, StreamReply>]
    ensures { result.now ≡ stream_entries histories.now number }
{
    for item in histories {
        if let CellHistory::Fd { fd, entries } = item.history {
            if fd.0 == number {
                return entries.as_slice();
            }
        }
    }
    &[]
}

/// Returns the line of an append stream.
fn stream_line(
    alloc: Global,
    image: &Image,
    labels: &[LabelReference<'_>],
    number: u32,
    stream: WrittenStream,
) -> Result<StreamLine, NoMemory>
    ensures { IfOk result (λ l. l ≡ record {
      number = number;
      label = outcomes.label_of image.now labels.now number;
      bytes = stream.bytes;
    }) }
{
    let WrittenStream { bytes, .. } = stream;
    Ok(StreamLine {
        number: FdNo(number),
        label: label_of(alloc, image, labels, number)?,
        bytes: Items::new(bytes),
    })
}

/// Adds the line of a stream, if it is an append stream.
fn add_stream(
    alloc: Global,
    image: &Image,
    labels: &[LabelReference<'_>],
    number: u32,
    stream: Option<WrittenStream>,
    lines: &mut Vec<StreamLine>,
) -> Result<(), NoMemory>
    ensures { OnOk result (lines.new.items ≡ lines.old.items
        ++ outcomes.with_stream image.now labels.now number stream []) }
{
    match stream {
        None => Ok(()),
        Some(written) => match written.kind {
            StreamKind::Source => Ok(()),
            StreamKind::Append => {
                lines.push(stream_line(alloc, image, labels, number, written)?)?;
                Ok(())
            }
        },
    }
}

/// Returns how many descriptors there are.
fn stream_count(image: &Image) -> u32
    ensures { result ≡ length (opening_cells image.now).streams }
{
    let declared = image.fds().len() as u32;
    if declared > MOST_FDS {
        declared
    } else {
        MOST_FDS
    }
}

/// Returns the lines of the append streams, by number.
pub(crate) fn stream_lines(
    alloc: Global,
    image: &Image,
    labels: &[LabelReference<'_>],
    cells: &[CellHistory],
) -> Result<Vec<StreamLine>, NoMemory>
    ensures { IfOk result (λ v. v.items
        ≡ outcomes.streams_of image.now labels.now 0 (streams_left image.now cells.now)) }
{
    let histories = stream_histories(alloc, cells)?;
    let count = stream_count(image);
    let mut lines = Vec::new(alloc);
    let mut number = 0;
    while number < count {
        let entries = stream_entries(histories.as_slice(), number);
        let stream = stream_written(alloc, image, number, entries)?;
        add_stream(alloc, image, labels, number, stream, &mut lines)?;
        number += 1;
    }
    Ok(lines)
}
