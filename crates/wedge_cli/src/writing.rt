//! Texts, and their writing.

ghost use Rattle.std.specs.Prelude.{◌≡◌, None, MatchResult};
ghost use Rattle.wedge_cli.specs.Outside.{device, sinks, Tried};
ghost use Rattle.refusal_lines.specs.Lines as lines;
ghost use Rattle.wedge_cli.specs.Ended.{TakesText, FailsText, AreTaken, OneFails, IsSaid, IsWritten, done_status};

use crate::status::{DISAGREED, DONE, Ended, WRITE_FAULT};
use audited_run::Differs;
use host_io::{Sink, WriteFault, write_whole};
use refusal_lines::write_fault_line;
use run_audit::RunJournal;
use wedge_base::Bytes;

/// One of the two sinks.
#[derive(Clone, Copy, Debug, PartialEq, Eq)]
pub enum SinkName {
    /// The output.
    Out,
    /// The error stream.
    Err,
}

/// A text for one of the two sinks.
#[derive(Debug, Drop)]
pub struct Text {
    pub sink: SinkName,
    pub bytes: Bytes,
}

/// What is kept of the run of a command: its journal, and what differed in it, if anything did. A command that runs
/// nothing keeps none of both.
#[derive(Debug, Drop)]
pub struct KeptRun {
    pub journal: Option<RunJournal>,
    pub differs: Option<Differs>,
}

/// The texts that a command writes, and what is kept of its run.
#[derive(Debug, Drop)]
pub(crate) struct Ready {
    pub kept: KeptRun,
    pub texts: Vec<Text>,
}

/// Writes a text on its sink.
fn write_text<O: Sink, E: Sink>(out: &mut O, err: &mut E, text: &Text) -> Result<(), WriteFault>
    ensures { MatchResult result
        (λ _. TakesText text.now
        (sinks (O.written out.old) (O.faults out.old) (E.written err.old) (E.faults err.old))
        (sinks (O.written out.new) (O.faults out.new) (E.written err.new) (E.faults err.new)))
        (λ _. FailsText text.now
        (sinks (O.written out.old) (O.faults out.old) (E.written err.old) (E.faults err.old))
        (sinks (O.written out.new) (O.faults out.new) (E.written err.new) (E.faults err.new))) }
{
    match text.sink {
        SinkName::Out => write_whole(out, text.bytes.as_slice()),
        SinkName::Err => write_whole(err, text.bytes.as_slice()),
    }
}

/// Writes texts in their order, up to the first that fails.
fn write_texts<O: Sink, E: Sink>(out: &mut O, err: &mut E, texts: &[Text]) -> Result<(), WriteFault>
    ensures { MatchResult result
        (λ _. AreTaken texts.now
        (sinks (O.written out.old) (O.faults out.old) (E.written err.old) (E.faults err.old))
        (sinks (O.written out.new) (O.faults out.new) (E.written err.new) (E.faults err.new)))
        (λ _. OneFails texts.now
        (sinks (O.written out.old) (O.faults out.old) (E.written err.old) (E.faults err.old))
        (sinks (O.written out.new) (O.faults out.new) (E.written err.new) (E.faults err.new))) }
{
    for text in texts {
        write_text(out, err, text)?;
    }
    Ok(())
}

/// Returns the status of what was done.
fn status_with(differs: &Option<Differs>) -> u8
    ensures { result ≡ done_status differs.now }
{
    match differs {
        None => DONE,
        Some(_) => DISAGREED,
    }
}

/// Writes what a command made, and ends with the status 0, or 7 where its run differs; with 5 where a write failed.
pub(crate) fn finish<O: Sink, E: Sink>(out: &mut O, err: &mut E, ready: Ready) -> Ended
    ensures { IsWritten (done_status ready.kept.differs) ready.kept ready.texts.items result
        (sinks (O.written out.old) (O.faults out.old) (E.written err.old) (E.faults err.old))
        (sinks (O.written out.new) (O.faults out.new) (E.written err.new) (E.faults err.new)) }
{
    let Ready { kept, texts } = ready;
    let KeptRun { journal, differs } = kept;
    match write_texts(out, err, texts.as_slice()) {
        Ok(()) => Ended {
            status: status_with(&differs),
            journal,
            differs,
        },
        Err(_) => {
            tell_write_fault(err);
            Ended {
                status: WRITE_FAULT,
                journal,
                differs: None,
            }
        }
    }
}

/// Writes a line on the error stream, and ends with a status; with 5 where the write failed.
pub(crate) fn say<E: Sink>(err: &mut E, status: u8, line: &[u8]) -> Ended
    ensures { IsSaid status line.now result
        (device (E.written err.old) (E.faults err.old))
        (device (E.written err.new) (E.faults err.new)) }
{
    match write_whole(err, line) {
        Ok(()) => Ended {
            status,
            journal: None,
            differs: None,
        },
        Err(_) => {
            tell_write_fault(err);
            Ended {
                status: WRITE_FAULT,
                journal: None,
                differs: None,
            }
        }
    }
}

/// Gives the error stream the line of a write that failed, once. A failure there is dropped.
fn tell_write_fault<E: Sink>(err: &mut E)
    ensures { Tried lines.write_fault_line
        (device (E.written err.old) (E.faults err.old))
        (device (E.written err.new) (E.faults err.new)) }
{
    let _ = write_whole(err, write_fault_line());
}
