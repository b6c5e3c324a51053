//! The text of each command that runs nothing on threads.

ghost use Rattle.std.specs.Prelude.{◌≡◌, ◌≤◌, ℕ, List, IfOk, IfErr};
ghost use Rattle.cli_inputs.specs.Words as asking;
ghost use Rattle.cli_inputs.specs.Loading.{IsRefusedBy, image_from_bytes, built_of};
ghost use Rattle.command_texts.specs.Causes.{IsLinkRefused, IsReplayRefused, IsTextRefused};
ghost use Rattle.command_texts.specs.Answers.{RunsNothing, IsTextOf, IsShown, IsBuilt, IsLinked, IsPairAnswer, IsTraceAnswer};
ghost use Rattle.cli_inputs.specs.Replaying as replays;
ghost use Rattle.cli_inputs.specs.Replaying.{report_made, trace_made};
ghost use Rattle.cli_inputs.specs.Traces.{derive_text, analyze_text, IsTraceRefused, IsQueryRefused};

use crate::checks::{emulate, enforce};
use cb_analyze::QueryFault;
use cli_inputs::{
    Command, FileKind, PartRefusal, Query, Refusal, link_text, listing, load_built, load_image,
    load_trace, log_text, program_of, query_text, read_file, read_partition_file, replay_text,
    sheets_text,
};
use host_io::Files;
use image_form::write_image;
use std::alloc::Global;
use wedge_base::Bytes;

/// Returns the text of a command that runs nothing on threads, or why there is none.
pub fn command_text<F: Files>(
    alloc: Global,
    command: Command<'_>,
    files: &mut F,
) -> Result<Vec<u8>, Refusal>
    requires { RunsNothing (asking.asked_by command) }
    ensures made { IfOk result (λ v.
        IsTextOf (asking.asked_by command.entry) (F.content files.old) v.items) }
    ensures refused { IfErr result (IsTextRefused (asking.asked_by command.entry)
        (F.content files.old) (F.faults files.old) (F.faults files.new)) }
    ensures content { (other : List ℕ) → F.content files.new other
        ≡ F.content files.old other }
    ensures rises { (other : List ℕ) → F.faults files.old other ≤ F.faults files.new other }
{
    match command {
        Command::Show { image } => show(alloc, files, image),
        Command::Build { part } => build(alloc, files, part),
        Command::Link { elf, part } => link(alloc, files, elf, part),
        Command::Replay { image, schedule } => replay(alloc, files, image, schedule),
        Command::Log { image, schedule } => log(alloc, files, image, schedule),
        Command::Emulate {
            image,
            schedule,
            trace,
        } => emulate(alloc, files, image, schedule, trace),
        Command::Enforce {
            image,
            schedule,
            trace,
        } => enforce(alloc, files, image, schedule, trace),
        Command::Derive { trace } => derive(alloc, files, trace),
        Command::Analyze { trace, query, name } => analyze(alloc, files, trace, query, name),
        Command::Run { .. } | Command::Gen { .. } => unreachable!(),
    }
}

/// Returns the listing of an image's text.
fn show<F: Files>(alloc: Global, files: &mut F, name: &str) -> Result<Vec<u8>, Refusal>
    ensures made { IfOk result
        (λ v. IsShown (F.content files.old name.now) v.items) }
    ensures refused { IfErr result
        (IsRefusedBy image_from_bytes name.now (F.content files.old name.now)
        (F.faults files.old name.now) (F.faults files.new name.now)) }
    ensures content { (other : List ℕ) → F.content files.new other
        ≡ F.content files.old other }
    ensures rises { (other : List ℕ) → F.faults files.old other ≤ F.faults files.new other }
{
    let image = load_image(alloc, files, name)?;
    let text = listing(alloc, &image)?;
    Ok(text)
}

/// Returns the bytes of the image of a partition.
fn build<F: Files>(alloc: Global, files: &mut F, name: &str) -> Result<Vec<u8>, Refusal>
    ensures made { IfOk result
        (λ v. IsBuilt (F.content files.old name.now) v.items) }
    ensures refused { IfErr result (IsRefusedBy built_of name.now (F.content files.old name.now)
        (F.faults files.old name.now) (F.faults files.new name.now)) }
    ensures content { (other : List ℕ) → F.content files.new other
        ≡ F.content files.old other }
    ensures rises { (other : List ℕ) → F.faults files.old other ≤ F.faults files.new other }
{
    let image = load_built(alloc, files, name)?;
    let bytes = write_image(alloc, &image)?;
    Ok(bytes)
}

/// Returns the bytes of the image that an ELF file and a partition are joined to. Both files are read first, in this order.
fn link<F: Files>(alloc: Global, files: &mut F, elf: &str, part: &str) -> Result<Vec<u8>, Refusal>
    ensures made { IfOk result (λ v. IsLinked (F.content files.old elf.now)
        (F.content files.old part.now) v.items) }
    ensures refused { IfErr result (IsLinkRefused elf.now part.now (F.content files.old)
        (F.faults files.old) (F.faults files.new)) }
    ensures content { (other : List ℕ) → F.content files.new other
        ≡ F.content files.old other }
    ensures rises { (other : List ℕ) → F.faults files.old other ≤ F.faults files.new other }
{
    let elf = read_file(alloc, files, FileKind::Elf, elf)?;
    let bytes = read_partition_file(alloc, files, part)?;
    let program = program_of(alloc, elf.as_slice())?;
    let Some(bytes) = bytes else {
        return Err(Refusal::Partition(PartRefusal::Limit));
    };
    let text = link_text(alloc, &program, bytes.as_slice())?;
    Ok(text)
}

/// Returns the report of the replay of a schedule over an image. Both files are read first, in this order.
fn replay<F: Files>(
    alloc: Global,
    files: &mut F,
    image: &str,
    schedule: &str,
) -> Result<Vec<u8>, Refusal>
    ensures made { IfOk result
        (λ v. IsPairAnswer replays.replay_text (F.content files.old image.now)
        (F.content files.old schedule.now) v.items) }
    ensures refused { IfErr result (IsReplayRefused report_made image.now schedule.now
        (F.content files.old)
        (F.faults files.old) (F.faults files.new)) }
    ensures content { (other : List ℕ) → F.content files.new other
        ≡ F.content files.old other }
    ensures rises { (other : List ℕ) → F.faults files.old other ≤ F.faults files.new other }
{
    let bytes = read_file(alloc, files, FileKind::Image, image)?;
    let names = read_file(alloc, files, FileKind::Schedule, schedule)?;
    let text = replay_text(alloc, bytes.as_slice(), names.as_slice())?;
    Ok(text)
}

/// Returns the trace of the replay of a schedule over an image. Both files are read first, in this order.
fn log<F: Files>(
    alloc: Global,
    files: &mut F,
    image: &str,
    schedule: &str,
) -> Result<Vec<u8>, Refusal>
    ensures made { IfOk result
        (λ v. IsPairAnswer replays.log_text (F.content files.old image.now)
        (F.content files.old schedule.now) v.items) }
    ensures refused { IfErr result (IsReplayRefused trace_made image.now schedule.now
        (F.content files.old)
        (F.faults files.old) (F.faults files.new)) }
    ensures content { (other : List ℕ) → F.content files.new other
        ≡ F.content files.old other }
    ensures rises { (other : List ℕ) → F.faults files.old other ≤ F.faults files.new other }
{
    let bytes = read_file(alloc, files, FileKind::Image, image)?;
    let names = read_file(alloc, files, FileKind::Schedule, schedule)?;
    let text = log_text(alloc, bytes.as_slice(), names.as_slice())?;
    Ok(text)
}

/// Returns the sheets that a trace needs.
fn derive<F: Files>(alloc: Global, files: &mut F, trace: &str) -> Result<Vec<u8>, Refusal>
    ensures made { IfOk result (λ v. IsTraceAnswer derive_text (F.content files.old trace.now)
        v.items) }
    ensures refused { IfErr result (IsTraceRefused trace.now (F.content files.old trace.now)
        (F.faults files.old trace.now) (F.faults files.new trace.now)) }
    ensures content { (other : List ℕ) → F.content files.new other
        ≡ F.content files.old other }
    ensures rises { (other : List ℕ) → F.faults files.old other ≤ F.faults files.new other }
{
    let bytes = load_trace(alloc, files, trace)?;
    let text = sheets_text(alloc, bytes.as_slice())?;
    Ok(text)
}

/// Returns the answer to a query of a trace.
fn analyze<F: Files>(
    alloc: Global,
    files: &mut F,
    trace: &str,
    query: Query,
    name: &str,
) -> Result<Vec<u8>, Refusal>
    ensures made { IfOk result (λ v. IsTraceAnswer (analyze_text query name.now)
        (F.content files.old trace.now) v.items) }
    ensures refused { IfErr result (IsQueryRefused query name.now trace.now
        (F.content files.old trace.now) (F.faults files.old trace.now)
        (F.faults files.new trace.now)) }
    ensures content { (other : List ℕ) → F.content files.new other
        ≡ F.content files.old other }
    ensures rises { (other : List ℕ) → F.faults files.old other ≤ F.faults files.new other }
{
    let bytes = load_trace(alloc, files, trace)?;
    match query_text(alloc, bytes.as_slice(), query, name.as_bytes()) {
        Ok(text) => Ok(text),
        Err(QueryFault::NoMemory) => Err(Refusal::NoMemory),
        Err(QueryFault::NoSuchName) => {
            let name = Bytes::from_slice(alloc, name.as_bytes())?;
            Err(Refusal::NoSuchName { name })
        }
    }
}
