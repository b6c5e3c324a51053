//! The line of each refusal.

ghost use Rattle.std.specs.Prelude.{◌≡◌, ◌++◌, codes, IfOk, OnOk};
ghost use Rattle.std.specs.Fmt.{decimal};
ghost use Rattle.refusal_lines.specs.Lines as lines;
ghost use Rattle.sheet_enforce.specs.Texts.{enforced_text};

use cli_inputs::{PartRefusal, Refusal, ScheduleRefusal};
use sheet_enforce::{Violation, write_enforced};
use std::alloc::{AllocError, Global};
use trace_form::TraceFault;
use wedge_base::NoMemory;
use wedge_core::Why;

/// Returns the line of arguments that are no command.
pub fn usage_line() -> &'static [u8]
    ensures { result.now ≡ lines.usage_line }
{
    b"wedge: usage\n"
}

/// Returns the line of a write that failed.
pub fn write_fault_line() -> &'static [u8]
    ensures { result.now ≡ lines.write_fault_line }
{
    b"wedge: write fault\n"
}

/// Returns the line of a call that ran out of memory.
pub fn no_memory_line() -> &'static [u8]
    ensures { result.now ≡ lines.line (codes "out of memory") }
{
    b"wedge: out of memory\n"
}

/// Returns the line of a refusal. Fails only where out of memory.
pub fn refusal_line(alloc: Global, refusal: &Refusal) -> Result<Vec<u8>, AllocError>
    ensures { IfOk result (λ v. v.items ≡ lines.line (lines.refusal_text refusal.now)) }
{
    match refusal {
        Refusal::NoMemory => Vec::from_slice(alloc, no_memory_line()),
        Refusal::Read { file } => read_line(alloc, file.as_slice()),
        Refusal::Image(fault) => refused_line(alloc, fault.at, fault.why.word()),
        Refusal::Elf(fault) => elf_line(alloc, *fault),
        Refusal::Partition(fault) => partition_line(alloc, fault),
        Refusal::Schedule(fault) => schedule_line(alloc, *fault),
        Refusal::Trace(fault) => trace_line(alloc, *fault),
        Refusal::NoSuchName { name } => no_such_name_line(alloc, name.as_slice()),
        Refusal::Violation(violation) => violation_line(alloc, violation),
    }
}

/// The line of a read that failed.
fn read_line(alloc: Global, name: &[u8]) -> Result<Vec<u8>, AllocError>
    ensures { IfOk result (λ v. v.items ≡ lines.line (codes "read fault: " ++ name.now)) }
{
    let mut line = Vec::from_slice(alloc, b"wedge: read fault: ")?;
    line.extend_from_slice(name)?;
    line.push(b'\n')?;
    Ok(line)
}

/// The line of an image that is refused at a place.
fn refused_line(alloc: Global, at: usize, word: &str) -> Result<Vec<u8>, AllocError>
    ensures { IfOk result (λ v. v.items ≡ lines.line (lines.refused_at at word.now)) }
{
    let mut line = Vec::from_slice(alloc, b"wedge: image refused at ")?;
    add_place(alloc, &mut line, at, b": ", word)?;
    line.push(b'\n')?;
    Ok(line)
}

/// The line of an ELF file that is refused.
fn elf_line(alloc: Global, fault: elf_in::Fault) -> Result<Vec<u8>, AllocError>
    ensures { IfOk result (λ v. v.items ≡ lines.line (lines.elf_text fault)) }
{
    let mut line = Vec::from_slice(alloc, b"wedge: elf refused at ")?;
    add_place(alloc, &mut line, fault.at, b": ", fault.why.word())?;
    line.push(b'\n')?;
    Ok(line)
}

/// The line of a partition that is refused.
fn partition_line(alloc: Global, fault: &PartRefusal) -> Result<Vec<u8>, AllocError>
    ensures { IfOk result (λ v. v.items
        ≡ lines.line (codes "partition refused: " ++ lines.part_text fault.now)) }
{
    let mut line = Vec::from_slice(alloc, b"wedge: partition refused: ")?;
    add_part(alloc, &mut line, fault)?;
    line.push(b'\n')?;
    Ok(line)
}

/// The line of a schedule that is refused.
fn schedule_line(alloc: Global, fault: ScheduleRefusal) -> Result<Vec<u8>, AllocError>
    ensures { IfOk result (λ v. v.items ≡ lines.line (lines.schedule_text fault)) }
{
    let (at, word) = match fault {
        ScheduleRefusal::Limit => (0, "limit"),
        ScheduleRefusal::Form { at } => (at, "form"),
        ScheduleRefusal::Replay { at, why } => (at, why_word(why)),
    };
    let mut line = Vec::from_slice(alloc, b"wedge: schedule refused at ")?;
    add_place(alloc, &mut line, at, b": ", word)?;
    line.push(b'\n')?;
    Ok(line)
}

/// The line of a trace that is refused.
fn trace_line(alloc: Global, fault: TraceFault) -> Result<Vec<u8>, AllocError>
    ensures { IfOk result (λ v. v.items ≡ lines.line (lines.trace_fault_text fault)) }
{
    let mut line = Vec::from_slice(alloc, b"wedge: trace refused at ")?;
    add_place(alloc, &mut line, fault.at, b": ", fault.why.word())?;
    line.push(b'\n')?;
    Ok(line)
}

/// The line of a name that a trace has not.
fn no_such_name_line(alloc: Global, name: &[u8]) -> Result<Vec<u8>, AllocError>
    ensures { IfOk result (λ v. v.items ≡ lines.line (codes "no such name: " ++ name.now)) }
{
    let mut line = Vec::from_slice(alloc, b"wedge: no such name: ")?;
    line.extend_from_slice(name)?;
    line.push(b'\n')?;
    Ok(line)
}

/// The line of an access that is not permitted.
fn violation_line(alloc: Global, violation: &Violation) -> Result<Vec<u8>, AllocError>
    ensures { IfOk result (λ v. v.items ≡ lines.line (enforced_text violation.now)) }
{
    let mut line = Vec::from_slice(alloc, b"wedge: ")?;
    if let Err(NoMemory) = write_enforced(&mut line, violation) {
        return Err(AllocError);
    }
    line.push(b'\n')?;
    Ok(line)
}

/// The word for why an actor has no turn.
fn why_word(why: Why) -> &'static str
    ensures { result.now ≡ lines.replay_why_word why }
{
    match why {
        Why::Unknown => "unknown",
        Why::Ended => "ended",
        Why::Waits => "waits",
        Why::Busy => "busy",
        Why::Short => "short",
        Why::Extra => "extra",
    }
}

/// Adds what is wrong with a partition.
fn add_part(alloc: Global, line: &mut Vec<u8>, fault: &PartRefusal) -> Result<(), AllocError>
    ensures { OnOk result (line.new.items ≡ line.old.items ++ lines.part_text fault.now) }
{
    match fault {
        PartRefusal::Limit => line.extend_from_slice(b"limit"),
        PartRefusal::Toml => line.extend_from_slice(b"toml"),
        PartRefusal::Key { name } => add_two(line, b"key ", name.as_slice()),
        PartRefusal::Kind { name } => add_two(line, b"kind ", name.as_slice()),
        PartRefusal::Asm { line: number, why } => {
            line.extend_from_slice(b"line ")?;
            add_place(alloc, line, *number, b" ", why.word())
        }
        PartRefusal::Image { at, why } => {
            line.extend_from_slice(b"image at ")?;
            add_place(alloc, line, *at, b": ", why.word())
        }
    }
}

/// Adds two texts.
fn add_two(line: &mut Vec<u8>, first: &[u8], second: &[u8]) -> Result<(), AllocError>
    ensures { OnOk result (line.new.items ≡ line.old.items ++ first.now ++ second.now) }
{
    line.extend_from_slice(first)?;
    line.extend_from_slice(second)?;
    Ok(())
}

/// Adds a number, the text after it, and a word.
fn add_place(
    alloc: Global,
    line: &mut Vec<u8>,
    at: usize,
    between: &[u8],
    word: &str,
) -> Result<(), AllocError>
    ensures { OnOk result (line.new.items
        ≡ line.old.items ++ decimal at ++ between.now ++ word.now) }
{
    let place = at.to_string(alloc)?;
    line.extend_from_slice(place.as_bytes())?;
    line.extend_from_slice(between)?;
    line.extend_from_slice(word.as_bytes())?;
    Ok(())
}
