//! Why a command is not done.

ghost use Rattle.std.specs.Prelude.{◌≡◌};
ghost use Rattle.cli_inputs.specs.declared.refusal.Refusal.TheVariants as errors;
ghost use Rattle.cli_inputs.specs.Refusals.{refusal_of, part_refusal_of, elf_refusal_of, joining_refusal_of, form_refusal_of, replay_refusal_of};

use elf_in::ElfError;
use image_form::{Fault, ImageError};
use part_toml::PartFault;
use report_text::ScheduleFault;
use sheet_enforce::Violation;
use trace_form::TraceFault;
use wedge_base::{Bytes, NoMemory};
use wedge_core::ReplayFault;

/// Why a command is not done.
#[derive(Debug)]
pub enum Refusal {
    /// Out of memory.
    NoMemory,
    /// A read of the file of this name failed.
    Read { file: Bytes },
    /// The bytes of the image's file are no image: the first fault.
    Image(Fault),
    /// The bytes of the partition's file are no partition.
    Partition(PartRefusal),
    /// The bytes of the schedule's file are no schedule of a complete run of the image.
    Schedule(ScheduleRefusal),
    /// The bytes of the trace's file are no trace: the first fault.
    Trace(TraceFault),
    /// The bytes of the ELF file are no program: the first fault.
    Elf(elf_in::Fault),
    /// The trace has no such procedure or item.
    NoSuchName { name: Bytes },
    /// The first access of the run that the sheets derived from the trace do not permit.
    Violation(Violation),
}

// By hand: a derived drop would be proved again in each function that drops one.
impl Drop for Refusal {
    fn drop(self) {
        match self {
            Refusal::NoMemory => {}
            Refusal::Read { file: _file } => {}
            Refusal::Image(_fault) => {}
            Refusal::Partition(_fault) => {}
            Refusal::Schedule(_fault) => {}
            Refusal::Trace(_fault) => {}
            Refusal::Elf(_fault) => {}
            Refusal::NoSuchName { name: _name } => {}
            Refusal::Violation(_violation) => {}
        }
    }
}

/// The first thing that is wrong with a partition's file.
#[derive(Debug, Drop)]
pub enum PartRefusal {
    /// It has more than 4 MiB.
    Limit,
    /// It is no TOML document.
    Toml,
    /// A key is missing or unknown, or gives the content of its table another time.
    Key { name: Bytes },
    /// The value of a key is not of its kind.
    Kind { name: Bytes },
    /// The assembler refuses a line of the text, or, at line 0, the entry is no procedure.
    Asm { line: usize, why: rv_asm::Why },
    /// The image is refused at a place of the bytes that would be written.
    Image { at: usize, why: image_form::Why },
}

/// The first thing that is wrong with a schedule's file. Lines have numbers from 1.
#[derive(Clone, Copy, Debug, PartialEq, Eq)]
pub enum ScheduleRefusal {
    /// It has more than 64 MiB.
    Limit,
    /// A line is no name of an actor and LF.
    Form { at: usize },
    /// The actor that a line names has no turn, or a line is missing behind the last.
    Replay { at: usize, why: wedge_core::Why },
}

impl From<NoMemory> for Refusal {
    ghost from_gives = { λ _ e. e ≡ errors.NoMemory };

    fn from(_e: NoMemory) -> Refusal {
        Refusal::NoMemory
    }
}

/// What a refused image is.
pub fn refused(error: ImageError) -> Refusal
    ensures { result ≡ refusal_of error }
{
    match error {
        ImageError::NoMemory => Refusal::NoMemory,
        ImageError::Fault(fault) => Refusal::Image(fault),
    }
}

/// Maps a schedule parse error to a refusal.
pub fn refused_form(fault: ScheduleFault) -> Refusal
    ensures { result ≡ form_refusal_of fault }
{
    match fault {
        ScheduleFault::NoMemory => Refusal::NoMemory,
        ScheduleFault::Form { at } => Refusal::Schedule(ScheduleRefusal::Form { at }),
    }
}

/// What a schedule is that has no replay.
pub fn refused_replay(fault: ReplayFault) -> Refusal
    ensures { result ≡ replay_refusal_of fault }
{
    match fault {
        ReplayFault::NoMemory => Refusal::NoMemory,
        ReplayFault::BadSchedule { at, why } => {
            Refusal::Schedule(ScheduleRefusal::Replay { at, why })
        }
    }
}

/// What a refused partition is.
pub fn refused_partition(fault: PartFault) -> Refusal
    ensures { result ≡ part_refusal_of fault }
{
    match fault {
        PartFault::NoMemory => Refusal::NoMemory,
        PartFault::Toml => Refusal::Partition(PartRefusal::Toml),
        PartFault::Key { name } => Refusal::Partition(PartRefusal::Key { name }),
        PartFault::Kind { name } => Refusal::Partition(PartRefusal::Kind { name }),
        PartFault::Asm { line, why } => Refusal::Partition(PartRefusal::Asm { line, why }),
        PartFault::Image { at, why } => Refusal::Partition(PartRefusal::Image { at, why }),
    }
}

/// What a rejected ELF file is.
pub fn refused_elf(error: ElfError) -> Refusal
    ensures { result ≡ elf_refusal_of error }
{
    match error {
        ElfError::NoMemory => Refusal::NoMemory,
        ElfError::Fault(fault) => Refusal::Elf(fault),
    }
}

/// Maps a partition error found while linking. A bad combined image is reported as an image error.
pub fn refused_joining(fault: PartFault) -> Refusal
    ensures { result ≡ joining_refusal_of fault }
{
    match fault {
        PartFault::Image { at, why } => Refusal::Image(Fault { at, why }),
        other => refused_partition(other),
    }
}
