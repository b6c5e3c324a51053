//! The top call.

ghost use Rattle.std.specs.Prelude.{◌≡◌, ◌≤◌, ◌<◌, ◌⊎◌, ℕ, List, codes, Some, None, IsSome};
ghost use Rattle.cli_inputs.specs.Words as asking;
ghost use Rattle.cli_inputs.specs.Words.{Asked, command_of, texts};
ghost use Rattle.wedge_cli.specs.Outside.{outside, sinks, device};
ghost use Rattle.refusal_lines.specs.Lines as lines;
ghost use Rattle.wedge_cli.specs.Ended.{IsSaid, IsRunDone, IsScheduleDone, IsStatsDone, IsMadeAgain, IsRunEnd, IsLinkDone, IsGenDone, IsGenMadeAgain, IsGenEnd, IsCutShort, IsAnswerEnd, HasEnd};
ghost use Rattle.cli_inputs.specs.Loading.{image_from_bytes};
ghost use Rattle.cli_inputs.specs.Linking.{link_text};
ghost use Rattle.cli_inputs.specs.Enforcing.{emulate_text, enforce_text, IsOwnTrace};
ghost use Rattle.cli_inputs.specs.Replaying.{log_text, replay_text};
ghost use Rattle.cli_inputs.specs.Traces.{derive_text, analyze_text};
ghost use Rattle.wedge_cli.specs.Causes.{IsUnfit, IsRejected, IsElfRejected, IsUnknown, IsViolated, IsUnreadable, SaysRefusal, IsCommandAnswer};

use crate::commands::prepare;
use crate::status::{
    ELF_REFUSED, ENFORCED, Ended, NO_MEMORY, NO_SUCH_NAME, READ_FAULT, REFUSED, REJECTED, USAGE,
};
use crate::writing::{finish, say};
use cli_inputs::{Query, Refusal, RunFlag, WordsFault, read_words};
use host_io::{Files, Pace, Sink};
use refusal_lines::{no_memory_line, refusal_line, usage_line};
use std::alloc::Global;
use std::sync::Wait;
use std::thread::Threads;

/// Does what the arguments ask: `run IMAGE` runs an image on threads and writes its report on `out`, `show IMAGE`
/// writes the listing of its text, `build PART` makes an image of a partition and writes its bytes, and `link ELF PART`
/// does so with the program of an ELF file in place of the partition's text.
/// `run IMAGE --schedule` writes the schedule of the run on `out` and its report on `err`;
/// `replay IMAGE SCHEDULE` takes the turns of a schedule and writes the report of the run that they make.
/// `log IMAGE SCHEDULE` writes the trace of that run. `emulate IMAGE SCHEDULE TRACE` writes its report and each access
/// that the sheets derived from a trace do not permit, and `enforce IMAGE SCHEDULE TRACE` its report if there is none.
/// `derive TRACE` writes the sheets that a trace needs, and `analyze TRACE accessed PROC`,
/// `analyze TRACE users ITEM` and `analyze TRACE written PROC` write the lines that answer a query of it.
/// `gen N` runs the workload of N workers on threads and writes the line that sums the run up on `out`; it reads no file.
///
/// A run on threads is that of the interleaving which its journal has. Where the logs of its actors and the histories
/// of its cells differ, the image is run again on one thread, and that run's texts are written, with a line of what
/// differs on `err` and the status 7. `pace` is called before each shared event of a run.
///
/// The status is 0 where that was written; 2 where the arguments are no command; 3 where a file's bytes
/// encode no image, or no partition; 4 where a read failed; 5 where a write failed; 6 where memory ran
/// out; 8 where a file is no schedule of a complete run of the image, or no trace; 9 where a trace has no
/// procedure or no item of the name that is asked for; 10 where a file is no ELF file of a program; 11 where a run that is to
/// be enforced has an access that is not permitted. A refusal leaves
/// `out` alone and writes one line on `err`. A write that
/// fails leaves a prefix of its text, and is reported once on `err`.
pub fn wedge<R: Threads + Wait + Sync, F: Files, O: Sink, E: Sink, P: Pace + Sync>(
    rt: &R,
    alloc: Global,
    words: &[String],
    files: &mut F,
    out: &mut O,
    err: &mut E,
    pace: &P,
) -> Ended
    // Of `run IMAGE` and the status 0: the file encodes an image, the journal is that of a complete
    // run of it on threads, and its report alone was written.
    ensures run { (image bytes : List ℕ)
        → command_of (texts words.now) ≡ Some (asking.Run image RunFlag.Plain)
        → F.content files.old image ≡ Some bytes → result.status ≡ 0
        → IsRunDone bytes result.journal
        (sinks (O.written out.old) (O.faults out.old) (E.written err.old) (E.faults err.old))
        (sinks (O.written out.new) (O.faults out.new) (E.written err.new) (E.faults err.new)) }

    // Of `run IMAGE --schedule` and the status 0: the same, with the schedule on `out` and the report on
    // `err`; and the schedule, replayed over the same image, gives the same report.
    ensures schedule { (image bytes : List ℕ)
        → command_of (texts words.now) ≡ Some (asking.Run image RunFlag.Schedule)
        → F.content files.old image ≡ Some bytes → result.status ≡ 0
        → IsScheduleDone bytes result.journal
        (sinks (O.written out.old) (O.faults out.old) (E.written err.old) (E.faults err.old))
        (sinks (O.written out.new) (O.faults out.new) (E.written err.new) (E.faults err.new)) }

    // Of `run IMAGE --stats` and the status 0: after the report, there is a line for each of its actors, with the
    // counts of the actor's cache of rights for its entries in the journal.
    ensures stats { (image bytes : List ℕ)
        → command_of (texts words.now) ≡ Some (asking.Run image RunFlag.Stats)
        → F.content files.old image ≡ Some bytes → result.status ≡ 0
        → IsStatsDone bytes result.journal
        (sinks (O.written out.old) (O.faults out.old) (E.written err.old) (E.faults err.old))
        (sinks (O.written out.new) (O.faults out.new) (E.written err.new) (E.faults err.new)) }

    // Of all of these and the status 7: what the threads left differs; and the journal, what was written and the schedule are
    // those of a complete run on one thread.
    ensures again { (image bytes : List ℕ) (flag : RunFlag)
        → command_of (texts words.now) ≡ Some (asking.Run image flag)
        → F.content files.old image ≡ Some bytes → result.status ≡ 7
        → IsMadeAgain bytes flag result
        (sinks (O.written out.old) (O.faults out.old) (E.written err.old) (E.faults err.old))
        (sinks (O.written out.new) (O.faults out.new) (E.written err.new) (E.faults err.new)) }

    // Of all of these, where no read or write failed and memory did not run out: an image is run, and other bytes are refused.
    ensures run_ends { (image bytes : List ℕ) (flag : RunFlag)
        → command_of (texts words.now) ≡ Some (asking.Run image flag)
        → F.content files.old image ≡ Some bytes
        → IsCutShort result.status ⊎ IsRunEnd (image_from_bytes bytes) result.status
        (sinks (O.written out.old) (O.faults out.old) (E.written err.old) (E.faults err.old))
        (sinks (O.written out.new) (O.faults out.new) (E.written err.new) (E.faults err.new)) }

    // Of `gen N` and the status 0: the journal is that of a complete run of the workload of N workers on threads, and the
    // line that sums it up alone was written.
    ensures workload { (workers : ℕ)
        → command_of (texts words.now) ≡ Some (asking.Gen workers) → result.status ≡ 0
        → IsGenDone workers result.journal
        (sinks (O.written out.old) (O.faults out.old) (E.written err.old) (E.faults err.old))
        (sinks (O.written out.new) (O.faults out.new) (E.written err.new) (E.faults err.new)) }

    // Of `gen N` and the status 7: what the threads left differs; and the journal and what was written are those of a
    // complete run on one thread.
    ensures workload_again { (workers : ℕ)
        → command_of (texts words.now) ≡ Some (asking.Gen workers) → result.status ≡ 7
        → IsGenMadeAgain workers result
        (sinks (O.written out.old) (O.faults out.old) (E.written err.old) (E.faults err.old))
        (sinks (O.written out.new) (O.faults out.new) (E.written err.new) (E.faults err.new)) }

    // `gen N` ends with one of both, unless a write failed or memory ran out.
    ensures workload_ends { (workers : ℕ)
        → command_of (texts words.now) ≡ Some (asking.Gen workers) → IsGenEnd result.status }

    // Of `link ELF PART`, where no read or write failed and memory did not run out: what the bytes of the two files
    // say. Where the ELF file is rejected, that is the status 10 and its line.
    ensures link { (elf part bytes text : List ℕ)
        → command_of (texts words.now) ≡ Some (asking.Link elf part)
        → F.content files.old elf ≡ Some bytes → F.content files.old part ≡ Some text
        → IsCutShort result.status ⊎ IsAnswerEnd (link_text bytes text) result.status
        (sinks (O.written out.old) (O.faults out.old) (E.written err.old) (E.faults err.old))
        (sinks (O.written out.new) (O.faults out.new) (E.written err.new) (E.faults err.new)) }

    // With the status 0: each byte of the image's text and data that lies in a load is the file's byte, or zero past
    // the load's size in the file; and what is around a load is zero.
    ensures link_done { (elf part bytes : List ℕ)
        → command_of (texts words.now) ≡ Some (asking.Link elf part)
        → F.content files.old elf ≡ Some bytes → result.status ≡ 0
        → IsLinkDone bytes
        (sinks (O.written out.old) (O.faults out.old) (E.written err.old) (E.faults err.old))
        (sinks (O.written out.new) (O.faults out.new) (E.written err.new) (E.faults err.new)) }

    // Of `replay IMAGE SCHEDULE`, where no read or write failed and memory did not run out: what the
    // bytes of the two files say.
    ensures replay { (image schedule bytes names : List ℕ)
        → command_of (texts words.now) ≡ Some (asking.Replay image schedule)
        → F.content files.old image ≡ Some bytes → F.content files.old schedule ≡ Some names
        → IsCutShort result.status ⊎ IsAnswerEnd (replay_text bytes names) result.status
        (sinks (O.written out.old) (O.faults out.old) (E.written err.old) (E.faults err.old))
        (sinks (O.written out.new) (O.faults out.new) (E.written err.new) (E.faults err.new)) }

    // Of `log IMAGE SCHEDULE`, where no read or write failed and memory did not run out: what the bytes of both files
    // say. They are refused as those of a replay are.
    ensures log { (image schedule bytes names : List ℕ)
        → command_of (texts words.now) ≡ Some (asking.Log image schedule)
        → F.content files.old image ≡ Some bytes → F.content files.old schedule ≡ Some names
        → IsCutShort result.status ⊎ IsAnswerEnd (log_text bytes names) result.status
        (sinks (O.written out.old) (O.faults out.old) (E.written err.old) (E.faults err.old))
        (sinks (O.written out.new) (O.faults out.new) (E.written err.new) (E.faults err.new)) }

    // Of `emulate IMAGE SCHEDULE TRACE`, where no read or write failed and memory did not run out: what the bytes of the
    // three files say.
    ensures emulate { (image schedule trace bytes names records : List ℕ)
        → command_of (texts words.now) ≡ Some (asking.Emulate image schedule trace)
        → F.content files.old image ≡ Some bytes → F.content files.old schedule ≡ Some names
        → F.content files.old trace ≡ Some records
        → IsCutShort result.status ⊎ IsAnswerEnd (emulate_text bytes names records) result.status
        (sinks (O.written out.old) (O.faults out.old) (E.written err.old) (E.faults err.old))
        (sinks (O.written out.new) (O.faults out.new) (E.written err.new) (E.faults err.new)) }

    // Of `enforce IMAGE SCHEDULE TRACE`: the same.
    ensures enforce { (image schedule trace bytes names records : List ℕ)
        → command_of (texts words.now) ≡ Some (asking.Enforce image schedule trace)
        → F.content files.old image ≡ Some bytes → F.content files.old schedule ≡ Some names
        → F.content files.old trace ≡ Some records
        → IsCutShort result.status ⊎ IsAnswerEnd (enforce_text bytes names records) result.status
        (sinks (O.written out.old) (O.faults out.old) (E.written err.old) (E.faults err.old))
        (sinks (O.written out.new) (O.faults out.new) (E.written err.new) (E.faults err.new)) }

    // Where the trace is the run's own, all is permitted, and `emulate` and `enforce` end as `replay` does.
    ensures own_trace { (image schedule trace bytes names records : List ℕ)
        → (command_of (texts words.now) ≡ Some (asking.Emulate image schedule trace))
        ⊎ (command_of (texts words.now) ≡ Some (asking.Enforce image schedule trace))
        → F.content files.old image ≡ Some bytes → F.content files.old schedule ≡ Some names
        → F.content files.old trace ≡ Some records → IsOwnTrace bytes names records
        → IsCutShort result.status ⊎ IsAnswerEnd (replay_text bytes names) result.status
        (sinks (O.written out.old) (O.faults out.old) (E.written err.old) (E.faults err.old))
        (sinks (O.written out.new) (O.faults out.new) (E.written err.new) (E.faults err.new)) }

    // Of `derive TRACE`, where no read or write failed and memory did not run out: what the bytes of the
    // file say.
    ensures derive { (trace bytes : List ℕ)
        → command_of (texts words.now) ≡ Some (asking.Derive trace)
        → F.content files.old trace ≡ Some bytes
        → IsCutShort result.status ⊎ IsAnswerEnd (derive_text bytes) result.status
        (sinks (O.written out.old) (O.faults out.old) (E.written err.old) (E.faults err.old))
        (sinks (O.written out.new) (O.faults out.new) (E.written err.new) (E.faults err.new)) }

    // Of `analyze TRACE QUERY NAME`: the same.
    ensures analyze { (trace name bytes : List ℕ) (query : Query)
        → command_of (texts words.now) ≡ Some (asking.Analyze trace query name)
        → F.content files.old trace ≡ Some bytes
        → IsCutShort result.status ⊎ IsAnswerEnd (analyze_text query name bytes) result.status
        (sinks (O.written out.old) (O.faults out.old) (E.written err.old) (E.faults err.old))
        (sinks (O.written out.new) (O.faults out.new) (E.written err.new) (E.faults err.new)) }

    // Of all commands and statuses.
    ensures answer { IsCommandAnswer (command_of (texts words.now)) result
        (outside (F.content files.old) (F.faults files.old)
        (sinks (O.written out.old) (O.faults out.old) (E.written err.old) (E.faults err.old)))
        (outside (F.content files.new) (F.faults files.new)
        (sinks (O.written out.new) (O.faults out.new) (E.written err.new) (E.faults err.new))) }
    ensures content { (other : List ℕ) → F.content files.new other
        ≡ F.content files.old other }
    ensures rises { (other : List ℕ) → F.faults files.old other ≤ F.faults files.new other }

    // why each status comes
    ensures usage_only { result.status ≡ 2 → command_of (texts words.now) ≡ None }
    ensures image_only { (a : Asked) → command_of (texts words.now) ≡ Some a
        → result.status ≡ 3
        → IsUnfit a (F.content files.old) }
    ensures rejected_only { (a : Asked) → command_of (texts words.now) ≡ Some a
        → result.status ≡ 8
        → IsRejected a (F.content files.old) }
    ensures elf_only { (a : Asked) → command_of (texts words.now) ≡ Some a
        → result.status ≡ 10
        → IsElfRejected a (F.content files.old) }
    ensures name_only { (a : Asked) → command_of (texts words.now) ≡ Some a
        → result.status ≡ 9
        → IsUnknown a (F.content files.old) }
    ensures enforced_only { (a : Asked) → command_of (texts words.now) ≡ Some a
        → result.status ≡ 11
        → IsViolated a (F.content files.old) }
    ensures read_only { (a : Asked) → command_of (texts words.now) ≡ Some a
        → result.status ≡ 4
        → IsUnreadable a (F.faults files.old) (F.faults files.new) }
    ensures write_only { result.status ≡ 5
        → (O.faults out.old < O.faults out.new) ⊎ (E.faults err.old < E.faults err.new) }
    ensures unwritten { result.status ≡ 6
        → device (O.written out.new) (O.faults out.new)
        ≡ device (O.written out.old) (O.faults out.old) }
    ensures differs_only { result.status ≡ 7 → IsSome result.differs }
    ensures differs { IsSome result.differs → result.status ≡ 7 }
{
    does(rt, alloc, words, files, out, err, pace)
}

/// Does what the arguments ask, as [`wedge`] does, and returns the exit status alone: for a caller that keeps no journal.
pub fn exit_status<R: Threads + Wait + Sync, F: Files, O: Sink, E: Sink, P: Pace + Sync>(
    rt: &R,
    alloc: Global,
    words: &[String],
    files: &mut F,
    out: &mut O,
    err: &mut E,
    pace: &P,
) -> u8
    ensures run { (image bytes : List ℕ)
        → command_of (texts words.now) ≡ Some (asking.Run image RunFlag.Plain)
        → F.content files.old image ≡ Some bytes → result ≡ 0
        → HasEnd result (λ ended. IsRunDone bytes ended.journal
        (sinks (O.written out.old) (O.faults out.old) (E.written err.old) (E.faults err.old))
        (sinks (O.written out.new) (O.faults out.new) (E.written err.new) (E.faults err.new))) }
    ensures schedule { (image bytes : List ℕ)
        → command_of (texts words.now) ≡ Some (asking.Run image RunFlag.Schedule)
        → F.content files.old image ≡ Some bytes → result ≡ 0
        → HasEnd result (λ ended. IsScheduleDone bytes ended.journal
        (sinks (O.written out.old) (O.faults out.old) (E.written err.old) (E.faults err.old))
        (sinks (O.written out.new) (O.faults out.new) (E.written err.new) (E.faults err.new))) }
    ensures stats { (image bytes : List ℕ)
        → command_of (texts words.now) ≡ Some (asking.Run image RunFlag.Stats)
        → F.content files.old image ≡ Some bytes → result ≡ 0
        → HasEnd result (λ ended. IsStatsDone bytes ended.journal
        (sinks (O.written out.old) (O.faults out.old) (E.written err.old) (E.faults err.old))
        (sinks (O.written out.new) (O.faults out.new) (E.written err.new) (E.faults err.new))) }
    ensures again { (image bytes : List ℕ) (flag : RunFlag)
        → command_of (texts words.now) ≡ Some (asking.Run image flag)
        → F.content files.old image ≡ Some bytes → result ≡ 7
        → HasEnd result (λ ended. IsMadeAgain bytes flag ended
        (sinks (O.written out.old) (O.faults out.old) (E.written err.old) (E.faults err.old))
        (sinks (O.written out.new) (O.faults out.new) (E.written err.new) (E.faults err.new))) }
    ensures run_ends { (image bytes : List ℕ) (flag : RunFlag)
        → command_of (texts words.now) ≡ Some (asking.Run image flag)
        → F.content files.old image ≡ Some bytes
        → IsCutShort result ⊎ IsRunEnd (image_from_bytes bytes) result
        (sinks (O.written out.old) (O.faults out.old) (E.written err.old) (E.faults err.old))
        (sinks (O.written out.new) (O.faults out.new) (E.written err.new) (E.faults err.new)) }
    ensures workload { (workers : ℕ)
        → command_of (texts words.now) ≡ Some (asking.Gen workers) → result ≡ 0
        → HasEnd result (λ ended. IsGenDone workers ended.journal
        (sinks (O.written out.old) (O.faults out.old) (E.written err.old) (E.faults err.old))
        (sinks (O.written out.new) (O.faults out.new) (E.written err.new) (E.faults err.new))) }
    ensures workload_again { (workers : ℕ)
        → command_of (texts words.now) ≡ Some (asking.Gen workers) → result ≡ 7
        → HasEnd result (λ ended. IsGenMadeAgain workers ended
        (sinks (O.written out.old) (O.faults out.old) (E.written err.old) (E.faults err.old))
        (sinks (O.written out.new) (O.faults out.new) (E.written err.new) (E.faults err.new))) }
    ensures workload_ends { (workers : ℕ)
        → command_of (texts words.now) ≡ Some (asking.Gen workers) → IsGenEnd result }
    ensures link { (elf part bytes text : List ℕ)
        → command_of (texts words.now) ≡ Some (asking.Link elf part)
        → F.content files.old elf ≡ Some bytes → F.content files.old part ≡ Some text
        → IsCutShort result ⊎ IsAnswerEnd (link_text bytes text) result
        (sinks (O.written out.old) (O.faults out.old) (E.written err.old) (E.faults err.old))
        (sinks (O.written out.new) (O.faults out.new) (E.written err.new) (E.faults err.new)) }
    ensures link_done { (elf part bytes : List ℕ)
        → command_of (texts words.now) ≡ Some (asking.Link elf part)
        → F.content files.old elf ≡ Some bytes → result ≡ 0
        → IsLinkDone bytes
        (sinks (O.written out.old) (O.faults out.old) (E.written err.old) (E.faults err.old))
        (sinks (O.written out.new) (O.faults out.new) (E.written err.new) (E.faults err.new)) }
    ensures replay { (image schedule bytes names : List ℕ)
        → command_of (texts words.now) ≡ Some (asking.Replay image schedule)
        → F.content files.old image ≡ Some bytes → F.content files.old schedule ≡ Some names
        → IsCutShort result ⊎ IsAnswerEnd (replay_text bytes names) result
        (sinks (O.written out.old) (O.faults out.old) (E.written err.old) (E.faults err.old))
        (sinks (O.written out.new) (O.faults out.new) (E.written err.new) (E.faults err.new)) }
    ensures log { (image schedule bytes names : List ℕ)
        → command_of (texts words.now) ≡ Some (asking.Log image schedule)
        → F.content files.old image ≡ Some bytes → F.content files.old schedule ≡ Some names
        → IsCutShort result ⊎ IsAnswerEnd (log_text bytes names) result
        (sinks (O.written out.old) (O.faults out.old) (E.written err.old) (E.faults err.old))
        (sinks (O.written out.new) (O.faults out.new) (E.written err.new) (E.faults err.new)) }
    ensures emulate { (image schedule trace bytes names records : List ℕ)
        → command_of (texts words.now) ≡ Some (asking.Emulate image schedule trace)
        → F.content files.old image ≡ Some bytes → F.content files.old schedule ≡ Some names
        → F.content files.old trace ≡ Some records
        → IsCutShort result ⊎ IsAnswerEnd (emulate_text bytes names records) result
        (sinks (O.written out.old) (O.faults out.old) (E.written err.old) (E.faults err.old))
        (sinks (O.written out.new) (O.faults out.new) (E.written err.new) (E.faults err.new)) }
    ensures enforce { (image schedule trace bytes names records : List ℕ)
        → command_of (texts words.now) ≡ Some (asking.Enforce image schedule trace)
        → F.content files.old image ≡ Some bytes → F.content files.old schedule ≡ Some names
        → F.content files.old trace ≡ Some records
        → IsCutShort result ⊎ IsAnswerEnd (enforce_text bytes names records) result
        (sinks (O.written out.old) (O.faults out.old) (E.written err.old) (E.faults err.old))
        (sinks (O.written out.new) (O.faults out.new) (E.written err.new) (E.faults err.new)) }
    ensures own_trace { (image schedule trace bytes names records : List ℕ)
        → (command_of (texts words.now) ≡ Some (asking.Emulate image schedule trace))
        ⊎ (command_of (texts words.now) ≡ Some (asking.Enforce image schedule trace))
        → F.content files.old image ≡ Some bytes → F.content files.old schedule ≡ Some names
        → F.content files.old trace ≡ Some records → IsOwnTrace bytes names records
        → IsCutShort result ⊎ IsAnswerEnd (replay_text bytes names) result
        (sinks (O.written out.old) (O.faults out.old) (E.written err.old) (E.faults err.old))
        (sinks (O.written out.new) (O.faults out.new) (E.written err.new) (E.faults err.new)) }
    ensures derive { (trace bytes : List ℕ)
        → command_of (texts words.now) ≡ Some (asking.Derive trace)
        → F.content files.old trace ≡ Some bytes
        → IsCutShort result ⊎ IsAnswerEnd (derive_text bytes) result
        (sinks (O.written out.old) (O.faults out.old) (E.written err.old) (E.faults err.old))
        (sinks (O.written out.new) (O.faults out.new) (E.written err.new) (E.faults err.new)) }
    ensures analyze { (trace name bytes : List ℕ) (query : Query)
        → command_of (texts words.now) ≡ Some (asking.Analyze trace query name)
        → F.content files.old trace ≡ Some bytes
        → IsCutShort result ⊎ IsAnswerEnd (analyze_text query name bytes) result
        (sinks (O.written out.old) (O.faults out.old) (E.written err.old) (E.faults err.old))
        (sinks (O.written out.new) (O.faults out.new) (E.written err.new) (E.faults err.new)) }
    ensures answer { HasEnd result (λ ended. IsCommandAnswer (command_of (texts words.now)) ended
        (outside (F.content files.old) (F.faults files.old)
        (sinks (O.written out.old) (O.faults out.old) (E.written err.old) (E.faults err.old)))
        (outside (F.content files.new) (F.faults files.new)
        (sinks (O.written out.new) (O.faults out.new) (E.written err.new) (E.faults err.new)))) }
    ensures content { (other : List ℕ) → F.content files.new other
        ≡ F.content files.old other }
    ensures rises { (other : List ℕ) → F.faults files.old other ≤ F.faults files.new other }
    ensures usage_only { result ≡ 2 → command_of (texts words.now) ≡ None }
    ensures image_only { (a : Asked) → command_of (texts words.now) ≡ Some a → result ≡ 3
        → IsUnfit a (F.content files.old) }
    ensures rejected_only { (a : Asked) → command_of (texts words.now) ≡ Some a → result ≡ 8
        → IsRejected a (F.content files.old) }
    ensures elf_only { (a : Asked) → command_of (texts words.now) ≡ Some a → result ≡ 10
        → IsElfRejected a (F.content files.old) }
    ensures name_only { (a : Asked) → command_of (texts words.now) ≡ Some a → result ≡ 9
        → IsUnknown a (F.content files.old) }
    ensures enforced_only { (a : Asked) → command_of (texts words.now) ≡ Some a → result ≡ 11
        → IsViolated a (F.content files.old) }
    ensures read_only { (a : Asked) → command_of (texts words.now) ≡ Some a → result ≡ 4
        → IsUnreadable a (F.faults files.old) (F.faults files.new) }
    ensures write_only { result ≡ 5
        → (O.faults out.old < O.faults out.new) ⊎ (E.faults err.old < E.faults err.new) }
    ensures unwritten { result ≡ 6
        → device (O.written out.new) (O.faults out.new)
        ≡ device (O.written out.old) (O.faults out.old) }
{
    let ended = wedge(rt, alloc, words, files, out, err, pace);
    ended.status
}

/// What the program ends with where there is no memory for its arguments: status 6, with the line of that
/// on `err`; 5 where that failed.
pub fn out_of_memory<E: Sink>(err: &mut E) -> Ended
    ensures { IsSaid 6 (lines.line (codes "out of memory")) result
        (device (E.written err.old) (E.faults err.old))
        (device (E.written err.new) (E.faults err.new)) }
{
    say(err, NO_MEMORY, no_memory_line())
}

/// Does what the arguments ask.
fn does<R: Threads + Wait + Sync, F: Files, O: Sink, E: Sink, P: Pace + Sync>(
    rt: &R,
    alloc: Global,
    words: &[String],
    files: &mut F,
    out: &mut O,
    err: &mut E,
    pace: &P,
) -> Ended
    ensures answer { IsCommandAnswer (command_of (texts words.now)) result
        (outside (F.content files.old) (F.faults files.old)
        (sinks (O.written out.old) (O.faults out.old) (E.written err.old) (E.faults err.old)))
        (outside (F.content files.new) (F.faults files.new)
        (sinks (O.written out.new) (O.faults out.new) (E.written err.new) (E.faults err.new))) }
    ensures content { (other : List ℕ) → F.content files.new other
        ≡ F.content files.old other }
    ensures rises { (other : List ℕ) → F.faults files.old other ≤ F.faults files.new other }
{
    match read_words(words) {
        Err(WordsFault::Usage) => say(err, USAGE, usage_line()),
        Ok(command) => match prepare(rt, alloc, command, files, pace) {
            Ok(ready) => finish(out, err, ready),
            Err(refusal) => refuse(alloc, err, &refusal),
        },
    }
}

/// Says why a command is not done.
fn refuse<E: Sink>(alloc: Global, err: &mut E, refusal: &Refusal) -> Ended
    ensures { SaysRefusal refusal.now result
        (device (E.written err.old) (E.faults err.old))
        (device (E.written err.new) (E.faults err.new)) }
{
    match refusal_line(alloc, refusal) {
        Ok(line) => say(err, status_of(refusal), line.as_slice()),
        Err(_) => say(err, NO_MEMORY, no_memory_line()),
    }
}

/// The status of a refusal.
fn status_of(refusal: &Refusal) -> u8
    ensures { result ≡ lines.status_of refusal.now }
{
    match refusal {
        Refusal::NoMemory => NO_MEMORY,
        Refusal::Read { .. } => READ_FAULT,
        Refusal::Image(_) | Refusal::Partition(_) => REFUSED,
        Refusal::Schedule(_) | Refusal::Trace(_) => REJECTED,
        Refusal::Elf(_) => ELF_REFUSED,
        Refusal::NoSuchName { .. } => NO_SUCH_NAME,
        Refusal::Violation(_) => ENFORCED,
    }
}
