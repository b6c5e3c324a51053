//! The commands that check the accesses of a replay by the sheets of a trace.

ghost use Rattle.std.specs.Prelude.{◌≡◌, ◌≤◌, ℕ, List, vec_len, IfOk, IfErr};
ghost use Rattle.cli_inputs.specs.Enforcing as checks;
ghost use Rattle.cli_inputs.specs.Enforcing.{Check, emulated};
ghost use Rattle.cli_inputs.specs.Loading.{most_of};
ghost use Rattle.host_io.specs.Exposed.{WhereExposed};
ghost use Rattle.command_texts.specs.Causes.{IsCheckRefused, IsEnforceRefused};
ghost use Rattle.command_texts.specs.Answers.{IsTripleAnswer};

use cli_inputs::{FileKind, Refusal, emulate_text, enforce_text, read_file};
use host_io::Files;
use std::alloc::Global;

/// The bytes of an image's file, of a schedule's and of a trace's.
#[derive(Drop)]
struct ThreeFiles {
    image: Vec<u8>,
    schedule: Vec<u8>,
    trace: Vec<u8>,
}

/// Reads an image's file, a schedule's and a trace's, in this order.
fn read_three<F: Files>(
    alloc: Global,
    files: &mut F,
    image: &str,
    schedule: &str,
    trace: &str,
) -> Result<ThreeFiles, Refusal>
    ensures image { IfOk result (λ t. WhereExposed (F.content files.old image.now)
        (λ bytes. t.image.items ≡ bytes)) }
    ensures schedule { IfOk result (λ t. WhereExposed (F.content files.old schedule.now)
        (λ bytes. t.schedule.items ≡ bytes)) }
    ensures trace { IfOk result (λ t. WhereExposed (F.content files.old trace.now)
        (λ bytes. t.trace.items ≡ bytes)) }
    ensures within { IfOk result (λ t. (vec_len t.image ≤ most_of FileKind.Image)
        × (vec_len t.schedule ≤ most_of FileKind.Schedule)
        × (vec_len t.trace ≤ most_of FileKind.Trace)) }
    ensures refused { IfErr result (λ e. (check : Check)
        → IsCheckRefused check image.now schedule.now trace.now (F.content files.old)
        (F.faults files.old) (F.faults files.new) e) }
    ensures content { (other : List ℕ) → F.content files.new other
        ≡ F.content files.old other }
    ensures rises { (other : List ℕ) → F.faults files.old other ≤ F.faults files.new other }
{
    let image = read_file(alloc, files, FileKind::Image, image)?;
    let schedule = read_file(alloc, files, FileKind::Schedule, schedule)?;
    let trace = read_file(alloc, files, FileKind::Trace, trace)?;
    Ok(ThreeFiles {
        image,
        schedule,
        trace,
    })
}

/// Replays a schedule over an image, and writes which accesses the sheets derived from a trace do not permit. The three
/// files are read first, in this order.
pub(crate) fn emulate<F: Files>(
    alloc: Global,
    files: &mut F,
    image: &str,
    schedule: &str,
    trace: &str,
) -> Result<Vec<u8>, Refusal>
    ensures made { IfOk result
        (λ v. IsTripleAnswer checks.emulate_text (F.content files.old image.now)
        (F.content files.old schedule.now) (F.content files.old trace.now)
        v.items) }
    ensures refused { IfErr result (IsCheckRefused emulated image.now schedule.now trace.now
        (F.content files.old) (F.faults files.old) (F.faults files.new)) }
    ensures content { (other : List ℕ) → F.content files.new other
        ≡ F.content files.old other }
    ensures rises { (other : List ℕ) → F.faults files.old other ≤ F.faults files.new other }
{
    let read = read_three(alloc, files, image, schedule, trace)?;
    let text = emulate_text(
        alloc,
        read.image.as_slice(),
        read.schedule.as_slice(),
        read.trace.as_slice(),
    )?;
    Ok(text)
}

/// Replays a schedule over an image, and writes its report if the sheets derived from a trace permit each access. The
/// three files are read first, in this order.
pub(crate) fn enforce<F: Files>(
    alloc: Global,
    files: &mut F,
    image: &str,
    schedule: &str,
    trace: &str,
) -> Result<Vec<u8>, Refusal>
    ensures made { IfOk result
        (λ v. IsTripleAnswer checks.enforce_text (F.content files.old image.now)
        (F.content files.old schedule.now) (F.content files.old trace.now)
        v.items) }
    ensures refused { IfErr result (IsEnforceRefused image.now schedule.now trace.now
        (F.content files.old) (F.faults files.old) (F.faults files.new)) }
    ensures content { (other : List ℕ) → F.content files.new other
        ≡ F.content files.old other }
    ensures rises { (other : List ℕ) → F.faults files.old other ≤ F.faults files.new other }
{
    let read = read_three(alloc, files, image, schedule, trace)?;
    let text = enforce_text(
        alloc,
        read.image.as_slice(),
        read.schedule.as_slice(),
        read.trace.as_slice(),
    )?;
    Ok(text)
}
