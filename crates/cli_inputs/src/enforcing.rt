//! The report of a replay whose accesses are checked by the sheets of a trace.

ghost use Rattle.std.specs.Prelude.{◌≡◌, ◌++◌, ◌≤◌, length, None, IfOk, IfErr, OnOk, Ok};
ghost use Rattle.std.specs.List.{flat_map};
ghost use Rattle.trace_form.specs.FirstFault.{first_fault};
ghost use Rattle.trace_form.specs.Records.{records_of};
ghost use Rattle.world_turns.specs.Replay.{replay_of};
ghost use Rattle.sheet_enforce.specs.Texts.{violation_line};
ghost use Rattle.cli_inputs.specs.Enforcing as checks;
ghost use Rattle.cli_inputs.specs.Enforcing.{IsCheckRefusalIn, IsEnforceRefusalIn, OwnTracesPermit, emulated, enforced, run_checked, trace_by, violations_by};
ghost use Rattle.cli_inputs.specs.Loading.{most_of};
ghost use Rattle.cli_inputs.specs.Replaying.{text_made, report_made, IsRefusalIn};

use crate::loading::{FileKind, image_of};
use crate::refusal::{Refusal, refused_replay};
use crate::replaying::{report_of, schedule_of};
use cb_analyze::derive;
use cb_log::{Marked, log_marked};
use image_form::Image;
use sheet_enforce::{Violation, check, write_violation};
use std::alloc::Global;
use trace_form::Records;
use wedge_base::{ActorName, NoMemory};

/// The report of a run, and the accesses in it that sheets do not permit.
#[derive(Drop)]
struct CheckedRun {
    report: Vec<u8>,
    violations: Vec<Violation>,
}

/// Returns the report of the replay of a schedule over an image, and then a line for each access that the sheets
/// derived from a trace do not permit; of the bytes of the three files. The error is what is wrong with the first of
/// them whose form is wrong, in this order, or else with the schedule's run.
#[tactic(auto, unfolding(crate::specs::Enforcing::text_of_check))]
pub fn emulate_text(
    alloc: Global,
    image: &[u8],
    schedule: &[u8],
    trace: &[u8],
) -> Result<Vec<u8>, Refusal>
    requires image { length image.now ≤ most_of FileKind.Image }
    requires schedule { length schedule.now ≤ most_of FileKind.Schedule }
    requires trace { length trace.now ≤ most_of FileKind.Trace }
    ensures text { IfOk result
        (λ v. checks.emulate_text image.now schedule.now trace.now ≡ Ok v.items) }
    ensures rejected { IfErr result
        (IsCheckRefusalIn (checks.emulate_text image.now schedule.now trace.now)) }
{
    let read = image_of(alloc, image)?;
    let actors = schedule_of(alloc, schedule)?;
    accept_trace(trace)?;
    emulated(alloc, &read, actors.as_slice(), trace)
}

/// Returns the report of the replay of a schedule over an image, if the sheets derived from a trace permit each access;
/// of the bytes of the three files. The error is that of `emulate_text`, or else the first access that they do not
/// permit.
#[tactic(auto, unfolding(crate::specs::Enforcing::text_of_check))]
pub fn enforce_text(
    alloc: Global,
    image: &[u8],
    schedule: &[u8],
    trace: &[u8],
) -> Result<Vec<u8>, Refusal>
    requires image { length image.now ≤ most_of FileKind.Image }
    requires schedule { length schedule.now ≤ most_of FileKind.Schedule }
    requires trace { length trace.now ≤ most_of FileKind.Trace }
    ensures text { IfOk result
        (λ v. checks.enforce_text image.now schedule.now trace.now ≡ Ok v.items) }
    ensures rejected { IfErr result
        (IsEnforceRefusalIn (checks.enforce_text image.now schedule.now trace.now)) }
{
    let read = image_of(alloc, image)?;
    let actors = schedule_of(alloc, schedule)?;
    accept_trace(trace)?;
    enforced(alloc, &read, actors.as_slice(), trace)
}

/// Checks the form of a trace.
fn accept_trace(trace: &[u8]) -> Result<(), Refusal>
    ensures accepted { OnOk result (first_fault trace.now ≡ None) }
    ensures rejected { IfErr result
        (IsCheckRefusalIn (trace_by trace.now (first_fault trace.now))) }
{
    match Records::new(trace) {
        Ok(_) => Ok(()),
        Err(fault) => Err(Refusal::Trace(fault)),
    }
}

/// Returns the report of the run in which these actors take their turns, and then the lines of what the sheets of a
/// trace do not permit.
fn emulated(
    alloc: Global,
    image: &Image,
    names: &[ActorName],
    trace: &[u8],
) -> Result<Vec<u8>, Refusal>
    requires { first_fault trace.now ≡ None }
    ensures text { IfOk result
        (λ v. run_checked emulated image.now names.now (records_of trace.now) ≡ Ok v.items) }
    ensures rejected { IfErr result (IsCheckRefusalIn
        (run_checked emulated image.now names.now (records_of trace.now))) }
{
    let CheckedRun { report, violations } = checked(alloc, image, names, trace)?;
    let mut text = report;
    write_violations(&mut text, violations.as_slice())?;
    Ok(text)
}

/// Returns the report of the run in which these actors take their turns, if the sheets of a trace permit each access.
fn enforced(
    alloc: Global,
    image: &Image,
    names: &[ActorName],
    trace: &[u8],
) -> Result<Vec<u8>, Refusal>
    requires { first_fault trace.now ≡ None }
    ensures text { IfOk result
        (λ v. run_checked enforced image.now names.now (records_of trace.now) ≡ Ok v.items) }
    ensures rejected { IfErr result (IsEnforceRefusalIn
        (run_checked enforced image.now names.now (records_of trace.now))) }
{
    let CheckedRun { report, violations } = checked(alloc, image, names, trace)?;
    match violations.into_iter().next() {
        None => Ok(report),
        Some(violation) => Err(Refusal::Violation(violation)),
    }
}

/// Returns the report of the run in which these actors take their turns, and what the sheets of a trace do not permit.
fn checked(
    alloc: Global,
    image: &Image,
    names: &[ActorName],
    trace: &[u8],
) -> Result<CheckedRun, Refusal>
    requires { first_fault trace.now ≡ None }
    ensures report { IfOk result (λ c. text_made report_made image.now names.now
        (replay_of image.now names.now) ≡ Ok c.report.items) }
    ensures violations { IfOk result (λ c. c.violations.items
        ≡ violations_by image.now names.now (records_of trace.now)) }
    ensures rejected { IfErr result (IsRefusalIn
        (text_made report_made image.now names.now (replay_of image.now names.now))) }
{
    let report = report_of(alloc, image, names)?;
    let violations = violations_in(alloc, image, names, trace)?;
    Ok(CheckedRun { report, violations })
}

/// Returns the accesses of the run in which these actors take their turns that the sheets of a trace do not permit.
fn violations_in(
    alloc: Global,
    image: &Image,
    names: &[ActorName],
    trace: &[u8],
) -> Result<Vec<Violation>, Refusal>
    requires { first_fault trace.now ≡ None }
    ensures violations { IfOk result
        (λ v. v.items ≡ violations_by image.now names.now (records_of trace.now)) }
    ensures rejected { IfErr result (IsRefusalIn
        (text_made report_made image.now names.now (replay_of image.now names.now))) }
{
    match log_marked(alloc, image, names) {
        Ok(run) => {
            let violations = violations_of(alloc, &run, trace)?;
            Ok(violations)
        }
        Err(fault) => Err(refused_replay(fault)),
    }
}

/// Returns the accesses of a marked trace that the sheets of another do not permit.
fn violations_of(alloc: Global, run: &Marked, trace: &[u8]) -> Result<Vec<Violation>, NoMemory>
    requires own { first_fault run.now.trace.items ≡ None }
    requires marked { length run.now.marks.items ≡ length (records_of run.now.trace.items) }
    requires valid { first_fault trace.now ≡ None }
    ensures { IfOk result (λ v. v.items ≡ checks.violations_in run.now.marks.items
        (records_of run.now.trace.items) (records_of trace.now)) }
{
    let sheets = derive(alloc, trace)?;
    check(alloc, run.trace.as_slice(), run.marks.as_slice(), &sheets)
}

/// Appends the lines of violations.
fn write_violations(out: &mut Vec<u8>, violations: &[Violation]) -> Result<(), NoMemory>
    ensures { OnOk result
        (out.new.items ≡ out.old.items ++ flat_map violation_line violations.now) }
{
    for violation in violations {
        write_violation(out, violation)?;
    }
    Ok(())
}

/// A run's own trace permits all of the run: what is emulated or enforced by it is what is replayed.
pub fn own_traces_permit()
    ensures { OwnTracesPermit }
{}
