//! The accesses of a trace that sheets do not permit.

ghost use Rattle.std.specs.Prelude.{◌≡◌, ◌++◌, length, None, IfOk, OnOk};
ghost use Rattle.trace_form.specs.FirstFault.{first_fault};
ghost use Rattle.trace_form.specs.Records.{records_of};
ghost use Rattle.trace_form.specs.TraceRecord.{record_view};
ghost use Rattle.sheet_enforce.specs.Violations.{access_text, violations_at, violations_of};

use crate::marks::Mark;
use cb_analyze::DerivedSheets;
use std::alloc::Global;
use trace_form::{Record, Records};
use wedge_base::{ActorName, Bytes, NoMemory};

/// An access that the sheet of its compartment does not permit.
#[derive(Debug, Drop)]
pub struct Violation {
    /// The turn of the run, from 1.
    pub turn: u64,
    /// The actor whose access it is.
    pub actor: ActorName,
    /// The address in bytes of the instruction of the access.
    pub pc: u32,
    /// Kind, mode and item of the access, as in its line of the trace, with a space between each two.
    pub text: Bytes,
}

/// Returns kind, mode and item of a record, with a space between each two.
#[tactic(auto, unfolding(crate::specs::Violations::access_text))]
fn access_text(alloc: Global, row: &Record<'_>) -> Result<Bytes, NoMemory>
    ensures { IfOk result (λ text. text ≡ access_text (record_view row.now)) }
{
    let mut text = Vec::from_slice(alloc, row.kind.word())?;
    text.push(b' ')?;
    text.extend_from_slice(row.mode.word())?;
    text.push(b' ')?;
    text.extend_from_slice(row.item)?;
    Ok(Bytes::new(text))
}

/// Adds the violation of a record, if the sheets do not permit it.
fn add_violation(
    alloc: Global,
    violations: &mut Vec<Violation>,
    mark: &Mark,
    row: &Record<'_>,
    sheets: &DerivedSheets<'_>,
) -> Result<(), NoMemory>
    ensures { OnOk result (violations.new.items
        ≡ violations.old.items ++ violations_at mark.now (record_view row.now) sheets.now) }
{
    if sheets.permits(row) {
        return Ok(());
    }
    violations.push(Violation {
        turn: mark.turn,
        actor: mark.actor.copy()?,
        pc: mark.pc,
        text: access_text(alloc, row)?,
    })?;
    Ok(())
}

/// Returns the violations of a trace whose records have these marks: one for each record that the
/// sheet of its compartment does not permit, in order. It takes one pass over the trace, and a
/// look-up for each record. Fails only where out of memory.
pub fn check(
    alloc: Global,
    trace: &[u8],
    marks: &[Mark],
    sheets: &DerivedSheets<'_>,
) -> Result<Vec<Violation>, NoMemory>
    requires valid { first_fault trace.now ≡ None }
    requires marked { length marks.now ≡ length (records_of trace.now) }
    ensures { IfOk result
        (λ v. v.items ≡ violations_of marks.now (records_of trace.now) sheets.now) }
{
    let mut violations = Vec::new(alloc);
    let mut number = 0;
    for row in Records::of_trace(trace) {
        add_violation(alloc, &mut violations, &marks[number], &row, sheets)?;
        number += 1;
    }
    Ok(violations)
}
