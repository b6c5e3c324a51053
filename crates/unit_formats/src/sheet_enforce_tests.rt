//! Accesses that sheets do not permit, of traces that were written by hand.

ghost use Rattle.std.specs.Prelude.{◌≡◌, ◌↔◌, IsTrue, length};
ghost use Rattle.trace_form.specs.Records.{records_of};

use cb_analyze::{DerivedSheets, derive};
use sheet_enforce::{Mark, Violation, check, write_enforced, write_violation};
use std::alloc::Global;
use std::test::Fail;
use trace_form::Records;
use wedge_base::{ActorName, NoMemory, is_actor_name};

const REJECTED: &str = "the trace is rejected";

const NO_NAME: &str = "no name of an actor";

const COUNTS: &str = "as many marks as records are wanted";

static SERVER: &[u8] = b"wedge-trace 1
read shared main main fd:in
store shared main main tag:req
load shared worker worker tag:req
append shared worker worker;emit fd:log
read shared main main fd:in
load shared worker worker tag:req
append shared worker worker;emit fd:log
end 7
";

/// The same without what is appended.
static SILENT: &[u8] = b"wedge-trace 1
read shared main main fd:in
store shared main main tag:req
load shared worker worker tag:req
read shared main main fd:in
load shared worker worker tag:req
end 5
";

static EMPTY: &[u8] = b"wedge-trace 1
end 0
";

/// The turn, the parts of the actor's name, and the address of the instruction of a record.
struct At {
    turn: u64,
    actor: &'static [u32],
    pc: u32,
}

#[rattlefmt::skip]
static MARKS: [At; 7] = [
    At { turn: 1, actor: &[0], pc: 0x10000 },
    At { turn: 2, actor: &[0], pc: 0x10004 },
    At { turn: 9, actor: &[0, 1], pc: 0x10110 },
    At { turn: 10, actor: &[0, 1], pc: 0x1011c },
    At { turn: 11, actor: &[0], pc: 0x10000 },
    At { turn: 1000, actor: &[0, 2, 13], pc: 0x10110 },
    At { turn: 5000000000, actor: &[0, 2, 13], pc: 0xfedcba98 },
];

/// Whether a trace has so many records.
fn has_records(trace: &[u8], count: usize) -> bool
    ensures { IsTrue result ↔ (count ≡ length (records_of trace.now)) }
{
    let mut left = count;
    for _row in Records::of_trace(trace) {
        if left == 0 {
            return false;
        }
        left -= 1;
    }
    left == 0
}

fn mark_of(alloc: Global, at: &At) -> Result<Mark, Fail> {
    if !is_actor_name(at.actor) {
        return Err(Fail::new(NO_NAME));
    }
    Ok(Mark {
        turn: at.turn,
        actor: ActorName::of_parts(alloc, at.actor)?,
        pc: at.pc,
    })
}

fn marks_of(alloc: Global, table: &[At]) -> Result<Vec<Mark>, Fail> {
    let mut marks = Vec::new(alloc);
    for at in table {
        marks.push(mark_of(alloc, at)?)?;
    }
    Ok(marks)
}

/// The sheets of a trace.
fn sheets_of(alloc: Global, bytes: &[u8]) -> Result<DerivedSheets<'_>, Fail> {
    match Records::new(bytes) {
        Ok(_) => Ok(derive(alloc, bytes)?),
        Err(_) => Err(Fail::new(REJECTED)),
    }
}

/// The lines of these violations, and why the first is rejected.
fn lines_of(alloc: Global, violations: &[Violation]) -> Result<Vec<u8>, NoMemory> {
    let mut out = Vec::new(alloc);
    for violation in violations {
        write_violation(&mut out, violation)?;
    }
    if let Some(first) = violations.first() {
        write_enforced(&mut out, first)?;
    }
    Ok(out)
}

/// The lines of the violations of a trace, and why the first is rejected.
fn violation_lines(
    alloc: Global,
    trace: &[u8],
    table: &[At],
    sheets: &DerivedSheets<'_>,
) -> Result<Vec<u8>, Fail> {
    let Ok(_) = Records::new(trace) else {
        return Err(Fail::new(REJECTED));
    };
    let marks = marks_of(alloc, table)?;
    if !has_records(trace, marks.len()) {
        return Err(Fail::new(COUNTS));
    }
    let violations = check(alloc, trace, marks.as_slice(), sheets)?;
    Ok(lines_of(alloc, &violations)?)
}

#[test]
fn its_own_sheets_permit_a_trace(rt: HostRuntime) -> Result<(), Fail> {
    let sheets = sheets_of(rt.alloc(), SERVER)?;
    let lines = violation_lines(rt.alloc(), SERVER, &MARKS, &sheets)?;
    assert!(rt; lines.is_empty());
    Ok(())
}

#[test]
fn what_is_not_permitted_comes_in_order_with_its_marks(rt: HostRuntime) -> Result<(), Fail> {
    let sheets = sheets_of(rt.alloc(), SILENT)?;
    let lines = violation_lines(rt.alloc(), SERVER, &MARKS, &sheets)?;
    let want = b"violation 10 0.1 0001011c append shared fd:log
violation 5000000000 0.2.13 fedcba98 append shared fd:log
enforced at 10: 0.1 0001011c append shared fd:log";
    assert!(rt; lines.as_slice() == want.as_slice());
    Ok(())
}

#[test]
fn an_empty_trace_has_no_violation(rt: HostRuntime) -> Result<(), Fail> {
    let sheets = sheets_of(rt.alloc(), EMPTY)?;
    let lines = violation_lines(rt.alloc(), EMPTY, &[], &sheets)?;
    assert!(rt; lines.is_empty());
    Ok(())
}
