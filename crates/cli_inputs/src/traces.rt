//! What is asked of a trace, of the bytes of its file.

ghost use Rattle.std.specs.Prelude.{◌≡◌, ◌≤◌, ℕ, List, length, option_map, None, Some, IfOk, IfErr, MatchResult, Ok};
ghost use Rattle.std.specs.List.{flat_map};
ghost use Rattle.host_io.specs.Exposed.{WhereExposed};
ghost use Rattle.trace_form.specs.Grammar.{with_end};
ghost use Rattle.trace_form.specs.Records.{records_of};
ghost use Rattle.cb_analyze.specs.Queries.{IsQueryFault};
ghost use Rattle.cli_inputs.specs.Loading.{most_trace};
ghost use Rattle.cli_inputs.specs.Traces.{trace_fault, derive_text, query_lines, answer_text, IsTraceRefused};

use crate::loading::{FileKind, read_file};
use crate::refusal::Refusal;
use crate::words::Query;
use cb_analyze::{Line, QueryFault, accessed_by, derive, users_of, written_by};
use host_io::Files;
use std::alloc::Global;
use trace_form::{Records, TraceFault};
use wedge_base::NoMemory;

/// The bytes of a trace's file, if they are a trace.
pub fn load_trace<F: Files>(alloc: Global, files: &mut F, name: &str) -> Result<Vec<u8>, Refusal>
    ensures bytes { IfOk result (λ v. WhereExposed (F.content files.old name.now)
        (λ bytes. v.items ≡ bytes)) }
    ensures accepted { IfOk result (λ v. trace_fault v.items ≡ None) }
    ensures refused { IfErr result (IsTraceRefused name.now (F.content files.old name.now)
        (F.faults files.old name.now) (F.faults files.new name.now)) }
    ensures content { (other : List ℕ) → F.content files.new other
        ≡ F.content files.old other }
    ensures rises { (other : List ℕ) → F.faults files.old other ≤ F.faults files.new other }
{
    let bytes = read_file(alloc, files, FileKind::Trace, name)?;
    match check_trace(bytes.as_slice()) {
        Ok(()) => Ok(bytes),
        Err(fault) => Err(Refusal::Trace(fault)),
    }
}

/// Checks that bytes are a trace. The error is the first fault.
#[tactic(auto, unfolding(crate::specs::Traces::trace_fault))]
fn check_trace(bytes: &[u8]) -> Result<(), TraceFault>
    requires { length bytes.now ≤ most_trace }
    ensures { MatchResult result
        (λ _. trace_fault bytes.now ≡ None)
        (λ fault. trace_fault bytes.now ≡ Some fault) }
{
    match Records::new(bytes) {
        Ok(_) => Ok(()),
        Err(fault) => Err(fault),
    }
}

/// The text of the sheets of a trace.
#[tactic(auto, using(crate::proofs::TraceFaults::no_first_fault))]
pub fn sheets_text(alloc: Global, bytes: &[u8]) -> Result<Vec<u8>, NoMemory>
    requires { trace_fault bytes.now ≡ None }
    ensures { IfOk result (λ text. derive_text bytes.now ≡ Ok text.items) }
{
    let sheets = derive(alloc, bytes)?;
    sheets.text(alloc)
}

/// The text that answers a query of a trace.
pub fn query_text(
    alloc: Global,
    bytes: &[u8],
    query: Query,
    name: &[u8],
) -> Result<Vec<u8>, QueryFault>
    requires { trace_fault bytes.now ≡ None }
    ensures { MatchResult result
        (λ text. option_map answer_text (query_lines query name.now (records_of bytes.now))
        ≡ Some text.items)
        (λ e. IsQueryFault e (query_lines query name.now (records_of bytes.now))) }
{
    let lines = lines_of(alloc, bytes, query, name)?;
    Ok(join_lines(alloc, lines.as_slice())?)
}

/// The lines that answer a query of a trace.
#[tactic(auto, using(crate::proofs::TraceFaults::no_first_fault))]
fn lines_of(alloc: Global, bytes: &[u8], query: Query, name: &[u8]) -> Result<Vec<Line>, QueryFault>
    requires { trace_fault bytes.now ≡ None }
    ensures { MatchResult result
        (λ lines. query_lines query name.now (records_of bytes.now) ≡ Some lines.items)
        (λ e. IsQueryFault e (query_lines query name.now (records_of bytes.now))) }
{
    match query {
        Query::Accessed => accessed_by(alloc, bytes, name),
        Query::Users => users_of(alloc, bytes, name),
        Query::Written => written_by(alloc, bytes, name),
    }
}

/// The lines, each with a line feed.
fn join_lines(alloc: Global, lines: &[Line]) -> Result<Vec<u8>, NoMemory>
    ensures { IfOk result (λ text. text.items ≡ flat_map with_end lines.now) }
{
    let mut text = Vec::new(alloc);
    for line in lines {
        text.extend_from_slice(line.as_slice())?;
        text.push(b'\n')?;
    }
    Ok(text)
}
