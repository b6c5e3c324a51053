//! The first fault of a trace.

ghost use Rattle.std.specs.Prelude.{◌≡◌, ◌<◌, ◌+◌, ◌^◌, length};
ghost use Rattle.trace_form.specs.Grammar.{line_pieces};
ghost use Rattle.trace_form.specs.FirstFault as faults;

use crate::cuts::cut;
use crate::fault::{TraceFault, Why};
use crate::line::{count_at, line_fault};
use crate::numbers::is_decimal_of;

/// The first line of a trace, without its line feed.
pub(crate) const FIRST_LINE: &[u8] = b"wedge-trace 1";

/// The fault of a piece that no line feed follows.
fn piece_fault(at: usize, piece: &[u8]) -> Option<TraceFault>
    ensures { result ≡ faults.piece_fault at piece.now }
{
    let why = if piece.is_empty() {
        Why::End
    } else {
        Why::Line
    };
    Some(TraceFault { at, why })
}

/// The fault of the last line's count, or of what follows that line.
#[tactic(auto, using(crate::proofs::FirstLines::nothing_follows_is))]
fn end_fault(at: usize, count: usize, text: &[u8], rest: &[u8]) -> Option<TraceFault>
    requires { at + 1 < 2 ^ 64 }
    ensures { result ≡ faults.end_fault at count text.now (line_pieces rest.now) }
{
    if !is_decimal_of(count, text) {
        return Some(TraceFault {
            at,
            why: Why::Number,
        });
    }
    if rest.is_empty() {
        return None;
    }
    Some(TraceFault {
        at: at + 1,
        why: Why::Line,
    })
}

/// The first fault of the lines that follow the first one.
fn lines_fault(lines: &[u8]) -> Option<TraceFault>
    requires { length lines.now < 2 ^ 63 }
    ensures { result ≡ faults.lines_fault 2 0 (line_pieces lines.now) }
{
    let mut count = 0;
    let mut rest = lines;
    while let Some((line, after)) = cut(b'\n', rest) {
        if let Some(text) = count_at(line) {
            return end_fault(count + 2, count, text, after);
        }
        if let Some(why) = line_fault(line) {
            return Some(TraceFault { at: count + 2, why });
        }
        count += 1;
        rest = after;
    }
    piece_fault(count + 2, rest)
}

/// The first fault of a trace.
#[tactic(auto, using(crate::proofs::FirstLines::first_alone, crate::proofs::FirstLines::first_wrong, crate::proofs::FirstLines::first_right))]
pub(crate) fn first_fault(bytes: &[u8]) -> Option<TraceFault>
    ensures { result ≡ faults.first_fault bytes.now }
{
    let Some((first, lines)) = cut(b'\n', bytes) else {
        return piece_fault(1, bytes);
    };
    if first != FIRST_LINE {
        return Some(TraceFault {
            at: 1,
            why: Why::Line,
        });
    }
    lines_fault(lines)
}
