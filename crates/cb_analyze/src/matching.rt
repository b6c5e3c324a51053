//! Which records a query is about, and their innermost frames.

ghost use Rattle.std.specs.Prelude.{◌≡◌};
ghost use Rattle.trace_form.specs.TraceRecord.{record_view};
ghost use Rattle.cb_analyze.specs.Matching as matching;

use trace_form::{Kind, Record};

/// Whether a procedure is among the frames of a record's chain.
#[tactic(auto, unfolding(crate::specs::Matching::has_frame))]
pub(crate) fn has_frame(name: &[u8], row: &Record<'_>) -> bool
    ensures { result ≡ matching.has_frame name.now (record_view row.now) }
{
    row.frames().any(|frame| frame == name)
}

/// Whether a record is of an access to this item.
#[tactic(auto, unfolding(crate::specs::Matching::has_item))]
pub(crate) fn has_item(item: &[u8], row: &Record<'_>) -> bool
    ensures { result ≡ matching.has_item item.now (record_view row.now) }
{
    row.item == item
}

/// The innermost frame of a record's chain.
#[tactic(auto, unfolding(crate::specs::Matching::last_frame))]
pub(crate) fn last_frame<'a>(row: &Record<'a>) -> &'a [u8]
    ensures { result.now ≡ matching.last_frame (record_view row.now) }
{
    let mut last: &[u8] = &[];
    for frame in row.frames() {
        last = frame;
    }
    last
}

/// Whether an access changes its item.
pub(crate) fn is_write(kind: Kind) -> bool
    ensures { result ≡ matching.is_write kind }
{
    matches!(kind, Kind::Store | Kind::Append)
}
