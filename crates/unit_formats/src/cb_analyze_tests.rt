//! Queries and sheets of traces that were written by hand.

use cb_analyze::{DerivedSheets, derive};
use std::alloc::Global;
use std::process::Abort;
use std::test::Fail;
use trace_form::{Kind, Mode, Record, Records};

const REJECTED: &str = "the trace is rejected";

/// The sheets of a trace.
fn sheets_of(alloc: Global, bytes: &[u8]) -> Result<DerivedSheets<'_>, Fail> {
    match Records::new(bytes) {
        Ok(_) => Ok(derive(alloc, bytes)?),
        Err(_) => Err(Fail::new(REJECTED)),
    }
}

static TRACE: &[u8] = b"wedge-trace 1
load private m m tag:a
store private m m tag:b
load shared m m tag:c
load private m m tag:c
load shared m m tag:d
store private m m tag:d
store shared m m tag:e
read shared m m fd:f
append shared m m fd:g
append shared m m fd:h
read shared m m fd:h
call shared m m gate:g
end 12
";

/// Finds each record of the trace permitted by these sheets.
fn permits_trace(rt: &impl Abort, sheets: &DerivedSheets<'_>) {
    for row in Records::of_trace(TRACE) {
        assert!(rt; sheets.permits(&row));
    }
}

#[test]
fn the_sheets_permit_their_trace(rt: HostRuntime) -> Result<(), Fail> {
    let sheets = sheets_of(rt.alloc(), TRACE)?;
    permits_trace(&rt, &sheets);
    Ok(())
}

/// An access by a procedure, and whether the sheets permit it.
struct Access {
    comp: &'static [u8],
    kind: Kind,
    mode: Mode,
    item: &'static [u8],
    want: bool,
}

#[rattlefmt::skip]
static ACCESSES: [Access; 12] = [
    Access { comp: b"m", kind: Kind::Load, mode: Mode::Shared, item: b"tag:a", want: false },
    Access { comp: b"m", kind: Kind::Store, mode: Mode::Private, item: b"tag:a", want: true },
    Access { comp: b"m", kind: Kind::Store, mode: Mode::Shared, item: b"tag:b", want: false },
    Access { comp: b"m", kind: Kind::Store, mode: Mode::Private, item: b"tag:c", want: false },
    Access { comp: b"m", kind: Kind::Store, mode: Mode::Shared, item: b"tag:c", want: false },
    Access { comp: b"m", kind: Kind::Store, mode: Mode::Shared, item: b"tag:d", want: true },
    Access { comp: b"m", kind: Kind::Load, mode: Mode::Private, item: b"tag:e", want: true },
    Access { comp: b"m", kind: Kind::Append, mode: Mode::Shared, item: b"fd:f", want: false },
    Access { comp: b"m", kind: Kind::Read, mode: Mode::Shared, item: b"fd:g", want: false },
    Access { comp: b"m", kind: Kind::Read, mode: Mode::Shared, item: b"fd:h", want: true },
    Access { comp: b"m", kind: Kind::Call, mode: Mode::Shared, item: b"gate:other", want: false },
    Access { comp: b"n", kind: Kind::Load, mode: Mode::Shared, item: b"tag:e", want: false },
];

/// Whether sheets permit an access.
fn permits_access(sheets: &DerivedSheets<'_>, access: &Access) -> bool {
    sheets.permits(&Record {
        kind: access.kind,
        mode: access.mode,
        comp: access.comp,
        chain: access.comp,
        item: access.item,
    })
}

/// Compares what these sheets permit with what is wanted of each access.
fn compares_accesses(rt: &impl Abort, sheets: &DerivedSheets<'_>) {
    for access in &ACCESSES {
        assert!(rt; permits_access(sheets, access) == access.want);
    }
}

#[test]
fn what_the_sheets_permit(rt: HostRuntime) -> Result<(), Fail> {
    let sheets = sheets_of(rt.alloc(), TRACE)?;
    compares_accesses(&rt, &sheets);
    Ok(())
}
