//! Tests of audited_run: where a run on threads differs, as text.

use audited_run::write_difference;
use run_audit::Difference;
use std::alloc::Global;
use std::test::Fail;
use wedge_base::{ActorName, FdNo, GateId, Slot};
use wedge_events::CellName;

/// Whether the text of a difference in a cell is this one.
fn is_text(alloc: Global, cell: CellName, index: usize, text: &[u8]) -> Result<bool, Fail> {
    let difference = Difference {
        cell,
        index,
        kept: None,
        logged: None,
    };
    let mut out = Vec::new(alloc);
    write_difference(&mut out, &difference)?;
    Ok(out.as_slice() == text)
}

/// Each kind of cell has its name, and an index counts from 0.
#[test]
fn differences_name_cell_and_index(rt: HostRuntime) -> Result<(), Fail> {
    let alloc = rt.alloc();
    let slot = CellName::Slot { slot: Slot(4095) };
    let fd = CellName::Fd { fd: FdNo(17) };
    assert!(&rt; is_text(alloc, CellName::Slots, 0, b"disagree in slots at 0")?);
    assert!(&rt; is_text(alloc, slot, 12, b"disagree in slot 4095 at 12")?);
    assert!(&rt; is_text(alloc, CellName::Fds, 1, b"disagree in fds at 1")?);
    assert!(&rt; is_text(alloc, fd, 2, b"disagree in fd 17 at 2")?);
    assert!(&rt; is_text(alloc, CellName::Lives, 3, b"disagree in lives at 3")?);
    Ok(())
}

/// A gate is named by its maker and its number.
#[test]
fn differences_name_gates(rt: HostRuntime) -> Result<(), Fail> {
    let alloc = rt.alloc();
    let maker = ActorName::root(alloc)?;
    let gate = GateId { maker, number: 3 };
    assert!(&rt;
        is_text(
            alloc,
            CellName::Gate { gate },
            5,
            b"disagree in gate 0#3 at 5"
        )?
    );
    Ok(())
}
