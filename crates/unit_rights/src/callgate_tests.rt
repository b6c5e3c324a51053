//! Tests of callgate.

use callgate::{Gate, gate_named, is_lendable, run_sheet};
use cow_pages::PrivateView;
use grant_sheet::{Draft, DraftFault, NumberMap, Sheet};
use std::alloc::Global;
use std::process::Abort;
use std::sync::Arc;
use std::test::Fail;
use wedge_base::{
    ActorName, Bytes, FdBits, FdNo, GateId, GateKind, Grant, NameFault, NoMemory, PathText, Right,
    Slot, TagNo, is_canonical,
};

/// Tags, each with its right and its slot.
fn tags(alloc: Global, entries: &[(u32, Right, u32)]) -> Result<NumberMap<Grant>, NoMemory> {
    let mut tags = NumberMap::new(alloc);
    for (tag, right, slot) in entries {
        let (right, slot) = (*right, Slot(*slot));
        tags.insert(*tag, Grant { right, slot })?;
    }
    Ok(tags)
}

/// The gate of a number that the root made.
fn identity(alloc: Global, number: u32) -> Result<GateId, NoMemory> {
    let maker = ActorName::root(alloc)?;
    Ok(GateId { maker, number })
}

/// The path of the directory above all others.
fn root_path(rt: &(impl Abort + AllocGlobal)) -> Result<PathText, NoMemory> {
    let text = b"/";
    assert!(rt; is_canonical(text));
    Ok(PathText::new(Bytes::from_slice(rt.alloc(), text)?))
}

/// Descriptors that may be read.
fn fds(alloc: Global, readable: &[u32]) -> Result<NumberMap<FdBits>, NoMemory> {
    let mut fds = NumberMap::new(alloc);
    for fd in readable {
        let (read, append) = (true, false);
        fds.insert(*fd, FdBits { read, append })?;
    }
    Ok(fds)
}

/// A gate of the root at an entry.
fn gates(alloc: Global, entry: u32) -> Result<NumberMap<GateId>, NoMemory> {
    let mut gates = NumberMap::new(alloc);
    gates.insert(entry, identity(alloc, 1)?)?;
    Ok(gates)
}

/// A sheet of tags, of descriptors that may be read, of a gate of the root at an entry, and of a user.
fn sheet(
    rt: &(impl Abort + AllocGlobal),
    entries: &[(u32, Right, u32)],
    readable: &[u32],
    entry: u32,
    user: u32,
) -> Result<Sheet, NoMemory> {
    let root = root_path(rt)?;
    let gates = gates(rt.alloc(), entry)?;
    let fds = fds(rt.alloc(), readable)?;
    let tags = tags(rt.alloc(), entries)?;
    Ok(Sheet::new(tags, fds, gates, user, root))
}

/// The identity of a gate of the root with this number, and private memory without ranges.
fn identity_and_memory(alloc: Global, number: u32) -> Result<(GateId, PrivateView), NoMemory> {
    let id = identity(alloc, number)?;
    let memory = PrivateView::new(alloc, &[])?;
    Ok((id, memory))
}

/// A gate of the root with this number and sheet.
fn gate(alloc: Global, number: u32, sheet: Sheet) -> Result<Gate, NoMemory> {
    let (id, memory) = identity_and_memory(alloc, number)?;
    Ok(Gate {
        id,
        entry: 32,
        sheet,
        argument: 9,
        fuel: 100,
        kind: GateKind::Fresh,
        memory,
    })
}

/// The gate of a sheet with two tags, a descriptor, a gate and a user.
fn own_gate(rt: &(impl Abort + AllocGlobal)) -> Result<Gate, NoMemory> {
    gate(rt.alloc(), 1, sheet(rt, &OWN, &[4], 16, 7)?)
}

/// A sheet with another right on one of these tags, a tag more, a descriptor more, and another gate and user.
fn lent_sheet(rt: &(impl Abort + AllocGlobal)) -> Result<Sheet, NoMemory> {
    let more = [(1, Right::ReadWrite, 21), (2, Right::Read, 22)];
    sheet(rt, &more, &[2, 4], 24, 8)
}

/// The sheet of a run of that gate, to which a sheet or nothing is lent.
fn own_run(rt: &(impl Abort + AllocGlobal), lent: Option<&Sheet>) -> Result<Sheet, NoMemory> {
    let gate = own_gate(rt)?;
    run_sheet(rt.alloc(), &gate, lent)
}

/// Whether a sheet has these tags.
fn has_tags(alloc: Global, sheet: &Sheet, wanted: &[(u32, Right, u32)]) -> Result<bool, NoMemory> {
    let wanted = tags(alloc, wanted)?;
    Ok(sheet.tags().as_slice() == wanted.as_slice())
}

/// Finds that the sheet of a run of that gate has these tags and so many descriptors, and all else of the gate's sheet.
fn check_run(
    rt: &(impl Abort + AllocGlobal),
    lent: Option<&Sheet>,
    wanted: &[(u32, Right, u32)],
    fds: usize,
) -> Result<(), NoMemory> {
    let run = own_run(rt, lent)?;
    assert!(rt; has_tags(rt.alloc(), &run, wanted)?);
    check_others(rt, &run, fds);
    Ok(())
}

/// Finds that a sheet has so many descriptors, and the gate and the user of that gate's sheet.
fn check_others(rt: &impl Abort, run: &Sheet, fds: usize) {
    assert!(rt; run.fds().len() == fds);
    assert!(rt; run.gates().contains_key(16) && !run.gates().contains_key(24));
    assert!(rt; run.user() == 7);
}

/// The tags of the gate's sheet.
static OWN: [(u32, Right, u32); 2] = [(1, Right::Read, 11), (3, Right::ReadWrite, 13)];

/// The tags of the gate's sheet, and that of the other sheet which it does not name.
#[rattlefmt::skip]
static ALL: [(u32, Right, u32); 3] = [
    (1, Right::Read, 11),
    (2, Right::Read, 22),
    (3, Right::ReadWrite, 13),
];

/// A run to which nothing is lent has what its gate's sheet names.
#[test]
fn run_with_nothing_lent(rt: HostRuntime) -> Result<(), Fail> {
    check_run(&rt, None, &OWN, 1)?;
    Ok(())
}

/// Finds what a run has to which the other sheet is lent.
fn check_lent_run(rt: &(impl Abort + AllocGlobal)) -> Result<(), NoMemory> {
    let lent = lent_sheet(rt)?;
    check_run(rt, Some(&lent), &ALL, 2)
}

/// Of what is lent a run has what its gate's sheet does not name: no right is raised, no descriptor replaced, and neither a
/// gate nor a user is lent.
#[test]
fn run_with_a_sheet_lent(rt: HostRuntime) -> Result<(), Fail> {
    check_lent_run(&rt)?;
    Ok(())
}

/// Puts rights on tags into a draft.
fn put_tags(draft: &mut Draft, rights: &[Right]) -> Result<(), DraftFault> {
    for right in rights {
        draft.put_tag(TagNo(*right as u32), *right)?;
    }
    Ok(())
}

/// A draft with rights on tags and bits on a descriptor.
fn draft(alloc: Global, rights: &[Right]) -> Result<Draft, DraftFault> {
    let mut draft = Draft::new(alloc);
    put_tags(&mut draft, rights)?;
    let (read, append) = (true, true);
    draft.put_fd(FdNo(3), FdBits { read, append })?;
    Ok(draft)
}

/// A draft with a gate alone.
fn with_gate(alloc: Global) -> Result<Draft, DraftFault> {
    let mut draft = Draft::new(alloc);
    draft.put_gate(16)?;
    Ok(draft)
}

/// A draft with a user alone.
fn with_user(alloc: Global, user: u32) -> Draft {
    let mut draft = Draft::new(alloc);
    draft.set_user(user);
    draft
}

/// A draft with a root directory alone.
fn with_root(rt: &(impl Abort + AllocGlobal)) -> Result<Draft, NoMemory> {
    let root = root_path(rt)?;
    let mut draft = Draft::new(rt.alloc());
    draft.set_root(root);
    Ok(draft)
}

/// Whether a draft with these rights on tags and bits on a descriptor is lent.
fn is_lent(alloc: Global, rights: &[Right]) -> Result<bool, DraftFault> {
    let draft = draft(alloc, rights)?;
    Ok(is_lendable(&draft))
}

/// Whether a draft with a gate alone is lent.
fn is_gate_lent(alloc: Global) -> Result<bool, DraftFault> {
    let draft = with_gate(alloc)?;
    Ok(is_lendable(&draft))
}

/// Whether a draft with a user alone is lent.
fn is_user_lent(alloc: Global, user: u32) -> bool {
    is_lendable(&with_user(alloc, user))
}

/// Whether a draft with a root directory alone is lent.
fn is_root_lent(rt: &(impl Abort + AllocGlobal)) -> Result<bool, NoMemory> {
    let draft = with_root(rt)?;
    Ok(is_lendable(&draft))
}

/// A draft of rights to load and store, and of bits, is lent.
#[test]
fn drafts_that_may_be_lent(rt: HostRuntime) -> Result<(), Fail> {
    assert!(rt; is_lendable(&Draft::new(rt.alloc())));
    assert!(rt; is_lent(rt.alloc(), &[Right::Read, Right::ReadWrite])?);
    Ok(())
}

/// A draft with a grant of a copy, a gate, a user or a root directory is not lent.
#[test]
fn drafts_that_are_not_lent(rt: HostRuntime) -> Result<(), Fail> {
    assert!(rt; !is_lent(rt.alloc(), &[Right::Read, Right::Cow])?);
    assert!(rt; !is_gate_lent(rt.alloc())?);
    assert!(rt; !is_user_lent(rt.alloc(), 0));
    assert!(rt; !is_root_lent(&rt)?);
    Ok(())
}

/// A gate of the root with this number, and with the number as its user.
fn numbered_gate(rt: &(impl Abort + AllocGlobal), number: u32) -> Result<Arc<Gate>, NoMemory> {
    let sheet = sheet(rt, &[], &[], 16, number)?;
    let gate = gate(rt.alloc(), number, sheet)?;
    Ok(Arc::new(rt.alloc(), gate)?)
}

/// The gates 1 and 2 of the root, with users 1 and 2.
fn two_gates(rt: &(impl Abort + AllocGlobal)) -> Result<Vec<Arc<Gate>>, NoMemory> {
    let mut gates = Vec::new(rt.alloc());
    for number in 1..3 {
        gates.push(numbered_gate(rt, number)?)?;
    }
    Ok(gates)
}

/// The user of the gate of this number that the root made, if it is among these.
fn user_by_root(alloc: Global, gates: &[Arc<Gate>], number: u32) -> Result<Option<u32>, NoMemory> {
    let id = identity(alloc, number)?;
    Ok(gate_named(gates, &id).map(|gate| gate.sheet.user()))
}

/// The name of the root's first child.
fn child_name(rt: &(impl Abort + AllocGlobal)) -> Result<ActorName, NoMemory> {
    let root = ActorName::root(rt.alloc())?;
    match root.child(rt.alloc(), 1) {
        Ok(child) => Ok(child),
        Err(NameFault::NoMemory) => Err(NoMemory),
        Err(NameFault::Deep) => panic!(rt; "deep"),
    }
}

/// The user of the gate 2 that the root's first child made, if it is among these.
fn user_by_child(
    rt: &(impl Abort + AllocGlobal),
    gates: &[Arc<Gate>],
) -> Result<Option<u32>, NoMemory> {
    let maker = child_name(rt)?;
    let id = GateId { maker, number: 2 };
    Ok(gate_named(gates, &id).map(|gate| gate.sheet.user()))
}

/// The users of gate 2 of the root, of gate 2 of its child and of gate 3 of the root, among the
/// gates 1 and 2 of the root.
fn users_found(rt: &(impl Abort + AllocGlobal)) -> Result<[Option<u32>; 3], NoMemory> {
    let gates = two_gates(rt)?;
    let second = user_by_root(rt.alloc(), &gates, 2)?;
    let of_child = user_by_child(rt, &gates)?;
    let third = user_by_root(rt.alloc(), &gates, 3)?;
    Ok([second, of_child, third])
}

/// A gate is found by its maker and its number.
#[test]
fn gates_are_found_by_their_identities(rt: HostRuntime) -> Result<(), Fail> {
    let [second, of_child, third] = users_found(&rt)?;
    assert!(rt; second == Some(2));
    assert!(rt; of_child.is_none());
    assert!(rt; third.is_none());
    Ok(())
}
