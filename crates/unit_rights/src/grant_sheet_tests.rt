//! Tests of grant_sheet.

use grant_sheet::{
    Draft, DraftFault, Made, NumberMap, Sheet, first_excess, gate_at, is_under, right_on, sheet_of,
};
use std::alloc::Global;
use std::process::Abort;
use std::test::Fail;
use wedge_base::{
    ActorName, Bytes, Denial, FdBits, FdEntry, FdNo, GateId, Grant, Item, NoMemory, PathText,
    Right, Slot, StreamKind, TagEntry, TagNo, is_canonical,
};

const READ: FdBits = FdBits {
    read: true,
    append: false,
};

const BOTH: FdBits = FdBits {
    read: true,
    append: true,
};

/// The gate of a number that the root made.
fn gate(alloc: Global, number: u32) -> Result<GateId, NoMemory> {
    let maker = ActorName::root(alloc)?;
    Ok(GateId { maker, number })
}

/// The path of a canonical text.
fn path(rt: &(impl Abort + AllocGlobal), text: &str) -> Result<PathText, NoMemory> {
    let bytes = text.as_bytes();
    assert!(rt; is_canonical(bytes), "not canonical");
    Ok(PathText::new(Bytes::from_slice(rt.alloc(), bytes)?))
}

/// A map of these entries.
fn map_of(alloc: Global, entries: &[(u32, u32)]) -> Result<NumberMap<u32>, NoMemory> {
    let mut map = NumberMap::new(alloc);
    for (key, value) in entries {
        map.insert(*key, *value)?;
    }
    Ok(map)
}

/// Rights on tags, tag n in slot n + 10: Cow on tag 1, Read on tag 2, ReadWrite on tag 4.
fn tags(alloc: Global) -> Result<NumberMap<Grant>, NoMemory> {
    let mut tags = NumberMap::new(alloc);
    for (tag, right) in [(4, Right::ReadWrite), (1, Right::Cow), (2, Right::Read)] {
        let slot = Slot(tag + 10);
        tags.insert(tag, Grant { right, slot })?;
    }
    Ok(tags)
}

/// Read on these descriptors.
fn fds(alloc: Global, numbers: &[u32]) -> Result<NumberMap<FdBits>, NoMemory> {
    let mut fds = NumberMap::new(alloc);
    for fd in numbers {
        fds.insert(*fd, READ)?;
    }
    Ok(fds)
}

/// Gates, each an entry and a number.
fn gates(alloc: Global, list: &[(u32, u32)]) -> Result<NumberMap<GateId>, NoMemory> {
    let mut gates = NumberMap::new(alloc);
    for (entry, number) in list {
        gates.insert(*entry, gate(alloc, *number)?)?;
    }
    Ok(gates)
}

/// A sheet of these tags, read on descriptor 3, gate 1 at entry 16 and gate 4 at entry 48.
fn sheet(rt: &(impl Abort + AllocGlobal), user: u32, root: &str) -> Result<Sheet, NoMemory> {
    let root = path(rt, root)?;
    let gates = gates(rt.alloc(), &[(16, 1), (48, 4)])?;
    let fds = fds(rt.alloc(), &[3])?;
    let tags = tags(rt.alloc())?;
    Ok(Sheet::new(tags, fds, gates, user, root))
}

/// Adds gates that an actor made, each an entry and a number.
fn make_gates(
    rt: &(impl Abort + AllocGlobal),
    made: &mut Made,
    list: &[(u32, u32)],
) -> Result<(), NoMemory> {
    for (entry, number) in list {
        assert!(rt; made.count() < u32::MAX, "too many gates");
        made.put_gate(*entry, gate(rt.alloc(), *number)?)?;
    }
    Ok(())
}

/// Makes tag 5 in slot 0, opens descriptor 7 with read, and makes gate 2 at entry 32 and gates 3
/// and 5 at entry 48.
fn make_all(rt: &(impl Abort + AllocGlobal), made: &mut Made) -> Result<(), NoMemory> {
    make_gates(rt, made, &[(48, 3), (32, 2), (48, 5)])?;
    made.put_fd(FdNo(7), READ)?;
    made.put_tag(TagNo(5), Slot(0))
}

/// One who made tag 5 in slot 0, opened descriptor 7 with read, and made gate 2 at entry 32 and
/// gates 3 and 5 at entry 48.
fn made(rt: &(impl Abort + AllocGlobal)) -> Result<Made, NoMemory> {
    let mut made = Made::new(rt.alloc());
    make_all(rt, &mut made)?;
    Ok(made)
}

/// What an actor has: its sheet, and what it made.
#[derive(Drop)]
struct Held {
    sheet: Sheet,
    made: Made,
}

/// What an actor of a user and a root directory has.
fn held_by(rt: &(impl Abort + AllocGlobal), user: u32, root: &str) -> Result<Held, NoMemory> {
    let sheet = sheet(rt, user, root)?;
    let made = made(rt)?;
    Ok(Held { sheet, made })
}

/// What came of a grant that was put into a draft with room for it.
fn with_room(rt: &impl Abort, put: Result<(), DraftFault>) -> Result<(), NoMemory> {
    match put {
        Ok(()) => Ok(()),
        Err(DraftFault::NoMemory) => Err(NoMemory),
        Err(DraftFault::Full) => panic!(rt; "full"),
    }
}

/// Puts rights on tags into a draft.
fn put_tags(rt: &impl Abort, draft: &mut Draft, tags: &[(u32, Right)]) -> Result<(), NoMemory> {
    for (tag, right) in tags {
        with_room(rt, draft.put_tag(TagNo(*tag), *right))?;
    }
    Ok(())
}

/// Puts read on descriptors into a draft.
fn put_fds(rt: &impl Abort, draft: &mut Draft, fds: &[u32]) -> Result<(), NoMemory> {
    for fd in fds {
        with_room(rt, draft.put_fd(FdNo(*fd), READ))?;
    }
    Ok(())
}

/// Puts entries of gates into a draft.
fn put_gates(rt: &impl Abort, draft: &mut Draft, entries: &[u32]) -> Result<(), NoMemory> {
    for entry in entries {
        with_room(rt, draft.put_gate(*entry))?;
    }
    Ok(())
}

/// Puts rights on tags, read on descriptors and entries of gates into a draft.
fn put_all(
    rt: &impl Abort,
    draft: &mut Draft,
    tags: &[(u32, Right)],
    fds: &[u32],
    gates: &[u32],
) -> Result<(), NoMemory> {
    put_gates(rt, draft, gates)?;
    put_fds(rt, draft, fds)?;
    put_tags(rt, draft, tags)
}

/// A draft of rights on tags, of descriptors that may be read, and of gates at entries.
fn draft(
    rt: &(impl Abort + AllocGlobal),
    tags: &[(u32, Right)],
    fds: &[u32],
    gates: &[u32],
) -> Result<Draft, NoMemory> {
    let mut draft = Draft::new(rt.alloc());
    put_all(rt, &mut draft, tags, fds, gates)?;
    Ok(draft)
}

/// Entries are kept sorted, a value that is put at a key replaces the one there, and of two maps
/// joined the first has the value at a key of both.
#[test]
fn maps_are_sorted(rt: HostRuntime) -> Result<(), Fail> {
    let first = map_of(rt.alloc(), &[(7, 1), (4, 2), (7, 3), (0, 4)])?;
    let second = map_of(rt.alloc(), &[(u32::MAX, 5), (4, 6)])?;
    let joined = first.joined(rt.alloc(), &second)?;
    let wanted = [(0, 4), (4, 2), (7, 3), (u32::MAX, 5)];
    assert!(rt; joined.as_slice() == wanted.as_slice());
    Ok(())
}

/// Tags, and the right of an actor on each.
static RIGHTS: [(u32, Option<Right>); 4] = [
    (1, Some(Right::Cow)),
    (2, Some(Right::Read)),
    (3, None),
    (5, Some(Right::ReadWrite)),
];

/// Finds the right of an actor on a tag.
fn check_right(rt: &impl Abort, held: &Held, tag: u32, wanted: Option<Right>) {
    let right = right_on(&held.sheet, &held.made, TagNo(tag));
    assert!(rt; right == wanted, "tag {tag}");
}

/// The right on each tag, by the sheet and by what was made.
#[test]
fn rights_of_an_actor(rt: HostRuntime) -> Result<(), Fail> {
    let held = held_by(&rt, 1, "/")?;
    for (tag, wanted) in &RIGHTS {
        check_right(&rt, &held, *tag, *wanted);
    }
    Ok(())
}

/// The number of a gate, or 0 for none: gates are numbered from 1.
fn number_of(gate: Option<&GateId>) -> u32 {
    match gate {
        Some(gate) => gate.number,
        None => 0,
    }
}

/// Entries, and the number of an actor's gate at each.
static GATES: [(u32, u32); 4] = [(16, 1), (32, 2), (48, 5), (24, 0)];

/// Finds the number of an actor's gate at an entry.
fn check_gate(rt: &impl Abort, held: &Held, entry: u32, wanted: u32) {
    let number = number_of(gate_at(&held.sheet, &held.made, entry));
    assert!(rt; number == wanted, "entry {entry}");
}

/// A gate that was made later hides the one that was made there before, and the sheet's.
#[test]
fn last_gate_counts(rt: HostRuntime) -> Result<(), Fail> {
    let held = held_by(&rt, 1, "/")?;
    for (entry, wanted) in &GATES {
        check_gate(&rt, &held, *entry, *wanted);
    }
    Ok(())
}

/// The first excess of a draft of an actor of a user and a root directory.
fn excess_of(
    rt: &(impl Abort + AllocGlobal),
    user: u32,
    root: &str,
    draft: &Draft,
) -> Result<Option<Denial>, NoMemory> {
    let held = held_by(rt, user, root)?;
    Ok(first_excess(&held.sheet, &held.made, draft))
}

/// The item of a draft that is denied, if one is.
fn item_of(denial: &Option<Denial>) -> Option<Item> {
    match denial {
        Some(Denial::Grant { item }) => Some(*item),
        _ => None,
    }
}

/// The item of a draft that an actor of user 1 may not grant first, if there is one.
fn excess_item(rt: &(impl Abort + AllocGlobal), draft: &Draft) -> Result<Option<Item>, NoMemory> {
    let denial = excess_of(rt, 1, "/box", draft)?;
    Ok(item_of(&denial))
}

/// The item that an actor of user 1 may not grant first, if there is one, in a draft of rights on
/// tags, of descriptors and of gates that also asks for user 0.
fn denied_item(
    rt: &(impl Abort + AllocGlobal),
    tags: &[(u32, Right)],
    fds: &[u32],
    gates: &[u32],
) -> Result<Option<Item>, NoMemory> {
    let mut draft = draft(rt, tags, fds, gates)?;
    draft.set_user(0);
    excess_item(rt, &draft)
}

/// Tags come before descriptors and gates, in the order of their numbers.
#[test]
fn tags_are_denied_first(rt: HostRuntime) -> Result<(), Fail> {
    let rights = [(9, Right::Cow), (2, Right::ReadWrite), (1, Right::Cow)];
    let item = denied_item(&rt, &rights, &[9], &[24])?;
    let (tag, right) = (TagNo(2), Right::ReadWrite);
    assert!(rt; item == Some(Item::Tag { tag, right }));
    Ok(())
}

/// Descriptors come before gates, in the order of their numbers.
#[test]
fn descriptors_are_denied_before_gates(rt: HostRuntime) -> Result<(), Fail> {
    let item = denied_item(&rt, &[(4, Right::Read)], &[7, 9, 8], &[24])?;
    let (fd, bits) = (FdNo(8), READ);
    assert!(rt; item == Some(Item::Fd { fd, bits }));
    Ok(())
}

/// Gates come in the order of their entries.
#[test]
fn gates_are_denied_by_entry(rt: HostRuntime) -> Result<(), Fail> {
    let item = denied_item(&rt, &[], &[], &[32, 40, 24, 16])?;
    assert!(rt; item == Some(Item::Gate { entry: 24 }));
    Ok(())
}

/// The part of a draft that is denied, by its name.
fn part_of(denial: &Option<Denial>) -> &'static str {
    match denial {
        None => "none",
        Some(Denial::User) => "user",
        Some(Denial::Root) => "root",
        _ => "other",
    }
}

/// The part that is denied of a draft of an actor of a user and a root directory.
fn denied_part(
    rt: &(impl Abort + AllocGlobal),
    user: u32,
    root: &str,
    draft: &Draft,
) -> Result<&'static str, NoMemory> {
    let denial = excess_of(rt, user, root, draft)?;
    Ok(part_of(&denial))
}

/// A draft of user 5 and a root directory.
fn placed_draft(rt: &(impl Abort + AllocGlobal), root: &str) -> Result<Draft, NoMemory> {
    let root = path(rt, root)?;
    let mut draft = Draft::new(rt.alloc());
    draft.set_user(5);
    draft.set_root(root);
    Ok(draft)
}

/// The part that is denied of a draft of user 5 and a root directory.
fn denied_place(
    rt: &(impl Abort + AllocGlobal),
    user: u32,
    root: &str,
    asked: &str,
) -> Result<&'static str, NoMemory> {
    let draft = placed_draft(rt, asked)?;
    denied_part(rt, user, root, &draft)
}

/// The part that is denied of a draft of items that an actor of user 1 may all grant, and of user
/// 0.
fn denied_after_items(rt: &(impl Abort + AllocGlobal)) -> Result<&'static str, NoMemory> {
    let mut draft = draft(rt, &[(5, Right::ReadWrite)], &[3, 7], &[48])?;
    draft.set_user(0);
    denied_part(rt, 1, "/", &draft)
}

/// The user is denied after items that may all be granted.
#[test]
fn users_are_denied_after_items(rt: HostRuntime) -> Result<(), Fail> {
    let part = denied_after_items(&rt)?;
    assert!(rt; part == "user");
    Ok(())
}

/// An actor's user and root directory, the root directory that is asked for with user 5, and the
/// part that is denied.
#[rattlefmt::skip]
static PLACES: [(u32, &str, &str, &str); 5] = [
    (0, "/box", "/box/etc", "none"),
    (0, "/box", "/boxes", "root"),
    (5, "/box", "/box", "none"),
    (5, "/box", "/box/etc", "root"),
    (6, "/box", "/", "user"),
];

/// Finds the part that is denied of a draft of user 5 and a root directory.
fn check_place(
    rt: &(impl Abort + AllocGlobal),
    user: u32,
    root: &str,
    asked: &str,
    wanted: &str,
) -> Result<(), NoMemory> {
    let part = denied_place(rt, user, root, asked)?;
    assert!(rt; part == wanted, "user {user}, {asked} of {root}");
    Ok(())
}

/// Which users and root directories may be given, and that the user comes before the root
/// directory.
#[test]
fn users_and_roots(rt: HostRuntime) -> Result<(), Fail> {
    for (user, root, asked, wanted) in &PLACES {
        check_place(&rt, *user, root, asked, wanted)?;
    }
    Ok(())
}

/// Finds whether a path is under another.
fn check_under(rt: &impl Abort, root: &str, path: &str, wanted: bool) {
    let is = is_under(root.as_bytes(), path.as_bytes());
    assert!(rt; is == wanted, "{path} under {root}");
}

/// A path is under another by its parts.
#[test]
fn paths_under_paths(rt: HostRuntime) {
    for (root, path, wanted) in [
        ("/", "/a", true),
        ("/a", "/", false),
        ("/a", "/a", true),
        ("/a", "/a/b", true),
        ("/a", "/ab", false),
        ("/a/b", "/a/c/b", false),
    ] {
        check_under(&rt, root, path, wanted);
    }
}

/// A draft of 1,024 grants: on the tags below 1,022, on descriptor 0 and at entry 16.
fn full_draft(rt: &(impl Abort + AllocGlobal)) -> Result<Draft, NoMemory> {
    let mut draft = draft(rt, &[], &[0], &[16])?;
    for tag in 0..1_022 {
        put_tags(rt, &mut draft, &[(tag, Right::Read)])?;
    }
    Ok(draft)
}

/// Whether a draft is full for the tag, the descriptor and the gate of a number.
fn full_at(draft: &mut Draft, number: u32) -> [bool; 3] {
    let tag = draft.put_tag(TagNo(number), Right::Cow);
    let fd = draft.put_fd(FdNo(number), BOTH);
    let gate = draft.put_gate(number);
    [
        tag == Err(DraftFault::Full),
        fd == Err(DraftFault::Full),
        gate == Err(DraftFault::Full),
    ]
}

/// Numbers, and whether a full draft takes no tag, descriptor and gate of each.
static FULL: [(u32, [bool; 3]); 3] = [
    (0, [false, false, true]),
    (16, [false, true, false]),
    (1_022, [true, true, true]),
];

/// A draft takes 1,024 grants of all kinds together, and then only on what it has a grant already.
#[test]
fn drafts_fill_up(rt: HostRuntime) -> Result<(), Fail> {
    let mut draft = full_draft(&rt)?;
    for (number, wanted) in &FULL {
        assert!(rt; full_at(&mut draft, *number) == *wanted, "{number}");
    }
    Ok(())
}

/// The sheet that a draft of an actor gives, where no part of it is in excess.
fn child_of(
    rt: &(impl Abort + AllocGlobal),
    held: &Held,
    draft: &Draft,
) -> Result<Sheet, NoMemory> {
    let denial = first_excess(&held.sheet, &held.made, draft);
    assert!(rt; denial.is_none(), "an excess");
    sheet_of(rt.alloc(), &held.sheet, &held.made, draft)
}

/// The sheet that a draft of an actor of user 0 gives, where no part of it is in excess.
fn child(rt: &(impl Abort + AllocGlobal), draft: &Draft) -> Result<Sheet, NoMemory> {
    let held = held_by(rt, 0, "/box")?;
    child_of(rt, &held, draft)
}

/// The sheet of Read on tag 5 and Cow on tag 2, with read on descriptor 3 and the gates at entries
/// 48 and 16.
fn given(rt: &(impl Abort + AllocGlobal)) -> Result<Sheet, NoMemory> {
    let rights = [(5, Right::Read), (2, Right::Cow)];
    let draft = draft(rt, &rights, &[3], &[48, 16])?;
    child(rt, &draft)
}

/// A copy of the gates of that sheet.
fn given_gates(rt: &(impl Abort + AllocGlobal)) -> Result<NumberMap<GateId>, NoMemory> {
    let given = given(rt)?;
    given.copy_gates(rt.alloc())
}

/// Whether the tags of that sheet are given in the creator's slots.
fn has_given_tags(given: &Sheet) -> bool {
    let wanted = [
        (
            2,
            Grant {
                right: Right::Cow,
                slot: Slot(12),
            },
        ),
        (
            5,
            Grant {
                right: Right::Read,
                slot: Slot(0),
            },
        ),
    ];
    given.tags().as_slice() == wanted.as_slice()
}

/// Tags are given in the creator's slots.
#[test]
fn slots_are_the_creators(rt: HostRuntime) -> Result<(), Fail> {
    let given = given(&rt)?;
    assert!(rt; has_given_tags(&given));
    Ok(())
}

/// Entries, and the number of the gate that is given at each.
static GIVEN_GATES: [(u32, u32); 3] = [(16, 1), (32, 0), (48, 5)];

/// Gates are the creator's at their entries.
#[test]
fn gates_are_the_creators(rt: HostRuntime) -> Result<(), Fail> {
    let gates = given_gates(&rt)?;
    for (entry, wanted) in &GIVEN_GATES {
        let number = number_of(gates.get(*entry));
        assert!(rt; number == *wanted, "entry {entry}");
    }
    Ok(())
}

/// A declared tag, on which the root has this right.
fn tag_entry(alloc: Global, right: Option<Right>) -> Result<TagEntry, NoMemory> {
    Ok(TagEntry {
        name: Bytes::from_slice(alloc, b"tag")?,
        pages: 1,
        right,
        content: Bytes::from_slice(alloc, b"")?,
    })
}

/// Declared tags, on which the root has these rights.
fn tag_entries(alloc: Global, rights: &[Option<Right>]) -> Result<Vec<TagEntry>, NoMemory> {
    let mut entries = Vec::new(alloc);
    for right in rights {
        entries.push(tag_entry(alloc, *right)?)?;
    }
    Ok(entries)
}

/// A declared descriptor, on which the root has these bits.
fn fd_entry(alloc: Global, bits: FdBits) -> Result<FdEntry, NoMemory> {
    Ok(FdEntry {
        name: Bytes::from_slice(alloc, b"fd")?,
        kind: StreamKind::Source,
        bits,
        content: Bytes::from_slice(alloc, b"")?,
    })
}

/// Declared descriptors, on which the root has these bits.
fn fd_entries(alloc: Global, bits: &[FdBits]) -> Result<Vec<FdEntry>, NoMemory> {
    let mut entries = Vec::new(alloc);
    for bits in bits {
        entries.push(fd_entry(alloc, *bits)?)?;
    }
    Ok(entries)
}

/// The root's sheet, of user 7 and a root directory, of declared tags and descriptors.
fn sheet_of_entries(
    rt: &(impl Abort + AllocGlobal),
    tags: &[TagEntry],
    fds: &[FdEntry],
) -> Result<Sheet, NoMemory> {
    let root = path(rt, "/srv")?;
    assert!(rt; tags.len() <= 3 && fds.len() <= 2, "too many entries");
    Sheet::root(rt.alloc(), tags, fds, 7, root)
}

/// The root's sheet, of Cow on tag 0, nothing on tag 1 and ReadWrite on tag 2, and these bits on
/// descriptors 0 and 1.
fn root_sheet(rt: &(impl Abort + AllocGlobal)) -> Result<Sheet, NoMemory> {
    let tags = tag_entries(
        rt.alloc(),
        &[Some(Right::Cow), None, Some(Right::ReadWrite)],
    )?;
    let fds = fd_entries(rt.alloc(), &[READ, BOTH])?;
    sheet_of_entries(rt, &tags, &fds)
}

/// Tags, and the slot of each in the root's sheet, if it is there.
static ROOT_SLOTS: [(u32, Option<u32>); 4] = [(0, Some(0)), (1, None), (2, Some(2)), (3, None)];

/// Finds the slot of a tag in a sheet, if it is there.
fn check_slot(rt: &impl Abort, sheet: &Sheet, tag: u32, wanted: Option<u32>) {
    let slot = sheet.tags().get(tag).map(|grant| grant.slot.0);
    assert!(rt; slot == wanted, "tag {tag}");
}

/// The root's tags are numbered by their indices, and one without a right is left out.
#[test]
fn tags_of_the_root(rt: HostRuntime) -> Result<(), Fail> {
    let sheet = root_sheet(&rt)?;
    for (tag, wanted) in &ROOT_SLOTS {
        check_slot(&rt, &sheet, *tag, *wanted);
    }
    Ok(())
}

/// The root's descriptors are numbered by their indices.
#[test]
fn descriptors_of_the_root(rt: HostRuntime) -> Result<(), Fail> {
    let sheet = root_sheet(&rt)?;
    assert!(rt; sheet.fds().as_slice() == [(0, READ), (1, BOTH)].as_slice());
    Ok(())
}
