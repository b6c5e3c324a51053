//! Slots at work.

ghost use Rattle.std.specs.Prelude.{◌≤◌, IsTrue, length};
ghost use Rattle.wedge_base.specs.Images.{page};
ghost use Rattle.wedge_events.specs.Slots as slots;

use smalloc_heap::Block;
use std::alloc::Global;
use std::process::Abort;
use std::sync::Arc;
use std::test::Fail;
use tag_segment::SlotState;
use wedge_base::{MOST_PAGES, NoMemory, Page, PageAt, PageList, Right, TagNo, WINDOW};
use wedge_events::{Boxed, Live, Object, SlotAsk, SlotReply};

/// What a slot is asked, for whatever tag lives there. A tag is given by its number.
#[derive(Clone, Copy, Debug)]
enum Step {
    Open(u32, u32),
    Close(u32),
    /// An offset, a width and a right.
    Load(u32, u8, Option<Right>),
    Store(u32, u8, u32, Option<Right>),
    Smalloc(u32, u32),
    Sfree(u32, Option<Right>),
    Snap(u32),
}

const READ: Option<Right> = Some(Right::Read);

const WRITE: Option<Right> = Some(Right::ReadWrite);

const COPY: Option<Right> = Some(Right::Cow);

const DENIED_READ: &str = "Denied { tag: TagNo(7), wants: Read }";

const DENIED_WRITE: &str = "Denied { tag: TagNo(7), wants: ReadWrite }";

const TAG: u32 = 7;

const OTHER: u32 = 8;

/// Steps of a slot in which no tag lives.
static EMPTY: [(Step, &str); 6] = [
    (Step::Load(0, 4, WRITE), "Unmapped"),
    (Step::Store(0, 4, 1, WRITE), "Unmapped"),
    (Step::Sfree(0, WRITE), "NoSuch"),
    (Step::Smalloc(TAG, 8), "NoSuch"),
    (Step::Close(TAG), "NoSuch"),
    (Step::Snap(TAG), "Gone"),
];

/// Whether no bytes are in a slot.
fn has_no_bytes(alloc: Global, slot: &SlotState) -> Result<bool, NoMemory> {
    Ok(slot.copy_bytes(alloc)?.is_none())
}

#[test]
fn an_empty_slot(rt: HostRuntime) -> Result<(), Fail> {
    let mut slot = SlotState::empty(rt.alloc());
    assert!(rt; slot.live().is_none());
    assert!(rt; slot.size().is_none());
    assert!(rt; has_no_bytes(rt.alloc(), &slot)?);
    run(&rt, &mut slot, &EMPTY)?;
    assert!(rt; slot.live().is_none());
    Ok(())
}

/// A tag of 16 pages is opened, written and closed.
fn opened_and_closed(
    rt: &(impl Abort + AllocGlobal),
    slot: &mut SlotState,
    tag: u32,
) -> Result<(), NoMemory> {
    let steps = [
        (Step::Open(tag, 16), "Opened"),
        (Step::Load(8, 4, READ), "Loaded { value: 0 }"),
        (Step::Load(65532, 4, READ), "Loaded { value: 0 }"),
        (Step::Smalloc(tag, 65536), "Placed { offset: 0 }"),
        (Step::Smalloc(tag, 1), "Full"),
        (Step::Store(8, 4, 77, WRITE), "Stored"),
        (Step::Load(8, 4, READ), "Loaded { value: 77 }"),
        (Step::Close(tag), "Closed"),
    ];
    run(rt, slot, &steps)
}

/// A tag of one page is opened in its place.
fn opened_again(
    rt: &(impl Abort + AllocGlobal),
    slot: &mut SlotState,
    tag: u32,
) -> Result<(), NoMemory> {
    let steps = [
        (Step::Load(8, 4, READ), "Unmapped"),
        (Step::Open(tag, 1), "Opened"),
        (Step::Load(8, 4, READ), "Loaded { value: 0 }"),
        (Step::Load(4096, 4, READ), "Unmapped"),
        (Step::Smalloc(tag, 4096), "Placed { offset: 0 }"),
    ];
    run(rt, slot, &steps)
}

/// A tag is opened, closed and opened again, and then has one block, its page.
fn opened_twice(
    rt: &(impl Abort + AllocGlobal),
    slot: &mut SlotState,
    tag: u32,
) -> Result<(), NoMemory> {
    opened_and_closed(rt, slot, tag)?;
    opened_again(rt, slot, tag)?;
    let block = Block {
        offset: 0,
        size: 4096,
    };
    assert!(rt; slot.live() == Some(TagNo(tag)) && slot.blocks() == Some([block].as_slice()));
    Ok(())
}

static TAGS: [u32; 3] = [TAG, OTHER, TAG];

#[test]
fn a_tag_opened_again_is_zeroed(rt: HostRuntime) -> Result<(), Fail> {
    let mut slot = SlotState::empty(rt.alloc());
    for tag in &TAGS {
        opened_twice(&rt, &mut slot, *tag)?;
    }
    Ok(())
}

/// No access is granted under a right that is neither to read nor to write.
fn denied_under(
    rt: &(impl Abort + AllocGlobal),
    slot: &mut SlotState,
    right: Option<Right>,
) -> Result<(), NoMemory> {
    let steps = [
        (Step::Load(0, 4, right), DENIED_READ),
        (Step::Store(0, 4, 1, right), DENIED_WRITE),
        (Step::Sfree(0, right), DENIED_WRITE),
        (Step::Load(4096, 4, right), "Unmapped"),
    ];
    run(rt, slot, &steps)
}

/// Accesses of a tag of one page that begins with abcd.
static ACCESSES: [(Step, &str); 8] = [
    (Step::Load(0, 4, READ), "Loaded { value: 1684234849 }"),
    (Step::Load(2, 2, WRITE), "Loaded { value: 25699 }"),
    (Step::Load(4, 1, READ), "Loaded { value: 0 }"),
    (Step::Store(0, 4, 1, READ), DENIED_WRITE),
    (Step::Store(4096, 1, 1, READ), "Unmapped"),
    (Step::Load(3, 1, READ), "Loaded { value: 100 }"),
    (Step::Store(2, 2, 0x1_0203, WRITE), "Stored"),
    (Step::Load(0, 4, READ), "Loaded { value: 33776225 }"),
];

#[test]
fn accesses_under_each_right(rt: HostRuntime) -> Result<(), Fail> {
    let mut slot = SlotState::declared(rt.alloc(), TagNo(TAG), b"abcd", 1)?;
    denied_under(&rt, &mut slot, None)?;
    denied_under(&rt, &mut slot, COPY)?;
    run(&rt, &mut slot, &ACCESSES)?;
    Ok(())
}

/// Steps of a slot in which a tag lives, of which most ask for another.
static OTHERS: [(Step, &str); 7] = [
    (Step::Close(OTHER), "NoSuch"),
    (Step::Snap(OTHER), "Gone"),
    (Step::Smalloc(OTHER, 8), "NoSuch"),
    (Step::Load(0, 1, READ), "Loaded { value: 97 }"),
    (Step::Open(OTHER, 1), "Opened"),
    (Step::Load(0, 1, READ), "Loaded { value: 0 }"),
    (Step::Snap(TAG), "Gone"),
];

#[test]
fn another_tag_is_asked_for(rt: HostRuntime) -> Result<(), Fail> {
    let mut slot = SlotState::declared(rt.alloc(), TagNo(TAG), b"abcd", 1)?;
    run(&rt, &mut slot, &OTHERS)?;
    Ok(())
}

/// Blocks that are placed in a tag of one page and freed.
static BLOCKS: [(Step, &str); 11] = [
    (Step::Smalloc(TAG, 5), "Placed { offset: 0 }"),
    (Step::Smalloc(TAG, 9), "Placed { offset: 8 }"),
    (Step::Sfree(4, READ), DENIED_WRITE),
    (Step::Sfree(4, WRITE), "Bad"),
    (Step::Sfree(16, WRITE), "Bad"),
    (Step::Sfree(0, READ), DENIED_WRITE),
    (Step::Sfree(0, WRITE), "Freed"),
    (Step::Sfree(0, WRITE), "Bad"),
    (Step::Smalloc(TAG, 16), "Placed { offset: 24 }"),
    (Step::Smalloc(TAG, 8), "Placed { offset: 0 }"),
    (Step::Smalloc(TAG, u32::MAX), "Full"),
];

#[test]
fn blocks_are_freed_under_a_right_to_write(rt: HostRuntime) -> Result<(), Fail> {
    let mut slot = SlotState::declared(rt.alloc(), TagNo(TAG), &[], 1)?;
    run(&rt, &mut slot, &BLOCKS)?;
    Ok(())
}

/// The reply of two pages, the first of which begins with this content.
fn snapped(alloc: Global, content: &[u8]) -> Result<SlotReply, NoMemory>
    requires { length content.now ≤ page }
{
    let pages = Boxed::new(alloc, two_pages(alloc, content)?)?;
    Ok(SlotReply::Snapped { pages })
}

/// Whether both replies are of two pages, the first of which begins with this content.
fn are_snapped(
    alloc: Global,
    first: &SlotReply,
    second: &SlotReply,
    content: &[u8],
) -> Result<bool, NoMemory>
    requires { length content.now ≤ page }
{
    let wanted = snapped(alloc, content)?;
    Ok(*first == wanted && *second == wanted)
}

/// A byte that is stored behind the content.
static STORE: [(Step, &str); 1] = [(Step::Store(4, 1, 101, WRITE), "Stored")];

/// Whether the replies of a slot to a snap are its pages, and whether they are so still after a
/// byte is stored.
fn snaps_stay(
    rt: &(impl Abort + AllocGlobal),
    slot: &mut SlotState,
) -> Result<[bool; 2], NoMemory> {
    let (first, second) = slot.act(&SlotAsk::Snap { tag: TagNo(TAG) })?;
    let before = are_snapped(rt.alloc(), &first, &second, b"abcd")?;
    run(rt, slot, &STORE)?;
    let after = are_snapped(rt.alloc(), &first, &second, b"abcd")?;
    Ok([before, after])
}

#[test]
fn a_snap_copies_the_pages(rt: HostRuntime) -> Result<(), Fail> {
    let mut slot = SlotState::declared(rt.alloc(), TagNo(TAG), b"abcd", 2)?;
    let [before, after] = snaps_stay(&rt, &mut slot)?;
    assert!(rt; before);
    assert!(rt; after);
    Ok(())
}

/// Whether the one reply of a slot to a snap is two pages, the first of which begins with this
/// content.
fn is_snapped_once(alloc: Global, slot: &mut SlotState, content: &[u8]) -> Result<bool, NoMemory>
    requires { length content.now ≤ page }
{
    let wanted = snapped(alloc, content)?;
    let once = slot.act_once(&SlotAsk::Snap { tag: TagNo(TAG) })?;
    Ok(once == wanted)
}

/// Whether so many bytes are in a slot, and begin so.
fn has_bytes(
    alloc: Global,
    slot: &SlotState,
    count: usize,
    start: &[u8],
) -> Result<bool, NoMemory> {
    let Some(bytes) = slot.copy_bytes(alloc)? else {
        return Ok(false);
    };
    Ok(bytes.as_slice().len() == count && bytes.as_slice().starts_with(start))
}

#[test]
fn a_snap_once_copies_the_pages(rt: HostRuntime) -> Result<(), Fail> {
    let mut slot = SlotState::declared(rt.alloc(), TagNo(TAG), b"abcd", 2)?;
    run(&rt, &mut slot, &STORE)?;
    assert!(rt; is_snapped_once(rt.alloc(), &mut slot, b"abcde")?);
    assert!(rt; slot.size() == Some(8192));
    assert!(rt; has_bytes(rt.alloc(), &slot, 8192, b"abcde\0")?);
    Ok(())
}

/// Two pages, the first of which begins with this content.
fn two_pages(alloc: Global, content: &[u8]) -> Result<PageList, NoMemory>
    requires { length content.now ≤ page }
{
    let first = PageAt {
        place: 0,
        page: Arc::new(alloc, Page::beginning(content))?,
    };
    let second = PageAt {
        place: 1,
        page: Arc::new(alloc, Page::zero())?,
    };
    Ok(PageList::new(vec![in alloc; first, second]?))
}

/// Whether a reply is written so.
fn is_written(alloc: Global, reply: &SlotReply, wanted: &str) -> Result<bool, NoMemory> {
    Ok(format!(in alloc; "{reply:?}")?.as_str() == wanted)
}

/// Asks a slot one thing by a copy of the ask, and compares both copies of its reply.
fn replies(
    rt: &(impl Abort + AllocGlobal),
    slot: &mut SlotState,
    step: Step,
    wanted: &str,
) -> Result<(), NoMemory> {
    let ask = ask_of(rt, slot, step);
    assert!(rt; SlotState::copy_ask(&ask)? == ask);
    let (first, second) = slot.act(&ask)?;
    assert!(rt; is_written(rt.alloc(), &first, wanted)?, "{step:?}");
    assert!(rt; is_written(rt.alloc(), &second, wanted)?, "{step:?}");
    Ok(())
}

/// Asks a slot one thing after another, and compares each reply with what is wanted.
fn run(
    rt: &(impl Abort + AllocGlobal),
    slot: &mut SlotState,
    steps: &[(Step, &str)],
) -> Result<(), NoMemory> {
    for (step, wanted) in steps {
        replies(rt, slot, *step, wanted)?;
    }
    Ok(())
}

/// The ask of a step, with the tag that lives in the slot.
fn ask_of(rt: &impl Abort, slot: &SlotState, step: Step) -> SlotAsk
    ensures { slots.SlotFits slot.now result }
{
    match step {
        Step::Open(tag, pages) if pages > 0 && pages <= MOST_PAGES => {
            let tag = TagNo(tag);
            SlotAsk::Open { tag, pages }
        }
        Step::Close(tag) => SlotAsk::Close { tag: TagNo(tag) },
        Step::Load(offset, width, right) if is_aligned(offset, width) => {
            let live = pair(slot, right);
            SlotAsk::Load {
                offset,
                width,
                live,
            }
        }
        Step::Store(offset, width, value, right) if is_aligned(offset, width) => {
            let live = pair(slot, right);
            SlotAsk::Store {
                offset,
                width,
                value,
                live,
            }
        }
        Step::Smalloc(tag, size) if size > 0 => {
            let tag = TagNo(tag);
            SlotAsk::Smalloc { tag, size }
        }
        Step::Sfree(offset, right) if offset < WINDOW => {
            let live = pair(slot, right);
            SlotAsk::Sfree { offset, live }
        }
        Step::Snap(tag) => SlotAsk::Snap { tag: TagNo(tag) },
        _ => panic!(rt; "{step:?} fits no slot"),
    }
}

fn is_aligned(offset: u32, width: u8) -> bool
    ensures { IsTrue result → slots.IsAligned offset width }
{
    offset < WINDOW
        && match width {
            1 => true,
            2 => offset % 2 == 0,
            4 => offset % 4 == 0,
            _ => false,
        }
}

/// The tag that lives in a slot, and a right on it.
fn pair(slot: &SlotState, right: Option<Right>) -> Option<Live>
    ensures { slots.IsPair slot.now result }
{
    let tag = slot.live()?;
    Some(Live { tag, right })
}
