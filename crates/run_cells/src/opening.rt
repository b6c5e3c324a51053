//! The cells of a run, as it begins.

ghost use Rattle.std.specs.Prelude.{◌≡◌, ◌<◌, ◌≤◌, ◌+◌, [], IfOk, vec_len, length};
ghost use Rattle.wedge_base.specs.Images.{slots as most_slots};
ghost use Rattle.ruled_cell.specs.Passes.{first_view};
ghost use Rattle.wedge_events.specs.Slots.{slot_opening};
ghost use Rattle.wedge_events.specs.declared.events.CellName.TheVariants.{Slot as SlotName};
ghost use Rattle.wedge_events.specs.Streams.{most_fds, stream_opening};
ghost use Rattle.run_cells.specs.TagPasses.{AreUnentered};

use crate::locked_cell::LockedCell;
use crate::tag_cells::{TableOf, TagCells, TagPass};
use fd_table::Stream;
use image_form::Image;
use journal_cell::{GhostJournaled, RunOf};
use machine::Lives;
use ruled_cell::{RuledCells, RuledPass};
use std::alloc::Global;
use std::sync::{Mutex, Wait};
use tag_directory::{FdDirectory, SlotDirectory};
use tag_segment::SlotState;
use wedge_base::{FdNo, MOST_FDS, NoMemory, SLOTS, Slot, TagNo};
use wedge_events::CellName;

/// The cells that every run has: the directory of slots, 4,096 slots, the directory of descriptors, 1,024 streams, and
/// the count of live sthreads. The slots of declared tags come first and serve tickets; each other cell has a lock of
/// its own. The cells of recycled gates are not among them.
#[derive(Drop)]
pub struct RunCells<I: RunOf, T: TableOf> {
    pub(crate) slot_directory: Mutex<LockedCell<SlotDirectory, I>>,
    pub(crate) tags: TagCells<I, T>,
    /// The slots behind those of declared tags.
    pub(crate) slots: Vec<Mutex<LockedCell<SlotState, I>>>,
    pub(crate) fd_directory: Mutex<LockedCell<FdDirectory, I>>,
    pub(crate) streams: Vec<Mutex<LockedCell<Stream, I>>>,
    pub(crate) lives: Mutex<LockedCell<Lives, I>>,
    pub(crate) ghost all_slots: { T.table.slots + vec_len slots ≡ most_slots },
    pub(crate) ghost all_streams: { vec_len streams ≡ most_fds },
}

impl<I: RunOf, T: TableOf> RunCells<I, T> {
    /// Returns the cells as a run of an image begins; those of its declared tags are these.
    pub fn new(
        alloc: Global,
        image: &Image,
        tags: TagCells<I, T>,
    ) -> Result<RunCells<I, T>, NoMemory>
        requires image { image.now ≡ I.image }
        requires tags { T.table.slots ≡ length image.now.tags }
    {
        let slots = slots(alloc, image, tags.count())?;
        let streams = streams(alloc, image)?;
        let slot_directory = SlotDirectory::new(alloc, image.tags().len() as u32)?;
        let fd_directory = FdDirectory::new(alloc, image.fds().len() as u32)?;
        Ok(RunCells {
            slot_directory: Mutex::new(LockedCell::new(alloc, CellName::Slots, slot_directory)),
            tags,
            slots,
            fd_directory: Mutex::new(LockedCell::new(alloc, CellName::Fds, fd_directory)),
            streams,
            lives: Mutex::new(LockedCell::new(alloc, CellName::Lives, Lives::new())),
        })
    }

    /// Returns a pass for an actor, which has entered nothing. It is to be given back to `into_gathered`, which fails
    /// where one is missing. Fails only where 2^64 - 1 were returned.
    pub fn pass<R: Wait>(&self, rt: &R) -> Result<TagPass<I, T>, NoMemory>
        ensures { IfOk result (λ p. p ≡ []) }
    {
        self.tags.pass(rt)
    }
}

/// Returns the slots of the declared tags of an image as a run begins, and the first pass of them.
pub fn open_tags<I: RunOf>(
    alloc: Global,
    image: &Image,
) -> Result<(RuledCells<SlotState, I>, RuledPass<SlotState, I>), NoMemory>
    requires { image.now ≡ I.image }
    ensures table { IfOk result (λ t. (t.1.table ≡ t.0)
        × (t.0.slots ≡ length image.now.tags)) }
    ensures first { IfOk result (λ t. t.1.view ≡ first_view) }
{
    RuledCells::new(alloc, tag_cells(alloc, image)?)
}

/// Returns the slots of all declared tags, with their histories.
fn tag_cells<I: RunOf>(
    alloc: Global,
    image: &Image,
) -> Result<Vec<GhostJournaled<SlotState, I>>, NoMemory>
    requires { image.now ≡ I.image }
    ensures count { IfOk result (λ v. length v.items ≡ length image.now.tags) }
    ensures few { IfOk result (λ v. length v.items ≤ most_slots) }
    ensures initial { IfOk result (λ v. AreUnentered 0 v.items) }
{
    let count = image.tags().len();
    let mut cells = Vec::with_capacity(alloc, count)?;
    while cells.len() < count {
        cells.push(tag_cell(alloc, image, cells.len() as u32)?)?;
    }
    Ok(cells)
}

/// Returns the slot of a declared tag, with its history.
fn tag_cell<I: RunOf>(
    alloc: Global,
    image: &Image,
    slot: u32,
) -> Result<GhostJournaled<SlotState, I>, NoMemory>
    requires { image.now ≡ I.image }
    ensures { IfOk result (λ c. (c.name ≡ SlotName slot) × (c.history ≡ [])) }
{
    let state = slot_state(alloc, image, slot)?;
    Ok(GhostJournaled::new(CellName::Slot { slot: Slot(slot) }, state))
}

/// Returns the cells of the slots from a number on.
fn slots<I: RunOf>(
    alloc: Global,
    image: &Image,
    first: usize,
) -> Result<Vec<Mutex<LockedCell<SlotState, I>>>, NoMemory>
    requires image { image.now ≡ I.image }
    requires first { first ≤ most_slots }
    ensures { IfOk result (λ v. first + vec_len v ≡ most_slots) }
{
    let count = SLOTS as usize - first;
    let mut cells = Vec::with_capacity(alloc, count)?;
    while cells.len() < count {
        cells.push(slot_cell(alloc, image, (first + cells.len()) as u32)?)?;
    }
    Ok(cells)
}

/// Returns the cell of a slot.
fn slot_cell<I: RunOf>(
    alloc: Global,
    image: &Image,
    slot: u32,
) -> Result<Mutex<LockedCell<SlotState, I>>, NoMemory>
    requires image { image.now ≡ I.image }
    requires slot { slot < most_slots }
{
    let state = slot_state(alloc, image, slot)?;
    let name = CellName::Slot { slot: Slot(slot) };
    Ok(Mutex::new(LockedCell::new(alloc, name, state)))
}

/// Returns the state of a slot as a run begins.
fn slot_state(alloc: Global, image: &Image, slot: u32) -> Result<SlotState, NoMemory>
    ensures { IfOk result (λ s. s ≡ slot_opening image.now slot) }
{
    match image.tags().get(slot as usize) {
        None => Ok(SlotState::empty(alloc)),
        Some(tag) => SlotState::declared(alloc, TagNo(slot), tag.content.as_slice(), tag.pages),
    }
}

/// Returns the cells of all streams.
fn streams<I: RunOf>(
    alloc: Global,
    image: &Image,
) -> Result<Vec<Mutex<LockedCell<Stream, I>>>, NoMemory>
    requires { image.now ≡ I.image }
    ensures { IfOk result (λ v. vec_len v ≡ most_fds) }
{
    let mut cells = Vec::with_capacity(alloc, MOST_FDS as usize)?;
    while cells.len() < MOST_FDS as usize {
        cells.push(stream_cell(alloc, image, cells.len() as u32)?)?;
    }
    Ok(cells)
}

/// Returns the cell of a stream.
fn stream_cell<I: RunOf>(
    alloc: Global,
    image: &Image,
    fd: u32,
) -> Result<Mutex<LockedCell<Stream, I>>, NoMemory>
    requires image { image.now ≡ I.image }
    requires fd { fd < most_fds }
{
    let state = stream_state(alloc, image, fd)?;
    let name = CellName::Fd { fd: FdNo(fd) };
    Ok(Mutex::new(LockedCell::new(alloc, name, state)))
}

/// Returns the stream of a descriptor as a run begins.
fn stream_state(alloc: Global, image: &Image, fd: u32) -> Result<Stream, NoMemory>
    ensures { IfOk result (λ s. s ≡ stream_opening image.now fd) }
{
    match image.fds().get(fd as usize) {
        None => Ok(Stream::unopened()),
        Some(entry) => Stream::declared(alloc, entry),
    }
}
