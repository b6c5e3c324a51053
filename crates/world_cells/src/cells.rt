//! The cells of a world.

ghost use Rattle.std.specs.Prelude.{◌≡◌, ◌<◌, ◌≤◌, ◌-◌, ◌++◌, Some, None, IfOk, OnOk, OnErr, length, map, option_map, slice_get, slice_set};
ghost use Rattle.std.specs.List.{AllByRecursion};
ghost use Rattle.wedge_base.specs.Images.{slots as most_slots};
ghost use Rattle.wedge_events.specs.Directories.{directory_reply, directory_next};
ghost use Rattle.wedge_events.specs.declared.events.Event.{Event as AnEvent};
ghost use Rattle.wedge_events.specs.Slots.{SlotFits, slot_reply, slot_next, declared_slots};
ghost use Rattle.wedge_events.specs.Streams.{most_fds, declared_stream, stream_reply, stream_next};
ghost use Rattle.image_form.specs.Rules.{IsTag};
ghost use Rattle.machine.specs.Between.{GivesBelow, IsInBounds};
ghost use Rattle.machine.specs.Cells.{AskFits, opening_cells, nothings, held, kept_in, live_at, event_of, cells_after};
ghost use Rattle.run_laws.specs.Written.{slot_bytes};

use crate::gates::{GateCell, ask_gate, is_entered};
use fd_table::Stream;
use image_form::Image;
use machine::Lives;
use std::alloc::Global;
use std::marker::Model;
use tag_directory::Directory;
use tag_segment::SlotState;
use wedge_base::{Bytes, FdEntry, FdNo, GateId, MOST_FDS, NoMemory, SLOTS, Slot, TagEntry, TagNo};
use wedge_events::{
    Ask, Boxed, DirectoryAsk, DirectoryReply, Event, Object, SlotAsk, SlotReply, StreamAsk,
    StreamReply, Want,
};

/// The cells of a world: the directory of slots, 4,096 slots with the tag that lives in each, the directory of
/// descriptors, 1,024 descriptors with the stream behind each, the count of live sthreads, and the recycled
/// gates.
pub struct Cells {
    alloc: Global,
    places: Directory,
    slots: Vec<SlotState>,
    numbers: Directory,
    streams: Vec<Stream>,
    lives: Lives,
    gates: Vec<GateCell>,
}

// By hand: a derived drop would be proved again in each function that drops one.
impl Drop for Cells {
    fn drop(self) {
        let Self {
            alloc: _,
            places: _,
            slots: _,
            numbers: _,
            streams: _,
            lives: _,
            gates: _,
        } = self;
    }
}

impl Model for Cells {
    ghost use Rattle.std.specs.Prelude.{◌≡◌, length};
    ghost use Rattle.wedge_base.specs.Images.{slots as most_slots};
    ghost use Rattle.wedge_events.specs.Streams.{most_fds};
    ghost use Rattle.machine.specs.Between.{GivesBelow};
    ghost use Rattle.machine.specs.Cells.{Cells as Plain};

    ghost Value = { Plain };

    ghost view = { λ c. record {
      places = c.places;
      slots = c.slots.items;
      numbers = c.numbers;
      streams = c.streams.items;
      lives = c.lives;
      gates = c.gates.items;
    } };

    ghost invariant = { λ c. record {
      slots : length c.slots.items ≡ most_slots;
      streams : length c.streams.items ≡ most_fds;
      places : GivesBelow most_slots c.places;
      numbers : GivesBelow most_fds c.numbers;
    } };
}

impl Cells {
    /// The cells as a run of an image begins.
    pub fn opening(alloc: Global, image: &Image) -> Result<Cells, NoMemory>
        ensures { IfOk result (λ c. c ≡ opening_cells image.now) }
    {
        let tags = image.tags();
        let fds = image.fds();
        Ok(Cells {
            alloc,
            places: Directory::new(alloc, SLOTS, tags.len() as u32)?,
            slots: opening_slots(alloc, tags)?,
            numbers: Directory::new(alloc, MOST_FDS, fds.len() as u32)?,
            streams: opening_streams(alloc, fds)?,
            lives: Lives::new(),
            gates: Vec::new(alloc),
        })
    }

    /// Returns the streams, by descriptor: 1,024.
    pub fn streams(&self) -> &[Stream]
        ensures is { result.now ≡ self.now.streams }
        ensures all { length result.now ≡ most_fds }
    {
        self.streams.as_slice()
    }

    /// A copy of the bytes of the tag that lives in a slot.
    pub fn copy_bytes(&self, slot: Slot) -> Result<Option<Bytes>, NoMemory>
        ensures { IfOk result (λ o. o ≡ slot_bytes self.now slot) }
    {
        match self.slots.get(slot.0 as usize) {
            None => Ok(None),
            Some(state) => state.copy_bytes(self.alloc),
        }
    }

    /// Whether a run is in a recycled gate.
    pub fn is_entered(&self, gate: &GateId) -> bool
        ensures { result ≡ (kept_in self.now gate.now).entered }
    {
        is_entered(&self.gates, gate)
    }

    /// The tag that lives in the slot of what is wanted.
    #[inline(always)]
    pub fn live(&self, want: &Want) -> Option<TagNo>
        ensures { result ≡ live_at self.now want.now }
    {
        match want {
            Want::Slot { slot, .. } => tag_in(&self.slots, *slot),
            _ => None,
        }
    }

    /// Asks a cell what fits it, and returns the event that comes of it. After `NoMemory` the cells are as
    /// before.
    #[inline(always)]
    pub fn act(&mut self, ask: Ask) -> Result<Event, NoMemory>
        requires { AskFits self.old ask }
        ensures is { IfOk result (λ e. event_of self.old ask ≡ Some e) }
        ensures after { IfOk result (λ e. self.new ≡ cells_after self.old e) }
        ensures bounds { IfOk result IsInBounds }
        ensures err { OnErr result (self.new ≡ self.old) }
    {
        match ask {
            Ask::Slot { slot, ask } => {
                is_in_bounds(&self.slots, slot, &ask);
                let reply = ask_slot(&mut self.slots, slot, &ask)?;
                Ok(Event::Slot { slot, ask, reply })
            }
            Ask::Fd { fd, ask } => {
                let reply = ask_stream(&mut self.streams, fd, &ask)?;
                Ok(Event::Fd { fd, ask, reply })
            }
            Ask::Lives(ask) => {
                let reply = self.lives.count(ask);
                Ok(Event::Lives { ask, reply })
            }
            Ask::Slots(ask) => {
                let reply = ask_places(&mut self.places, ask)?;
                Ok(Event::Slots { ask, reply })
            }
            Ask::Fds(ask) => {
                let reply = ask_numbers(&mut self.numbers, ask)?;
                Ok(Event::Fds { ask, reply })
            }
            Ask::Gate { gate, ask } => {
                let gate = Boxed::new(self.alloc, gate)?;
                let ask = Boxed::new(self.alloc, ask)?;
                let reply = ask_gate(self.alloc, &mut self.gates, &gate, &ask)?;
                Ok(Event::Gate { gate, ask, reply })
            }
            Ask::Start { .. } | Ask::Join { .. } | Ask::Enter { .. } | Ask::Leave { .. } => {
                unreachable!()
            }
        }
    }
}

/// The tag that lives in a slot.
#[inline(always)]
fn tag_in(slots: &[SlotState], slot: Slot) -> Option<TagNo>
    ensures { result ≡ option_map (λ g. g.tag) (held (slice_get slots.now slot)) }
{
    slots.get(slot.0 as usize)?.live()
}

/// A block that is placed in a slot begins inside its window, and a copy of a tag has as many pages as a tag may have.
#[tactic(auto, using(crate::proofs::CellIndices::held_at, run_laws::proofs::Placing::places_inside, run_laws::proofs::Placing::snaps_inside, run_laws::proofs::Placing::others_inside))]
#[inline(always)]
fn is_in_bounds(slots: &[SlotState], slot: Slot, ask: &SlotAsk)
    requires inside { slot < most_slots }
    requires all { length slots.now ≡ most_slots }
    requires fits { SlotFits (held (slice_get slots.now slot)) ask.now }
    ensures { IsInBounds
        (AnEvent.Slot slot ask.now (slot_reply (held (slice_get slots.now slot)) ask.now)) }
{
    // The tag is opened here, so that what its type keeps is at hand.
    match ask {
        SlotAsk::Smalloc { .. } => {
            let state = &slots[slot.0 as usize];
            let _ = state.blocks();
            let _ = state.size();
        }
        SlotAsk::Snap { .. } => {
            let state = &slots[slot.0 as usize];
            let _ = state.size();
        }
        _ => {}
    }
}

/// Asks the directory of slots.
#[tactic(auto, using(run_laws::proofs::Placing::place_in_bounds, run_laws::proofs::Directing::next_sound))]
fn ask_places(places: &mut Directory, ask: DirectoryAsk) -> Result<DirectoryReply, NoMemory>
    requires { GivesBelow most_slots places.old }
    ensures is { IfOk result (λ r. r ≡ directory_reply places.old ask) }
    ensures after { OnOk result (places.new ≡ directory_next places.old ask) }
    ensures below { GivesBelow most_slots places.new }
    ensures bounds { IfOk result (λ r. IsInBounds (AnEvent.Slots ask r)) }
    ensures err { OnErr result (places.new ≡ places.old) }
{
    places.act_once(&ask)
}

/// Asks the directory of descriptors.
#[tactic(auto, using(run_laws::proofs::Placing::number_in_bounds, run_laws::proofs::Directing::next_sound))]
fn ask_numbers(numbers: &mut Directory, ask: DirectoryAsk) -> Result<DirectoryReply, NoMemory>
    requires { GivesBelow most_fds numbers.old }
    ensures is { IfOk result (λ r. r ≡ directory_reply numbers.old ask) }
    ensures after { OnOk result (numbers.new ≡ directory_next numbers.old ask) }
    ensures below { GivesBelow most_fds numbers.new }
    ensures bounds { IfOk result (λ r. IsInBounds (AnEvent.Fds ask r)) }
    ensures err { OnErr result (numbers.new ≡ numbers.old) }
{
    numbers.act_once(&ask)
}

/// Asks a slot.
#[tactic(auto, using(crate::proofs::CellIndices::held_at))]
#[inline(always)]
fn ask_slot(slots: &mut Vec<SlotState>, slot: Slot, ask: &SlotAsk) -> Result<SlotReply, NoMemory>
    requires inside { slot < length slots.old.items }
    requires fits { SlotFits (held (slice_get slots.old.items slot)) ask.now }
    ensures is { IfOk result
        (λ r. r ≡ slot_reply (held (slice_get slots.old.items slot)) ask.now) }
    ensures after { OnOk result (slots.new.items
        ≡ slice_set slots.old.items slot
        (slot_next (held (slice_get slots.old.items slot)) ask.now)) }
    ensures err { OnErr result (slots.new.items ≡ slots.old.items) }
    ensures count { length slots.new.items ≡ length slots.old.items }
{
    let state = &mut slots[slot.0 as usize];
    state.act_once(ask)
}

/// Asks the stream behind a descriptor.
#[tactic(auto, using(crate::proofs::CellIndices::held_at, run_laws::proofs::Placing::gives_inside))]
fn ask_stream(streams: &mut Vec<Stream>, fd: FdNo, ask: &StreamAsk) -> Result<StreamReply, NoMemory>
    requires { fd < length streams.old.items }
    ensures is { IfOk result (λ r. r
        ≡ stream_reply (held (slice_get streams.old.items fd)) ask.now) }
    ensures after { OnOk result (streams.new.items
        ≡ slice_set streams.old.items fd
        (stream_next (held (slice_get streams.old.items fd)) ask.now)) }
    ensures bounds { IfOk result (λ r. IsInBounds (AnEvent.Fd fd ask.now r)) }
    ensures err { OnErr result (streams.new.items ≡ streams.old.items) }
    ensures count { length streams.new.items ≡ length streams.old.items }
{
    let state = &mut streams[fd.0 as usize];
    state.act_once(ask)
}

/// The slots as a run begins: the declared tags, each in the slot of its number, and then empty ones.
fn opening_slots(alloc: Global, tags: &[TagEntry]) -> Result<Vec<SlotState>, NoMemory>
    requires few { length tags.now ≤ 256 }
    requires each { AllByRecursion IsTag tags.now }
    ensures is { IfOk result (λ v. v.items
        ≡ declared_slots 0 tags.now ++ nothings (most_slots - length tags.now)) }
    ensures all { IfOk result (λ v. length v.items ≡ most_slots) }
{
    let mut slots = declared_slots(alloc, tags)?;
    while slots.len() < SLOTS as usize {
        slots.push(SlotState::empty(alloc))?;
    }
    Ok(slots)
}

/// The tags that are declared, each in the slot of its number.
fn declared_slots(alloc: Global, tags: &[TagEntry]) -> Result<Vec<SlotState>, NoMemory>
    requires few { length tags.now ≤ 256 }
    requires each { AllByRecursion IsTag tags.now }
    ensures { IfOk result (λ v. v.items ≡ declared_slots 0 tags.now) }
{
    let mut slots = Vec::with_capacity(alloc, SLOTS as usize)?;
    let mut number = 0u32;
    for tag in tags {
        let content = tag.content.as_slice();
        slots.push(SlotState::declared(alloc, TagNo(number), content, tag.pages)?)?;
        number += 1;
    }
    Ok(slots)
}

/// The streams as a run begins: those of the declared descriptors, and then none.
fn opening_streams(alloc: Global, fds: &[FdEntry]) -> Result<Vec<Stream>, NoMemory>
    requires { length fds.now ≤ most_fds }
    ensures is { IfOk result (λ v. v.items
        ≡ map (λ f. Some (declared_stream f)) fds.now ++ nothings (most_fds - length fds.now)) }
    ensures all { IfOk result (λ v. length v.items ≡ most_fds) }
{
    let mut streams = declared_streams(alloc, fds)?;
    while streams.len() < MOST_FDS as usize {
        streams.push(Stream::unopened())?;
    }
    Ok(streams)
}

/// The streams of the declared descriptors.
fn declared_streams(alloc: Global, fds: &[FdEntry]) -> Result<Vec<Stream>, NoMemory>
    ensures is { IfOk result (λ v. v.items ≡ map (λ f. Some (declared_stream f)) fds.now) }
{
    let mut streams = Vec::with_capacity(alloc, MOST_FDS as usize)?;
    for fd in fds {
        streams.push(Stream::declared(alloc, fd)?)?;
    }
    Ok(streams)
}
