//! The state of a slot.

ghost use Rattle.std.specs.Prelude.{◌≡◌, ◌%◌, ◌*◌, ◌-◌, ◌≤◌, ◌++◌, [], Some, None, IfOk, IfSome, OnOk, OnErr, length, option_map};
ghost use Rattle.wedge_base.specs.Blocks.{AreBlocks};
ghost use Rattle.wedge_base.specs.Bytes.{zeros};
ghost use Rattle.wedge_base.specs.Images.{page, window, most_pages};
ghost use Rattle.wedge_events.specs.Slots as slots;
ghost use Rattle.tag_segment.specs.Replies.{HasNoPages};

use crate::segment::Segment;
use smalloc_heap::Block;
use std::alloc::Global;
use std::marker::Model;
use wedge_base::{Bytes, NoMemory, TagNo};
use wedge_events::{Live, Object, SlotAsk, SlotReply};

/// The cell of a slot: the tag that lives there, if one does, with its bytes and its blocks.
#[derive(Debug, Drop)]
pub struct SlotState {
    alloc: Global,
    segment: Option<Segment>,
}

impl Model for SlotState {
    ghost use Rattle.std.specs.Prelude.{Option};
    ghost use Rattle.wedge_events.specs.Slots.{Segment as Plain};

    ghost Value = { Option Plain };

    ghost view = { λ s. s.segment };
}

impl SlotState {
    /// A slot in which no tag lives.
    pub fn empty(alloc: Global) -> SlotState
        ensures { result ≡ None }
    {
        SlotState {
            alloc,
            segment: None,
        }
    }

    /// A slot in which a declared tag lives: its content, then zeros up to so many pages of 4,096
    /// bytes, and no blocks.
    pub fn declared(
        alloc: Global,
        tag: TagNo,
        content: &[u8],
        pages: u32,
    ) -> Result<SlotState, NoMemory>
        requires pages { pages ≤ most_pages }
        requires content { length content.now ≤ pages * page }
        ensures { let bytes = content.now ++ zeros (pages * page - length content.now)
            in IfOk result (λ s. s ≡ Some (record { tag = tag; bytes = bytes; blocks = [] })) }
    {
        let segment = Segment::declared(alloc, tag, content, pages)?;
        Ok(SlotState {
            alloc,
            segment: Some(segment),
        })
    }

    /// The tag that lives there.
    pub fn live(&self) -> Option<TagNo>
        ensures { result ≡ option_map (λ g. g.tag) self.now }
    {
        let segment = self.segment.as_ref()?;
        Some(segment.tag())
    }

    /// How many bytes the tag that lives there has: whole pages of 4,096 bytes, 16 at most.
    pub fn size(&self) -> Option<u32>
        ensures is { result ≡ option_map (λ g. length g.bytes) self.now }
        ensures pages { IfSome self.now (λ g. length g.bytes % page ≡ 0) }
        ensures few { IfSome self.now (λ g. length g.bytes ≤ window) }
    {
        let segment = self.segment.as_ref()?;
        Some(segment.size())
    }

    /// A copy of the bytes of the tag that lives there.
    pub fn copy_bytes(&self, alloc: Global) -> Result<Option<Bytes>, NoMemory>
        ensures { IfOk result (λ o. o ≡ option_map (λ g. g.bytes) self.now) }
    {
        match &self.segment {
            None => Ok(None),
            Some(segment) => Ok(Some(segment.copy_bytes(alloc)?)),
        }
    }

    /// Returns the blocks of the tag that lives there, by offset. They lie in its bytes, apart.
    pub fn blocks(&self) -> Option<&[Block]>
        ensures is { option_map (λ b. b.now) result ≡ option_map (λ g. g.blocks) self.now }
        ensures apart { IfSome self.now (λ g. AreBlocks 0 (length g.bytes) g.blocks) }
    {
        let segment = self.segment.as_ref()?;
        Some(segment.blocks())
    }
}

impl Object for SlotState {
    ghost use Rattle.std.specs.Prelude.{◌≡◌, Ok, IfOk, OnErr};
    ghost use Rattle.wedge_events.specs.Slots.{slot_reply, slot_next, SlotFits};
    ghost use Rattle.tag_segment.specs.Objects.{opening_state, FitsState};

    type Ask = SlotAsk;

    type Reply = SlotReply;

    ghost reply = { slot_reply };

    ghost next = { slot_next };

    ghost opening = { opening_state };

    ghost fits = { FitsState };

    #[inline(always)]
    fn act(&mut self, ask: &SlotAsk) -> Result<(SlotReply, SlotReply), NoMemory>
        requires { SlotFits self.old ask.now }
        ensures first { IfOk result (λ r. r.0 ≡ slot_reply self.old ask.now) }
        ensures second { IfOk result (λ r. r.1 ≡ slot_reply self.old ask.now) }
        ensures after { IfOk result (λ r. self.new ≡ slot_next self.old ask.now) }
        ensures err { OnErr result (self.new ≡ self.old) }
    {
        match ask {
            SlotAsk::Snap { tag } => {
                let reply = self.snap(*tag)?;
                let second = reply.copy()?;
                Ok((reply, second))
            }
            _ => {
                let reply = self.act_once(ask)?;
                let second = twin(&reply);
                Ok((reply, second))
            }
        }
    }

    #[inline(always)]
    fn act_once(&mut self, ask: &SlotAsk) -> Result<SlotReply, NoMemory>
        requires { SlotFits self.old ask.now }
        ensures is { IfOk result (λ r. r ≡ slot_reply self.old ask.now) }
        ensures after { IfOk result (λ r. self.new ≡ slot_next self.old ask.now) }
        ensures err { OnErr result (self.new ≡ self.old) }
    {
        match ask {
            SlotAsk::Load {
                offset,
                width,
                live,
            } => Ok(self.load(*offset, *width, *live)),
            SlotAsk::Store {
                offset,
                width,
                value,
                live,
            } => self.store(*offset, *width, *value, *live),
            _ => self.act_other(*ask),
        }
    }

    fn copy_ask(ask: &SlotAsk) -> Result<SlotAsk, NoMemory>
        ensures { result ≡ Ok ask.now }
    {
        Ok(*ask)
    }
}

impl SlotState {
    /// Does what is asked, which may be of any kind, as `act_once` does. It is passed by value: so the ask of a load or a
    /// store is never in memory, and the compiler knows its kind.
    #[inline(never)]
    fn act_other(&mut self, ask: SlotAsk) -> Result<SlotReply, NoMemory>
        requires { slots.SlotFits self.old ask }
        ensures is { IfOk result (λ r. r ≡ slots.slot_reply self.old ask) }
        ensures after { OnOk result (self.new ≡ slots.slot_next self.old ask) }
        ensures err { OnErr result (self.new ≡ self.old) }
    {
        match ask {
            SlotAsk::Open { tag, pages } => self.begin(tag, pages),
            SlotAsk::Close { tag } => Ok(self.close(tag)),
            SlotAsk::Load {
                offset,
                width,
                live,
            } => Ok(self.load(offset, width, live)),
            SlotAsk::Store {
                offset,
                width,
                value,
                live,
            } => self.store(offset, width, value, live),
            SlotAsk::Smalloc { tag, size } => self.smalloc(tag, size),
            SlotAsk::Sfree { offset, live } => Ok(self.sfree(offset, live)),
            SlotAsk::Snap { tag } => self.snap(tag),
        }
    }

    /// Begins a tag, with zero bytes and no blocks, whatever lived there.
    fn begin(&mut self, tag: TagNo, pages: u32) -> Result<SlotReply, NoMemory>
        requires { pages ≤ most_pages }
        ensures is { IfOk result (λ r. r ≡ slots.slot_reply self.old (SlotAsk.Open tag pages)) }
        ensures after { OnOk result (self.new
            ≡ slots.slot_next self.old (SlotAsk.Open tag pages)) }
        ensures err { OnErr result (self.new ≡ self.old) }
    {
        let segment = Segment::opened(self.alloc, tag, pages)?;
        self.segment = Some(segment);
        Ok(SlotReply::Opened)
    }

    /// Ends a tag, if it is the one that lives there.
    fn close(&mut self, tag: TagNo) -> SlotReply
        ensures is { result ≡ slots.slot_reply self.old (SlotAsk.Close tag) }
        ensures after { self.new ≡ slots.slot_next self.old (SlotAsk.Close tag) }
    {
        let Some(segment) = &self.segment else {
            return SlotReply::NoSuch;
        };
        if segment.tag() != tag {
            return SlotReply::NoSuch;
        }
        self.segment = None;
        SlotReply::Closed
    }

    /// Loads bytes.
    #[inline(always)]
    fn load(&self, offset: u32, width: u8, live: Option<Live>) -> SlotReply
        requires { slots.IsAligned offset width }
        ensures { result ≡ slots.slot_reply self.now (SlotAsk.Load width offset live) }
    {
        match &self.segment {
            None => SlotReply::Unmapped,
            Some(segment) => segment.load(offset, width, live),
        }
    }

    /// Stores bytes. When out of memory, nothing is changed.
    #[inline(always)]
    fn store(
        &mut self,
        offset: u32,
        width: u8,
        value: u32,
        live: Option<Live>,
    ) -> Result<SlotReply, NoMemory>
        requires { slots.IsAligned offset width }
        ensures is { let q = SlotAsk.Store width offset value live
            in IfOk result (λ r. r ≡ slots.slot_reply self.old q) }
        ensures after { let q = SlotAsk.Store width offset value live
            in OnOk result (self.new ≡ slots.slot_next self.old q) }
        ensures err { OnErr result (self.new ≡ self.old) }
    {
        match &mut self.segment {
            None => Ok(SlotReply::Unmapped),
            Some(segment) => segment.store(offset, width, value, live),
        }
    }

    /// Places a block.
    fn smalloc(&mut self, tag: TagNo, size: u32) -> Result<SlotReply, NoMemory>
        requires { 1 ≤ size }
        ensures is { IfOk result
            (λ r. r ≡ slots.slot_reply self.old (SlotAsk.Smalloc tag size)) }
        ensures after { OnOk result (self.new
            ≡ slots.slot_next self.old (SlotAsk.Smalloc tag size)) }
        ensures err { OnErr result (self.new ≡ self.old) }
    {
        match &mut self.segment {
            None => Ok(SlotReply::NoSuch),
            Some(segment) => segment.smalloc(tag, size),
        }
    }

    /// Frees a block.
    fn sfree(&mut self, offset: u32, live: Option<Live>) -> SlotReply
        ensures is { result ≡ slots.slot_reply self.old (SlotAsk.Sfree offset live) }
        ensures after { self.new ≡ slots.slot_next self.old (SlotAsk.Sfree offset live) }
    {
        match &mut self.segment {
            None => SlotReply::NoSuch,
            Some(segment) => segment.sfree(offset, live),
        }
    }

    /// The pages of a tag, if it is the one that lives there. Both then hold them.
    fn snap(&self, tag: TagNo) -> Result<SlotReply, NoMemory>
        ensures { IfOk result (λ r. r ≡ slots.slot_reply self.now (SlotAsk.Snap tag)) }
    {
        match &self.segment {
            None => Ok(SlotReply::Gone),
            Some(segment) => segment.snap(self.alloc, tag),
        }
    }
}

/// An equal reply, of one that has no pages. It takes no memory.
fn twin(reply: &SlotReply) -> SlotReply
    requires { HasNoPages reply.now }
    ensures { result ≡ reply.now }
{
    match reply {
        SlotReply::Opened => SlotReply::Opened,
        SlotReply::Closed => SlotReply::Closed,
        SlotReply::Loaded { value } => SlotReply::Loaded { value: *value },
        SlotReply::Stored => SlotReply::Stored,
        SlotReply::Placed { offset } => SlotReply::Placed { offset: *offset },
        SlotReply::Freed => SlotReply::Freed,
        SlotReply::Unmapped => SlotReply::Unmapped,
        SlotReply::Denied { tag, wants } => SlotReply::Denied {
            tag: *tag,
            wants: *wants,
        },
        SlotReply::NoSuch => SlotReply::NoSuch,
        SlotReply::Full => SlotReply::Full,
        SlotReply::Bad => SlotReply::Bad,
        SlotReply::Gone => SlotReply::Gone,
        SlotReply::Snapped { .. } => unreachable!(),
    }
}
