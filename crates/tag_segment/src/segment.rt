//! A live tag.

ghost use Rattle.std.specs.Prelude.{◌≡◌, ◌*◌, ◌%◌, ◌+◌, ◌-◌, ◌≤◌, ◌++◌, [], Some, IfOk, OnOk, OnErr, length};
ghost use Rattle.wedge_base.specs.Blocks.{AreBlocks};
ghost use Rattle.wedge_base.specs.Bytes.{zeros};
ghost use Rattle.wedge_base.specs.Images.{page, window, most_pages};
ghost use Rattle.wedge_events.specs.Slots as slots;

use crate::rights::{at_least, right_in};
use cow_pages::Pages;
use smalloc_heap::{Block, Heap, SmallocFault};
use std::alloc::Global;
use std::marker::Model;
use wedge_base::{Bytes, NoMemory, PAGE, Right, TagNo};
use wedge_events::{Boxed, Live, SlotAsk, SlotReply};

/// A live tag: its number, its bytes, and the heap in which its blocks are placed.
#[derive(Debug, Drop)]
pub struct Segment {
    tag: TagNo,
    bytes: Pages,
    heap: Heap,
}

impl Model for Segment {
    ghost use Rattle.std.specs.Prelude.{◌≡◌, ◌%◌, ◌≤◌, length};
    ghost use Rattle.wedge_base.specs.Images.{page, window};
    ghost use Rattle.wedge_events.specs.Slots.{Segment as Plain};

    ghost Value = { Plain };

    ghost view = { λ g. record { tag = g.tag; bytes = g.bytes; blocks = g.heap.blocks } };

    ghost invariant = { λ g. (length g.bytes % page ≡ 0) × (length g.bytes ≤ window) × (g.heap.room ≡ length g.bytes) };
}

impl Segment {
    /// A tag of so many pages, with zero bytes and no blocks.
    pub fn opened(alloc: Global, tag: TagNo, pages: u32) -> Result<Segment, NoMemory>
        requires { pages ≤ most_pages }
        ensures { IfOk result (λ g. g ≡ slots.new_segment tag pages) }
    {
        Ok(Segment {
            tag,
            bytes: Pages::new(alloc, &[], pages)?,
            heap: Heap::new(alloc, pages * PAGE),
        })
    }

    /// A tag of so many pages, with this content and zeros after it, and no blocks.
    pub fn declared(
        alloc: Global,
        tag: TagNo,
        content: &[u8],
        pages: u32,
    ) -> Result<Segment, NoMemory>
        requires pages { pages ≤ most_pages }
        requires content { length content.now ≤ pages * page }
        ensures { let bytes = content.now ++ zeros (pages * page - length content.now)
            in IfOk result (λ g. g ≡ record { tag = tag; bytes = bytes; blocks = [] }) }
    {
        Ok(Segment {
            tag,
            bytes: Pages::new(alloc, content, pages)?,
            heap: Heap::new(alloc, pages * PAGE),
        })
    }

    /// The number of the tag.
    pub fn tag(&self) -> TagNo
        ensures { result ≡ self.now.tag }
    {
        self.tag
    }

    /// How many bytes it has: whole pages, 16 at most.
    pub fn size(&self) -> u32
        ensures is { result ≡ length self.now.bytes }
        ensures pages { length self.now.bytes % page ≡ 0 }
        ensures few { length self.now.bytes ≤ window }
    {
        self.bytes.len() as u32
    }

    /// A copy of its bytes.
    pub fn copy_bytes(&self, alloc: Global) -> Result<Bytes, NoMemory>
        ensures { IfOk result (λ b. b ≡ self.now.bytes) }
    {
        self.bytes.copy(alloc, 0, self.size())
    }

    /// Returns the blocks, by offset. They lie in the bytes, apart.
    pub fn blocks(&self) -> &[Block]
        ensures is { result.now ≡ self.now.blocks }
        ensures apart { AreBlocks 0 (length self.now.bytes) self.now.blocks }
    {
        self.heap.blocks()
    }

    /// Loads bytes, as the asker's right allows it.
    #[inline(always)]
    pub fn load(&self, offset: u32, width: u8, live: Option<Live>) -> SlotReply
        requires { slots.IsAligned offset width }
        ensures { result ≡ slots.live_reply self.now (SlotAsk.Load width offset live) }
    {
        if offset as usize >= self.bytes.len() {
            return SlotReply::Unmapped;
        }
        if !at_least(right_in(live), Right::Read) {
            return SlotReply::Denied {
                tag: self.tag,
                wants: Right::Read,
            };
        }
        let value = self.bytes.load(offset, width);
        SlotReply::Loaded { value }
    }

    /// Stores bytes, as the asker's right allows it. When out of memory, nothing is changed.
    #[inline(always)]
    pub fn store(
        &mut self,
        offset: u32,
        width: u8,
        value: u32,
        live: Option<Live>,
    ) -> Result<SlotReply, NoMemory>
        requires { slots.IsAligned offset width }
        ensures is { let q = SlotAsk.Store width offset value live
            in IfOk result (λ r. r ≡ slots.live_reply self.old q) }
        ensures after { let q = SlotAsk.Store width offset value live
            in OnOk result (Some self.new ≡ slots.slot_next (Some self.old) q) }
        ensures err { OnErr result (self.new ≡ self.old) }
    {
        if offset as usize >= self.bytes.len() {
            return Ok(SlotReply::Unmapped);
        }
        if !at_least(right_in(live), Right::ReadWrite) {
            return Ok(SlotReply::Denied {
                tag: self.tag,
                wants: Right::ReadWrite,
            });
        }
        self.bytes.store(offset, width, value)?;
        Ok(SlotReply::Stored)
    }

    /// Places a block of at least so many bytes, if the tag is this one.
    pub fn smalloc(&mut self, tag: TagNo, size: u32) -> Result<SlotReply, NoMemory>
        requires { 1 ≤ size }
        ensures is { IfOk result
            (λ r. r ≡ slots.live_reply self.old (SlotAsk.Smalloc tag size)) }
        ensures after { let q = SlotAsk.Smalloc tag size
            in OnOk result (Some self.new ≡ slots.slot_next (Some self.old) q) }
        ensures err { OnErr result (self.new ≡ self.old) }
    {
        if self.tag != tag {
            return Ok(SlotReply::NoSuch);
        }
        match self.heap.smalloc(size) {
            Ok(offset) => Ok(SlotReply::Placed { offset }),
            Err(SmallocFault::NoSpace) => Ok(SlotReply::Full),
            Err(SmallocFault::NoMemory) => Err(NoMemory),
        }
    }

    /// Frees the block that begins at an offset, as the asker's right allows it.
    pub fn sfree(&mut self, offset: u32, live: Option<Live>) -> SlotReply
        ensures is { result ≡ slots.live_reply self.old (SlotAsk.Sfree offset live) }
        ensures after { Some self.new
            ≡ slots.slot_next (Some self.old) (SlotAsk.Sfree offset live) }
    {
        let held = right_in(live);
        if !at_least(held, Right::ReadWrite) {
            return SlotReply::Denied {
                tag: self.tag,
                wants: Right::ReadWrite,
            };
        }
        match self.heap.sfree(offset) {
            Ok(()) => SlotReply::Freed,
            Err(_) => SlotReply::Bad,
        }
    }

    /// Its pages, which both then hold, if the tag is this one.
    pub fn snap(&self, alloc: Global, tag: TagNo) -> Result<SlotReply, NoMemory>
        ensures { IfOk result (λ r. r ≡ slots.live_reply self.now (SlotAsk.Snap tag)) }
    {
        if self.tag != tag {
            return Ok(SlotReply::Gone);
        }
        let pages = self.bytes.list(alloc)?;
        Ok(SlotReply::Snapped {
            pages: Boxed::new(alloc, pages)?,
        })
    }
}
