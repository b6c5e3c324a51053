//! What each kind of cell is asked, and what it replies.

use crate::boxed::Boxed;
use crate::saved_view::SavedView;
use wedge_base::{ActorName, Bytes, End, FdBits, PageList, Right, StreamKind, TagNo};

/// The tag that lives in a slot, and the asker's own right on it.
#[derive(Clone, Copy, Debug, PartialEq, Eq)]
pub struct Live {
    pub tag: TagNo,
    pub right: Option<Right>,
}

/// What a slot is asked. A load, a store and the freeing of a block carry the tag that lives there
/// at that event, or none, with the asker's right on it; an offset is in bytes from the start of
/// the window. The width comes first, so that an ask takes 24 bytes.
#[derive(Clone, Copy, Debug, PartialEq, Eq)]
pub enum SlotAsk {
    /// To begin a tag of 1 to 16 pages there, with zero bytes and no blocks.
    Open {
        tag: TagNo,
        pages: u32,
    },
    /// To end a tag.
    Close {
        tag: TagNo,
    },
    /// To load 1, 2 or 4 bytes.
    Load {
        width: u8,
        offset: u32,
        live: Option<Live>,
    },
    /// To store the low 1, 2 or 4 bytes of a value.
    Store {
        width: u8,
        offset: u32,
        value: u32,
        live: Option<Live>,
    },
    /// To place a block of at least so many bytes in a tag.
    Smalloc {
        tag: TagNo,
        size: u32,
    },
    /// To free the block that begins at an offset.
    Sfree {
        offset: u32,
        live: Option<Live>,
    },
    /// To copy the bytes of a tag.
    Snap {
        tag: TagNo,
    },
}

#[derive(Clone, Debug, PartialEq, Drop)]
pub enum SlotReply {
    Opened,
    Closed,
    /// The bytes as a little-endian number.
    Loaded { value: u32 },
    Stored,
    /// The offset of the block.
    Placed { offset: u32 },
    Freed,
    /// The pages of the tag.
    Snapped { pages: Boxed<PageList> },
    /// No tag lives there, or the offset is past its pages.
    Unmapped,
    /// The asker lacks this right on the tag that lives there.
    Denied { tag: TagNo, wants: Right },
    /// The tag doesn't live there, or none does.
    NoSuch,
    /// No gap is large enough.
    Full,
    /// No block begins at the offset.
    Bad,
    /// The tag to be copied doesn't live there.
    Gone,
}

/// What a descriptor's stream is asked. Each ask but the first carries the asker's own bits on the
/// descriptor.
#[derive(Clone, Debug, PartialEq, Drop)]
pub enum StreamAsk {
    /// To begin, with these bytes.
    Open {
        kind: StreamKind,
        bytes: Boxed<Bytes>,
    },
    /// To give the next bytes, so many at most.
    Read {
        bits: FdBits,
        count: u32,
    },
    /// To add bytes at the end.
    Append {
        bits: FdBits,
        bytes: Boxed<Bytes>,
    },
    /// To end.
    Close {
        bits: FdBits,
    },
}

#[derive(Clone, Debug, PartialEq, Drop)]
pub enum StreamReply {
    Opened,
    /// The next bytes; none at the end.
    Given { bytes: Boxed<Bytes> },
    Appended,
    Closed,
    /// The descriptor has no live stream.
    NoSuch,
    /// The asker lacks these bits.
    Denied { wants: FdBits },
    /// The stream is of the other kind.
    Bad,
}

/// What a directory is asked. It allocates slots or descriptors, each with a new number.
#[derive(Clone, Copy, Debug, PartialEq, Eq)]
pub enum DirectoryAsk {
    /// To allocate a slot or a descriptor.
    Claim,
    /// To release one.
    Release { place: u32 },
}

#[derive(Clone, Copy, Debug, PartialEq, Eq)]
pub enum DirectoryReply {
    /// The slot or descriptor, and a number that was never given before.
    Claimed { place: u32, number: u32 },
    /// None is free, or no number is left.
    Full,
    Released,
}

/// What the count of live sthreads is asked.
#[derive(Clone, Copy, Debug, PartialEq, Eq)]
pub enum LivesAsk {
    /// One more is to live.
    Claim,
    /// An sthread ends, in this way.
    Release { end: End },
}

#[derive(Clone, Copy, Debug, PartialEq, Eq)]
pub enum LivesReply {
    Claimed,
    /// As many live as may.
    Full,
    Released,
}

/// What the cell of a recycled gate is asked.
#[derive(Debug, PartialEq, Drop)]
pub enum GateAsk {
    /// A run of this name begins. The memory is that with which it begins where none is kept.
    Enter { run: ActorName, memory: SavedView },
    /// The run in it has ended so, and leaves this memory.
    Leave { end: End, memory: SavedView },
}

#[derive(Debug, PartialEq, Drop)]
pub enum GateReply {
    /// The run begins with this memory.
    Entered { memory: SavedView },
    Left,
}
