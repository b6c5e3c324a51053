//! What an actor made since it began.

ghost use Rattle.std.specs.Prelude.{◌≡◌, ◌+◌, ◌<◌, ◌^◌, OnOk, OnErr};
ghost use Rattle.wedge_base.specs.Sheets as sheets;

use crate::number_map::NumberMap;
use std::alloc::Global;
use std::marker::Model;
use wedge_base::{FdBits, FdNo, GateId, NoMemory, Slot, TagNo};

/// What an actor made or opened since it began. It holds this beside its sheet.
#[derive(Debug, Drop)]
pub struct Made {
    /// The slots of the tags that it made, by tag number.
    tags: NumberMap<Slot>,
    /// The bits with which it opened descriptors, by descriptor number.
    fds: NumberMap<FdBits>,
    /// The last gate that it made at each entry.
    gates: NumberMap<GateId>,
    /// How many gates it made.
    count: u32,
}

impl Model for Made {
    ghost use Rattle.wedge_base.specs.Sheets.{Made as Plain};

    ghost Value = { Plain };

    ghost view = { λ m. record { tags = m.tags; fds = m.fds; gates = m.gates; count = m.count } };
}

impl Made {
    /// What an actor made as it begins: nothing. It allocates nothing.
    pub fn new(alloc: Global) -> Made
        ensures { result ≡ sheets.nothing_made }
    {
        Made {
            tags: NumberMap::new(alloc),
            fds: NumberMap::new(alloc),
            gates: NumberMap::new(alloc),
            count: 0,
        }
    }

    /// Returns the slots of the tags that the actor made, by tag number.
    #[inline]
    pub fn tags(&self) -> &NumberMap<Slot>
        ensures { result.now ≡ self.now.tags }
    {
        &self.tags
    }

    /// Returns the bits with which the actor opened descriptors, by descriptor number.
    #[inline]
    pub fn fds(&self) -> &NumberMap<FdBits>
        ensures { result.now ≡ self.now.fds }
    {
        &self.fds
    }

    /// Returns the last gate that the actor made at each entry.
    #[inline]
    pub fn gates(&self) -> &NumberMap<GateId>
        ensures { result.now ≡ self.now.gates }
    {
        &self.gates
    }

    /// How many gates the actor made, those that it made again at an entry included.
    #[inline]
    pub fn count(&self) -> u32
        ensures { result ≡ self.now.count }
    {
        self.count
    }

    /// Adds a tag that was made in a slot. When out of memory, nothing changes.
    pub fn put_tag(&mut self, tag: TagNo, slot: Slot) -> Result<(), NoMemory>
        ensures ok { OnOk result (self.new ≡ sheets.made_tag self.old tag slot) }
        ensures err { OnErr result (self.new ≡ self.old) }
    {
        self.tags.insert(tag.0, slot)
    }

    /// Adds a descriptor that was opened with bits, in place of those of an earlier open of it.
    /// When out of memory, nothing changes.
    pub fn put_fd(&mut self, fd: FdNo, bits: FdBits) -> Result<(), NoMemory>
        ensures ok { OnOk result (self.new ≡ sheets.made_fd self.old fd bits) }
        ensures err { OnErr result (self.new ≡ self.old) }
    {
        self.fds.insert(fd.0, bits)
    }

    /// Adds a gate at an entry, in place of one that was made there before, and counts it. When out
    /// of memory, nothing changes.
    pub fn put_gate(&mut self, entry: u32, gate: GateId) -> Result<(), NoMemory>
        requires { self.old.count + 1 < 2 ^ 32 }
        ensures ok { OnOk result (self.new ≡ sheets.made_gate self.old entry gate) }
        ensures err { OnErr result (self.new ≡ self.old) }
    {
        self.gates.insert(entry, gate)?;
        self.count += 1;
        Ok(())
    }
}
