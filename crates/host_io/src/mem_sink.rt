//! A sink that lies in memory.

ghost use Rattle.std.specs.Prelude.{◌≡◌, ℕ, ◌≤◌, ◌<◌, ◌+◌, List, [], length, take, Option, Some, IfOk, OnErr, IsErr, IsTrue, ◌↔◌, ◌⊎◌, vec_capacity};
ghost use Rattle.host_io.specs.Exposed.{grown_by};
ghost use Rattle.host_io.specs.Counts.{Counts};
ghost use Rattle.host_io.specs.Memory.{MemorySink, is_due, fitting, IsFull, after_write};

use crate::count::Count;
use crate::errors::Failed;
use crate::plan::Plan;
use crate::sinks::Sink;
use std::alloc::Global;
use std::marker::Model;
use wedge_base::NoMemory;

/// A sink that lies in memory whose bytes contracts see. It has room for so many; a write that finds none left
/// fails, and so do chosen calls.
#[derive(Drop)]
pub struct MemSink {
    bytes: Vec<u8>,
    room: usize,
    plan: Plan,
    faults: Count,
}

impl Model for MemSink {
    ghost Value = { MemorySink };

    ghost view = { λ s. record { bytes = s.bytes.items; room = s.room; fails = s.plan.fails.items; calls = s.plan.calls; faults = s.faults.value } };

    ghost invariant = { λ s. record { within : length s.bytes.items ≤ s.room; reserved : s.room ≤ vec_capacity s.bytes } };
}

impl MemSink {
    /// An empty sink with room for so many bytes, which are reserved here. The calls of `write` whose
    /// numbers, from 1, are listed will fail.
    pub fn new(alloc: Global, room: usize, fails: Vec<u64>) -> Result<MemSink, NoMemory>
        ensures { IfOk result (λ s. s ≡ record
            { bytes = []; room = room; fails = fails.items; calls = 0; faults = 0 }) }
    {
        Ok(MemSink {
            bytes: Vec::with_capacity(alloc, room)?,
            room,
            plan: Plan::new(fails),
            faults: Count::zero(),
        })
    }

    /// All bytes that it has taken.
    pub fn bytes(&self) -> &[u8]
        ensures { result.now ≡ self.now.bytes }
    {
        self.bytes.as_slice()
    }
}

impl Sink for MemSink {
    ghost written = { λ s. Some s.bytes };

    ghost faults = { λ s. s.faults };

    fn write(&mut self, piece: &[u8]) -> Result<usize, Failed>
        ensures within { IfOk result (λ n. n ≤ length piece.now) }
        ensures some { IfOk result (λ n. 0 < length piece.now → 0 < n) }
        ensures written { IfOk result (λ n. Some self.new.bytes
            ≡ grown_by (Some self.old.bytes) (take n piece.now)) }
        ensures failed { OnErr result (Some self.new.bytes ≡ Some self.old.bytes) }
        ensures counts { Counts result self.old.faults self.new.faults }

        // It fails where it is to fail and where it is full, and nowhere else. Else it takes what fits.
        ensures refused { IsErr result ↔ (IsTrue (is_due self.old.fails self.old.calls)
            ⊎ IsFull self.old piece.now) }
        ensures fits { IfOk result (λ n. n ≡ fitting self.old piece.now) }
        ensures after { self.new ≡ after_write self.old piece.now result }
    {
        let refused = self.plan.is_refused();
        let count = piece.len().min(self.room - self.bytes.len());
        if refused || (count == 0 && !piece.is_empty()) {
            self.faults.raise();
            return Err(Failed);
        }
        self.bytes.extend_from_slice(&piece[..count]).unwrap();
        Ok(count)
    }
}
