//! Tests of smalloc_heap.

ghost use Rattle.std.specs.Prelude.{◌<◌};

use smalloc_heap::{Block, Heap, SmallocFault};
use std::process::Abort;
use std::test::Fail;

/// A call on a heap, and its answer.
enum Step {
    /// A size, and the offset where the block is placed.
    Placed(u32, u32),
    /// A size for which there is no room.
    Full(u32),
    /// An offset whose block is given back.
    Freed(u32),
    /// An offset at which no block begins.
    Bad(u32),
}

/// Calls on a heap of one page, worked out by hand.
#[rattlefmt::skip]
static STEPS: [Step; 11] = [
    Step::Placed(4096, 0), Step::Full(1), Step::Bad(8), Step::Freed(0), Step::Placed(1, 0), Step::Placed(8, 8),
    Step::Freed(0), Step::Placed(16, 16), Step::Placed(5, 0), Step::Full(u32::MAX), Step::Bad(4),
];

/// Whether a call has its answer.
fn answers(heap: &mut Heap, step: &Step) -> bool {
    match step {
        Step::Placed(size, offset) => *size > 0 && heap.smalloc(*size) == Ok(*offset),
        Step::Full(size) => *size > 0 && heap.smalloc(*size) == Err(SmallocFault::NoSpace),
        Step::Freed(offset) => heap.sfree(*offset).is_ok(),
        Step::Bad(offset) => heap.sfree(*offset).is_err(),
    }
}

#[test]
fn blocks_of_a_page(rt: HostRuntime) -> Result<(), Fail> {
    let mut heap = Heap::new(rt.alloc(), 4096);
    assert!(rt; heap.size() == 4096);
    for step in &STEPS {
        assert!(rt; answers(&mut heap, step));
    }
    let blocks = [(0, 8), (8, 8), (16, 16)].map(|(offset, size)| Block { offset, size });
    assert!(rt; heap.blocks() == blocks.as_slice());
    Ok(())
}

/// Blocks of eight bytes are placed from an offset on, each so far behind the one before.
fn places(rt: &impl Abort, heap: &mut Heap, count: u32, first: u32, step: u32)
    requires count { count < 10001 }
    requires first { first < 9 }
    requires step { step < 17 }
{
    for i in 0..count {
        assert!(rt; heap.smalloc(8) == Ok(step * i + first));
    }
}

/// A heap of ten thousand blocks: filled, every second block given back from the end, filled again.
#[test]
fn many_blocks(rt: HostRuntime) -> Result<(), Fail> {
    let mut heap = Heap::new(rt.alloc(), 80_000);
    places(&rt, &mut heap, 10_000, 0, 8);
    assert!(rt; heap.smalloc(8) == Err(SmallocFault::NoSpace));
    for i in 0..5_000u32 {
        assert!(rt; heap.sfree(79_992 - 16 * i).is_ok());
    }
    assert!(rt; heap.blocks().len() == 5_000);
    assert!(rt; heap.smalloc(16) == Err(SmallocFault::NoSpace));
    places(&rt, &mut heap, 5_000, 8, 16);
    assert!(rt; heap.blocks().len() == 10_000);
    assert!(rt; heap.smalloc(1) == Err(SmallocFault::NoSpace));
    Ok(())
}
