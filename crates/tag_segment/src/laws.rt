//! What the rules of a slot come to.

ghost use Rattle.std.specs.Prelude.{◌≡◌, ◌≢◌, ◌*◌, ◌⊎◌, ◌≤◌, ℕ, Option, Some, [], All, IfSome, length};
ghost use Rattle.wedge_base.specs.Blocks.{AreBlocks, AreFree, IsFirstFit, rounded};
ghost use Rattle.wedge_base.specs.Images.{page};
ghost use Rattle.wedge_events.specs.Slots as slots;
ghost use Rattle.wedge_events.specs.declared.cells.Live.{Live};
ghost use Rattle.wedge_events.specs.declared.cells.SlotAsk.TheVariants as ask;
ghost use Rattle.wedge_events.specs.declared.cells.SlotReply.TheVariants as reply;
ghost use Rattle.wedge_base.specs.declared.rights.Right.TheVariants as right;

/// Whatever lived in a slot, a tag that is opened there has zero bytes, in whole pages, and no blocks.
pub fn opened_tags_are_zeroed()
    ensures { (s : Option slots.Segment) (tag pages : ℕ)
        → IfSome (slots.slot_next s (ask.Open tag pages)) (λ g. (g.tag ≡ tag)
        × All (λ b. b ≡ 0) g.bytes
        × (length g.bytes ≡ pages * page)
        × (g.blocks ≡ [])) }
{}

/// Under the right to a private copy, no load or store takes place, and no block is freed.
pub fn copies_give_no_access()
    ensures load { (s : Option slots.Segment) (offset width value : ℕ) (live : Option Live)
        → slots.right_in live ≡ Some right.Cow
        → slots.slot_reply s (ask.Load width offset live) ≢ reply.Loaded value }
    ensures store { (s : Option slots.Segment) (offset width value : ℕ) (live : Option Live)
        → slots.right_in live ≡ Some right.Cow
        → slots.slot_reply s (ask.Store width offset value live) ≢ reply.Stored }
    ensures sfree { (s : Option slots.Segment) (offset : ℕ) (live : Option Live)
        → slots.right_in live ≡ Some right.Cow
        → slots.slot_reply s (ask.Sfree offset live) ≢ reply.Freed }
{}

/// A load takes place only under Read or ReadWrite; a store, and the freeing of a block, only under
/// ReadWrite.
pub fn accesses_want_rights()
    ensures load { (s : Option slots.Segment) (offset width value : ℕ) (live : Option Live)
        → slots.slot_reply s (ask.Load width offset live) ≡ reply.Loaded value
        → (slots.right_in live ≡ Some right.Read)
        ⊎ (slots.right_in live ≡ Some right.ReadWrite) }
    ensures store { (s : Option slots.Segment) (offset width value : ℕ) (live : Option Live)
        → slots.slot_reply s (ask.Store width offset value live) ≡ reply.Stored
        → slots.right_in live ≡ Some right.ReadWrite }
    ensures sfree { (s : Option slots.Segment) (offset : ℕ) (live : Option Live)
        → slots.slot_reply s (ask.Sfree offset live) ≡ reply.Freed
        → slots.right_in live ≡ Some right.ReadWrite }
{}

/// A block is placed at the least multiple of 8 at which its size, rounded up to a multiple of 8,
/// is free, and a tag that has no such offset is full. The tag's blocks are in order and apart, as
/// those of every slot.
pub fn blocks_are_placed_first_fit()
    ensures placed { (g : slots.Segment) (tag size offset : ℕ)
        → AreBlocks 0 (length g.bytes) g.blocks → 1 ≤ size
        → slots.live_reply g (ask.Smalloc tag size) ≡ reply.Placed offset
        → IsFirstFit g.blocks (length g.bytes) (rounded size) offset }
    ensures full { (g : slots.Segment) (tag size offset : ℕ)
        → slots.live_reply g (ask.Smalloc tag size) ≡ reply.Full
        → AreFree g.blocks (length g.bytes) offset (rounded size) → ⊥ }
{}
