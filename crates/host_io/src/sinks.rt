//! Sinks that are written.

ghost use Rattle.std.specs.Prelude.{◌≡◌, ℕ, ◌≤◌, ◌<◌, List, length, take, Option, IfOk, OnErr};
ghost use Rattle.host_io.specs.Exposed.{grown_by};
ghost use Rattle.host_io.specs.Counts.{Counts};

use crate::errors::Failed;

/// A device outside the program that takes bytes in order.
pub trait Sink {
    /// The bytes that it has taken, where they are exposed.
    ghost written: { Self → Option (List ℕ) };

    /// How often writing has failed.
    ghost faults: { Self → ℕ };

    /// Takes bytes of a piece, from its front on, and answers how many. It takes some, if there are
    /// any. `Failed`: it took none.
    fn write(&mut self, piece: &[u8]) -> Result<usize, Failed>
        ensures within { IfOk result (λ n. n ≤ length piece.now) }
        ensures some { IfOk result (λ n. 0 < length piece.now → 0 < n) }
        ensures written { IfOk result (λ n. written self.new
            ≡ grown_by (written self.old) (take n piece.now)) }
        ensures failed { OnErr result (written self.new ≡ written self.old) }
        ensures counts { Counts result (faults self.old) (faults self.new) };
}
