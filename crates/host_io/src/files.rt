//! Files that are read.

ghost use Rattle.std.specs.Prelude.{◌≡◌, ℕ, ◌≤◌, ◌<◌, List, length, take, drop, Option, IfOk};
ghost use Rattle.host_io.specs.Exposed.{WhereExposed};
ghost use Rattle.host_io.specs.Counts.{Counts};

use crate::errors::Failed;

/// Files outside the program, each found by its name.
pub trait Files {
    /// The bytes of the file of a name, where they are exposed.
    ghost content: { Self → List ℕ → Option (List ℕ) };

    /// How often reading the file of a name has failed. One number may serve as the count of several
    /// names.
    ghost faults: { Self → List ℕ → ℕ };

    /// Reads bytes of a file from an offset on to the front of a buffer, and answers how many came.
    /// None in a buffer that has room means that the file ends there. `Failed`: the file could not
    /// be read.
    fn read(&mut self, name: &str, at: u64, buf: &mut [u8]) -> Result<usize, Failed>
        ensures within { IfOk result (λ n. n ≤ length buf.new) }

        // Where the bytes are exposed, those from the offset on came, and some if any are there.
        ensures bytes { IfOk result (λ n. WhereExposed (content self.old name.now)
            (λ exposed. take n buf.new ≡ take n (drop at exposed))) }
        ensures some { IfOk result (λ n. WhereExposed (content self.old name.now)
            (λ exposed. at < length exposed → 0 < length buf.new → 0 < n)) }

        // A failure counts, a success does not, and no count falls.
        ensures counts { Counts result (faults self.old name.now) (faults self.new name.now) }
        ensures rises { (other : List ℕ) → faults self.old other ≤ faults self.new other }

        // A read changes no file, whether it fails or not.
        ensures content { (other : List ℕ) → content self.new other
            ≡ content self.old other };
}
