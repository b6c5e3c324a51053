//! A list that only proofs read.

ghost use Rattle.std.specs.Prelude.{◌≡◌, ◌++◌, ◌∷◌, []};

use std::fmt::{self, Debug, Formatter, Write};
use std::marker::Model;
use std::mem;
use std::snapshot::Snapshot;

/// How a list grew. No value of it is kept.
enum Grown<T> {
    Empty,
    With(Snapshot<Grown<T>>, Snapshot<T>),
}

impl<T> Drop for Grown<T> {
    fn drop(self) {
        match self {
            Grown::Empty => {}
            Grown::With(_before, _last) => {}
        }
    }
}

/// A list that only proofs read: contracts see its items. It has no bytes, and its calls do nothing at run time.
pub struct GhostList<T> {
    grown: Snapshot<Grown<T>>,
}

impl<T> Drop for GhostList<T> {
    fn drop(self) {
        let Self { grown: _ } = self;
    }
}

// It owns nothing.
unsafe impl<T> Send for GhostList<T> {}

unsafe impl<T> Sync for GhostList<T> {}

impl<T> Model for GhostList<T> {
    ghost use Rattle.std.specs.Prelude.{List};
    ghost use Rattle.journal_cell.specs.GhostLists.{items_of};

    ghost Value = { List T };

    ghost view = { λ l. items_of l.grown.value };
}

impl<T> Debug for GhostList<T> {
    fn fmt<W: Write>(&self, f: &mut Formatter<W>) -> fmt::Result {
        f.write_str("GhostList")
    }
}

impl<T> GhostList<T> {
    /// Returns the empty list.
    #[inline(always)]
    pub fn new() -> GhostList<T>
        ensures { result ≡ [] }
    {
        GhostList {
            grown: Snapshot::of(&Grown::Empty),
        }
    }

    /// Consumes a list, and returns it with one item more at its end.
    #[inline(always)]
    pub fn with(self, last: &T) -> GhostList<T>
        ensures { result ≡ self ++ last.now ∷ [] }
    {
        let GhostList { grown } = self;
        GhostList {
            grown: Snapshot::of(&Grown::With(grown, Snapshot::of(last))),
        }
    }

    /// Adds an item at its end.
    #[inline(always)]
    pub fn push(&mut self, last: &T)
        ensures { self.new ≡ self.old ++ last.now ∷ [] }
    {
        let before = mem::replace(self, GhostList::new());
        *self = before.with(last);
    }
}
