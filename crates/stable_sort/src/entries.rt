//! The entries of an image that are sorted by name or by path.

ghost use Rattle.std.specs.Prelude.{◌≡◌};
ghost use Rattle.std.specs.Ordering.{is_lt};
ghost use Rattle.image_form.specs.Forms as forms;

use crate::order::Sortable;
use std::cmp::Ordering;
use wedge_base::{FdEntry, FileEntry, Procedure, TagEntry};

/// How two strings compare in byte order.
#[tactic(auto, unfolding(image_form::specs::Forms::is_below))]
pub fn byte_order(a: &[u8], b: &[u8]) -> Ordering
    ensures { is_lt result ≡ forms.is_below a.now b.now }
{
    a.cmp(b)
}

impl Sortable for Procedure {
    ghost use Rattle.stable_sort.specs.ByName.{procedure_before, procedure_order};

    ghost comes_before = { procedure_before };

    fn compare(&self, other: &Procedure) -> Ordering {
        byte_order(self.name.as_slice(), other.name.as_slice())
    }

    ghost is_order = { procedure_order };
}

impl Sortable for TagEntry {
    ghost use Rattle.stable_sort.specs.ByName.{tag_before, tag_order};

    ghost comes_before = { tag_before };

    fn compare(&self, other: &TagEntry) -> Ordering {
        byte_order(self.name.as_slice(), other.name.as_slice())
    }

    ghost is_order = { tag_order };
}

impl Sortable for FdEntry {
    ghost use Rattle.stable_sort.specs.ByName.{fd_before, fd_order};

    ghost comes_before = { fd_before };

    fn compare(&self, other: &FdEntry) -> Ordering {
        byte_order(self.name.as_slice(), other.name.as_slice())
    }

    ghost is_order = { fd_order };
}

impl Sortable for FileEntry {
    ghost use Rattle.stable_sort.specs.ByName.{file_before, file_order};

    ghost comes_before = { file_before };

    fn compare(&self, other: &FileEntry) -> Ordering {
        byte_order(self.path.as_slice(), other.path.as_slice())
    }

    ghost is_order = { file_order };
}
