//! Sorting what has an order.

ghost use Rattle.std.specs.Prelude.{◌≡◌, OnOk, OnErr};
ghost use Rattle.stable_sort.specs.Sorting as sorting;

use std::cmp::Ordering;
use wedge_base::NoMemory;

/// What can be sorted.
pub trait Sortable {
    ghost use Rattle.std.specs.Prelude.{◌≡◌, Bool};
    ghost use Rattle.std.specs.Ordering.{is_lt};
    ghost use Rattle.std.specs.Cmp.{IsStrictWeakOrder};

    ghost comes_before: { Self → Self → Bool };

    /// How it compares to another: `Less` exactly where it comes before it.
    fn compare(&self, other: &Self) -> Ordering
        ensures { is_lt result ≡ comes_before self.now other.now };

    ghost is_order: { IsStrictWeakOrder comes_before };
}

/// Sorts items; of two neither of which comes before the other, the one that was first stays first.
/// After `NoMemory` they are as they were.
pub fn sort<T: Sortable + Drop>(items: &mut Vec<T>) -> Result<(), NoMemory>
    ensures sorted { OnOk result
        (items.new.items ≡ sorting.sorted T.comes_before items.old.items) }
    ensures unchanged { OnErr result (items.new.items ≡ items.old.items) }
{
    items.sort_by(|a, b| a.compare(b))?;
    Ok(())
}
