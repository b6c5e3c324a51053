//! Lists of pages, as events hold them.

ghost use Rattle.std.specs.Prelude.{◌≡◌};

use crate::items::Items;
use crate::page::Page;
use std::alloc::AllocError;
use std::marker::Model;
use std::sync::Arc;

/// A page, which others may hold too, and its index among pages. Contracts see its bytes, and not who
/// holds it.
#[derive(Debug, Drop)]
pub struct PageAt {
    pub place: u32,
    pub page: Arc<Page>,
}

impl Model for PageAt {
    ghost use Rattle.std.specs.Arc.{arc_value};
    ghost use Rattle.wedge_base.specs.Pages.{PageAt as Plain};

    ghost Value = { Plain };

    ghost view = { λ p. record { place = p.place; bytes = arc_value p.page } };
}

impl Clone for PageAt {
    ghost is_clone = { λ p q. q ≡ p };

    fn clone(&self) -> Result<PageAt, AllocError> {
        Ok(PageAt {
            place: self.place,
            page: self.page.clone()?,
        })
    }
}

impl PartialEq for PageAt {
    ghost use Rattle.std.specs.Prelude.{◌==◌};
    ghost use Rattle.std.specs.Cmp.Lexicographic.{pointwise};
    ghost use Rattle.std.specs.Cmp.Rules.{comparing};
    ghost use Rattle.std.specs.Ordering.{on, eq_of_both};
    ghost use Rattle.std.proofs.Common.{rules};

    ghost eq = { eq_of_both (on (λ p. p.place) ◌==◌) (on (λ p. p.bytes) (pointwise ◌==◌)) };

    ghost laws = { Prim.search (comparing, rules) };

    fn eq(&self, other: &Self) -> bool {
        self.place == other.place && self.page.as_slice() == other.page.as_slice()
    }
}

/// Pages, each with its index.
pub type PageList = Items<PageAt>;
