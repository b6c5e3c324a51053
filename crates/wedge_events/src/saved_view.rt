//! Private memory as the events of a gate hold it.

ghost use Rattle.std.specs.Prelude.{◌≡◌, IfOk};

use cow_pages::PrivateView;
use std::alloc::Global;
use std::marker::Model;
use wedge_base::NoMemory;

/// An actor's private memory as it was at an event: its ranges and its copies of tags, in pages that others may
/// hold too. Contracts see it as that memory.
#[derive(Debug, Drop)]
pub struct SavedView {
    // Boxed, so that an event of a gate, which is rare, makes no event larger.
    inside: Box<PrivateView>,
}

impl Model for SavedView {
    ghost use Rattle.cow_pages.specs.PrivateMemory.{PrivateMemory};

    ghost Value = { PrivateMemory };

    ghost view = { λ s. s.inside.value };
}

impl SavedView {
    /// Private memory as it is now. Both hold its pages.
    pub fn of(alloc: Global, view: &PrivateView) -> Result<SavedView, NoMemory>
        ensures { IfOk result (λ s. s ≡ view.now) }
    {
        let saved = view.snapshot()?;
        Ok(SavedView {
            inside: Box::new(alloc, saved)?,
        })
    }

    /// Returns the memory.
    pub fn view(&self) -> &PrivateView
        ensures { result.now ≡ self.now }
    {
        &self.inside
    }

    /// Returns the allocator of the memory.
    pub fn allocator(&self) -> Global {
        *Box::allocator(&self.inside)
    }

    /// Equal memory, whose pages are shared.
    pub fn copy(&self, alloc: Global) -> Result<SavedView, NoMemory>
        ensures { IfOk result (λ s. s ≡ self.now) }
    {
        SavedView::of(alloc, &self.inside)
    }
}
