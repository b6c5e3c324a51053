//! Shared pages to and from lists of pages, as events hold them.

ghost use Rattle.std.specs.Prelude.{◌≡◌, ◌<◌, ◌^◌, length, map, IfOk};
ghost use Rattle.wedge_base.specs.Images.{page};
ghost use Rattle.wedge_base.specs.Pages.{pages_before};
ghost use Rattle.cow_pages.specs.SharedPages.{HaveLength, contents, bytes_in};

use std::alloc::Global;
use std::sync::Arc;
use wedge_base::{NoMemory, Page, PageAt};

/// The pages in order, each with its index from 0. Both hold them.
pub(crate) fn list_of(alloc: Global, pages: &[Arc<Page>]) -> Result<Vec<PageAt>, NoMemory>
    requires whole { HaveLength page (contents pages.now) }
    requires few { length pages.now < 2 ^ 32 }
    ensures is { let all = pages_before (bytes_in pages.now) (length pages.now)
        in IfOk result (λ v. v.items ≡ all) }
    ensures len { IfOk result (λ v. length v.items ≡ length pages.now) }
{
    let mut items = Vec::with_capacity(alloc, pages.len())?;
    for (k, page) in pages.iter().enumerate() {
        items.push(PageAt {
            place: k as u32,
            page: page.clone()?,
        })?;
    }
    Ok(items)
}

/// The pages of a list, in its order. Both hold them.
pub(crate) fn pages_in(alloc: Global, list: &[PageAt]) -> Result<Vec<Arc<Page>>, NoMemory>
    ensures is { IfOk result (λ v. contents v.items ≡ map (λ p. p.bytes) list.now) }
    ensures whole { IfOk result (λ v. HaveLength page (contents v.items)) }
{
    let mut pages = Vec::with_capacity(alloc, list.len())?;
    for item in list {
        let page: &Page = &item.page;
        // The page is opened here, so that its length is at hand.
        let _ = page.as_slice();
        pages.push(item.page.clone()?)?;
    }
    Ok(pages)
}
