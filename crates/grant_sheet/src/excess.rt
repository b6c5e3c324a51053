//! The first part of a draft that its creator may not grant.

ghost use Rattle.std.specs.Prelude.{◌≡◌, None, map, IfNone, IfSome, option_copied};
ghost use Rattle.wedge_base.specs.Maps as maps;
ghost use Rattle.wedge_base.specs.Sheets as sheets;
ghost use Rattle.wedge_base.specs.declared.grants.Item.TheVariants as item;
ghost use Rattle.grant_sheet.specs.Excess.{IsDraftWithin, IsExcess};

use crate::draft::Draft;
use crate::made::Made;
use crate::paths::is_under;
use crate::rights::may_grant;
use crate::sheet::Sheet;
use wedge_base::{Denial, FdBits, FdNo, Item, PathText, Right, TagNo};

/// The first part of a draft that its creator may not grant, or none where it may grant every part.
/// The order is: tags by number, descriptors by number, gates by entry, the user, the root
/// directory. It allocates nothing.
pub fn first_excess(sheet: &Sheet, made: &Made, draft: &Draft) -> Option<Denial>
    ensures is { result ≡ sheets.first_excess sheet.now made.now draft.now }
    ensures none { IfNone result (IsDraftWithin sheet.now made.now draft.now) }
    ensures some { IfSome result (IsExcess sheet.now made.now draft.now) }
    ensures within { IsDraftWithin sheet.now made.now draft.now → result ≡ None }
{
    match first_item(sheet, made, draft) {
        Some(item) => Some(Denial::Grant { item }),
        None => user_excess(sheet, draft),
    }
}

/// The first grant of a draft that the creator may not give.
#[tactic(auto, using(crate::proofs::FirstExcess::first_of_three))]
fn first_item(sheet: &Sheet, made: &Made, draft: &Draft) -> Option<Item>
    ensures { result ≡ sheets.item_excess sheet.now made.now (sheets.items draft.now) }
{
    let tag = tag_excess(sheet, made, draft.tags().as_slice());
    if tag.is_some() {
        return tag;
    }
    let fd = fd_excess(sheet, made, draft.fds().as_slice());
    if fd.is_some() {
        return fd;
    }
    gate_excess(sheet, made, draft.gates().as_slice())
}

/// The user or the root directory of a draft, where the creator may not give it.
fn user_excess(sheet: &Sheet, draft: &Draft) -> Option<Denial>
    ensures { result ≡ sheets.user_excess sheet.now draft.now }
{
    if !may_be_user(sheet, draft.user()) {
        return Some(Denial::User);
    }
    if !may_be_root(sheet, draft.root_path()) {
        return Some(Denial::Root);
    }
    None
}

/// The first right on a tag that the creator may not give.
fn tag_excess(sheet: &Sheet, made: &Made, tags: &[(u32, Right)]) -> Option<Item>
    ensures { result ≡ sheets.item_excess sheet.now made.now (map sheets.tag_item tags.now) }
{
    for (tag, right) in tags {
        let (tag, right) = (TagNo(*tag), *right);
        let item = Item::Tag { tag, right };
        if !may_grant(sheet, made, &item) {
            return Some(item);
        }
    }
    None
}

/// The first bits on a descriptor that the creator may not give.
fn fd_excess(sheet: &Sheet, made: &Made, fds: &[(u32, FdBits)]) -> Option<Item>
    ensures { result ≡ sheets.item_excess sheet.now made.now (map sheets.fd_item fds.now) }
{
    for (fd, bits) in fds {
        let (fd, bits) = (FdNo(*fd), *bits);
        let item = Item::Fd { fd, bits };
        if !may_grant(sheet, made, &item) {
            return Some(item);
        }
    }
    None
}

/// The first gate that the creator may not give.
fn gate_excess(sheet: &Sheet, made: &Made, entries: &[(u32, ())]) -> Option<Item>
    ensures { let gates = map item.Gate (maps.keys entries.now) in
        result ≡ sheets.item_excess sheet.now made.now gates }
{
    for (entry, _) in entries {
        let item = Item::Gate { entry: *entry };
        if !may_grant(sheet, made, &item) {
            return Some(item);
        }
    }
    None
}

/// Whether the creator may give a user: an unset one or its own, and any where its own is 0.
fn may_be_user(sheet: &Sheet, user: Option<u32>) -> bool
    ensures { result ≡ sheets.may_be_user sheet.now user }
{
    match user {
        Some(user) => user == sheet.user() || sheet.user() == 0,
        None => true,
    }
}

/// Whether the creator may give a root directory: an unset one or its own, and any under its own
/// where its user is 0.
fn may_be_root(sheet: &Sheet, root: Option<&PathText>) -> bool
    ensures { result ≡ sheets.may_be_root sheet.now (option_copied root.entry) }
{
    let Some(root) = root else {
        return true;
    };
    let own = sheet.root_path().as_slice();
    root.as_slice() == own || (sheet.user() == 0 && is_under(own, root.as_slice()))
}
