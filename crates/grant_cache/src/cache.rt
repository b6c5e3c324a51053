//! A cache of the rights that a sheet gives.

ghost use Rattle.std.specs.Prelude.{◌≡◌, ◌+◌, ◌≤◌, ◌<◌, ◌^◌, ℕ, [], ◌∷◌, ◌++◌, List, Some, IfOk, IfSome, nat_eq};
ghost use Rattle.std.specs.Map.{lookup};
ghost use Rattle.lru.specs.LruCache.{promoted};
ghost use Rattle.wedge_base.specs.Sheets as sheets;
ghost use Rattle.grant_cache.specs.Caches as caches;
ghost use Rattle.grant_cache.specs.Hits.{IsAfter};
ghost use Rattle.grant_cache.specs.LatestEntries.{IsLatestOf};

use crate::count::CacheCount;
use grant_sheet::{Made, Sheet};
use lru::LruCache;
use std::alloc::Global;
use std::marker::Model;
use std::num::NonZeroUsize;
use wedge_base::{NoMemory, Right, TagNo};

/// The most tags in the cache of an actor.
pub const CAPACITY: u32 = 8;

/// The entry of the tag that was looked up last.
#[derive(Clone, Copy)]
struct Latest {
    tag: u32,
    right: Option<Right>,
}

/// The rights that an actor's sheet gives on the tags that the actor used last, and counts of the look-ups. That the
/// sheet gives no right on a tag is cached too. The tags that the actor made are not looked up here first: on these it
/// has every right, whatever its sheet gives.
pub struct GrantCache {
    rights: LruCache<u32, Option<Right>>,
    /// The first entry of `rights`, once more: most look-ups are of the tag that was looked up last.
    latest: Option<Latest>,
    count: CacheCount,
}

// By hand: a derived drop would be proved again in each function that drops one.
impl Drop for GrantCache {
    fn drop(self) {
        let Self {
            rights: _,
            latest: _,
            count: _,
        } = self;
    }
}

impl Model for GrantCache {
    ghost use Rattle.std.specs.Prelude.{◌+◌, ◌≤◌};
    ghost use Rattle.grant_cache.specs.Caches.{Cache};
    ghost use Rattle.grant_cache.specs.LatestEntries.{IsLatestOf};

    ghost Value = { Cache };

    ghost view = { λ c. record {
      entries = c.rights.entries;
      capacity = c.rights.cap;
      count = c.count;
    } };

    ghost invariant = { λ c. record {
      room : 1 ≤ c.rights.cap;
      counts : c.count.hits + c.count.refused ≤ c.count.lookups;
      latest : IsLatestOf c.rights.entries c.latest;
    } };
}

impl GrantCache {
    /// An empty cache, of at most so many tags.
    pub fn new(alloc: Global, capacity: u32) -> Result<GrantCache, NoMemory>
        requires { 1 ≤ capacity }
        ensures empty { IfOk result (λ c. c ≡ caches.empty_cache capacity) }
        ensures after { IfOk result (IsAfter []) }
    {
        let capacity = NonZeroUsize::new(capacity as usize).unwrap();
        Ok(GrantCache {
            rights: LruCache::sparse(alloc, capacity)?,
            latest: None,
            count: CacheCount {
                lookups: 0,
                hits: 0,
                refused: 0,
            },
        })
    }

    /// An empty cache for an actor, of at most `CAPACITY` tags.
    pub fn of_actor(alloc: Global) -> Result<GrantCache, NoMemory>
        ensures empty { IfOk result (λ c. c ≡ caches.empty_cache caches.cache_capacity) }
        ensures after { IfOk result (IsAfter []) }
    {
        GrantCache::new(alloc, CAPACITY)
    }

    /// The counts of the look-ups so far.
    #[inline]
    pub fn count(&self) -> CacheCount
        ensures { result ≡ self.now.count }
    {
        self.count
    }

    /// Returns the right of an actor on a tag: ReadWrite where it made the tag, else what its sheet gives, if
    /// anything. The tag that was looked up last is found without a search; where the sheet gives ReadWrite on it, what
    /// the actor made is not looked up. Nothing is counted.
    #[inline(always)]
    pub fn peek(&self, sheet: &Sheet, made: &Made, tag: TagNo) -> Option<Right>
        requires { caches.IsCacheOf sheet.now self.now }
        ensures { result ≡ sheets.right_on sheet.now made.now tag }
    {
        let given = self.given(sheet, tag.0);
        if given == Some(Right::ReadWrite) || !made.tags().contains_key(tag.0) {
            return given;
        }
        Some(Right::ReadWrite)
    }

    /// What the sheet gives on a tag.
    #[inline(always)]
    fn given(&self, sheet: &Sheet, tag: u32) -> Option<Right>
        requires { caches.IsCacheOf sheet.now self.now }
        ensures { result ≡ caches.sheet_right sheet.now tag }
    {
        match self.latest(tag) {
            Some(right) => right,
            None => self.peek_any(sheet, tag),
        }
    }

    /// What the sheet gives on a tag. The sheet is read where the tag is not cached.
    #[inline(never)]
    fn peek_any(&self, sheet: &Sheet, tag: u32) -> Option<Right>
        requires { caches.IsCacheOf sheet.now self.now }
        ensures { result ≡ caches.sheet_right sheet.now tag }
    {
        match self.rights.peek(&tag) {
            Some(right) => *right,
            None => sheet_right(sheet, tag),
        }
    }

    /// What is cached for a tag, where it is the one that was looked up last.
    #[inline(always)]
    fn latest(&self, tag: u32) -> Option<Option<Right>>
        ensures found { IfSome result (λ r. Some r ≡ lookup (nat_eq tag) self.now.entries) }
        ensures first { IfSome result (λ r.
            self.now.entries ≡ promoted (nat_eq tag) self.now.entries) }
    {
        let latest = self.latest?;
        if latest.tag != tag {
            return None;
        }
        Some(latest.right)
    }

    /// Counts a look-up of a tag, and makes the tag the most recently used. Where it is not cached, it is put into the
    /// cache with what the sheet gives on it; out of memory, it is not, and is counted as refused.
    #[inline(always)]
    pub fn note(&mut self, sheet: &Sheet, tag: TagNo)
        requires of_sheet { caches.IsCacheOf sheet.now self.old }
        requires room { self.old.count.lookups + 1 < 2 ^ 64 }
        ensures of_sheet { caches.IsCacheOf sheet.now self.new }
        ensures looked_up { caches.IsLookedUp (caches.sheet_right sheet.now tag) tag
            self.old self.new }
        ensures lookups { self.new.count.lookups ≡ self.old.count.lookups + 1 }
        ensures capacity { self.new.capacity ≡ self.old.capacity }

        // Where none was refused, the cached tags and the hits are those of the tags so far.
        ensures after { (tags : List ℕ) → IsAfter tags self.old
            → IsAfter (tags ++ tag ∷ []) self.new }
    {
        self.note_number(sheet, tag.0);
    }

    /// The same, by the tag's number.
    #[inline(always)]
    fn note_number(&mut self, sheet: &Sheet, tag: u32)
        requires room { self.old.count.lookups + 1 < 2 ^ 64 }
        ensures looked_up { caches.IsLookedUp (caches.sheet_right sheet.now tag) tag
            self.old self.new }
        ensures capacity { 1 ≤ self.old.capacity }
    {
        if self.latest(tag).is_some() {
            self.count.lookups += 1;
            self.count.hits += 1;
            return;
        }
        self.note_any(sheet, tag);
    }

    /// The same, of a tag that need not be the most recently used.
    #[inline(never)]
    fn note_any(&mut self, sheet: &Sheet, tag: u32)
        requires room { self.old.count.lookups + 1 < 2 ^ 64 }
        ensures looked_up { caches.IsLookedUp (caches.sheet_right sheet.now tag) tag
            self.old self.new }
    {
        self.count.lookups += 1;
        if self.rights.promote(&tag) {
            self.count.hits += 1;
            self.latest = first_of(&self.rights);
            return;
        }
        match self.rights.put(tag, sheet_right(sheet, tag)) {
            Ok(_) => self.latest = first_of(&self.rights),
            Err(_) => {
                self.count.refused += 1;
                self.latest = first_of(&self.rights);
            }
        }
    }

    /// The right of an actor on a tag, as `peek` returns it. The look-up is counted, as `note` does.
    pub fn right(&mut self, sheet: &Sheet, made: &Made, tag: TagNo) -> Option<Right>
        requires of_sheet { caches.IsCacheOf sheet.now self.old }
        requires room { self.old.count.lookups + 1 < 2 ^ 64 }
        ensures right { result ≡ sheets.right_on sheet.now made.now tag }
        ensures of_sheet { caches.IsCacheOf sheet.now self.new }
        ensures looked_up { caches.IsLookedUp (caches.sheet_right sheet.now tag) tag
            self.old self.new }
        ensures lookups { self.new.count.lookups ≡ self.old.count.lookups + 1 }
        ensures capacity { self.new.capacity ≡ self.old.capacity }
        ensures after { (tags : List ℕ) → IsAfter tags self.old
            → IsAfter (tags ++ tag ∷ []) self.new }
    {
        let right = self.peek(sheet, made, tag);
        self.note(sheet, tag);
        right
    }
}

/// Returns the first entry of a cache.
fn first_of(rights: &LruCache<u32, Option<Right>>) -> Option<Latest>
    ensures { IsLatestOf rights.now.entries result }
{
    let (tag, right) = rights.peek_mru()?;
    Some(Latest {
        tag: *tag,
        right: *right,
    })
}

/// The right that a sheet itself gives on a tag, if any.
fn sheet_right(sheet: &Sheet, tag: u32) -> Option<Right>
    ensures { result ≡ caches.sheet_right sheet.now tag }
{
    sheet.tags().get(tag).map(|grant| grant.right)
}
