//! The tags that an actor looks up in its cache.

ghost use Rattle.std.specs.Prelude.{◌≡◌, ◌+◌, ◌<◌, ◌^◌, [], ◌∷◌, ◌++◌, List};
ghost use Rattle.wedge_events.specs.declared.events.LogEntry.{LogEntry as AnEntry};
ghost use Rattle.grant_cache.specs.Caches.{IsCacheOf};
ghost use Rattle.thread_laws.specs.LookUps.{tag_looked_up};
ghost use Rattle.actor_run.specs.Runs.{KeepsCache};

use grant_cache::GrantCache;
use machine::Actor;
use wedge_base::TagNo;
use wedge_events::{Event, LogEntry, SlotAsk};

/// Counts the look-up for an entry, if its actor looked up a tag for it. So the cache keeps what an actor's cache
/// does.
#[inline(always)]
pub(crate) fn note_entry(cache: &mut GrantCache, actor: &Actor, entry: &LogEntry)
    requires of_sheet { IsCacheOf actor.now.sheet cache.old }
    requires room { cache.old.count.lookups + 1 < 2 ^ 64 }
    ensures { (entries : List AnEntry) → KeepsCache actor.now entries cache.old
        → KeepsCache actor.now (entries ++ entry.now ∷ []) cache.new }
{
    let Some(tag) = tag_of(&entry.event) else {
        return;
    };
    cache.note(&actor.sheet, tag);
}

/// The tag that an actor looks up for an event, if it does so.
#[inline(always)]
fn tag_of(event: &Event) -> Option<TagNo>
    ensures { result ≡ tag_looked_up event.now }
{
    let Event::Slot { ask, .. } = event else {
        return None;
    };
    match ask {
        SlotAsk::Load { live, .. } => live.map(|live| live.tag),
        SlotAsk::Store { live, .. } => live.map(|live| live.tag),
        SlotAsk::Sfree { live, .. } => live.map(|live| live.tag),
        _ => None,
    }
}
