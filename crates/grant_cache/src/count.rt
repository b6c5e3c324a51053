//! The counts of a cache.

use wedge_base::ActorName;

/// How many look-ups a cache had, and what became of them.
#[derive(Clone, Copy, Debug, PartialEq, Eq)]
pub struct CacheCount {
    /// The look-ups.
    pub lookups: u64,
    /// Those whose tag was in the cache.
    pub hits: u64,
    /// Those whose tag was not put into the cache, since it was out of memory.
    pub refused: u64,
}

/// The counts of an actor's cache, with the name of the actor.
#[derive(Debug, Drop)]
pub struct CacheLine {
    pub name: ActorName,
    pub count: CacheCount,
}
