//! A directory of slots or of descriptors.

ghost use Rattle.std.specs.Prelude.{◌≡◌, ◌+◌, ◌<◌, ◌≤◌, [], ◌∷◌, IfSome, IfNone, ◌↔◌, Err, None, true, false, IfOk, OnOk, OnErr};
ghost use Rattle.std.specs.List.{AllByRecursion};
ghost use Rattle.wedge_events.specs.Directories as directories;
ghost use Rattle.wedge_events.specs.declared.cells.DirectoryReply.TheVariants as reply;

use crate::fault::ClaimFault;
use std::alloc::Global;
use std::marker::Model;
use wedge_base::NoMemory;

/// Allocates slots, or descriptors, each with a new number. A slot can be released, and is then
/// allocated again; a number is given once.
#[derive(Debug, Drop)]
pub struct Directory {
    /// How many slots there are.
    places: u32,
    /// The next number.
    number: u32,
    /// The least slot never used.
    unused: u32,
    /// The slots released, the last one at the end. It has room for each slot that is claimed.
    released: Vec<u32>,
    /// Of each slot once used, whether it is claimed.
    claimed: Vec<bool>,
}

impl Model for Directory {
    ghost use Rattle.std.specs.Prelude.{reverse, vec_capacity};
    ghost use Rattle.wedge_events.specs.Directories.{Directory as Plain};
    ghost use Rattle.tag_directory.specs.Tables.{IsAllocatorState};

    ghost Value = { Plain };

    ghost view = { λ d. record { places = d.places; number = d.number; unused = d.unused; released = reverse d.released.items } };

    ghost invariant = { λ d. IsAllocatorState d.places d.unused (vec_capacity d.released) (reverse d.released.items) d.claimed.items };
}

/// A slot that is allocated, and its number.
#[derive(Clone, Copy, Debug, PartialEq, Eq)]
pub struct Claimed {
    pub place: u32,
    pub number: u32,
}

impl Directory {
    /// A directory of so many slots, of which the first `claimed` are claimed, with the numbers
    /// from 0.
    pub fn new(alloc: Global, places: u32, claimed: u32) -> Result<Directory, NoMemory>
        requires { claimed ≤ places }
        ensures { IfOk result (λ d. d ≡ directories.directory places claimed) }
    {
        let count = claimed as usize;
        Ok(Directory {
            places,
            number: claimed,
            unused: claimed,
            released: Vec::with_capacity(alloc, count)?,
            claimed: vec![in alloc; true; count]?,
        })
    }

    /// All that it can give are its slots. It does nothing.
    #[inline(always)]
    pub(crate) fn gives_places(&self)
        ensures unused { self.now.unused ≤ self.now.places }
        ensures released { AllByRecursion (λ p. p < self.now.places) self.now.released }
    {
        let _places = self.places;
    }

    /// Whether a slot is claimed now.
    pub fn is_claimed(&self, place: u32) -> bool
        ensures { result ≡ directories.is_claimed self.now place }
    {
        self.claimed.get(place as usize).copied().unwrap_or(false)
    }

    /// Allocates the slot released last, or else the least slot never used, with the next number.
    /// `Full` exactly where no slot is free, or no number below 4,294,967,295 is left.
    pub fn claim(&mut self) -> Result<Claimed, ClaimFault>
        ensures ok { IfOk result (λ c. reply.Claimed c.place c.number
            ≡ directories.claim_reply self.old (directories.claim self.old)) }
        ensures next { OnOk result (self.new
            ≡ directories.claim_next self.old (directories.claim self.old)) }
        ensures before { IfOk result (λ c. directories.is_claimed self.old c.place ≡ false) }
        ensures after { IfOk result (λ c. directories.is_claimed self.new c.place ≡ true) }
        ensures full { (result ≡ Err ClaimFault.Full) ↔ (directories.claim self.old ≡ None) }
        ensures err { OnErr result (self.new ≡ self.old) }
    {
        if self.number == u32::MAX {
            return Err(ClaimFault::Full);
        }
        let place = match self.use_again() {
            Some(place) => place,
            None => self.use_first()?,
        };
        let number = self.number;
        self.number += 1;
        Ok(Claimed { place, number })
    }

    /// An unused directory whose next number is this one.
    #[cfg(test)]
    pub(crate) fn numbered_from(alloc: Global, places: u32, number: u32) -> Directory {
        Directory {
            places,
            number,
            unused: 0,
            released: Vec::new(alloc),
            claimed: Vec::new(alloc),
        }
    }

    /// Claims the slot released last, if one is released.
    fn use_again(&mut self) -> Option<u32>
        ensures some { IfSome result (λ p. self.old
            ≡ record self.new { released = p ∷ self.new.released }) }
        ensures before { IfSome result (λ p. directories.is_claimed self.old p ≡ false) }
        ensures after { IfSome result (λ p. directories.is_claimed self.new p ≡ true) }
        ensures none { IfNone result (self.old.released ≡ []) }
        ensures none_new { IfNone result (self.new ≡ self.old) }
    {
        let place = self.released.pop()?;
        self.claimed[place as usize] = true;
        Some(place)
    }

    /// Claims the least slot never used, where none is released, and makes room for its release.
    fn use_first(&mut self) -> Result<u32, ClaimFault>
        requires { self.old.released ≡ [] }
        ensures ok { IfOk result (λ p. p ≡ self.old.unused) }
        ensures next { OnOk result (self.new ≡ record self.old { unused = self.old.unused + 1 }) }
        ensures before { IfOk result (λ p. directories.is_claimed self.old p ≡ false) }
        ensures after { IfOk result (λ p. directories.is_claimed self.new p ≡ true) }
        ensures left { OnOk result (self.old.unused < self.old.places) }
        ensures full { (result ≡ Err ClaimFault.Full) ↔ (self.old.places ≤ self.old.unused) }
        ensures err { OnErr result (self.new ≡ self.old) }
    {
        if self.unused >= self.places {
            return Err(ClaimFault::Full);
        }
        let place = self.unused;
        self.released.reserve(place as usize + 1)?;
        self.claimed.push(true)?;
        self.unused += 1;
        Ok(place)
    }

    /// Releases a slot that is claimed. It takes no memory.
    pub fn release(&mut self, place: u32)
        requires { directories.is_claimed self.old place ≡ true }
        ensures { self.new ≡ directories.release self.old place }
    {
        self.claimed[place as usize] = false;
        self.released.push_reserved(place);
    }
}
