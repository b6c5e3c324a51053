//! The memory with which a child, or the runs of a gate, are to begin, as it is prepared.

ghost use Rattle.std.specs.Prelude.{◌≡◌, ◌∷◌, Some, None, OnOk, OnErr, IfOk, MatchOption, []};
ghost use Rattle.cow_pages.specs.Copies.{with_copy};
ghost use Rattle.machine.specs.Between.{AreInSlots};
ghost use Rattle.machine.specs.Preparation as preparation;

use crate::copy_grant::{CopyGrant, is_copy_alone};
use cow_pages::{Pages, PrivateView};
use grant_sheet::{Made, Sheet, right_on};
use std::alloc::Global;
use std::marker::Model;
use wedge_base::{NoMemory, Slot};

/// The memory with which a child, or the runs of a gate, are to begin, as it is prepared: the
/// memory so far, and the grants of copies of which none is made yet.
#[derive(Debug, Drop)]
pub struct Preparation {
    // Boxed, so that what an actor is at is no larger than what it wants.
    inside: Box<Inside>,
}

#[derive(Debug, Drop)]
struct Inside {
    memory: PrivateView,
    grants: Vec<CopyGrant>,
    /// The index of the first grant of which no copy is made yet.
    next: usize,
}

impl Model for Preparation {
    ghost use Rattle.std.specs.Prelude.{drop};
    ghost use Rattle.machine.specs.Preparation.{Preparation as Plain};

    ghost Value = { Plain };

    ghost view = { λ p. record {
      memory = p.inside.value.memory;
      left = drop p.inside.value.next p.inside.value.grants.items;
    } };
}

impl Preparation {
    /// This memory, and grants of copies of which none is made yet.
    pub fn new(
        alloc: Global,
        memory: PrivateView,
        grants: Vec<CopyGrant>,
    ) -> Result<Preparation, NoMemory>
        ensures { IfOk result (λ p. p ≡ record { memory = memory; left = grants.items }) }
    {
        let inside = Inside {
            memory,
            grants,
            next: 0,
        };
        Ok(Preparation {
            inside: Box::new(alloc, inside)?,
        })
    }

    /// The first grant of which no copy is made yet.
    pub fn next_grant(&self) -> Option<CopyGrant>
        ensures { MatchOption result (self.now.left ≡ [])
            (λ g. self.now.left ≡ g ∷ preparation.behind_first self.now.left) }
    {
        let inside = &*self.inside;
        if inside.next < inside.grants.len() {
            Some(inside.grants[inside.next])
        } else {
            None
        }
    }

    /// Puts a copy at a slot, in place of the one that is there. When out of memory, all is as before.
    pub fn put(&mut self, slot: Slot, pages: Pages) -> Result<(), NoMemory>
        ensures ok { OnOk result (self.new ≡ record self.old
            { memory = preparation.copied_from (Some pages) slot self.old.memory }) }
        ensures err { OnErr result (self.new ≡ self.old) }
    {
        self.inside.memory.put_copy(slot, pages)
    }

    /// Goes on to the grant after the next one.
    #[tactic(auto, using(crate::proofs::Dropping::drop_next))]
    pub fn advance(&mut self)
        ensures { self.new ≡ record self.old { left = preparation.behind_first self.old.left } }
    {
        if self.inside.next < self.inside.grants.len() {
            self.inside.next += 1;
        }
    }

    /// Consumes the preparation and returns the memory.
    pub fn into_memory(self) -> PrivateView
        ensures { result ≡ self.memory }
    {
        let Preparation { inside } = self;
        let Inside { memory, .. } = Box::into_inner(inside);
        memory
    }

    /// A copy of a tag was made, or the tag lives no more: the next copies are made, up to the
    /// first that is to be made of a tag.
    pub fn go_on(
        &mut self,
        slot: Slot,
        pages: Option<Pages>,
        sheet: &Sheet,
        made: &Made,
        own: &PrivateView,
    ) -> Result<(), NoMemory>
        ensures is { OnOk result (self.new
            ≡ preparation.prepare_copies sheet.now made.now own.now.copies
            (preparation.copied_from pages slot self.old.memory) (preparation.behind_first self.old.left)) }
        ensures placed { AreInSlots self.old.left → AreInSlots self.new.left }
    {
        if let Some(pages) = pages {
            self.put(slot, pages)?;
        }
        self.advance();
        self.copy_own(sheet, made, own)
    }

    /// Makes the copies that the actor makes of its own, up to the first that is to be made of a
    /// tag.
    #[tactic(auto, using(crate::proofs::SlotsHeld::behind_inside))]
    pub fn copy_own(
        &mut self,
        sheet: &Sheet,
        made: &Made,
        own: &PrivateView,
    ) -> Result<(), NoMemory>
        ensures is { OnOk result (self.new
            ≡ preparation.prepare_copies sheet.now made.now own.now.copies
            self.old.memory self.old.left) }
        ensures placed { AreInSlots self.old.left → AreInSlots self.new.left }
    {
        while let Some(grant) = self.next_grant() {
            if !is_copy_alone(right_on(sheet, made, grant.tag)) {
                return Ok(());
            }
            if let Some(pages) = own.copy_at(grant.slot) {
                self.put(grant.slot, pages.snapshot()?)?;
            }
            self.advance();
        }
        Ok(())
    }
}
