//! The two directories of a run, each as a type of its own, so that what it gives is known to be below its bound.

use crate::directory::Directory;
use std::alloc::Global;
use std::marker::Model;
use wedge_base::{MOST_FDS, NoMemory, SLOTS};
use wedge_events::{DirectoryAsk, DirectoryReply, Object};

/// The directory of slots: each that it gives is one of the 4,096.
#[derive(Debug, Drop)]
pub struct SlotDirectory {
    inside: Directory,
}

/// The directory of descriptors: each that it gives is one of the 1,024.
#[derive(Debug, Drop)]
pub struct FdDirectory {
    inside: Directory,
}

impl Model for SlotDirectory {
    ghost use Rattle.std.specs.Prelude.{◌≤◌};
    ghost use Rattle.wedge_base.specs.Images.{slots};
    ghost use Rattle.wedge_events.specs.Directories.{Directory as Plain};

    ghost Value = { Plain };

    ghost view = { λ d. d.inside };

    ghost invariant = { λ d. d.inside.places ≤ slots };
}

impl Model for FdDirectory {
    ghost use Rattle.std.specs.Prelude.{◌≤◌};
    ghost use Rattle.wedge_events.specs.Directories.{Directory as Plain};
    ghost use Rattle.wedge_events.specs.Streams.{most_fds};

    ghost Value = { Plain };

    ghost view = { λ d. d.inside };

    ghost invariant = { λ d. d.inside.places ≤ most_fds };
}

impl SlotDirectory {
    ghost use Rattle.std.specs.Prelude.{◌≡◌, ◌<◌, ◌≤◌, IfOk};
    ghost use Rattle.std.specs.List.{AllByRecursion};
    ghost use Rattle.wedge_base.specs.Images.{slots};
    ghost use Rattle.wedge_events.specs.Directories.{directory};

    /// The directory of which the first `claimed` slots are claimed.
    pub fn new(alloc: Global, claimed: u32) -> Result<SlotDirectory, NoMemory>
        requires { claimed ≤ slots }
        ensures { IfOk result (λ d. d ≡ directory slots claimed) }
    {
        let inside = Directory::new(alloc, SLOTS, claimed)?;
        Ok(SlotDirectory { inside })
    }

    /// All that it can give are slots. It does nothing.
    #[tactic(auto, using(crate::proofs::Bounds::used_within, crate::proofs::Bounds::released_within))]
    #[inline(always)]
    pub fn gives_slots(&self)
        ensures places { self.now.places ≤ slots }
        ensures unused { self.now.unused ≤ slots }
        ensures released { AllByRecursion (λ p. p < slots) self.now.released }
    {
        self.inside.gives_places();
    }
}

impl FdDirectory {
    ghost use Rattle.std.specs.Prelude.{◌≡◌, ◌<◌, ◌≤◌, IfOk};
    ghost use Rattle.std.specs.List.{AllByRecursion};
    ghost use Rattle.wedge_events.specs.Directories.{directory};
    ghost use Rattle.wedge_events.specs.Streams.{most_fds};

    /// The directory of which the first `claimed` descriptors are claimed.
    pub fn new(alloc: Global, claimed: u32) -> Result<FdDirectory, NoMemory>
        requires { claimed ≤ most_fds }
        ensures { IfOk result (λ d. d ≡ directory most_fds claimed) }
    {
        let inside = Directory::new(alloc, MOST_FDS, claimed)?;
        Ok(FdDirectory { inside })
    }

    /// All that it can give are descriptors. It does nothing.
    #[tactic(auto, using(crate::proofs::Bounds::used_within, crate::proofs::Bounds::released_within))]
    #[inline(always)]
    pub fn gives_fds(&self)
        ensures places { self.now.places ≤ most_fds }
        ensures unused { self.now.unused ≤ most_fds }
        ensures released { AllByRecursion (λ p. p < most_fds) self.now.released }
    {
        self.inside.gives_places();
    }
}

impl Object for SlotDirectory {
    ghost use Rattle.std.specs.Prelude.{◌≡◌, Ok, IfOk, OnErr};
    ghost use Rattle.wedge_events.specs.Directories.{directory_reply, directory_next, DirectoryFits, slots_opening};

    type Ask = DirectoryAsk;

    type Reply = DirectoryReply;

    ghost reply = { directory_reply };

    ghost next = { directory_next };

    ghost opening = { λ i _. slots_opening i };

    ghost fits = { λ _ d q. DirectoryFits d q };

    #[tactic(auto, using(crate::proofs::Bounds::next_within))]
    fn act(&mut self, ask: &DirectoryAsk) -> Result<(DirectoryReply, DirectoryReply), NoMemory>
        ensures first { IfOk result (λ r. r.0 ≡ directory_reply self.old ask.now) }
        ensures second { IfOk result (λ r. r.1 ≡ directory_reply self.old ask.now) }
        ensures after { IfOk result (λ r. self.new ≡ directory_next self.old ask.now) }
        ensures err { OnErr result (self.new ≡ self.old) }
    {
        self.inside.act(ask)
    }

    #[tactic(auto, using(crate::proofs::Bounds::next_within))]
    fn act_once(&mut self, ask: &DirectoryAsk) -> Result<DirectoryReply, NoMemory>
        ensures is { IfOk result (λ r. r ≡ directory_reply self.old ask.now) }
        ensures after { IfOk result (λ r. self.new ≡ directory_next self.old ask.now) }
        ensures err { OnErr result (self.new ≡ self.old) }
    {
        self.inside.act_once(ask)
    }

    fn copy_ask(ask: &DirectoryAsk) -> Result<DirectoryAsk, NoMemory>
        ensures { result ≡ Ok ask.now }
    {
        Ok(*ask)
    }
}

impl Object for FdDirectory {
    ghost use Rattle.std.specs.Prelude.{◌≡◌, Ok, IfOk, OnErr};
    ghost use Rattle.wedge_events.specs.Directories.{directory_reply, directory_next, DirectoryFits, fds_opening};

    type Ask = DirectoryAsk;

    type Reply = DirectoryReply;

    ghost reply = { directory_reply };

    ghost next = { directory_next };

    ghost opening = { λ i _. fds_opening i };

    ghost fits = { λ _ d q. DirectoryFits d q };

    #[tactic(auto, using(crate::proofs::Bounds::next_within))]
    fn act(&mut self, ask: &DirectoryAsk) -> Result<(DirectoryReply, DirectoryReply), NoMemory>
        ensures first { IfOk result (λ r. r.0 ≡ directory_reply self.old ask.now) }
        ensures second { IfOk result (λ r. r.1 ≡ directory_reply self.old ask.now) }
        ensures after { IfOk result (λ r. self.new ≡ directory_next self.old ask.now) }
        ensures err { OnErr result (self.new ≡ self.old) }
    {
        self.inside.act(ask)
    }

    #[tactic(auto, using(crate::proofs::Bounds::next_within))]
    fn act_once(&mut self, ask: &DirectoryAsk) -> Result<DirectoryReply, NoMemory>
        ensures is { IfOk result (λ r. r ≡ directory_reply self.old ask.now) }
        ensures after { IfOk result (λ r. self.new ≡ directory_next self.old ask.now) }
        ensures err { OnErr result (self.new ≡ self.old) }
    {
        self.inside.act_once(ask)
    }

    fn copy_ask(ask: &DirectoryAsk) -> Result<DirectoryAsk, NoMemory>
        ensures { result ≡ Ok ask.now }
    {
        Ok(*ask)
    }
}
