//! Drafts: what a sheet is to be made of.

ghost use Rattle.std.specs.Prelude.{◌≡◌, ◌↔◌, false, Err, Some, OnOk, OnErr, option_copied};
ghost use Rattle.wedge_base.specs.Maps as maps;
ghost use Rattle.wedge_base.specs.Sheets as sheets;

use crate::fault::DraftFault;
use crate::number_map::NumberMap;
use std::alloc::Global;
use std::marker::Model;
use wedge_base::{FdBits, FdNo, PathText, Right, TagNo};

/// The most grants of a draft: its tags, descriptors and gates together.
pub const MOST_GRANTS: usize = 1024;

/// What a sheet is to be made of. It is checked against what its creator holds when it is used, and
/// not before, and it can be used again.
#[derive(Debug)]
pub struct Draft {
    /// The rights on tags, by tag number.
    tags: NumberMap<Right>,
    /// The bits on descriptors, by descriptor number.
    fds: NumberMap<FdBits>,
    /// The entries of gates.
    gates: NumberMap<()>,
    /// The user; none where it is unset.
    user: Option<u32>,
    /// The root directory; none where it is unset.
    root: Option<PathText>,
}

// By hand: a derived drop would be proved again in each function that drops one.
impl Drop for Draft {
    fn drop(self) {
        let Self {
            tags: _,
            fds: _,
            gates: _,
            user: _,
            root: _,
        } = self;
    }
}

impl Model for Draft {
    ghost use Rattle.std.specs.Prelude.{◌≤◌, ◌+◌, length};
    ghost use Rattle.wedge_base.specs.Maps.{keys};
    ghost use Rattle.wedge_base.specs.Sheets.{most_grants, Draft as Plain};

    ghost Value = { Plain };

    ghost view = { λ d. record {
      tags = d.tags;
      fds = d.fds;
      gates = keys d.gates;
      user = d.user;
      root = d.root;
    } };

    ghost invariant = { λ d. length d.tags + length d.fds + length d.gates ≤ most_grants };
}

impl Draft {
    /// A draft without grants, its user and its root directory unset. It allocates nothing.
    pub fn new(alloc: Global) -> Draft
        ensures { result ≡ sheets.empty_draft }
    {
        Draft {
            tags: NumberMap::new(alloc),
            fds: NumberMap::new(alloc),
            gates: NumberMap::new(alloc),
            user: None,
            root: None,
        }
    }

    /// Returns the rights on tags, by tag number.
    pub fn tags(&self) -> &NumberMap<Right>
        ensures { result.now ≡ self.now.tags }
    {
        &self.tags
    }

    /// Returns the bits on descriptors, by descriptor number.
    pub fn fds(&self) -> &NumberMap<FdBits>
        ensures { result.now ≡ self.now.fds }
    {
        &self.fds
    }

    /// Returns the entries of gates, as the keys of a map.
    pub fn gates(&self) -> &NumberMap<()>
        ensures { maps.keys result.now ≡ self.now.gates }
    {
        &self.gates
    }

    /// The user; none where it is unset.
    pub fn user(&self) -> Option<u32>
        ensures { result ≡ self.now.user }
    {
        self.user
    }

    /// Returns the root directory; none where it is unset.
    pub fn root_path(&self) -> Option<&PathText>
        ensures { option_copied result ≡ self.now.root }
    {
        self.root.as_ref()
    }

    /// Whether there are 1,024 grants, so that no further tag, descriptor or gate has room.
    pub fn is_full(&self) -> bool
        ensures { result ≡ sheets.is_full self.now }
    {
        self.tags.len() + self.fds.len() + self.gates.len() >= MOST_GRANTS
    }

    /// Puts a right on a tag, in place of one that is there. `Full` exactly where the draft is full
    /// and has no right on the tag. On an error nothing changes.
    pub fn put_tag(&mut self, tag: TagNo, right: Right) -> Result<(), DraftFault>
        ensures ok { OnOk result (self.new ≡ sheets.with_tag self.old tag right) }
        ensures full { (result ≡ Err DraftFault.Full)
            ↔ (sheets.takes_tag self.old tag ≡ false) }
        ensures err { OnErr result (self.new ≡ self.old) }
    {
        if !self.tags.contains_key(tag.0) && self.is_full() {
            return Err(DraftFault::Full);
        }
        self.tags.insert(tag.0, right)?;
        Ok(())
    }

    /// Puts bits on a descriptor, in place of those that are there. `Full` exactly where the draft
    /// is full and has no bits on the descriptor. On an error nothing changes.
    pub fn put_fd(&mut self, fd: FdNo, bits: FdBits) -> Result<(), DraftFault>
        ensures ok { OnOk result (self.new ≡ sheets.with_fd self.old fd bits) }
        ensures full { (result ≡ Err DraftFault.Full)
            ↔ (sheets.takes_fd self.old fd ≡ false) }
        ensures err { OnErr result (self.new ≡ self.old) }
    {
        if !self.fds.contains_key(fd.0) && self.is_full() {
            return Err(DraftFault::Full);
        }
        self.fds.insert(fd.0, bits)?;
        Ok(())
    }

    /// Adds the gate at an entry. `Full` exactly where the draft is full and lacks the entry. On an
    /// error nothing changes.
    #[tactic(auto, using(crate::proofs::Keys::keys_with, crate::proofs::Keys::among_keys))]
    pub fn put_gate(&mut self, entry: u32) -> Result<(), DraftFault>
        ensures ok { OnOk result (self.new ≡ sheets.with_gate self.old entry) }
        ensures full { (result ≡ Err DraftFault.Full)
            ↔ (sheets.takes_gate self.old entry ≡ false) }
        ensures err { OnErr result (self.new ≡ self.old) }
    {
        if !self.gates.contains_key(entry) && self.is_full() {
            return Err(DraftFault::Full);
        }
        self.gates.insert(entry, ())?;
        Ok(())
    }

    /// Sets the user, in place of one that was set before.
    pub fn set_user(&mut self, user: u32)
        ensures { self.new ≡ record self.old { user = Some user } }
    {
        self.user = Some(user);
    }

    /// Sets the root directory, in place of one that was set before.
    pub fn set_root(&mut self, root: PathText)
        ensures { self.new ≡ record self.old { root = Some root } }
    {
        self.root = Some(root);
    }
}
