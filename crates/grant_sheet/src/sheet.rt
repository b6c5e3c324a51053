//! Sheets: all that an actor was given when it began.

ghost use Rattle.std.specs.Prelude.{◌≡◌, ◌<◌, ◌^◌, length, IfOk};
ghost use Rattle.wedge_base.specs.Sheets as sheets;

use crate::number_map::NumberMap;
use std::alloc::Global;
use std::marker::Model;
use wedge_base::{FdBits, FdEntry, GateId, Grant, NoMemory, PathText, Slot, TagEntry};

/// All that an actor was given when it began. It never changes.
#[derive(Debug)]
pub struct Sheet {
    /// The rights on tags, by tag number, each with the slot of its tag.
    tags: NumberMap<Grant>,
    /// The bits on descriptors, by descriptor number.
    fds: NumberMap<FdBits>,
    /// The gates, by entry.
    gates: NumberMap<GateId>,
    /// The user.
    user: u32,
    /// The root directory.
    root: PathText,
}

// By hand: a derived drop would be proved again in each function that drops one.
impl Drop for Sheet {
    fn drop(self) {
        let Self {
            tags: _,
            fds: _,
            gates: _,
            user: _,
            root: _,
        } = self;
    }
}

impl Model for Sheet {
    ghost use Rattle.wedge_base.specs.Sheets.{Sheet as Plain};

    ghost Value = { Plain };

    ghost view = { λ s. record {
      tags = s.tags;
      fds = s.fds;
      gates = s.gates;
      user = s.user;
      root = s.root;
    } };
}

impl Sheet {
    /// The sheet of these grants, this user and this root directory.
    pub fn new(
        tags: NumberMap<Grant>,
        fds: NumberMap<FdBits>,
        gates: NumberMap<GateId>,
        user: u32,
        root: PathText,
    ) -> Sheet
        ensures { result ≡ record {
          tags = tags;
          fds = fds;
          gates = gates;
          user = user;
          root = root;
        } }
    {
        Sheet {
            tags,
            fds,
            gates,
            user,
            root,
        }
    }

    /// The sheet with which the root of a run begins: its rights on the declared tags, each
    /// numbered, and opened in a slot, by its index; its bits on the declared descriptors, numbered
    /// by their indices; no gates. A tag on which it has no right has no entry.
    pub fn root(
        alloc: Global,
        tags: &[TagEntry],
        fds: &[FdEntry],
        user: u32,
        root: PathText,
    ) -> Result<Sheet, NoMemory>
        requires tags_few { length tags.now < 2 ^ 32 }
        requires fds_few { length fds.now < 2 ^ 32 }
        ensures { IfOk result (λ s. s ≡ sheets.root_sheet tags.now fds.now user root) }
    {
        Ok(Sheet {
            tags: root_tags(alloc, tags)?,
            fds: root_fds(alloc, fds)?,
            gates: NumberMap::new(alloc),
            user,
            root,
        })
    }

    /// Returns the rights on tags, by tag number.
    #[inline]
    pub fn tags(&self) -> &NumberMap<Grant>
        ensures { result.now ≡ self.now.tags }
    {
        &self.tags
    }

    /// Returns the bits on descriptors, by descriptor number.
    #[inline]
    pub fn fds(&self) -> &NumberMap<FdBits>
        ensures { result.now ≡ self.now.fds }
    {
        &self.fds
    }

    /// Returns the gates, by entry.
    #[inline]
    pub fn gates(&self) -> &NumberMap<GateId>
        ensures { result.now ≡ self.now.gates }
    {
        &self.gates
    }

    /// A copy of the gates.
    pub fn copy_gates(&self, alloc: Global) -> Result<NumberMap<GateId>, NoMemory>
        ensures { IfOk result (λ m. m ≡ self.now.gates) }
    {
        Ok(NumberMap::from_entries(copy_entries(alloc, self.gates.as_slice())?))
    }

    /// The user.
    #[inline]
    pub fn user(&self) -> u32
        ensures { result ≡ self.now.user }
    {
        self.user
    }

    /// Returns the root directory.
    #[inline]
    pub fn root_path(&self) -> &PathText
        ensures { result.now ≡ self.now.root }
    {
        &self.root
    }
}

/// The root's grants on the declared tags.
fn root_tags(alloc: Global, tags: &[TagEntry]) -> Result<NumberMap<Grant>, NoMemory>
    requires { length tags.now < 2 ^ 32 }
    ensures { IfOk result (λ m. m ≡ sheets.root_tags 0 tags.now) }
{
    let mut grants = Vec::new(alloc);
    let mut number = 0u32;
    for tag in tags {
        if let Some(right) = tag.right {
            let slot = Slot(number);
            grants.push((number, Grant { right, slot }))?;
        }
        number += 1;
    }
    Ok(NumberMap::from_entries(grants))
}

/// The root's bits on the declared descriptors.
fn root_fds(alloc: Global, fds: &[FdEntry]) -> Result<NumberMap<FdBits>, NoMemory>
    requires { length fds.now < 2 ^ 32 }
    ensures { IfOk result (λ m. m ≡ sheets.root_fds 0 fds.now) }
{
    let mut bits = Vec::new(alloc);
    let mut number = 0u32;
    for fd in fds {
        bits.push((number, fd.bits))?;
        number += 1;
    }
    Ok(NumberMap::from_entries(bits))
}

/// A copy of the entries of gates.
fn copy_entries(alloc: Global, gates: &[(u32, GateId)]) -> Result<Vec<(u32, GateId)>, NoMemory>
    ensures { IfOk result (λ v. v.items ≡ gates.now) }
{
    let mut entries = Vec::with_capacity(alloc, gates.len())?;
    for (entry, gate) in gates {
        entries.push((*entry, gate.copy()?))?;
    }
    Ok(entries)
}
