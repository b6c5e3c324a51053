//! Names of actors.

ghost use Rattle.std.specs.Prelude.{◌≡◌, ◌≤◌, ◌<◌, ◌++◌, ◌∷◌, [], length, take, nat_lt, true, IfOk, IsErrOf, IsTrue, ◌↔◌};
ghost use Rattle.std.specs.List.{list_all};
ghost use Rattle.wedge_base.specs.Names.{same, root_name, most_parts};
ghost use Rattle.wedge_base.specs.Names as names;
ghost use Rattle.wedge_base.specs.NameParts.{parts_of, IsCounted};

use crate::errors::{NameFault, NoMemory};
use crate::limits::MOST_PARTS;
use std::alloc::Global;
use std::marker::Model;
use std::sync::Arc;

/// An actor's name: its path of start numbers. The root is `0`, and the k-th actor that `p` starts is
/// `p.k`, with k from 1. A name has at most 32 parts.
///
/// A name of at most three parts is held in itself: it takes no memory, and a copy counts nothing that others count too. The
/// parts of a longer one are held once, by all copies of the name.
#[derive(Clone, Debug)]
pub struct ActorName {
    parts: Parts,
}

/// The parts of a name.
#[derive(Clone, Debug, Drop)]
enum Parts {
    /// The first `count` of these.
    Few { count: u8, parts: [u32; FEW] },
    Many(Arc<Vec<u32>>),
}

/// How many parts a name has at most that is held in itself.
const FEW: usize = 3;

// By hand: a derived drop would be proved again in each function that drops one.
impl Drop for ActorName {
    fn drop(self) {
        let Self { parts: _ } = self;
    }
}

impl Model for ActorName {
    ghost use Rattle.std.specs.Prelude.{ℕ, List, ◌≡◌, true};
    ghost use Rattle.wedge_base.specs.Names.{is_actor_name};
    ghost use Rattle.wedge_base.specs.NameParts.{parts_of, IsCounted};

    ghost Value = { List ℕ };

    ghost view = { λ n. parts_of n.parts };

    ghost invariant = { λ n. (is_actor_name (parts_of n.parts) ≡ true) × IsCounted n.parts };
}

impl PartialEq for ActorName {
    ghost use Rattle.std.specs.Prelude.{◌==◌};
    ghost use Rattle.std.specs.Cmp.Lexicographic.{pointwise};
    ghost use Rattle.std.proofs.Common.{rules};
    ghost use Rattle.std.specs.Cmp.Rules.{comparing};

    ghost eq = { λ x y. pointwise ◌==◌ x y };

    ghost laws = { Prim.search (comparing, rules) };

    fn eq(&self, other: &Self) -> bool {
        self.is_same(other)
    }
}

impl ActorName {
    /// The name of the root.
    pub fn root(alloc: Global) -> Result<ActorName, NoMemory>
        ensures { IfOk result (λ n. n ≡ root_name) }
    {
        ActorName::of_parts(alloc, &[0])
    }

    /// The name of these parts.
    pub fn of_parts(alloc: Global, parts: &[u32]) -> Result<ActorName, NoMemory>
        requires { names.is_actor_name parts.now ≡ true }
        ensures { IfOk result (λ n. n ≡ parts.now) }
    {
        Ok(ActorName {
            parts: parts_from(alloc, parts)?,
        })
    }

    /// Returns the parts of the name, the root's 0 first.
    pub fn parts(&self) -> &[u32]
        ensures is { result.now ≡ self.now }
        ensures named { names.is_actor_name self.now ≡ true }
    {
        match &self.parts {
            Parts::Few { count, parts } => &parts[..usize::from(*count)],
            Parts::Many(parts) => parts.as_slice(),
        }
    }

    /// The name of the k-th actor that the actor of this name starts. `Deep` exactly where this name has 32
    /// parts.
    pub fn child(&self, alloc: Global, k: u32) -> Result<ActorName, NameFault>
        requires { 1 ≤ k }
        ensures ok { IfOk result (λ n. n ≡ self.now ++ k ∷ []) }
        ensures deep { IsErrOf result NameFault.Deep ↔ (most_parts ≤ length self.now) }
    {
        let parts = self.parts();
        if parts.len() >= MOST_PARTS {
            return Err(NameFault::Deep);
        }
        match parts_with(alloc, parts, k) {
            Ok(parts) => Ok(ActorName { parts }),
            Err(NoMemory) => Err(NameFault::NoMemory),
        }
    }

    /// An equal name.
    pub fn copy(&self) -> Result<ActorName, NoMemory>
        ensures { IfOk result (λ n. n ≡ self.now) }
    {
        Ok(ActorName {
            parts: self.parts.copy()?,
        })
    }

    /// Whether two names are the same.
    pub fn is_same(&self, other: &ActorName) -> bool
        ensures is { result ≡ same self.now other.now }
        ensures exact { IsTrue result ↔ (self.now ≡ other.now) }
    {
        self.parts() == other.parts()
    }
}

impl Parts {
    /// Returns the same parts.
    #[inline(always)]
    fn copy(&self) -> Result<Parts, NoMemory>
        ensures is { IfOk result (λ p. parts_of p ≡ parts_of self.now) }
        ensures counted { IsCounted self.now → IfOk result IsCounted }
    {
        match self {
            Parts::Few { count, parts } => Ok(Parts::Few {
                count: *count,
                parts: *parts,
            }),
            Parts::Many(parts) => Ok(Parts::Many(Arc::try_clone(parts)?)),
        }
    }
}

/// Returns these numbers as parts.
fn parts_from(alloc: Global, parts: &[u32]) -> Result<Parts, NoMemory>
    ensures is { IfOk result (λ p. parts_of p ≡ parts.now) }
    ensures counted { IfOk result IsCounted }
{
    match parts {
        [a] => Ok(few(1, [*a, 0, 0])),
        [a, b] => Ok(few(2, [*a, *b, 0])),
        [a, b, c] => Ok(few(3, [*a, *b, *c])),
        _ => Ok(Parts::Many(Arc::new(alloc, Vec::from_slice(alloc, parts)?)?)),
    }
}

/// Returns these numbers as parts, and one more behind them.
fn parts_with(alloc: Global, parts: &[u32], last: u32) -> Result<Parts, NoMemory>
    requires { length parts.now < most_parts }
    ensures is { IfOk result (λ p. parts_of p ≡ parts.now ++ last ∷ []) }
    ensures counted { IfOk result IsCounted }
{
    match parts {
        [a] => Ok(few(2, [*a, last, 0])),
        [a, b] => Ok(few(3, [*a, *b, last])),
        _ => {
            let mut all = Vec::with_capacity(alloc, parts.len() + 1)?;
            all.extend_from_slice(parts)?;
            all.push(last)?;
            Ok(Parts::Many(Arc::new(alloc, all)?))
        }
    }
}

/// Returns the first of three numbers as parts.
fn few(count: u8, parts: [u32; FEW]) -> Parts
    requires { count ≤ 3 }
    ensures is { parts_of result ≡ take count parts }
    ensures counted { IsCounted result }
{
    Parts::Few { count, parts }
}

/// Whether numbers are the parts of a name.
pub fn is_actor_name(parts: &[u32]) -> bool
    ensures { result ≡ names.is_actor_name parts.now }
{
    match parts {
        [] => false,
        [first, others @ ..] => { *first == 0 && are_starts(others) && others.len() < MOST_PARTS }
    }
}

/// Whether numbers are those of starts, from 1.
fn are_starts(numbers: &[u32]) -> bool
    ensures { result ≡ list_all (nat_lt 0) numbers.now }
{
    numbers.iter().all(|k| *k > 0)
}
