//! The actors that an actor began and has not joined.

ghost use Rattle.std.specs.Prelude.{◌≡◌, ◌≤◌, ◌+◌, [], OnOk, OnErr, IfSome, IsSomeAnd, true};
ghost use Rattle.machine.specs.Children as children;

use std::alloc::Global;
use std::collections::BTreeMap;
use std::marker::Model;
use wedge_base::NoMemory;

/// The actors that an actor began and has not joined, children and the run of a gate for which it
/// waits, by number: the fuel with which each began.
#[derive(Debug, Drop)]
pub struct Children {
    fuel: BTreeMap<u32, u32>,
}

impl Model for Children {
    ghost use Rattle.std.specs.BTreeMap.{IsOrdered};
    ghost use Rattle.std.specs.Ordering.{nat_cmp};
    ghost use Rattle.machine.specs.Children.{Children as Plain};

    ghost Value = { Plain };

    ghost view = { λ c. c.fuel.entries };

    ghost invariant = { λ c. IsOrdered nat_cmp c.fuel };
}

impl Children {
    /// No children. It allocates nothing.
    pub fn new(alloc: Global) -> Children
        ensures { result ≡ [] }
    {
        Children {
            fuel: BTreeMap::new(alloc),
        }
    }

    /// Whether a number is that of one of them.
    pub fn contains(&self, number: u32) -> bool
        ensures { result ≡ children.is_child self.now number }
    {
        self.fuel.contains_key(&number)
    }

    /// The fuel with which one of them began.
    pub fn given(&self, number: u32) -> Option<u32>
        ensures { result ≡ children.fuel_given self.now number }
    {
        self.fuel.get(&number).copied()
    }

    /// Adds a child with the fuel that it is given. When out of memory, they are as before.
    #[tactic(auto, using(crate::proofs::FuelGiven::given_with, crate::proofs::FuelGiven::given_there, crate::proofs::FuelGiven::number_self))]
    pub fn add(&mut self, number: u32, fuel: u32) -> Result<(), NoMemory>
        ensures ok { OnOk result (self.new ≡ children.with_child self.old number fuel) }
        ensures child { OnOk result (children.is_child self.new number ≡ true) }
        ensures given { OnOk result (children.all_given self.new
            ≤ children.all_given self.old + fuel) }
        ensures err { OnErr result (self.new ≡ self.old) }
    {
        self.fuel.insert(number, fuel)?;
        Ok(())
    }

    /// Takes away a child that comes back with so much fuel, at most what it was given.
    #[tactic(auto, using(crate::proofs::FuelGiven::removed_is, crate::proofs::FuelGiven::joined_fits))]
    pub fn remove(&mut self, number: u32, fuel: u32)
        requires { IsSomeAnd (children.fuel_given self.old number) (λ given. fuel ≤ given) }
        ensures after { self.new ≡ children.without_child self.old number }
        ensures given { fuel + children.all_given self.new ≤ children.all_given self.old }
    {
        self.fuel.remove(&number);
    }

    /// The least number among them.
    pub fn least(&self) -> Option<u32>
        ensures is { result ≡ children.least_child self.now }
        ensures child { IfSome result (λ k. children.is_child self.now k ≡ true) }
    {
        match self.fuel.first_key_value() {
            Some((number, _)) => Some(*number),
            None => None,
        }
    }
}
