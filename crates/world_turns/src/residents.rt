//! The actors of a world, each with its private memory, by name.

ghost use Rattle.std.specs.Prelude.{◌≡◌, ◌<◌, ◌++◌, ◌∷◌, [], length, slice_get, vec_capacity, IfOk, OnOk, OnErr, IfSome, IfNone, None};
ghost use Rattle.machine.specs.Children.{child_name};
ghost use Rattle.machine.specs.Local.{has_ended, run_awaited};
ghost use Rattle.machine.specs.Worlds as worlds;
ghost use Rattle.machine.specs.Worlds.{actor_named};
ghost use Rattle.world_turns.specs.Indices.{IsNameMap};
ghost use Rattle.world_turns.specs.Progress.{IsIndexOf};

use machine::Resident;
use std::alloc::Global;
use std::collections::HashMap;
use std::marker::Model;
use wedge_base::{ActorName, End, NoMemory};

/// The actors of a world in the order of their starts, and where each name is among them. Contracts see the
/// list of them.
#[derive(Drop)]
pub struct Residents {
    pub list: Vec<Resident>,
    pub by_name: HashMap<Vec<u32>, usize>,
}

impl Model for Residents {
    ghost use Rattle.std.specs.Prelude.{List};
    ghost use Rattle.machine.specs.Actors.{ActorState};
    ghost use Rattle.world_turns.specs.Indices.{IsNameMap};

    ghost Value = { List ActorState };

    ghost view = { λ r. r.list.items };

    ghost invariant = { λ r. IsNameMap r.by_name r.list.items };
}

impl Residents {
    /// No actors.
    pub fn none(alloc: Global) -> Residents
        ensures { result ≡ [] }
    {
        Residents {
            list: Vec::new(alloc),
            by_name: HashMap::new(alloc),
        }
    }

    /// The actors as a run begins: the root alone.
    pub fn new(alloc: Global, root: Resident) -> Result<Residents, NoMemory>
        ensures { IfOk result (λ r. r ≡ root ∷ []) }
    {
        let mut residents = Residents::none(alloc);
        residents.push(root)?;
        Ok(residents)
    }

    /// Returns the actors, in the order of their starts.
    pub fn as_slice(&self) -> &[Resident]
        ensures { result.now ≡ self.now }
    {
        self.list.as_slice()
    }

    /// The index of the first actor of a name, by one look-up.
    pub fn index_of(&self, name: &ActorName) -> Option<usize>
        ensures found { IfSome result (IsIndexOf self.now name.now) }
        ensures unknown { IfNone result (actor_named self.now name.now ≡ None) }
    {
        self.by_name.get(name.parts()).copied()
    }

    /// The index of the first actor of the name of a child: the k-th that the actor of this name starts.
    pub fn index_of_child(&self, name: &ActorName, k: u32) -> Result<Option<usize>, NoMemory>
        ensures found { IfOk result (λ o. IfSome o (IsIndexOf self.now (child_name name.now k))) }
        ensures unknown { IfOk result (λ o. IfNone o (actor_named self.now (child_name name.now k)
            ≡ None)) }
    {
        let alloc = *self.list.allocator();
        let mut parts = Vec::from_slice(alloc, name.parts())?;
        parts.push(k)?;
        Ok(self.by_name.get(parts.as_slice()).copied())
    }

    /// Whether the actor at an index has ended.
    pub fn has_ended(&self, index: usize) -> bool
        requires { index < length self.now }
        ensures { IfSome (slice_get self.now index) (λ a. result ≡ has_ended a.phase) }
    {
        self.list[index].actor.has_ended()
    }

    /// The number of the run for which the actor at an index waits.
    pub fn run_awaited(&self, index: usize) -> Option<u32>
        requires { index < length self.now }
        ensures { IfSome (slice_get self.now index) (λ a. result ≡ run_awaited a.phase) }
    {
        self.list[index].actor.run_awaited()
    }

    /// The end of the k-th that the actor of this name started or entered, and the fuel that it has left, if it has ended.
    pub fn ended_with(&self, name: &ActorName, k: u32) -> Result<Option<(End, u32)>, NoMemory>
        ensures { IfOk result (λ o. o
            ≡ worlds.ended_with (actor_named self.now (child_name name.now k))) }
    {
        let Some(index) = self.index_of_child(name, k)? else {
            return Ok(None);
        };
        let actor = &self.list[index].actor;
        match actor.end_reached() {
            None => Ok(None),
            Some(end) => Ok(Some((end, actor.fuel()))),
        }
    }

    /// Adds an actor at the end. Out of memory, nothing is changed.
    pub fn push(&mut self, child: Resident) -> Result<(), NoMemory>
        requires { actor_named self.old child.name ≡ None }
        ensures ok { OnOk result (self.new ≡ self.old ++ child ∷ []) }
        ensures err { OnErr result (self.new ≡ self.old) }
    {
        let alloc = *self.list.allocator();
        let parts = Vec::from_slice(alloc, child.name().parts())?;
        self.list.reserve(1)?;
        self.by_name.insert(parts, self.list.len())?;
        add_in_room(&mut self.list, child);
        Ok(())
    }
}

/// Adds an item to a list that has room for it.
fn add_in_room<T: Drop>(list: &mut Vec<T>, item: T)
    requires room { length list.old.items < vec_capacity list.old }
    ensures { list.new.items ≡ list.old.items ++ item ∷ [] }
{
    let Ok(()) = list.push(item) else {
        unreachable!()
    };
}

/// Drops all actors and the map of their names. When out of memory not even an actor's name is known, so the map can't be kept.
#[inline(never)]
pub fn drop_all(list: &mut Vec<Resident>, by_name: &mut HashMap<Vec<u32>, usize>)
    ensures none { list.new.items ≡ [] }
    ensures by_name { IsNameMap by_name.new [] }
{
    let alloc = *list.allocator();
    *list = Vec::new(alloc);
    *by_name = HashMap::new(alloc);
}
