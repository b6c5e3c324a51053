//! Finite maps from numbers.

ghost use Rattle.std.specs.Prelude.{◌≡◌, [], true, length, IfOk, IfErr, OnOk, OnErr, IsOk, option_copied};
ghost use Rattle.wedge_base.specs.Maps as maps;
ghost use Rattle.grant_sheet.specs.NumberMap.{IsFound, IsGap};

use std::alloc::Global;
use std::marker::Model;
use wedge_base::NoMemory;

/// A finite map from numbers, its entries sorted by key. A key is found by binary search.
#[derive(Debug, Drop)]
pub struct NumberMap<V> {
    entries: Vec<(u32, V)>,
}

impl<V> Model for NumberMap<V> {
    ghost use Rattle.wedge_base.specs.Maps.{Map, keys, AreRising};

    ghost Value = { Map V };

    ghost view = { λ m. m.entries.items };

    ghost invariant = { λ m. AreRising 0 (keys m.entries.items) };
}

impl<V> NumberMap<V> {
    /// A map without entries. It allocates nothing.
    pub fn new(alloc: Global) -> Self
        ensures { result ≡ [] }
    {
        NumberMap {
            entries: Vec::new(alloc),
        }
    }

    /// The map of entries whose keys rise strictly.
    pub fn from_entries(entries: Vec<(u32, V)>) -> Self
        requires { maps.AreRising 0 (maps.keys entries.items) }
        ensures { result ≡ entries.items }
    {
        NumberMap { entries }
    }

    /// Returns the entries, sorted by key.
    #[inline]
    pub fn as_slice(&self) -> &[(u32, V)]
        ensures entries { result.now ≡ self.now }
        ensures rising { maps.AreRising 0 (maps.keys self.now) }
    {
        self.entries.as_slice()
    }

    /// How many entries there are.
    #[inline]
    pub fn len(&self) -> usize
        ensures { result ≡ length self.now }
    {
        self.entries.len()
    }

    /// Returns the value at a key, or none. A map without entries is not searched.
    #[inline]
    pub fn get(&self, key: u32) -> Option<&V>
        ensures { option_copied result ≡ maps.at self.now key }
    {
        if self.entries.is_empty() {
            return None;
        }
        match self.search(key) {
            Ok(position) => Some(&self.entries[position].1),
            Err(_) => None,
        }
    }

    /// Whether there is a value at a key.
    #[inline]
    pub fn contains_key(&self, key: u32) -> bool
        ensures { result ≡ maps.has self.now key }
    {
        self.get(key).is_some()
    }

    /// Puts a value at a key. A value that is there already is replaced, without allocating. When
    /// out of memory, the map is as it was.
    pub fn insert(&mut self, key: u32, value: V) -> Result<(), NoMemory>
    where
        V: Drop,
        ensures ok { OnOk result (self.new ≡ maps.with self.old key value) }
        ensures len { OnOk result (length self.new ≡ maps.length_with self.old key) }
        ensures replaced { maps.has self.old key ≡ true → IsOk result }
        ensures err { OnErr result (self.new ≡ self.old) }
    {
        match self.search(key) {
            Ok(position) => {
                self.entries[position] = (key, value);
                Ok(())
            }
            Err(position) => Ok(self.entries.insert(position, (key, value))?),
        }
    }

    /// The position of a key, or the one at which it would be inserted.
    #[inline]
    fn search(&self, key: u32) -> Result<usize, usize>
        ensures found { IfOk result (IsFound self.now key) }
        ensures absent { IfErr result (IsGap self.now key) }
    {
        self.entries.binary_search_by_key(&key, |entry| entry.0)
    }
}

impl<V: Copy> NumberMap<V> {
    /// An equal map.
    pub fn copy(&self, alloc: Global) -> Result<NumberMap<V>, NoMemory>
        ensures { IfOk result (λ m. m ≡ self.now) }
    {
        Ok(NumberMap {
            entries: Vec::from_slice(alloc, self.entries.as_slice())?,
        })
    }

    /// The map with what another has at keys that it lacks.
    pub fn joined(&self, alloc: Global, other: &NumberMap<V>) -> Result<NumberMap<V>, NoMemory>
    where
        V: Drop,
        ensures map { IfOk result (λ m. m ≡ maps.map_union self.now other.now) }
        ensures values { IfOk result (maps.AreJoined self.now other.now) }
    {
        let mut map = self.copy(alloc)?;
        let entries = other.as_slice();
        for (key, value) in entries {
            if !map.contains_key(*key) {
                map.insert(*key, *value)?;
            }
        }
        Ok(map)
    }
}
