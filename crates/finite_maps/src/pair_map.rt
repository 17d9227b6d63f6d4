ghost use Rattle.std.specs.Prelude.{◌≡◌, ◌<◌, ◌^◌, ℕ, IfOk, IsOk, IsSome, Some, OnOk, OnErr};
ghost use Rattle.std.specs.Option.{option_copied, option_copied_mut};
ghost use Rattle.std.specs.FinMap as map;
ghost use Rattle.std.specs.Borrow.{sem};
ghost use Rattle.finite_maps.specs.Lending.{LendsAtPair};

use crate::duplicate::Duplicate;
use std::alloc::{AllocError, Global};
use std::collections::BTreeMap;
use std::collections::btree_map::Iter;
use std::marker::Model;

/// A map from pairs of numbers of 32 bits, which contracts see as a finite map.
#[derive(Debug, Drop)]
pub struct PairMap<V> {
    tree: BTreeMap<(u32, u32), V>,
}

impl<V> Model for PairMap<V> {
    ghost use Rattle.std.specs.FinMap as map;
    ghost use Rattle.finite_maps.specs.Keys.{pair_cmp, coded_pair};

    ghost Value = { map.FinMap pair_cmp V };

    ghost coded = { map.code coded_pair V.code };

    ghost view = { λ a. map.from_entries a.tree.entries };
}

impl<V> PairMap<V> {
    /// A map without entries.
    pub fn new(alloc: Global) -> Self
        ensures { result ≡ map.empty }
    {
        PairMap {
            tree: BTreeMap::new(alloc),
        }
    }

    /// The value at the key, if there is one.
    pub fn get(&self, key: (u32, u32)) -> Option<&V>
        ensures { option_copied result ≡ map.get self.now key }
    {
        self.tree.get(&key)
    }

    /// How many entries there are.
    pub fn len(&self) -> usize
        ensures len { result ≡ map.len self.now }
        ensures small { result < 2 ^ 63 }
    {
        self.tree.len()
    }

    /// The value at the key, to be changed in place.
    pub fn get_mut(&mut self, key: (u32, u32)) -> Option<&mut V>
        ensures* writes_back { sem 𝓛 (LendsAtPair V.row self.entry key result) }
        ensures value { option_copied_mut result ≡ map.get self.old key }
    {
        self.tree.get_mut(&key)
    }
}

impl<V> PairMap<V> {
    /// The entries in the order of their keys.
    pub fn iter(&self) -> Iter<'_, (u32, u32), V>
        ensures { result ≡ map.entries self.now }
    {
        self.tree.iter()
    }
}

impl<V: Drop> PairMap<V> {
    /// Puts the value at the key, and answers the value that was there. The only fault is want of memory, which never
    /// comes where the key is there.
    pub fn insert(&mut self, key: (u32, u32), value: V) -> Result<Option<V>, AllocError>
        ensures before { IfOk result (λ before. before ≡ map.get self.old key) }
        ensures ok { OnOk result (self.new ≡ map.insert self.old key value) }
        ensures present { IsSome (map.get self.old key) → IsOk result }
        ensures err { OnErr result (self.new ≡ self.old) }
    {
        match self.tree.insert(key, value) {
            Ok(before) => Ok(before),
            Err(_) => Err(AllocError),
        }
    }

    /// Takes the entry at the key away, and answers its value.
    pub fn remove(&mut self, key: (u32, u32)) -> Option<V>
        ensures before { result ≡ map.get self.old key }
        ensures removed { self.new ≡ map.remove self.old key }
    {
        self.tree.remove(&key)
    }
}

impl<V: Duplicate> Duplicate for PairMap<V> {
    fn duplicate(&self, alloc: Global) -> Result<Self, AllocError> {
        let mut copy = PairMap::new(alloc);
        for (key, value) in self.tree.iter() {
            let value = value.duplicate(alloc)?;
            copy.insert(*key, value)?;
        }
        Ok(copy)
    }
}
