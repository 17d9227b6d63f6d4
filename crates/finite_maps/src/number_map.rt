ghost use Rattle.std.specs.Prelude.{◌≡◌, ◌<◌, ◌^◌, ◌↔◌, ℕ, IsTrue, IfOk, IfErr, IsOk, IsSome, Some, OnOk, OnErr};
ghost use Rattle.std.specs.Option.{option_copied, option_copied_mut};
ghost use Rattle.std.specs.Ordering.{nat_cmp};
ghost use Rattle.std.specs.FinMap as map;
ghost use Rattle.std.specs.Borrow.{sem};
ghost use Rattle.finite_maps.specs.Lending.{LendsAt};

use crate::duplicate::Duplicate;
use std::alloc::{AllocError, AllocFailed, Global};
use std::collections::BTreeMap;
use std::collections::btree_map::Iter;
use std::marker::Model;

/// A map from numbers of 32 bits, which contracts see as a finite map.
#[derive(Debug, Drop)]
pub struct NumberMap<V> {
    tree: BTreeMap<u32, V>,
}

impl<V> Model for NumberMap<V> {
    ghost use Rattle.std.specs.Ordering.{nat_cmp};
    ghost use Rattle.std.specs.FinMap as map;
    ghost use Rattle.std.specs.Coded.{coded_ℕ};

    ghost Value = { map.FinMap nat_cmp V };

    ghost coded = { map.code coded_ℕ V.code };

    ghost view = { λ a. map.from_entries a.tree.entries };
}

/// The value that came back from an insert.
fn value_of<V>(failed: AllocFailed<(u32, V)>) -> V
    ensures { result ≡ failed.value.1 }
{
    failed.value.1
}

impl<V> NumberMap<V> {
    /// A map without entries.
    pub fn new(alloc: Global) -> Self
        ensures { result ≡ map.empty }
    {
        NumberMap {
            tree: BTreeMap::new(alloc),
        }
    }

    /// The value at the key, if there is one.
    pub fn get(&self, key: u32) -> Option<&V>
        ensures { option_copied result ≡ map.get self.now key }
    {
        self.tree.get(&key)
    }

    /// How many entries there are.
    pub fn len(&self) -> usize
        ensures len { result ≡ map.len self.now }
        ensures small { result < 2 ^ 63 }
    {
        self.tree.len()
    }

    /// Whether there is no entry.
    pub fn is_empty(&self) -> bool
        ensures { IsTrue result ↔ (map.len self.now ≡ 0) }
    {
        self.len() == 0
    }

    /// The value at the key, to be changed in place.
    pub fn get_mut(&mut self, key: u32) -> Option<&mut V>
        ensures* writes_back { sem 𝓛 (LendsAt V.row self.entry key result) }
        ensures value { option_copied_mut result ≡ map.get self.old key }
    {
        self.tree.get_mut(&key)
    }
}

impl<V> NumberMap<V> {
    /// The entries in the order of their keys.
    pub fn iter(&self) -> Iter<'_, u32, V>
        ensures { result ≡ map.entries self.now }
    {
        self.tree.iter()
    }
}

impl<V: Drop> NumberMap<V> {
    /// Puts the value at the key, and answers the value that was there. The only fault is want of memory, which never
    /// comes where the key is there.
    pub fn insert(&mut self, key: u32, value: V) -> Result<Option<V>, AllocError>
        ensures before { IfOk result (λ before. before ≡ map.get self.old key) }
        ensures ok { OnOk result (self.new ≡ map.insert self.old key value) }
        ensures present { IsSome (map.get self.old key) → IsOk result }
        ensures err { OnErr result (self.new ≡ self.old) }
    {
        match self.tree.insert(key, value) {
            Ok(before) => Ok(before),
            Err(_) => Err(AllocError),
        }
    }

    /// As `insert`, but for want of memory the value comes back.
    pub fn try_insert(&mut self, key: u32, value: V) -> Result<Option<V>, V>
        ensures before { IfOk result (λ before. before ≡ map.get self.old key) }
        ensures ok { OnOk result (self.new ≡ map.insert self.old key value) }
        ensures back { IfErr result (λ back. back ≡ value) }
        ensures err { OnErr result (self.new ≡ self.old) }
    {
        let failed = match self.tree.insert(key, value) {
            Ok(before) => return Ok(before),
            Err(failed) => failed,
        };
        Err(value_of(failed))
    }

    /// Takes the entry at the key away, and answers its value.
    pub fn remove(&mut self, key: u32) -> Option<V>
        ensures before { result ≡ map.get self.old key }
        ensures removed { self.new ≡ map.remove self.old key }
    {
        self.tree.remove(&key)
    }
}

impl<V: Duplicate> Duplicate for NumberMap<V> {
    fn duplicate(&self, alloc: Global) -> Result<Self, AllocError> {
        let mut copy = NumberMap::new(alloc);
        for (key, value) in self.tree.iter() {
            let value = value.duplicate(alloc)?;
            copy.insert(*key, value)?;
        }
        Ok(copy)
    }
}
