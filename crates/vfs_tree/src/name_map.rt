ghost use Rattle.std.specs.Prelude.{◌≡◌, ℕ, IfOk, IsOk, IsSome, Some, OnOk, OnErr};
ghost use Rattle.std.specs.Option.{option_copied};
ghost use Rattle.vfs_tree.specs.Name.{name_cmp, coded_name};
ghost use Rattle.std.specs.FinMap as map;

use crate::name::Name;
use finite_maps::Duplicate;
use std::alloc::{AllocError, Global};
use std::collections::BTreeMap;
use std::collections::btree_map::Iter;
use std::marker::Model;
use std::mem;

/// A map from names, which contracts see as a finite map. Its entries stand in the order of the names' bytes.
#[derive(Debug, Drop)]
pub struct NameMap<V> {
    tree: BTreeMap<Name, V>,
}

impl<V> Model for NameMap<V> {
    ghost Value = { map.FinMap name_cmp V };

    ghost coded = { map.code coded_name V.code };

    ghost view = { λ a. map.from_entries a.tree.entries };
}

impl<V> NameMap<V> {
    /// A map without entries.
    pub fn new(alloc: Global) -> Self
        ensures { result ≡ map.empty }
    {
        NameMap {
            tree: BTreeMap::new(alloc),
        }
    }

    /// The value at the key, if there is one.
    pub fn get(&self, key: &Name) -> Option<&V>
        ensures { option_copied result ≡ map.get self.now key.now }
    {
        self.tree.get(key)
    }
}

impl<V> NameMap<V> {
    /// The entries in the order of their keys.
    pub fn iter(&self) -> Iter<'_, Name, V>
        ensures { result ≡ map.entries self.now }
    {
        self.tree.iter()
    }
}

impl<V: Drop> NameMap<V> {
    /// Puts the value at the key, and answers the value that was there. The only fault is want of memory, which never
    /// comes where the key is there.
    pub fn insert(&mut self, key: Name, value: V) -> Result<Option<V>, AllocError>
        ensures before { IfOk result (λ before. before ≡ map.get self.old key) }
        ensures ok { OnOk result (self.new ≡ map.insert self.old key value) }
        ensures present { IsSome (map.get self.old key) → IsOk result }
        ensures err { OnErr result (self.new ≡ self.old) }
    {
        match self.tree.insert(key, value) {
            Ok(before) => Ok(before),
            Err(_) => Err(AllocError),
        }
    }

    /// Puts a value in the place of the one at the key, without memory, and answers the one that was there.
    pub fn replace(&mut self, key: &Name, value: V) -> V
        requires { IsSome (map.get self.old key.now) }
        ensures before { Some result ≡ map.get self.old key.now }
        ensures replaced { self.new ≡ map.insert self.old key.now value }
    {
        match self.tree.get_mut(key) {
            Some(place) => mem::replace(place, value),
            None => unreachable!(),
        }
    }

    /// Takes the entry at the key away, and answers its value.
    pub fn remove(&mut self, key: &Name) -> Option<V>
        ensures before { result ≡ map.get self.old key.now }
        ensures removed { self.new ≡ map.remove self.old key.now }
    {
        self.tree.remove(key)
    }
}

impl<V: Duplicate> Duplicate for NameMap<V> {
    fn duplicate(&self, alloc: Global) -> Result<Self, AllocError> {
        let mut copy = NameMap::new(alloc);
        for (key, value) in self.tree.iter() {
            let key = key.duplicate(alloc)?;
            let value = value.duplicate(alloc)?;
            copy.insert(key, value)?;
        }
        Ok(copy)
    }
}
