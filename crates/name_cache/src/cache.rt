ghost use Rattle.std.specs.Prelude.{◌≡◌, ◌≢◌, ℕ, List, [], not, false, IsOk, IfOk, OnOk, OnErr, None, Some, Option, filter};
ghost use Rattle.std.specs.List.{list_any};
ghost use Rattle.std.specs.Map.{remove_entry};
ghost use Rattle.lru.specs.LruCache.{promoted, last_entry};
ghost use Rattle.op_vector.specs.declared.data.Vid.{Vid};
ghost use Rattle.name_cache.specs.Entries.{is_place, says, spares, spared, turned, entered, left_of, SayTheSame, AddsAtMost};
ghost use Rattle.name_cache.specs.Answers.{answer};

use crate::key::Key;
use lru::LruCache;
use op_vector::Vid;
use std::alloc::Global;
use std::marker::Model;
use std::num::NonZeroUsize;
use vfs_tree::{Name, NoMemory};

/// What the cache says of a directory and a name.
#[derive(Clone, Copy, Debug, PartialEq, Eq)]
pub enum Cached {
    /// The name gives the vnode.
    Hit {
        /// The vnode.
        vid: Vid,
    },
    /// The directory has no such name.
    Absent,
    /// Nothing.
    Miss,
}

/// The most entries.
pub const CAPACITY: usize = 1024;

/// What a look-up answers by what was found.
fn answer_from(found: Option<Option<Vid>>) -> Cached
    ensures { result ≡ answer found }
{
    match found {
        Some(Some(vid)) => Cached::Hit { vid },
        Some(None) => Cached::Absent,
        None => Cached::Miss,
    }
}

/// Whether an entry names the vnode neither as its directory nor as what its name gives.
fn is_spared(key: &Key, what: &Option<Vid>, vid: Vid) -> bool
    ensures { result ≡ spares vid (key.now, what.now) }
{
    if key.is_in(vid) {
        return false;
    }
    match what {
        Some(given) => vid != *given,
        None => true,
    }
}

/// Whether an entry names the vnode.
fn any_names(entries: &LruCache<Key, Option<Vid>>, vid: Vid) -> bool
    ensures { result ≡ list_any (λ e. not (spares vid e)) entries.now.entries }
{
    entries
        .iter()
        .any(|entry| !is_spared(entry.0, entry.1, vid))
}

/// The key of the least recently used entry, where it doesn't name the vnode.
fn last_spared(entries: &LruCache<Key, Option<Vid>>, vid: Vid) -> Option<Key>
    ensures { result ≡ spared vid (last_entry entries.now.entries) }
{
    match entries.peek_lru() {
        Some((key, what)) => {
            if is_spared(key, what, vid) {
                Some(*key)
            } else {
                None
            }
        }
        None => None,
    }
}

/// Moves the least recently used entry to the front, or drops it where it names the vnode.
fn turn(entries: &mut LruCache<Key, Option<Vid>>, vid: Vid)
    ensures entries { entries.new.entries ≡ turned (spares vid) entries.old.entries }
    ensures cap { entries.new.cap ≡ entries.old.cap }
{
    // That keys are distinct is known from the length.
    let _count = entries.len();
    match last_spared(entries, vid) {
        Some(key) => {
            entries.promote(&key);
        }
        None => {
            entries.pop_lru();
        }
    }
}

/// Drops each entry that names the vnode: turns every entry once.
fn turn_all(entries: &mut LruCache<Key, Option<Vid>>, vid: Vid)
    ensures entries { entries.new.entries ≡ filter (spares vid) entries.old.entries }
    ensures cap { entries.new.cap ≡ entries.old.cap }
{
    for _turn in 0..entries.len() {
        turn(entries, vid);
    }
}

/// A cache of names. Contracts see its entries, the most recently used first; what it `says` of a directory and a name is
/// what their entry has.
#[derive(Drop)]
pub struct NameCache {
    entries: LruCache<Key, Option<Vid>>,
}

impl Model for NameCache {
    ghost use Rattle.std.specs.Prelude.{◌≡◌, List};
    ghost use Rattle.name_cache.specs.Entries.{Entry};

    ghost Value = { List Entry };

    ghost view = { λ c. c.entries.entries };

    ghost invariant = { λ c. c.entries.cap ≡ 1024 };
}

impl NameCache {
    /// A cache without entries. The only fault is want of memory.
    pub fn new(alloc: Global) -> Result<NameCache, NoMemory>
        ensures { IfOk result (λ cache. cache ≡ []) }
    {
        let Some(capacity) = NonZeroUsize::new(CAPACITY) else {
            unreachable!()
        };
        let entries = LruCache::new(alloc, capacity)?;
        Ok(NameCache { entries })
    }

    /// What the cache says of the directory and the name; their entry becomes the most recently used. `Miss` comes exactly
    /// where they have no entry. It takes no memory.
    pub fn look(&mut self, dir: Vid, name: &Name) -> Cached
        ensures told { result ≡ answer (says self.old dir name.now) }
        ensures order { self.new ≡ promoted (is_place dir name.now) self.old }
        ensures same { SayTheSame self.old self.new }
    {
        let key = Key::new(dir, name);
        answer_from(self.entries.get(&key).copied())
    }

    /// Enters what a name gives. The only fault is want of memory, which never comes where the name has an entry.
    pub fn enter(&mut self, dir: Vid, name: &Name, vid: Vid) -> Result<(), NoMemory>
        ensures ok { OnOk result (self.new ≡ entered dir name.now (Some vid) self.old) }
        ensures said { OnOk result (says self.new dir name.now ≡ Some (Some vid)) }
        ensures adds { AddsAtMost dir name.now (Some vid) self.old self.new }
        ensures present { says self.old dir name.now ≢ None → IsOk result }
        ensures err { OnErr result (self.new ≡ self.old) }
    {
        self.put(dir, name, Some(vid))
    }

    /// Enters that the directory has no such name. The only fault is want of memory, which never comes where the name has
    /// an entry.
    pub fn enter_absent(&mut self, dir: Vid, name: &Name) -> Result<(), NoMemory>
        ensures ok { OnOk result (self.new ≡ entered dir name.now None self.old) }
        ensures said { OnOk result (says self.new dir name.now ≡ Some None) }
        ensures adds { AddsAtMost dir name.now None self.old self.new }
        ensures present { says self.old dir name.now ≢ None → IsOk result }
        ensures err { OnErr result (self.new ≡ self.old) }
    {
        self.put(dir, name, None)
    }

    fn put(&mut self, dir: Vid, name: &Name, what: Option<Vid>) -> Result<(), NoMemory>
        ensures ok { OnOk result (self.new ≡ entered dir name.now what self.old) }
        ensures said { OnOk result (says self.new dir name.now ≡ Some what) }
        ensures adds { AddsAtMost dir name.now what self.old self.new }
        ensures present { says self.old dir name.now ≢ None → IsOk result }
        ensures err { OnErr result (self.new ≡ self.old) }
    {
        let key = Key::new(dir, name);
        self.entries.put(key, what)?;
        Ok(())
    }

    /// Drops the entry of the directory and the name, if there is one. It takes no memory.
    pub fn purge(&mut self, dir: Vid, name: &Name)
        ensures dropped { self.new ≡ remove_entry (is_place dir name.now) self.old }
        ensures silent { says self.new dir name.now ≡ None }
        ensures others { (d : Vid) (n : List ℕ) → is_place dir name.now (d, n) ≡ false → says self.new d n ≡ says self.old d n }
    {
        let key = Key::new(dir, name);
        // That keys are distinct is known from the length.
        let _count = self.entries.len();
        let _old = self.entries.pop(&key);
    }

    /// Drops each entry that names the vnode, as its directory or as what its name gives. It takes no memory.
    ///
    /// It goes over the entries once to see whether one names the vnode, and only then once more.
    pub fn purge_vnode(&mut self, vid: Vid)
        ensures dropped { self.new ≡ filter (spares vid) self.old }
        ensures left { (d : Vid) (n : List ℕ) → says self.new d n ≡ left_of vid d (says self.old d n) }
    {
        // That keys are distinct is known from the length.
        let _count = self.entries.len();
        if any_names(&self.entries, vid) {
            turn_all(&mut self.entries, vid);
        }
    }
}
