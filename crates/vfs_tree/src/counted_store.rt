ghost use Rattle.std.specs.Prelude.{◌≡◌, ◌+◌, ◌<◌, ◌^◌, length, IfOk, IsSome, IfSome, OnOk, OnErr, Some};
ghost use Rattle.std.specs.Option.{option_copied};
ghost use Rattle.std.specs.FinMap as map;
ghost use Rattle.vfs_tree.specs.Nodes.{AreBelow, is_dir_node};
ghost use Rattle.vfs_tree.specs.Edits.{made};
ghost use Rattle.vfs_tree.specs.StoreEdits.{entry_of, set_entry, clear_entry, emptied, moved, with_node_at};
ghost use Rattle.vfs_tree.specs.FileEdits.{written, resized};
ghost use Rattle.vfs_tree.specs.Start.{empty_store};
ghost use Rattle.vfs_tree.specs.Undo.{refilled};
ghost use Rattle.vfs_tree.specs.Views.{is_named_in, is_linked_in, dir_in, dir_name};

use crate::name::Name;
use crate::name_counts::NameCounts;
use crate::node::{NameEntry, Node, Store};
use crate::store_edits::{self, Taken};
use crate::view::DirFacts;
use finite_maps::{Duplicate, NumberMap};
use std::alloc::{AllocError, Global};
use std::marker::Model;

/// A store that keeps how many names give each node, and the name that a directory was given last, so that whether a node
/// is linked, and a directory's own name, are told without a look at all names. Contracts see its store alone.
///
/// The counts are kept by edits of one name. An edit that would have to count more, as where a directory that is emptied
/// has names that give nodes, lets them be unknown, and the names are looked at from then on; no file call makes one. A kept
/// name is asked for again before it is told; where there was no memory to keep it, the names are looked at.
#[derive(Debug, Drop)]
pub struct CountedStore {
    store: Store,
    counts: NameCounts,
    own: NumberMap<Name>,
    alloc: Global,
}

impl Model for CountedStore {
    ghost use Rattle.vfs_tree.specs.declared.node.Store.{Store};
    ghost use Rattle.vfs_tree.specs.StoreCode.{store_code};

    ghost Value = { Store };

    ghost coded = { store_code };

    ghost use Rattle.vfs_tree.specs.NameCounts.{AreCounts};

    ghost view = { λ c. c.store };

    ghost invariant = { λ c. AreCounts c.counts c.store };
}

impl CountedStore {
    /// A store that has its root directory alone. The only fault is want of memory.
    pub fn new(alloc: Global) -> Result<CountedStore, AllocError>
        ensures empty { IfOk result (λ store. store ≡ empty_store) }
        ensures below { IfOk result (λ store. AreBelow store.nodes store.next) }
    {
        let store = Store::new(alloc)?;
        let counts = NameCounts {
            known: NumberMap::new(alloc),
            sure: true,
        };
        Ok(CountedStore {
            store,
            counts,
            own: NumberMap::new(alloc),
            alloc,
        })
    }

    /// The store, of whose names nothing is known.
    pub fn of(alloc: Global, store: Store) -> CountedStore
        ensures { result ≡ store }
    {
        let counts = NameCounts {
            known: NumberMap::new(alloc),
            sure: false,
        };
        CountedStore {
            store,
            counts,
            own: NumberMap::new(alloc),
            alloc,
        }
    }

    /// The store.
    pub fn store(&self) -> &Store
        ensures { result.now ≡ self.now }
    {
        &self.store
    }

    /// The number of the next node that is made.
    pub fn next(&self) -> u32
        ensures { result ≡ self.now.next }
    {
        self.store.next
    }

    /// The node at an inode number. `None` comes exactly where there is none.
    pub fn node(&self, ino: u32) -> Option<&Node>
        ensures { option_copied result ≡ map.get self.now.nodes ino }
    {
        self.store.nodes.get(ino)
    }

    /// Whether some name gives the inode.
    pub fn is_named(&self, ino: u32) -> bool
        ensures { result ≡ is_named_in self.now ino }
    {
        match self.counts.of(ino) {
            Some(count) => count != 0,
            None => self.store.is_named(ino),
        }
    }

    /// Whether the inode is the root, or some name gives it.
    pub fn is_linked(&self, ino: u32) -> bool
        ensures { result ≡ is_linked_in self.now ino }
    {
        ino == 1 || self.is_named(ino)
    }

    /// What is to be known of a directory. `None` comes exactly where there is no directory.
    pub fn dir(&self, ino: u32) -> Option<DirFacts>
        ensures { result ≡ dir_in self.now ino }
    {
        match self.node(ino) {
            Some(Node::Dir { parent, opaque, .. }) => Some(DirFacts {
                parent: *parent,
                opaque: *opaque,
                linked: self.is_linked(ino),
            }),
            Some(Node::File { .. }) => None,
            Some(Node::Link { .. }) => None,
            None => None,
        }
    }

    /// The name that is kept for a directory, where it is the only one.
    fn kept_name(&self, ino: u32) -> Option<&Name>
        ensures { IfSome (option_copied result) (λ name. dir_name self.now ino ≡ Some name) }
    {
        if !self.counts.is_one(ino) {
            return None;
        }
        let parent = match self.node(ino) {
            Some(Node::Dir { parent, .. }) => *parent,
            Some(Node::File { .. }) => return None,
            Some(Node::Link { .. }) => return None,
            None => return None,
        };
        let name = self.own.get(ino)?;
        match self.entry_of(parent, name) {
            Some(entry) => { if entry.gives(ino) { Some(name) } else { None } }
            None => None,
        }
    }

    /// The name that its parent has for a directory.
    pub fn name_of(&self, ino: u32) -> Option<&Name>
        ensures { option_copied result ≡ dir_name self.now ino }
    {
        match self.kept_name(ino) {
            Some(name) => Some(name),
            None => self.store.name_of(ino),
        }
    }

    /// What a directory has at a name.
    pub fn entry_of(&self, dir: u32, name: &Name) -> Option<NameEntry>
        ensures { result ≡ entry_of self.now dir name.now }
    {
        store_edits::entry_of(&self.store, dir, name)
    }
}

/// A copy of a name, where that is said and there is memory.
fn copy_if(alloc: Global, does: bool, name: &Name) -> Option<Name> {
    if !does {
        return None;
    }
    match name.duplicate(alloc) {
        Ok(copy) => Some(copy),
        Err(_) => None,
    }
}

/// Keeps a directory's name, where there is memory.
fn keep_name(own: &mut NumberMap<Name>, ino: u32, name: Option<Name>) {
    if let Some(name) = name {
        match own.insert(ino, name) {
            Ok(_) => (),
            Err(_) => (),
        }
    }
}

/// Keeps the name of the directory that an entry gives, where there is memory.
fn keep_given(own: &mut NumberMap<Name>, entry: NameEntry, name: Option<Name>) {
    match entry {
        NameEntry::Ino { ino } => keep_name(own, ino, name),
        NameEntry::White => (),
    }
}

impl CountedStore {
    /// A copy of a name that is going to give a directory.
    fn own_copy(&self, entry: NameEntry, name: &Name) -> Option<Name> {
        match entry {
            NameEntry::Ino { ino } => copy_if(self.alloc, self.store.has_dir(ino), name),
            NameEntry::White => None,
        }
    }

    /// Makes a node under a name of a directory, and answers its number. The only fault is want of memory.
    pub fn make(&mut self, dir: u32, name: Name, node: Node) -> Result<u32, AllocError>
        requires room { self.old.next < 4294967295 }
        requires below { AreBelow self.old.nodes self.old.next }
        ensures made { OnOk result (self.new ≡ made self.old dir name node) }
        ensures number { IfOk result (λ ino. ino ≡ self.old.next) }
        ensures err { OnErr result (self.new ≡ self.old) }
        ensures kept { AreBelow self.new.nodes self.new.next }
    {
        let plain = self.store.is_plain(dir, &node);
        let before = store_edits::entry_of(&self.store, dir, &name);
        let own = copy_if(self.alloc, node.is_dir(), &name);
        match store_edits::make(&mut self.store, dir, name, node) {
            Ok(ino) => {
                self.counts.make(plain, ino, before);
                keep_name(&mut self.own, ino, own);
                Ok(ino)
            }
            Err(error) => Err(error),
        }
    }

    /// Puts an entry at a name of a directory, and answers the one that was there. The only fault is want of memory.
    pub fn put_entry(
        &mut self,
        dir: u32,
        name: Name,
        entry: NameEntry,
    ) -> Result<Option<NameEntry>, AllocError>
        ensures before { IfOk result (λ before. before ≡ entry_of self.old dir name) }
        ensures ok { OnOk result (self.new ≡ set_entry self.old dir name entry) }
        ensures err { OnErr result (self.new ≡ self.old) }
    {
        let there = self.store.has_dir(dir);
        let own = self.own_copy(entry, &name);
        match store_edits::put_entry(&mut self.store, dir, name, entry) {
            Ok(before) => {
                self.counts
                    .replace_if(there, self.store.next, before, entry);
                keep_given(&mut self.own, entry, own);
                Ok(before)
            }
            Err(error) => Err(error),
        }
    }

    /// Puts an entry in the place of the one at a name of a directory, without memory.
    pub fn replace_entry(&mut self, dir: u32, name: &Name, entry: NameEntry)
        requires { IsSome (entry_of self.old dir name.now) }
        ensures { self.new ≡ set_entry self.old dir name.now entry }
    {
        let before = store_edits::entry_of(&self.store, dir, name);
        store_edits::replace_entry(&mut self.store, dir, name, entry);
        self.counts.replace_if(true, self.store.next, before, entry);
    }

    /// Takes the entry at a name of a directory away.
    pub fn clear(&mut self, dir: u32, name: &Name)
        ensures { self.new ≡ clear_entry self.old dir name.now }
    {
        let before = store_edits::entry_of(&self.store, dir, name);
        store_edits::clear(&mut self.store, dir, name);
        self.counts.lower_for(before);
    }

    /// Takes the names out of the directory that an entry gives.
    pub fn empty_given(&mut self, alloc: Global, given: Option<NameEntry>) -> Option<Taken>
        ensures emptied { self.new ≡ emptied self.old given }
        ensures back { refilled self.new result ≡ self.old }
    {
        let taken = store_edits::empty_given(alloc, &mut self.store, given);
        self.counts.forget_if(store_edits::gives_some(&taken));
        taken
    }

    /// Gives a directory its names back.
    pub fn refill(&mut self, taken: Option<Taken>)
        ensures { self.new ≡ refilled self.old taken }
    {
        self.counts.forget_if(self.store.gives_some_with(&taken));
        store_edits::refill(&mut self.store, taken);
    }

    /// Gives the node, where it is a directory, another parent, and makes it opaque where that is said.
    pub fn move_to(&mut self, ino: u32, to: u32, hides: bool)
        ensures { self.new ≡ with_node_at (moved to hides) self.old ino }
    {
        store_edits::move_to(&mut self.store, ino, to, hides);
    }

    /// Puts a piece at an offset of a regular file, as pwrite(2): a gap before it is filled with zeros, and an empty piece
    /// changes nothing. A node of another kind stays. The only fault is want of memory.
    pub fn write(&mut self, ino: u32, at: usize, piece: &[u8]) -> Result<(), AllocError>
        requires { at + length piece.now < 2 ^ 64 }
        ensures written { OnOk result (self.new ≡ written self.old ino at piece.now) }
        ensures err { OnErr result (self.new ≡ self.old) }
        ensures kept { AreBelow self.old.nodes self.old.next → AreBelow self.new.nodes self.new.next }
    {
        store_edits::write(&mut self.store, ino, at, piece)
    }

    /// Gives a regular file a length, as ftruncate(2): what is behind it is cut off, and what is missing is zeros. A node of
    /// another kind stays. The only fault is want of memory.
    pub fn resize(&mut self, ino: u32, len: usize) -> Result<(), AllocError>
        ensures resized { OnOk result (self.new ≡ resized self.old ino len) }
        ensures err { OnErr result (self.new ≡ self.old) }
        ensures kept { AreBelow self.old.nodes self.old.next → AreBelow self.new.nodes self.new.next }
    {
        store_edits::resize(&mut self.store, ino, len)
    }
}

impl Duplicate for CountedStore {
    fn duplicate(&self, alloc: Global) -> Result<Self, AllocError> {
        Ok(CountedStore::of(alloc, self.store.duplicate(alloc)?))
    }
}
