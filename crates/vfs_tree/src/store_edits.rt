// Edits of one store, each with all that it holds.
ghost use Rattle.std.specs.Prelude.{◌≡◌, ◌+◌, ◌<◌, ◌^◌, ◌&&◌, ◌||◌, not, length, IfOk, IsSome, OnOk, OnErr};
ghost use Rattle.std.specs.FinMap as map;
ghost use Rattle.vfs_tree.specs.Counts.{gives_some};
ghost use Rattle.vfs_tree.specs.Nodes.{AreBelow, is_dir_node};
ghost use Rattle.vfs_tree.specs.Edits.{made};
ghost use Rattle.vfs_tree.specs.StoreEdits.{entry_of, set_entry, clear_entry, emptied, moved, with_node_at};
ghost use Rattle.vfs_tree.specs.FileEdits.{written, resized};
ghost use Rattle.vfs_tree.specs.Undo.{refilled, taken_gives, place_gives};

use crate::name::Name;
use crate::name_map::NameMap;
use crate::node::{NameEntry, Node, Store};
use crate::node_edits::{
    clear_name, give_names, move_dir, put_name, replace_name, resize_node, take_names, write_node,
};
use std::alloc::{AllocError, Global};

/// The names that were taken out of a directory.
#[derive(Debug, Drop)]
pub struct Taken {
    /// The inode number of the directory.
    pub ino: u32,
    /// Its names.
    pub names: NameMap<NameEntry>,
}

/// What a directory of a store has at a name.
pub fn entry_of(store: &Store, dir: u32, name: &Name) -> Option<NameEntry>
    ensures { result ≡ entry_of store.now dir name.now }
{
    match store.nodes.get(dir) {
        Some(Node::Dir { names, .. }) => names.get(name).copied(),
        Some(Node::File { .. }) => None,
        Some(Node::Link { .. }) => None,
        None => None,
    }
}

/// Puts an entry at a name of a directory, and answers the one that was there. The only fault is want of memory.
pub fn put_entry(
    store: &mut Store,
    dir: u32,
    name: Name,
    entry: NameEntry,
) -> Result<Option<NameEntry>, AllocError>
    ensures before { IfOk result (λ before. before ≡ entry_of store.old dir name) }
    ensures ok { OnOk result (store.new ≡ set_entry store.old dir name entry) }
    ensures err { OnErr result (store.new ≡ store.old) }
{
    match store.nodes.get_mut(dir) {
        Some(node) => match put_name(node, name, entry) {
            Ok(before) => Ok(before),
            Err(error) => Err(error),
        },
        None => Ok(None),
    }
}

/// Takes the entry at a name of a directory away.
pub fn clear(store: &mut Store, dir: u32, name: &Name)
    ensures { store.new ≡ clear_entry store.old dir name.now }
{
    if let Some(node) = store.nodes.get_mut(dir) {
        clear_name(node, name);
    }
}

/// Puts an entry in the place of the one at a name of a directory, without memory.
pub fn replace_entry(store: &mut Store, dir: u32, name: &Name, entry: NameEntry)
    requires { IsSome (entry_of store.old dir name.now) }
    ensures { store.new ≡ set_entry store.old dir name.now entry }
{
    match store.nodes.get_mut(dir) {
        Some(node) => replace_name(node, name, entry),
        None => unreachable!(),
    }
}

/// Takes the names out of the directory that an entry gives.
pub fn empty_given(alloc: Global, store: &mut Store, given: Option<NameEntry>) -> Option<Taken>
    ensures emptied { store.new ≡ emptied store.old given }
    ensures back { refilled store.new result ≡ store.old }
{
    let ino = match given {
        Some(NameEntry::Ino { ino }) => ino,
        Some(NameEntry::White) => return None,
        None => return None,
    };
    match store.nodes.get_mut(ino) {
        Some(node) => match take_names(alloc, node) {
            Some(names) => Some(Taken { ino, names }),
            None => None,
        },
        None => None,
    }
}

/// Whether a name that was taken out gives a node.
pub fn gives_some(taken: &Option<Taken>) -> bool
    ensures { result ≡ taken_gives taken.now }
{
    match taken {
        Some(taken) => taken.names.gives_some(),
        None => false,
    }
}

impl Store {
    /// Whether a name of the directory whose names were taken out gives a node.
    fn gives_some_at(&self, taken: &Option<Taken>) -> bool
        ensures { result ≡ place_gives self.now taken.now }
    {
        let ino = match taken {
            Some(taken) => taken.ino,
            None => return false,
        };
        match self.nodes.get(ino) {
            Some(node) => node.gives_some(),
            None => false,
        }
    }

    /// Whether a name that was taken out gives a node, or one that the directory has now.
    pub fn gives_some_with(&self, taken: &Option<Taken>) -> bool
        ensures { result ≡ (taken_gives taken.now || place_gives self.now taken.now) }
    {
        gives_some(taken) || self.gives_some_at(taken)
    }

    /// Whether a node has no names that give one, and the directory is there.
    pub fn is_plain(&self, dir: u32, node: &Node) -> bool
        ensures { result ≡ (not (gives_some node.now) && is_dir_node (map.get self.now.nodes dir)) }
    {
        !node.gives_some() && self.has_dir(dir)
    }
}

/// Gives a directory its names back.
pub fn refill(store: &mut Store, taken: Option<Taken>)
    ensures { store.new ≡ refilled store.old taken }
{
    if let Some(Taken { ino, names }) = taken {
        match store.nodes.get_mut(ino) {
            Some(node) => give_names(node, names),
            None => (),
        }
    }
}

/// Gives the node, where it is a directory, another parent, and makes it opaque where that is said.
pub fn move_to(store: &mut Store, ino: u32, to: u32, hides: bool)
    ensures { store.new ≡ with_node_at (moved to hides) store.old ino }
{
    if let Some(node) = store.nodes.get_mut(ino) {
        move_dir(node, to, hides);
    }
}

/// Makes a node under a name of a directory, and answers its number. The only fault is want of memory.
pub fn make(store: &mut Store, dir: u32, name: Name, node: Node) -> Result<u32, AllocError>
    requires room { store.old.next < 4294967295 }
    requires below { AreBelow store.old.nodes store.old.next }
    ensures made { OnOk result (store.new ≡ made store.old dir name node) }
    ensures number { IfOk result (λ ino. ino ≡ store.old.next) }
    ensures err { OnErr result (store.new ≡ store.old) }
    ensures kept { AreBelow store.new.nodes store.new.next }
{
    let ino = store.next;
    store.nodes.insert(ino, node)?;
    match put_entry(store, dir, name, NameEntry::Ino { ino }) {
        Ok(_) => {
            store.next = ino + 1;
            Ok(ino)
        }
        Err(error) => {
            store.nodes.remove(ino);
            Err(error)
        }
    }
}

/// Puts a piece at an offset of a regular file, as pwrite(2): a gap before it is filled with zeros, and an empty piece
/// changes nothing. A node of another kind stays. The only fault is want of memory.
pub fn write(store: &mut Store, ino: u32, at: usize, piece: &[u8]) -> Result<(), AllocError>
    requires { at + length piece.now < 2 ^ 64 }
    ensures written { OnOk result (store.new ≡ written store.old ino at piece.now) }
    ensures err { OnErr result (store.new ≡ store.old) }
    ensures kept { AreBelow store.old.nodes store.old.next → AreBelow store.new.nodes store.new.next }
{
    match store.nodes.get_mut(ino) {
        Some(node) => match write_node(node, at, piece) {
            Ok(()) => Ok(()),
            Err(error) => Err(error),
        },
        None => Ok(()),
    }
}

/// Gives a regular file a length, as ftruncate(2): what is behind it is cut off, and what is missing is zeros. A node of
/// another kind stays. The only fault is want of memory.
pub fn resize(store: &mut Store, ino: u32, len: usize) -> Result<(), AllocError>
    ensures resized { OnOk result (store.new ≡ resized store.old ino len) }
    ensures err { OnErr result (store.new ≡ store.old) }
    ensures kept { AreBelow store.old.nodes store.old.next → AreBelow store.new.nodes store.new.next }
{
    match store.nodes.get_mut(ino) {
        Some(node) => match resize_node(node, len) {
            Ok(()) => Ok(()),
            Err(error) => Err(error),
        },
        None => Ok(()),
    }
}
