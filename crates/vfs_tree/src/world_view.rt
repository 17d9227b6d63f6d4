// What walks read of a world.
ghost use Rattle.std.specs.Prelude.{◌≡◌, is_some, unwrap_or};
ghost use Rattle.std.specs.Option.{option_copied};
ghost use Rattle.std.specs.FinMap as map;
ghost use Rattle.vfs_tree.specs.Nodes.{node_at, entry_at, is_dir_node};
ghost use Rattle.vfs_tree.specs.Views.{kind_of_node, facts_of};
ghost use Rattle.vfs_tree.specs.Visible.{names_at};

use crate::mount::Mount;
use crate::name::Name;
use crate::name_map::NameMap;
use crate::node::{Kind, NameEntry, Node};
use crate::place::Place;
use crate::view::{DirFacts, NameView};
use crate::world::World;

impl Node {
    /// What it is.
    pub fn kind(&self) -> Kind
        ensures { result ≡ kind_of_node self.now }
    {
        match self {
            Node::Dir { .. } => Kind::Dir,
            Node::File { .. } => Kind::File,
            Node::Link { .. } => Kind::Link,
        }
    }
}

impl World {
    /// The node at an inode number of a store. `None` comes exactly where there is none.
    pub fn node(&self, store: u32, ino: u32) -> Option<&Node>
        ensures { option_copied result ≡ node_at self.now store ino }
    {
        match self.stores.get(store) {
            Some(store) => store.node(ino),
            None => None,
        }
    }

    /// What a directory of a store has at a name.
    pub fn entry(&self, store: u32, dir: u32, name: &Name) -> Option<NameEntry>
        ensures { result ≡ entry_at self.now store dir name.now }
    {
        match self.node(store, dir) {
            Some(Node::Dir { names, .. }) => names.get(name).copied(),
            Some(Node::File { .. }) => None,
            Some(Node::Link { .. }) => None,
            None => None,
        }
    }

    /// The names of a directory of a store. `None` comes exactly where there is no directory.
    pub fn names(&self, store: u32, dir: u32) -> Option<&NameMap<NameEntry>>
        ensures names { unwrap_or (option_copied result) map.empty ≡ names_at self.now store dir }
        ensures directory { is_some result ≡ is_dir_node (node_at self.now store dir) }
    {
        match self.node(store, dir) {
            Some(Node::Dir { names, .. }) => Some(names),
            Some(Node::File { .. }) => None,
            Some(Node::Link { .. }) => None,
            None => None,
        }
    }
}

impl NameView for World {
    ghost facts = { facts_of };

    fn entry(&self, store: u32, dir: u32, name: &Name) -> Option<NameEntry> {
        World::entry(self, store, dir, name)
    }

    fn kind(&self, store: u32, ino: u32) -> Option<Kind> {
        match self.node(store, ino) {
            Some(node) => Some(node.kind()),
            None => None,
        }
    }

    fn dir(&self, store: u32, ino: u32) -> Option<DirFacts> {
        match self.stores.get(store) {
            Some(store) => store.dir(ino),
            None => None,
        }
    }

    fn name_of(&self, store: u32, ino: u32) -> Option<&Name> {
        match self.stores.get(store) {
            Some(store) => store.name_of(ino),
            None => None,
        }
    }

    fn target(&self, store: u32, ino: u32) -> Option<&[u8]> {
        match self.node(store, ino) {
            Some(Node::Link { target }) => Some(target.as_slice()),
            Some(Node::Dir { .. }) => None,
            Some(Node::File { .. }) => None,
            None => None,
        }
    }

    fn covering(&self, place: &Place) -> Option<u32> {
        World::covering(self, place)
    }

    fn mount(&self, number: u32) -> Option<&Mount> {
        self.mounts.get(number)
    }
}
