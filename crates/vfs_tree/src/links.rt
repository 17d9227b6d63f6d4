// Which names give a node.
ghost use Rattle.std.specs.Prelude.{◌≡◌, true, IsTrue, Some};
ghost use Rattle.std.specs.List.{list_any};
ghost use Rattle.std.specs.Option.{option_copied};
ghost use Rattle.std.specs.FinMap as map;
ghost use Rattle.vfs_tree.specs.Nodes.{is_dir_node};
ghost use Rattle.vfs_tree.specs.Counts.{gives_node, gives_some};
ghost use Rattle.vfs_tree.specs.Views.{gives, gives_in, is_named_in, is_linked_in, name_in, name_by, dir_in, dir_name};

use crate::name::Name;
use crate::name_map::NameMap;
use crate::node::{NameEntry, Node, Store};

impl NameEntry {
    /// Whether it gives a node.
    pub fn is_given(&self) -> bool
        ensures { result ≡ gives_node self.now }
    {
        match self {
            NameEntry::Ino { .. } => true,
            NameEntry::White => false,
        }
    }

    /// Whether it gives the inode.
    pub fn gives(&self, ino: u32) -> bool
        ensures { result ≡ gives ino self.now }
    {
        match self {
            NameEntry::Ino { ino: given } => *given == ino,
            NameEntry::White => false,
        }
    }
}

impl NameMap<NameEntry> {
    /// Whether one of the names gives the inode.
    pub fn gives(&self, ino: u32) -> bool
        ensures { result ≡ list_any (gives ino) (map.values self.now) }
    {
        for (_name, entry) in self.iter() {
            if entry.gives(ino) {
                return true;
            }
        }
        false
    }

    /// The first of the names that gives the inode. `None` comes exactly where none does.
    pub fn name_of(&self, ino: u32) -> Option<&Name>
        ensures { option_copied result ≡ name_in ino self.now }
    {
        for (name, entry) in self.iter() {
            if entry.gives(ino) {
                return Some(name);
            }
        }
        None
    }
}

impl NameMap<NameEntry> {
    /// Whether one of the names gives a node.
    pub fn gives_some(&self) -> bool
        ensures { result ≡ list_any gives_node (map.values self.now) }
    {
        for (_name, entry) in self.iter() {
            if entry.is_given() {
                return true;
            }
        }
        false
    }
}

impl Node {
    /// Whether it is a directory.
    pub fn is_dir(&self) -> bool
        ensures { result ≡ is_dir_node (Some self.now) }
    {
        match self {
            Node::Dir { .. } => true,
            Node::File { .. } => false,
            Node::Link { .. } => false,
        }
    }

    /// Whether it is a directory one of whose names gives a node.
    pub fn gives_some(&self) -> bool
        ensures { result ≡ gives_some self.now }
    {
        match self {
            Node::Dir { names, .. } => names.gives_some(),
            Node::File { .. } => false,
            Node::Link { .. } => false,
        }
    }

    /// Whether it is a directory one of whose names gives the inode.
    pub fn gives(&self, ino: u32) -> bool
        ensures { result ≡ gives_in ino self.now }
    {
        match self {
            Node::Dir { names, .. } => names.gives(ino),
            Node::File { .. } => false,
            Node::Link { .. } => false,
        }
    }
}

impl Store {
    /// Whether a directory has the inode number.
    pub fn has_dir(&self, ino: u32) -> bool
        ensures { result ≡ is_dir_node (map.get self.now.nodes ino) }
    {
        match self.nodes.get(ino) {
            Some(Node::Dir { .. }) => true,
            Some(Node::File { .. }) => false,
            Some(Node::Link { .. }) => false,
            None => false,
        }
    }

    /// Whether some name of the store gives the inode. It looks at each name.
    pub fn is_named(&self, ino: u32) -> bool
        ensures { result ≡ is_named_in self.now ino }
    {
        for (_number, node) in self.nodes.iter() {
            if node.gives(ino) {
                return true;
            }
        }
        false
    }

    /// The first name that gives the inode in the directory.
    fn name_at(&self, dir: u32, ino: u32) -> Option<&Name>
        ensures { option_copied result ≡ name_by ino (map.get self.now.nodes dir) }
    {
        match self.nodes.get(dir) {
            Some(Node::Dir { names, .. }) => names.name_of(ino),
            Some(Node::File { .. }) => None,
            Some(Node::Link { .. }) => None,
            None => None,
        }
    }

    /// The name that its parent has for a directory.
    pub fn name_of(&self, ino: u32) -> Option<&Name>
        ensures { option_copied result ≡ dir_name self.now ino }
    {
        match self.nodes.get(ino) {
            Some(Node::Dir { parent, .. }) => self.name_at(*parent, ino),
            Some(Node::File { .. }) => None,
            Some(Node::Link { .. }) => None,
            None => None,
        }
    }
}
