use crate::bytes::Bytes;
use crate::name_map::NameMap;
use finite_maps::{Duplicate, NumberMap};
use std::alloc::{AllocError, Global};

/// What a file is.
#[derive(Clone, Copy, Debug, PartialEq, Eq)]
pub enum Kind {
    /// A directory.
    Dir,
    /// A regular file.
    File,
    /// A symbolic link.
    Link,
}

/// What a directory has at a name.
#[derive(Clone, Copy, Debug, PartialEq, Eq)]
pub enum NameEntry {
    /// The name gives the node with this inode number.
    Ino {
        /// The inode number, in the directory's own store.
        ino: u32,
    },
    /// A whiteout: through a union the name is absent, whatever the lower layer has.
    White,
}

/// What a store keeps under an inode number.
#[derive(Debug, Drop)]
pub enum Node {
    /// A directory.
    Dir {
        /// The inode number of its parent directory; the root is its own parent.
        parent: u32,
        /// Whether a union shows nothing of the lower layer in it.
        opaque: bool,
        /// Its names, `.` and `..` left out.
        names: NameMap<NameEntry>,
    },
    /// A regular file.
    File {
        /// Its contents.
        bytes: Bytes,
    },
    /// A symbolic link.
    Link {
        /// The path that it stands for.
        target: Bytes,
    },
}

/// The nodes of one memory file system by inode number. The root directory has the number 1.
#[derive(Debug, Drop)]
pub struct Store {
    /// The nodes. None is ever forgotten, also where no name gives it any more.
    pub nodes: NumberMap<Node>,
    /// The number of the next node that is made, from 2 up. No number is given twice.
    pub next: u32,
}

impl Duplicate for NameEntry {
    fn duplicate(&self, alloc: Global) -> Result<Self, AllocError> {
        Ok(*self)
    }
}

impl Duplicate for Node {
    fn duplicate(&self, alloc: Global) -> Result<Self, AllocError> {
        match self {
            Node::Dir {
                parent,
                opaque,
                names,
            } => Ok(Node::Dir {
                parent: *parent,
                opaque: *opaque,
                names: names.duplicate(alloc)?,
            }),
            Node::File { bytes } => Ok(Node::File {
                bytes: bytes.duplicate(alloc)?,
            }),
            Node::Link { target } => Ok(Node::Link {
                target: target.duplicate(alloc)?,
            }),
        }
    }
}

impl Duplicate for Store {
    fn duplicate(&self, alloc: Global) -> Result<Self, AllocError> {
        Ok(Store {
            nodes: self.nodes.duplicate(alloc)?,
            next: self.next,
        })
    }
}
