use vfs_tree::Errno;

/// The kinds of operation vectors.
#[derive(Clone, Copy, Debug, PartialEq, Eq)]
pub enum VKind {
    /// Of a memory file system.
    Mem,
    /// Of a null layer, as mount_nullfs(8).
    Null,
    /// Of a union, as mount_unionfs(8).
    Union,
    /// Of the dead file system, to which a vnode goes over when it is reclaimed by force.
    Dead,
}

/// A vnode's number: its slot in the vnode table, and how often the slot had been filled when the vnode came into it.
///
/// So a number that outlives its vnode names no later vnode of the same slot.
#[derive(Clone, Copy, Debug, PartialEq, Eq, PartialOrd, Ord, Hash)]
pub struct Vid {
    /// The slot, counted from 0.
    pub slot: u32,
    /// The generation of the slot.
    pub generation: u64,
}

/// The vnode operations, each named as in VOP_*(9) without the prefix.
#[derive(Clone, Copy, Debug, PartialEq, Eq)]
pub enum Op {
    /// Looks a name up in a directory.
    Lookup,
    /// Opens a file.
    Open,
    /// Reads bytes of a file.
    Read,
    /// Writes bytes of a file.
    Write,
    /// Reads the kind and the size.
    Getattr,
    /// Lists a directory.
    Readdir,
    /// Reads the target of a symbolic link.
    Readlink,
    /// Makes a file, a directory or a link in a directory.
    Create,
    /// Removes a name from a directory.
    Remove,
    /// Renames a name of a directory.
    Rename,
    /// Gives a file a further name in a directory.
    Link,
    /// Changes the size of a file.
    Truncate,
    /// The vnode's last use has gone.
    Inactive,
    /// The vnode is separated from its file system.
    Reclaim,
}

/// Where an operation on a vnode goes on.
#[derive(Clone, Copy, Debug, PartialEq, Eq)]
pub enum Route {
    /// In this file system, at the inode.
    Here {
        /// The inode number.
        ino: u32,
    },
    /// At the vnode below.
    Down {
        /// The vnode below.
        vid: Vid,
    },
    /// At both layers of a union.
    Pair {
        /// The vnode of the upper layer.
        upper: Vid,
        /// The vnode of the lower layer.
        lower: Vid,
    },
    /// Nowhere: the operation ends with the error.
    Refuse {
        /// The error.
        errno: Errno,
    },
}

/// What the vnode table keeps in a slot for the vnode's file system, as `v_data` of a FreeBSD vnode.
#[derive(Clone, Copy, Debug, PartialEq, Eq)]
pub enum VData {
    /// Nothing: no vnode stands in the slot.
    Empty,
    /// A node of a memory file system.
    Mem {
        /// The number of the memory mount.
        mount: u32,
        /// The inode number.
        ino: u32,
    },
    /// A node of a null layer.
    Null {
        /// The number of the null mount.
        mount: u32,
        /// The vnode below.
        lower: Vid,
    },
    /// A node of a union.
    Union {
        /// The number of the union mount.
        mount: u32,
        /// The upper inode, or the upper directory of a file that is in the lower layer alone.
        ino: u32,
        /// The vnode of the upper layer, where it has one.
        upper: Option<Vid>,
        /// The vnode of the lower layer, where it has one.
        lower: Option<Vid>,
        /// The count of changes at which the pair was computed.
        at: u64,
    },
}
