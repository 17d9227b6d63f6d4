use crate::call::Call;
use crate::reply::Reply;
use vfs_tree::Name;

/// What a caller has open: a descriptor or its current directory.
#[derive(Clone, Copy, Debug, PartialEq, Eq)]
pub enum Ref {
    /// A descriptor.
    Fd {
        /// Whose it is.
        caller: u32,
        /// Its number.
        fd: u32,
    },
    /// A current directory.
    Cwd {
        /// Whose it is.
        caller: u32,
    },
}

/// What a call needs to happen before it can be answered.
#[derive(Debug, Drop)]
pub enum Inner {
    /// A directory that is in the lower layer of a union alone gets a shadow directory in the upper layer.
    Shadow {
        /// The number of the union mount.
        mount: u32,
        /// The inode number of the union directory, in the upper layer's store.
        dir: u32,
        /// The name in it.
        name: Name,
    },
    /// A file that is in the lower layer of a union alone is copied to the upper layer.
    CopyUp {
        /// The number of the union mount.
        mount: u32,
        /// The inode number of the union directory, in the upper layer's store.
        dir: u32,
        /// The name in it.
        name: Name,
    },
    /// A forced unmount cuts a mount off, and each that stands on it.
    Detach {
        /// The mount's number.
        mount: u32,
    },
    /// What is open at a place becomes dead.
    Doom {
        /// One of those that are open there.
        at: Ref,
    },
}

/// An entry of a history.
#[derive(Debug, Drop)]
pub enum Entry {
    /// A call with its answer.
    Call {
        /// Who called.
        caller: u32,
        /// What was called.
        call: Call,
        /// The answer.
        reply: Reply,
    },
    /// What a caller's next call needs before it can be answered.
    Inner {
        /// Whose next call needs it.
        caller: u32,
        /// What happened.
        what: Inner,
    },
}
