use vfs_tree::{Bytes, Errno, Kind, NameList};

/// The kind of a mount.
#[derive(Clone, Copy, Debug, PartialEq, Eq)]
pub enum MountWord {
    /// A memory file system.
    Mem,
    /// A null layer.
    Null,
    /// A union.
    Union,
}

/// What a call answers.
#[derive(Debug, Drop)]
pub enum Reply {
    /// The call was done.
    Done,
    /// The new descriptor.
    Fd {
        /// The lowest number that was free.
        fd: u32,
    },
    /// How many bytes were written.
    Count {
        /// The number of bytes.
        n: u32,
    },
    /// The new offset.
    Offset {
        /// In bytes from the start of the file.
        at: u64,
    },
    /// The bytes that were read.
    Bytes {
        /// The bytes.
        bytes: Bytes,
    },
    /// The kind and size of a file.
    Stat {
        /// The kind.
        kind: Kind,
        /// The size in bytes; 0 for a directory, the length of the target for a link.
        size: u32,
    },
    /// The names of a directory.
    Names {
        /// The names in byte order, without `.` and `..`.
        names: NameList,
    },
    /// The target of a link.
    Target {
        /// The target.
        bytes: Bytes,
    },
    /// The mount of a file.
    Fs {
        /// The mount's number.
        mount: u32,
        /// Its kind.
        kind: MountWord,
    },
    /// The call was refused, or found no memory.
    Fail {
        /// Why.
        errno: Errno,
    },
}
