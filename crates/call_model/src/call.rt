use vfs_tree::Bytes;

/// What a file is opened for.
#[derive(Clone, Copy, Debug, PartialEq, Eq)]
pub enum Access {
    /// For reading: the word `r`.
    Read,
    /// For writing: the word `w`.
    Write,
    /// For both: the word `b`.
    Both,
}

/// How a file is opened; as the flags of open(2).
#[derive(Clone, Copy, Debug, PartialEq, Eq)]
pub struct Flags {
    /// What for.
    pub access: Access,
    /// `c`: a missing file is made, as with O_CREAT.
    pub make: bool,
    /// `x`: the file must be new, as with O_EXCL; without `make` it has no effect.
    pub fresh: bool,
    /// `t`: the file is cut to the length 0, as with O_TRUNC.
    pub cut: bool,
    /// `a`: each write goes to the end, as with O_APPEND.
    pub append: bool,
    /// `d`: the file must be a directory, as with O_DIRECTORY.
    pub dir: bool,
}

/// From where `lseek` counts.
#[derive(Clone, Copy, Debug, PartialEq, Eq)]
pub enum Whence {
    /// From the start of the file, as SEEK_SET.
    Set,
    /// From the descriptor's offset, as SEEK_CUR.
    Cur,
    /// From the end of the file, as SEEK_END.
    End,
}

/// A file call. Each field is named by its letter in the table of calls: paths are `p`, `a`, `b`, `t` and `u`,
/// descriptors `d`, numbers `n` and `o`, and written bytes `w`.
#[derive(Debug, Drop)]
pub enum Call {
    /// Makes a directory; mkdir(2).
    Mkdir { p: Bytes },
    /// Removes an empty directory; rmdir(2).
    Rmdir { p: Bytes },
    /// Opens a file or a directory; open(2).
    Open { p: Bytes, f: Flags },
    /// Closes a descriptor; close(2).
    Close { d: u32 },
    /// Reads at most `n` bytes from the offset on, which moves; read(2).
    Read { d: u32, n: u32 },
    /// Reads at most `n` bytes from `o` on; pread(2).
    Pread { d: u32, n: u32, o: u32 },
    /// Writes at the offset, which moves; write(2).
    Write { d: u32, w: Bytes },
    /// Writes at `o`; pwrite(2).
    Pwrite { d: u32, o: u32, w: Bytes },
    /// Moves the offset; lseek(2).
    Lseek { d: u32, h: Whence, i: i64 },
    /// Gives the named file the length `n`; truncate(2).
    Truncate { p: Bytes, n: u32 },
    /// Gives the open file the length `n`; ftruncate(2).
    Ftruncate { d: u32, n: u32 },
    /// The kind and size of a file, with the last link followed; stat(2).
    Stat { p: Bytes },
    /// The kind and size of a file, with the last link not followed; lstat(2).
    Lstat { p: Bytes },
    /// The kind and size of an open file; fstat(2).
    Fstat { d: u32 },
    /// The names in an open directory; getdirentries(2).
    Readdir { d: u32 },
    /// Removes a name of a file; unlink(2).
    Unlink { p: Bytes },
    /// Gives the file at `a` the name `b`; rename(2).
    Rename { a: Bytes, b: Bytes },
    /// Gives the file at `a` the further name `b`; link(2).
    Link { a: Bytes, b: Bytes },
    /// Makes a symbolic link at `p` to the target `t`; symlink(2).
    Symlink { t: Bytes, p: Bytes },
    /// The target of a symbolic link; readlink(2).
    Readlink { p: Bytes },
    /// Removes a whiteout; undelete(2).
    Undelete { p: Bytes },
    /// Changes the current directory; chdir(2).
    Chdir { p: Bytes },
    /// Changes the current directory to an open one; fchdir(2).
    Fchdir { d: u32 },
    /// The mount of a file and its kind; statfs(2).
    Statfs { p: Bytes },
    /// Mounts a new memory file system; tmpfs(5).
    MountMem { p: Bytes },
    /// Mounts a null layer that shows `t`; mount_nullfs(8).
    MountNull { t: Bytes, p: Bytes },
    /// Mounts a union with the upper layer `u`; mount_unionfs(8).
    MountUnion { u: Bytes, p: Bytes },
    /// Unmounts a file system that nothing uses; unmount(2).
    Umount { p: Bytes },
    /// Unmounts a file system with MNT_FORCE; unmount(2).
    UmountForce { p: Bytes },
    /// Invalidates all descriptors of a regular file; revoke(2).
    Revoke { p: Bytes },
}

/// A call of a script, with its caller.
#[derive(Debug, Drop)]
pub struct Line {
    /// The caller's number, from 1.
    pub caller: u32,
    /// What it calls.
    pub call: Call,
}
