ghost use Rattle.std.specs.Prelude.{◌≡◌};
ghost use Rattle.vfs_tree.specs.Errno.{number_of, text_of};

/// Why a file call was refused: an error of FreeBSD's errno(2).
#[derive(Clone, Copy, Debug, PartialEq, Eq)]
pub enum Errno {
    /// Operation not permitted.
    EPERM,
    /// No such file or directory.
    ENOENT,
    /// Input/output error: the file has been revoked, or its file system is being unmounted by force.
    EIO,
    /// Device not configured.
    ENXIO,
    /// Bad file descriptor.
    EBADF,
    /// Resource deadlock avoided.
    EDEADLK,
    /// Cannot allocate memory.
    ENOMEM,
    /// Device busy.
    EBUSY,
    /// File exists.
    EEXIST,
    /// Cross-device link.
    EXDEV,
    /// Not a directory.
    ENOTDIR,
    /// Is a directory.
    EISDIR,
    /// Invalid argument.
    EINVAL,
    /// Too many open files in system.
    ENFILE,
    /// Too many open files.
    EMFILE,
    /// File too large.
    EFBIG,
    /// No space left on device.
    ENOSPC,
    /// Read-only file system.
    EROFS,
    /// Resource temporarily unavailable.
    EAGAIN,
    /// Too many levels of symbolic links.
    ELOOP,
    /// File name too long.
    ENAMETOOLONG,
    /// Directory not empty.
    ENOTEMPTY,
}

/// The number that FreeBSD's errno(2) gives the error.
pub fn errno_number(errno: Errno) -> u32
    ensures { result ≡ number_of errno }
{
    match errno {
        Errno::EPERM => 1,
        Errno::ENOENT => 2,
        Errno::EIO => 5,
        Errno::ENXIO => 6,
        Errno::EBADF => 9,
        Errno::EDEADLK => 11,
        Errno::ENOMEM => 12,
        Errno::EBUSY => 16,
        Errno::EEXIST => 17,
        Errno::EXDEV => 18,
        Errno::ENOTDIR => 20,
        Errno::EISDIR => 21,
        Errno::EINVAL => 22,
        Errno::ENFILE => 23,
        Errno::EMFILE => 24,
        Errno::EFBIG => 27,
        Errno::ENOSPC => 28,
        Errno::EROFS => 30,
        Errno::EAGAIN => 35,
        Errno::ELOOP => 62,
        Errno::ENAMETOOLONG => 63,
        Errno::ENOTEMPTY => 66,
    }
}

/// The error's name, as `ENOENT`.
pub fn errno_text(errno: Errno) -> &'static str
    ensures { result.now ≡ text_of errno }
{
    match errno {
        Errno::EPERM => "EPERM",
        Errno::ENOENT => "ENOENT",
        Errno::EIO => "EIO",
        Errno::ENXIO => "ENXIO",
        Errno::EBADF => "EBADF",
        Errno::EDEADLK => "EDEADLK",
        Errno::ENOMEM => "ENOMEM",
        Errno::EBUSY => "EBUSY",
        Errno::EEXIST => "EEXIST",
        Errno::EXDEV => "EXDEV",
        Errno::ENOTDIR => "ENOTDIR",
        Errno::EISDIR => "EISDIR",
        Errno::EINVAL => "EINVAL",
        Errno::ENFILE => "ENFILE",
        Errno::EMFILE => "EMFILE",
        Errno::EFBIG => "EFBIG",
        Errno::ENOSPC => "ENOSPC",
        Errno::EROFS => "EROFS",
        Errno::EAGAIN => "EAGAIN",
        Errno::ELOOP => "ELOOP",
        Errno::ENAMETOOLONG => "ENAMETOOLONG",
        Errno::ENOTEMPTY => "ENOTEMPTY",
    }
}
