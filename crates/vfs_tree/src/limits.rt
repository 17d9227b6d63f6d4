/// How much a world may hold.
#[derive(Clone, Copy, Debug, PartialEq, Eq)]
pub struct Limits {
    /// The callers, from 1 to 16; they are numbered from 1.
    pub callers: u32,
    /// The open descriptors of all callers, from 1 to 256.
    pub files: u32,
    /// The mounts, mount 0 and those that are leaving counted, from 1 to 16.
    pub mounts: u32,
    /// The vnodes, from `9 * (files + 6 * callers + 3 * mounts)` to 4,096.
    pub vnodes: u32,
}

impl Limits {
    /// The limits of a script that names none: 16 callers, 256 open descriptors, 16 mounts and 4,096 vnodes.
    pub const DEFAULT: Limits = Limits {
        callers: 16,
        files: 256,
        mounts: 16,
        vnodes: 4096,
    };
}
