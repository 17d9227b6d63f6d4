use crate::place::Place;
use finite_maps::Duplicate;
use std::alloc::{AllocError, Global};

/// What a mount shows.
#[derive(Debug, Drop)]
pub enum MountKind {
    /// A memory file system, whose store has the mount's number; as tmpfs(5).
    Mem,
    /// A null layer: the subtree below a directory at another place; as mount_nullfs(8).
    Null {
        /// The directory that it shows.
        layer: Place,
    },
    /// A union of two layers; as mount_unionfs(8).
    Union {
        /// The mount number of the upper layer's memory file system.
        store: u32,
        /// The inode number of the upper layer's directory.
        upper: u32,
        /// The directory that is the lower layer.
        lower: Place,
    },
}

/// A mounted file system.
#[derive(Debug, Drop)]
pub struct Mount {
    /// Its number; the root mount has 0, and numbers are never used again.
    pub number: u32,
    /// What it shows.
    pub kind: MountKind,
    /// The directory that it covers; `None` for mount 0 alone.
    pub on: Option<Place>,
    /// Whether a forced unmount has cut it off.
    pub cut: bool,
}

impl Duplicate for MountKind {
    fn duplicate(&self, alloc: Global) -> Result<Self, AllocError> {
        match self {
            MountKind::Mem => Ok(MountKind::Mem),
            MountKind::Null { layer } => Ok(MountKind::Null {
                layer: layer.duplicate(alloc)?,
            }),
            MountKind::Union {
                store,
                upper,
                lower,
            } => Ok(MountKind::Union {
                store: *store,
                upper: *upper,
                lower: lower.duplicate(alloc)?,
            }),
        }
    }
}

impl Duplicate for Mount {
    fn duplicate(&self, alloc: Global) -> Result<Self, AllocError> {
        let on = match &self.on {
            Some(on) => Some(on.duplicate(alloc)?),
            None => None,
        };
        Ok(Mount {
            number: self.number,
            kind: self.kind.duplicate(alloc)?,
            on,
            cut: self.cut,
        })
    }
}
