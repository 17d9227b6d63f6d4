use crate::place::Place;
use finite_maps::Duplicate;
use std::alloc::{AllocError, Global};

/// How a file was opened; as the flags of open(2).
#[derive(Clone, Copy, Debug, PartialEq, Eq)]
pub struct Mode {
    /// For reading.
    pub read: bool,
    /// For writing.
    pub write: bool,
    /// Each write goes to the end of the file.
    pub append: bool,
}

/// An open file or directory: what a descriptor of a caller stands for.
#[derive(Debug, Drop)]
pub struct Open {
    /// What was opened.
    pub place: Place,
    /// The offset of the next read or write, in bytes from the start.
    pub offset: u64,
    /// How it was opened.
    pub mode: Mode,
    /// Whether it was doomed, by a revocation or a forced unmount.
    pub dead: bool,
}

/// The current directory of a caller.
#[derive(Debug, Drop)]
pub struct Cwd {
    /// The directory.
    pub place: Place,
    /// Whether it was doomed, by a forced unmount.
    pub dead: bool,
}

impl Duplicate for Open {
    fn duplicate(&self, alloc: Global) -> Result<Self, AllocError> {
        Ok(Open {
            place: self.place.duplicate(alloc)?,
            offset: self.offset,
            mode: self.mode,
            dead: self.dead,
        })
    }
}

impl Duplicate for Cwd {
    fn duplicate(&self, alloc: Global) -> Result<Self, AllocError> {
        Ok(Cwd {
            place: self.place.duplicate(alloc)?,
            dead: self.dead,
        })
    }
}
