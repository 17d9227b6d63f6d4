use std::alloc::AllocError;
use thiserror::Error;
use vfs_tree::NameFault;

/// Why a run ended early.
#[derive(Clone, Copy, Debug, PartialEq, Eq, Error)]
pub enum Fault {
    /// There is no memory.
    #[error("no memory is left")]
    NoMemory,
    /// A call's condition doesn't hold.
    #[error("the file system isn't as the rounds leave it")]
    Unmet,
}

impl From<AllocError> for Fault {
    fn from(_: AllocError) -> Fault {
        Fault::NoMemory
    }
}

impl From<NameFault> for Fault {
    fn from(fault: NameFault) -> Fault {
        match fault {
            NameFault::Bad => Fault::Unmet,
            NameFault::NoMemory => Fault::NoMemory,
        }
    }
}
