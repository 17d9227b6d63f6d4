ghost use Rattle.std.specs.Prelude.{◌≡◌};
ghost use Rattle.mount_table.specs.declared.fault.AddFault.TheVariants as fault;

use std::alloc::{AllocError, AllocFailed};
use thiserror::Error;

/// Why no mount was added.
#[derive(Clone, Copy, Debug, PartialEq, Eq, Error)]
pub enum AddFault {
    /// There are as many mounts as the table may hold.
    #[error("the mount table is full")]
    Full,
    /// Every number was given to a mount once.
    #[error("no mount number is left")]
    NoNumber,
    /// There is no memory for the mount.
    #[error("no memory is left")]
    NoMemory,
}

impl From<AllocError> for AddFault {
    ghost from_gives = { λ _ f. f ≡ fault.NoMemory };

    fn from(_: AllocError) -> AddFault {
        AddFault::NoMemory
    }
}

impl<T: Drop> From<AllocFailed<T>> for AddFault {
    ghost from_gives = { λ _ f. f ≡ fault.NoMemory };

    fn from(_: AllocFailed<T>) -> AddFault {
        AddFault::NoMemory
    }
}
