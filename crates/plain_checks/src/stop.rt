ghost use Rattle.std.specs.Prelude.{◌≡◌, IfOk, IfErr, IsErr, OnErr, Ok};

use call_model::Inner;
use std::alloc::AllocError;
use vfs_tree::Errno;

/// Why a call goes no further. The world is then as it was.
#[derive(Debug, Drop)]
pub enum Stop {
    /// The call is refused.
    Refused {
        /// Why.
        errno: Errno,
    },
    /// The call needs an inner entry first.
    Needs {
        /// That entry.
        what: Inner,
    },
    /// Memory is wanting.
    NoMemory,
}

/// What was made, or why a call goes no further that finds no memory.
pub fn made<T>(made: Result<T, AllocError>) -> Result<T, Stop>
    ensures ok { IfOk result (λ value. made ≡ Ok value) }
    ensures err { IfErr result (λ stop. stop ≡ Stop.NoMemory) }
    ensures from { OnErr result (IsErr made) }
{
    match made {
        Ok(value) => Ok(value),
        Err(_) => Err(Stop::NoMemory),
    }
}
