ghost use Rattle.std.specs.Prelude.{◌≡◌};
ghost use Rattle.script_text.specs.declared.fault.LineFault.TheVariants as line;
ghost use Rattle.script_text.specs.declared.fault.ScriptFault.TheVariants as script;

use std::alloc::{AllocError, AllocFailed};
use thiserror::Error;

/// Why bytes became no script.
#[derive(Clone, Copy, Debug, PartialEq, Eq, Error)]
pub enum ScriptFault {
    /// The bytes are no script.
    #[error("line {line} is no lawful line of a script")]
    BadLine {
        /// The first line that isn't lawful at its place, counted from 1.
        line: u32,
    },
    /// There is no memory for the script.
    #[error("no memory is left")]
    NoMemory,
}

impl From<AllocError> for ScriptFault {
    ghost from_gives = { λ _ fault. fault ≡ script.NoMemory };

    fn from(_: AllocError) -> ScriptFault {
        ScriptFault::NoMemory
    }
}

impl<T: Drop> From<AllocFailed<T>> for ScriptFault {
    ghost from_gives = { λ _ fault. fault ≡ script.NoMemory };

    fn from(_: AllocFailed<T>) -> ScriptFault {
        ScriptFault::NoMemory
    }
}

/// Why bytes became no line.
#[derive(Clone, Copy)]
pub enum LineFault {
    /// The bytes are no line.
    Bad,
    /// There is no memory for the line.
    NoMemory,
}

impl From<AllocError> for LineFault {
    ghost from_gives = { λ _ fault. fault ≡ line.NoMemory };

    fn from(_: AllocError) -> LineFault {
        LineFault::NoMemory
    }
}

impl<T: Drop> From<AllocFailed<T>> for LineFault {
    ghost from_gives = { λ _ fault. fault ≡ line.NoMemory };

    fn from(_: AllocFailed<T>) -> LineFault {
        LineFault::NoMemory
    }
}
