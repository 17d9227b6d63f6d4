ghost use Rattle.std.specs.Prelude.{◌≡◌, IfOk};

use std::alloc::{AllocError, Global};

/// A type whose values can be copied whole.
///
/// `Clone` has no law that a clone equals its source; a duplicate does.
pub trait Duplicate: Drop {
    /// A copy of the value. The only fault is want of memory.
    fn duplicate(&self, alloc: Global) -> Result<Self, AllocError>
        ensures { IfOk result (λ copy. copy ≡ self.now) };
}

impl Duplicate for u32 {
    fn duplicate(&self, alloc: Global) -> Result<Self, AllocError> {
        Ok(*self)
    }
}
