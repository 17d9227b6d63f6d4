ghost use Rattle.std.specs.Prelude.{◌≡◌, ◌==◌, map, IfOk};
ghost use Rattle.std.specs.List.{slice_split};

use std::alloc::{AllocError, Global};

/// The parts of the bytes, cut at each separator. The only fault is want of memory.
pub fn parts(alloc: Global, bytes: &[u8], separator: u8) -> Result<Vec<&[u8]>, AllocError>
    ensures { IfOk result (λ v. map (λ part. part.now) v.items ≡ slice_split (λ b. b == separator) bytes.now) }
{
    bytes.split(|b| *b == separator).collect(alloc)
}
