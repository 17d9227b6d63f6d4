//! What the lock keeps.
ghost use Rattle.std.specs.Prelude.{◌≡◌, ℕ, List, length};

/// A value that keeps a list of entries, fixed data, and for each number a part. It need not be one that may be dropped.
pub trait Kept {
    /// An entry of the list.
    type Entry;

    /// What never changes.
    type Fixed;

    /// What belongs to one number.
    type Part;

    // The list of entries, in order.
    ghost list: { Self → List Self.Entry };

    // The fixed data.
    ghost fixed: { Self → Self.Fixed };

    // The part of each number.
    ghost part: { Self → ℕ → Self.Part };

    /// The number of entries in the list.
    fn count(&self) -> u64
        ensures { result ≡ length (list self.now) };
}
