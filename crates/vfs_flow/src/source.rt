// Where bytes come from.
ghost use Rattle.std.specs.Prelude.{◌≡◌, ◌≤◌, List, ℕ};
ghost use Rattle.std.specs.declared.option.Option.{Option};
ghost use Rattle.vfs_flow.specs.Faults.{Rose};
ghost use Rattle.vfs_flow.specs.Reads.{Reads};

/// The answer of one read.
#[derive(Clone, Copy, Debug, PartialEq, Eq)]
pub enum Got {
    /// `n` bytes, at least one, were appended to the buffer.
    Some { n: usize },
    /// No byte is left.
    End,
    /// The source failed, and its count of faults rose.
    Failed,
    /// No memory was found for the bytes.
    NoMemory,
}

/// Gives bytes in pieces.
pub trait Source {
    /// The bytes that are left, where the source tells them.
    ghost left: { Self → Option (List ℕ) };

    /// How often the source has failed: a word of 64 bits that stands still at its greatest value.
    ghost faults: { Self → ℕ };

    /// Appends to `into` a piece of 1 to `most` bytes: the first of those that are left, which are
    /// taken from them. Every other answer leaves the buffer and the bytes as they were. A source
    /// that tells what is left answers `End` only where nothing is, and then gives no piece. It
    /// answers `Failed` only where its count of faults rose, or stands at the greatest word.
    /// `NoMemory` may come at any call.
    fn read(&mut self, into: &mut Vec<u8>, most: usize) -> Got
        requires { 1 ≤ most }
        ensures bytes { Reads most (left self.old) (left self.new) into.old.items into.new.items result }
        ensures never_falls { faults self.old ≤ faults self.new }
        ensures cause { result ≡ Got.Failed → Rose (faults self.old) (faults self.new) };
}
