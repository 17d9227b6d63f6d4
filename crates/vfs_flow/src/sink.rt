// Where bytes go.
ghost use Rattle.std.specs.Prelude.{◌≡◌, ◌≤◌, ◌<◌, List, ℕ, length};
ghost use Rattle.std.specs.declared.option.Option.{Option};
ghost use Rattle.vfs_flow.specs.Faults.{Rose};
ghost use Rattle.vfs_flow.specs.Writes.{Writes};

/// The answer of one write.
#[derive(Clone, Copy, Debug, PartialEq, Eq)]
pub enum Put {
    /// The first `n` bytes of the piece, at least one, were taken.
    Some { n: usize },
    /// The sink took none for another cause than memory, and its count of faults rose.
    Failed,
    /// The sink found no memory and took none.
    NoMemory,
}

/// Takes bytes in pieces.
pub trait Sink {
    /// The bytes that were written, where the sink tells them.
    ghost written: { Self → Option (List ℕ) };

    /// How often the sink has failed: a word of 64 bits that stands still at its greatest value.
    ghost faults: { Self → ℕ };

    /// Takes a front of the piece, which isn't empty: at least one byte, appended to what was
    /// written. `Failed` and `NoMemory` append nothing. `Failed` comes only where the count of
    /// faults rose, or stands at the greatest word. `NoMemory` may come at any call.
    fn write(&mut self, bytes: &[u8]) -> Put
        requires { 0 < length bytes.now }
        ensures bytes { Writes (written self.old) (written self.new) bytes.now result }
        ensures never_falls { faults self.old ≤ faults self.new }
        ensures cause { result ≡ Put.Failed → Rose (faults self.old) (faults self.new) };
}
