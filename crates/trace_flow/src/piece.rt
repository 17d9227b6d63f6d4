// Pieces of an output, which wait in a buffer until they are worth a write.
ghost use Rattle.std.specs.Prelude.{◌≡◌, ◌<◌, [], OnOk, vec_len};
ghost use Rattle.trace_flow.specs.Moves.{Passes};
ghost use Rattle.trace_flow.specs.declared.piece.Halt.TheVariants as halt;

use std::alloc::AllocError;
use vfs_flow::{Sink, WholeWrite, write_all};

/// How many bytes the buffer has to hold before it is written.
const PIECE: usize = 65_536;

/// Why an output came to a halt before its end.
#[derive(Clone, Copy, Debug, PartialEq, Eq)]
pub enum Halt {
    /// The sink failed.
    Failed,
    /// No memory was found.
    NoMemory,
}

impl From<AllocError> for Halt {
    ghost from_gives = { λ _ cause. cause ≡ halt.NoMemory };

    fn from(_: AllocError) -> Halt {
        Halt::NoMemory
    }
}

/// Writes all of the buffer, and empties it.
pub fn flush<K: Sink>(sink: &mut K, buffer: &mut Vec<u8>) -> Result<(), Halt>
    ensures passes { Passes K.written K.faults sink.old sink.new buffer.old.items [] result }
    ensures emptied { OnOk result (buffer.new.items ≡ []) }
{
    match write_all(sink, buffer.as_slice()) {
        WholeWrite::Done => {
            buffer.clear();
            Ok(())
        }
        WholeWrite::Failed => Err(Halt::Failed),
        WholeWrite::NoMemory => Err(Halt::NoMemory),
    }
}

/// Writes the buffer if it holds a piece, so that less than a piece is left in it.
pub fn pass<K: Sink>(sink: &mut K, buffer: &mut Vec<u8>) -> Result<(), Halt>
    ensures passes { Passes K.written K.faults sink.old sink.new buffer.old.items buffer.new.items result }
    ensures less { OnOk result (vec_len buffer.new < 65536) }
{
    if buffer.len() < PIECE {
        return Ok(());
    }
    flush(sink, buffer)
}
