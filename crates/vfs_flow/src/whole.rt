// All of a source, and all of a text into a sink.
ghost use Rattle.std.specs.Prelude.{◌≡◌, ◌≤◌};
ghost use Rattle.vfs_flow.specs.Faults.{Rose};
ghost use Rattle.vfs_flow.specs.Whole.{ReadsWhole, WritesWhole};

use crate::{Got, Put, Sink, Source};
use std::alloc::Global;

/// The most bytes that one call of a source is asked for.
const PIECE: usize = 4096;

/// What reading a source to its end gave.
#[derive(Debug, Drop)]
pub enum WholeRead {
    /// The source ended: all of its bytes, fewer than the limit.
    All { bytes: Vec<u8> },
    /// As many bytes as the limit were read, and reading stopped there.
    TooLong,
    /// The source failed.
    Failed,
    /// No memory was found.
    NoMemory,
}

/// Reads a source to its end, or until `limit` bytes were read. Each call of the source asks for
/// 4,096 bytes, or for fewer where fewer are left up to the limit. With every answer but `All` the
/// bytes that were read are lost. `Failed` comes only where the source's count of faults rose.
pub fn read_to_end<S: Source>(alloc: Global, source: &mut S, limit: usize) -> WholeRead
    requires { 1 ≤ limit }
    ensures bytes { ReadsWhole limit (S.left source.old) (S.left source.new) result }
    ensures never_falls { S.faults source.old ≤ S.faults source.new }
    ensures cause { result ≡ WholeRead.Failed → Rose (S.faults source.old) (S.faults source.new) }
{
    let mut bytes = Vec::new(alloc);
    while bytes.len() < limit {
        let most = PIECE.min(limit - bytes.len());
        match source.read(&mut bytes, most) {
            Got::Some { .. } => {}
            Got::End => return WholeRead::All { bytes },
            Got::Failed => return WholeRead::Failed,
            Got::NoMemory => return WholeRead::NoMemory,
        }
    }
    WholeRead::TooLong
}

/// What writing a whole text gave.
#[derive(Clone, Copy, Debug, PartialEq, Eq)]
pub enum WholeWrite {
    /// All of the text was written.
    Done,
    /// The sink failed: a front of the text was written.
    Failed,
    /// No memory was found: a front of the text was written.
    NoMemory,
}

/// Writes all of a text, piece after piece. `Failed` comes only where the sink's count of faults
/// rose.
pub fn write_all<K: Sink>(sink: &mut K, text: &[u8]) -> WholeWrite
    ensures bytes { WritesWhole (K.written sink.old) (K.written sink.new) text.now result }
    ensures never_falls { K.faults sink.old ≤ K.faults sink.new }
    ensures cause { result ≡ WholeWrite.Failed → Rose (K.faults sink.old) (K.faults sink.new) }
{
    let mut at = 0;
    while at < text.len() {
        match sink.write(&text[at..]) {
            Put::Some { n } => at += n,
            Put::Failed => return WholeWrite::Failed,
            Put::NoMemory => return WholeWrite::NoMemory,
        }
    }
    WholeWrite::Done
}
