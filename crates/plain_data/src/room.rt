ghost use Rattle.std.specs.Prelude.{◌≡◌, ◌≤◌, [], length, IfOk};

use std::alloc::{AllocError, Global};
use std::marker::Model;
use vfs_tree::{ByteBuffer, Bytes};

/// Room for the bytes that a call gives, once for its caller and once for the history. It is made where the call begins, so
/// that its answer needs no memory.
///
/// Contracts see the number of bytes for which there is room.
#[derive(Debug, Drop)]
pub struct Room {
    reply: ByteBuffer,
    entered: ByteBuffer,
}

impl Model for Room {
    ghost use Rattle.std.specs.Prelude.{◌≡◌, ℕ, [], min};

    ghost Value = { ℕ };

    ghost view = { λ r. min r.reply.spare r.entered.spare };

    ghost invariant = { λ r. (r.reply.bytes ≡ []) × (r.entered.bytes ≡ []) };
}

/// An empty buffer with room for so many bytes. The only fault is want of memory.
fn reserved(alloc: Global, bytes: usize) -> Result<ByteBuffer, AllocError>
    ensures empty { IfOk result (λ buffer. buffer.bytes ≡ []) }
    ensures room { IfOk result (λ buffer. buffer.spare ≡ bytes) }
{
    let mut buffer = ByteBuffer::new(alloc);
    buffer.reserve(bytes)?;
    Ok(buffer)
}

/// Bytes, put without memory into an empty buffer that has room for them.
fn filled(mut buffer: ByteBuffer, bytes: &[u8]) -> Bytes
    requires empty { buffer.bytes ≡ [] }
    requires room { length bytes.now ≤ buffer.spare }
    ensures { result ≡ bytes.now }
{
    buffer.push_slice(bytes);
    buffer.into_bytes()
}

impl Room {
    /// Room for so many bytes. The only fault is want of memory.
    pub fn new(alloc: Global, bytes: usize) -> Result<Room, AllocError>
        ensures { IfOk result (λ room. room ≡ bytes) }
    {
        Ok(Room {
            reply: reserved(alloc, bytes)?,
            entered: reserved(alloc, bytes)?,
        })
    }

    /// Two copies of bytes for which there is room, made without memory.
    pub(crate) fn copies(self, bytes: &[u8]) -> (Bytes, Bytes)
        requires { length bytes.now ≤ self }
        ensures { (result.0 ≡ bytes.now) × (result.1 ≡ bytes.now) }
    {
        (filled(self.reply, bytes), filled(self.entered, bytes))
    }
}
