ghost use Rattle.std.specs.Prelude.{◌≡◌, ◌+◌, ◌-◌, ◌≤◌, ◌<◌, ◌^◌, ◌↔◌, ◌++◌, [], length, max, take, drop, replicate, IsTrue, IfOk, OnOk, OnErr};
ghost use Rattle.vfs_tree.specs.Bytes.{resize_bytes, write_bytes};

use finite_maps::Duplicate;
use std::alloc::{AllocError, Global};
use std::marker::Model;

/// Bytes: the contents of a file, the target of a link, a path or a text. Contracts see their list.
#[derive(Debug, Drop)]
pub struct Bytes {
    bytes: Vec<u8>,
}

impl Model for Bytes {
    ghost use Rattle.std.specs.Prelude.{List, ℕ};

    ghost Value = { List ℕ };

    ghost view = { λ b. b.bytes.items };
}

impl Bytes {
    /// No bytes.
    pub fn new(alloc: Global) -> Bytes
        ensures { result ≡ [] }
    {
        Bytes {
            bytes: Vec::new(alloc),
        }
    }

    /// The bytes of a vector.
    pub fn of(bytes: Vec<u8>) -> Bytes
        ensures { result ≡ bytes.items }
    {
        Bytes { bytes }
    }

    /// A copy of these bytes. The only fault is want of memory.
    pub fn copy_of(alloc: Global, bytes: &[u8]) -> Result<Bytes, AllocError>
        ensures { IfOk result (λ copy. copy ≡ bytes.now) }
    {
        Ok(Bytes {
            bytes: Vec::from_slice(alloc, bytes)?,
        })
    }

    /// The bytes.
    pub fn as_slice(&self) -> &[u8]
        ensures { result.now ≡ self.now }
    {
        self.bytes.as_slice()
    }

    /// How many bytes there are.
    pub fn len(&self) -> usize
        ensures { result ≡ length self.now }
    {
        self.bytes.len()
    }

    /// Whether there is no byte.
    pub fn is_empty(&self) -> bool
        ensures { IsTrue result ↔ (self.now ≡ []) }
    {
        self.bytes.is_empty()
    }

    /// Appends the bytes. The only fault is want of memory.
    pub fn extend_from_slice(&mut self, bytes: &[u8]) -> Result<(), AllocError>
        ensures ok { OnOk result (self.new ≡ self.old ++ bytes.now) }
        ensures err { OnErr result (self.new ≡ self.old) }
    {
        self.bytes.extend_from_slice(bytes)
    }

    /// Gives them that length: what is behind it is cut off, and what is missing is zeros. The only fault is want of
    /// memory.
    pub fn resize(&mut self, len: usize) -> Result<(), AllocError>
        ensures ok { OnOk result (self.new ≡ resize_bytes self.old len) }
        ensures err { OnErr result (self.new ≡ self.old) }
    {
        self.bytes.resize(len, 0)
    }

    /// Lengthens them by zeros to at least `len`.
    fn grow_to(&mut self, len: usize) -> Result<(), AllocError>
        ensures ok { OnOk result (self.new ≡ self.old ++ replicate (len - length self.old) 0) }
        ensures err { OnErr result (self.new ≡ self.old) }
    {
        if len <= self.bytes.len() {
            return Ok(());
        }
        self.bytes.resize(len, 0)
    }

    /// Puts a piece in the place of the bytes at `at`.
    fn put(&mut self, at: usize, piece: &[u8])
        requires { at + length piece.now ≤ length self.old }
        ensures { self.new ≡ take at self.old ++ piece.now ++ drop (at + length piece.now) self.old }
    {
        self.bytes[at..at + piece.len()].copy_from_slice(piece);
    }

    /// Puts a piece at `at`, as pwrite(2) does: a gap before it is filled with zeros, and an empty piece changes nothing.
    /// The only fault is want of memory.
    pub fn write_at(&mut self, at: usize, piece: &[u8]) -> Result<(), AllocError>
        requires { at + length piece.now < 2 ^ 64 }
        ensures ok { OnOk result (self.new ≡ write_bytes self.old at piece.now) }
        ensures err { OnErr result (self.new ≡ self.old) }
    {
        if piece.is_empty() {
            return Ok(());
        }
        self.grow_to(at + piece.len())?;
        self.put(at, piece);
        Ok(())
    }
}

impl Duplicate for Bytes {
    fn duplicate(&self, alloc: Global) -> Result<Self, AllocError> {
        Bytes::copy_of(alloc, self.as_slice())
    }
}

/// Bytes that are being put together, with room that was reserved for more.
///
/// `spare` is the number of bytes that can be appended without memory.
#[derive(Debug, Drop)]
pub struct ByteBuffer {
    bytes: Vec<u8>,
    spare: usize,
}

impl Model for ByteBuffer {
    ghost use Rattle.std.specs.Prelude.{◌+◌, ◌≤◌, vec_len, vec_capacity};
    ghost use Rattle.vfs_tree.specs.Buffer.{Buffer};

    ghost Value = { Buffer };

    ghost view = { λ b. record { bytes = b.bytes.items; spare = b.spare } };

    ghost invariant = { λ b. vec_len b.bytes + b.spare ≤ vec_capacity b.bytes };
}

impl ByteBuffer {
    /// No bytes, and no room for any.
    pub fn new(alloc: Global) -> ByteBuffer
        ensures bytes { result.bytes ≡ [] }
        ensures spare { result.spare ≡ 0 }
    {
        ByteBuffer {
            bytes: Vec::new(alloc),
            spare: 0,
        }
    }

    /// Makes room for at least `more` bytes. The only fault is want of memory.
    pub fn reserve(&mut self, more: usize) -> Result<(), AllocError>
        ensures room { OnOk result (self.new.spare ≡ max self.old.spare more) }
        ensures kept { self.new.bytes ≡ self.old.bytes }
        ensures err { OnErr result (self.new ≡ self.old) }
    {
        self.bytes.reserve(more)?;
        self.spare = self.spare.max(more);
        Ok(())
    }

    /// Appends the bytes, for which there is room, without memory.
    pub fn push_slice(&mut self, bytes: &[u8])
        requires { length bytes.now ≤ self.old.spare }
        ensures bytes { self.new.bytes ≡ self.old.bytes ++ bytes.now }
        ensures spare { self.new.spare ≡ self.old.spare - length bytes.now }
    {
        self.bytes.extend_from_slice(bytes).unwrap();
        self.spare -= bytes.len();
    }

    /// The bytes.
    pub fn as_slice(&self) -> &[u8]
        ensures { result.now ≡ self.now.bytes }
    {
        self.bytes.as_slice()
    }

    /// The bytes, without the room.
    pub fn into_bytes(self) -> Bytes
        ensures { result ≡ self.bytes }
    {
        Bytes { bytes: self.bytes }
    }
}
