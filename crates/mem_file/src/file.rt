ghost use Rattle.std.specs.Prelude.{◌≡◌, ◌+◌, ◌-◌, ◌≤◌, ◌++◌, [], length, take, drop, max, OnOk, OnErr};
ghost use Rattle.vfs_tree.specs.Bytes.{resize_bytes, write_bytes};

use crate::pages::Pages;
use std::alloc::{AllocError, Global};
use std::marker::Model;
use vfs_tree::ByteBuffer;

/// The contents of a regular file. Contracts see its bytes, `bytes`, and up to which length it has room, `reserved`.
///
/// The bytes stand in pages that were reserved for them. What lies behind the last byte is zeros, so a gap and a greater
/// length cost no time.
#[derive(Debug, Drop)]
pub struct MemFile {
    pages: Pages,
    len: usize,
    reserved: usize,
}

impl Model for MemFile {
    ghost use Rattle.std.specs.Prelude.{take};
    ghost use Rattle.mem_file.specs.Contents.{Contents, IsFilled};

    ghost Value = { Contents };

    ghost view = { λ f. record { bytes = take f.len f.pages; reserved = f.reserved } };

    ghost invariant = { λ f. IsFilled f.pages f.len f.reserved };
}

impl MemFile {
    /// No bytes, and no room for any.
    pub fn new(alloc: Global) -> MemFile
        ensures bytes { result.bytes ≡ [] }
        ensures reserved { result.reserved ≡ 0 }
    {
        MemFile {
            pages: Pages::new(alloc),
            len: 0,
            reserved: 0,
        }
    }

    /// How many bytes there are.
    pub fn len(&self) -> usize
        ensures len { result ≡ length self.now.bytes }

        // What every file keeps.
        ensures within { length self.now.bytes ≤ self.now.reserved }
        ensures small { self.now.reserved ≤ 1048576 }
    {
        self.len
    }

    /// Makes room for a file of `len` bytes. The only fault is want of memory.
    pub fn reserve_to(&mut self, alloc: Global, len: usize) -> Result<(), AllocError>
        requires { len ≤ 1048576 }
        ensures room { OnOk result (self.new.reserved ≡ max self.old.reserved len) }
        ensures kept { self.new.bytes ≡ self.old.bytes }
        ensures err { OnErr result (self.new ≡ self.old) }
    {
        self.pages.grow_to(alloc, len)?;
        self.reserved = self.reserved.max(len);
        Ok(())
    }

    /// Appends the bytes from `at` on, at most `most`, as far as there are any, to the buffer, which has room for `most`.
    pub fn read_into(&self, at: usize, most: usize, into: &mut ByteBuffer)
        requires { most ≤ into.old.spare }
        ensures bytes { into.new.bytes ≡ into.old.bytes ++ take most (drop at self.now.bytes) }
        ensures spare { into.new.spare ≡ into.old.spare - length (take most (drop at self.now.bytes)) }
    {
        if at < self.len {
            self.pages.read_into(at, most.min(self.len - at), into);
        }
    }

    /// Puts the bytes at `at`, up to whose end there is room, without memory. A gap before them is filled with zeros, and
    /// no bytes change nothing.
    pub fn write_at(&mut self, at: usize, bytes: &[u8])
        requires { at + length bytes.now ≤ self.old.reserved }
        ensures bytes { self.new.bytes ≡ write_bytes self.old.bytes at bytes.now }
        ensures reserved { self.new.reserved ≡ self.old.reserved }
    {
        if !bytes.is_empty() {
            self.pages.put(at, bytes);
            self.len = self.len.max(at + bytes.len());
        }
    }

    /// Cuts the file off at `len`, or lengthens it by zeros to `len`, up to which there is room, without memory.
    pub fn cut(&mut self, len: usize)
        requires { len ≤ self.old.reserved }
        ensures bytes { self.new.bytes ≡ resize_bytes self.old.bytes len }
        ensures reserved { self.new.reserved ≡ self.old.reserved }
    {
        if len < self.len {
            self.pages.clear(len, self.len - len);
        }
        self.len = len;
    }
}
