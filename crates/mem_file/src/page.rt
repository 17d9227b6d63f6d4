ghost use Rattle.std.specs.Prelude.{◌≡◌, ◌+◌, ◌≤◌, length, take, drop, replicate, IfOk};
ghost use Rattle.mem_file.specs.Paste.{paste};
ghost use Rattle.mem_file.specs.declared.page.TheConstants.{PAGE};

use std::alloc::{AllocError, Global};
use std::marker::Model;

/// How many bytes a page has.
pub const PAGE: usize = 4096;

/// One page of a file, which contracts see as the list of its bytes.
#[derive(Debug, Drop)]
pub struct Page {
    bytes: Vec<u8>,
}

impl Model for Page {
    ghost use Rattle.std.specs.Prelude.{List, ℕ};

    ghost Value = { List ℕ };

    ghost view = { λ p. p.bytes.items };
}

impl Page {
    /// A page of zeros. The only fault is want of memory.
    pub fn zeros(alloc: Global) -> Result<Page, AllocError>
        ensures { IfOk result (λ page. page ≡ replicate PAGE 0) }
    {
        Ok(Page {
            bytes: Vec::from_elem(alloc, 0, PAGE)?,
        })
    }

    /// The bytes from `offset` on, at most `most`.
    pub fn part(&self, offset: usize, most: usize) -> &[u8]
        requires { offset ≤ length self.now }
        ensures { result.now ≡ take most (drop offset self.now) }
    {
        let rest = &self.bytes[offset..];
        &rest[..most.min(rest.len())]
    }

    /// Puts the bytes at `offset`.
    pub fn put(&mut self, offset: usize, bytes: &[u8])
        requires { offset + length bytes.now ≤ length self.old }
        ensures { self.new ≡ paste self.old offset bytes.now }
    {
        self.bytes[offset..offset + bytes.len()].copy_from_slice(bytes);
    }

    /// Puts `count` zeros at `offset`.
    pub fn clear(&mut self, offset: usize, count: usize)
        requires { offset + count ≤ length self.old }
        ensures { self.new ≡ paste self.old offset (replicate count 0) }
    {
        self.bytes[offset..offset + count].fill(0);
    }
}
