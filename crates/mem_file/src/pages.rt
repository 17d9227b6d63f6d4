ghost use Rattle.std.specs.Prelude.{◌≡◌, ◌+◌, ◌-◌, ◌*◌, ◌≤◌, ◌<◌, ◌^◌, ◌++◌, [], length, take, drop, replicate, max, OnOk, OnErr};
ghost use Rattle.mem_file.specs.Paste.{paste};
ghost use Rattle.mem_file.specs.declared.page.TheConstants.{PAGE};

use crate::page::{PAGE, Page};
use std::alloc::{AllocError, Global};
use std::marker::Model;
use vfs_tree::ByteBuffer;

/// Whole pages in a row, which contracts see as the list of their bytes.
#[derive(Debug, Drop)]
pub struct Pages {
    pages: Vec<Page>,
}

impl Model for Pages {
    ghost use Rattle.std.specs.Prelude.{List, ℕ};
    ghost use Rattle.std.specs.List.{concat};
    ghost use Rattle.mem_file.specs.Paste.{AreOf};
    ghost use Rattle.mem_file.specs.declared.page.TheConstants.{PAGE};

    ghost Value = { List ℕ };

    ghost view = { λ p. concat p.pages.items };

    ghost invariant = { λ p. AreOf PAGE p.pages.items };
}

impl Pages {
    /// No page.
    pub fn new(alloc: Global) -> Pages
        ensures { result ≡ [] }
    {
        Pages {
            pages: Vec::new(alloc),
        }
    }

    /// How many pages there are.
    fn count(&self) -> usize
        ensures { length self.now ≡ result * PAGE }
    {
        self.pages.len()
    }

    /// Appends a page of zeros. The only fault is want of memory.
    pub fn grow(&mut self, alloc: Global) -> Result<(), AllocError>
        ensures ok { OnOk result (self.new ≡ self.old ++ replicate PAGE 0) }
        ensures err { OnErr result (self.new ≡ self.old) }
    {
        let page = Page::zeros(alloc)?;
        self.pages.push(page)?;
        Ok(())
    }

    /// Appends pages of zeros until there are `wanted`. The only fault is want of memory; then some of the pages may have
    /// been appended.
    fn append(&mut self, alloc: Global, wanted: usize) -> Result<(), AllocError>
        ensures room { OnOk result (wanted * PAGE ≤ length self.new) }
        ensures few { length self.new ≤ max (length self.old) (wanted * PAGE) }
        ensures more { length self.old ≤ length self.new }
        ensures zeros { self.new ≡ self.old ++ replicate (length self.new - length self.old) 0 }
    {
        while self.count() < wanted {
            self.grow(alloc)?;
        }
        Ok(())
    }

    /// Keeps the first `count` pages alone.
    fn truncate(&mut self, count: usize)
        requires { count * PAGE ≤ length self.old }
        ensures { self.new ≡ take (count * PAGE) self.old }
    {
        self.pages.truncate(count);
    }

    /// Appends pages of zeros until there are at least `len` bytes, and no page more. The only fault is want of memory.
    pub fn grow_to(&mut self, alloc: Global, len: usize) -> Result<(), AllocError>
        ensures room { OnOk result (len ≤ length self.new) }
        ensures few { OnOk result (length self.new < max (length self.old + 1) (len + PAGE)) }
        ensures zeros { self.new ≡ self.old ++ replicate (length self.new - length self.old) 0 }
        ensures err { OnErr result (self.new ≡ self.old) }
    {
        let before = self.count();
        let wanted = len.div_ceil(PAGE);
        match self.append(alloc, wanted) {
            Ok(()) => Ok(()),
            Err(fault) => {
                self.truncate(before);
                Err(fault)
            }
        }
    }

    /// The bytes from `at` on that stand in one page, at most `most`.
    fn piece(&self, at: usize, most: usize) -> &[u8]
        requires { at < length self.now }
        ensures bytes { result.now ≡ take (length result.now) (drop at self.now) }
        ensures few { length result.now ≤ most }
        ensures some { 0 < most → 0 < length result.now }
    {
        self.pages[at / PAGE].part(at % PAGE, most)
    }

    /// Puts as many of the bytes at `at` as the page there has room for, and answers how many.
    fn put_piece(&mut self, at: usize, bytes: &[u8]) -> usize
        requires within { at + length bytes.now ≤ length self.old }
        requires some { 0 < length bytes.now }
        ensures put { self.new ≡ paste self.old at (take result bytes.now) }
        ensures some { 0 < result }
        ensures few { result ≤ length bytes.now }
    {
        let offset = at % PAGE;
        let count = bytes.len().min(PAGE - offset);
        self.pages[at / PAGE].put(offset, &bytes[..count]);
        count
    }

    /// Puts the bytes at `at`.
    pub fn put(&mut self, at: usize, bytes: &[u8])
        requires within { at + length bytes.now ≤ length self.old }
        requires small { at + length bytes.now < 2 ^ 64 }
        ensures { self.new ≡ paste self.old at bytes.now }
    {
        let mut done = 0;
        while done < bytes.len() {
            done += self.put_piece(at + done, &bytes[done..]);
        }
    }

    /// Puts as many of `count` zeros at `at` as the page there has room for, and answers how many.
    fn clear_piece(&mut self, at: usize, count: usize) -> usize
        requires within { at + count ≤ length self.old }
        requires some { 0 < count }
        ensures put { self.new ≡ paste self.old at (replicate result 0) }
        ensures some { 0 < result }
        ensures few { result ≤ count }
    {
        let offset = at % PAGE;
        let count = count.min(PAGE - offset);
        self.pages[at / PAGE].clear(offset, count);
        count
    }

    /// Puts `count` zeros at `at`.
    pub fn clear(&mut self, at: usize, count: usize)
        requires within { at + count ≤ length self.old }
        requires small { at + count < 2 ^ 64 }
        ensures { self.new ≡ paste self.old at (replicate count 0) }
    {
        let mut done = 0;
        while done < count {
            done += self.clear_piece(at + done, count - done);
        }
    }

    /// Appends the `count` bytes from `at` on to the buffer, which has room for them.
    pub fn read_into(&self, at: usize, count: usize, into: &mut ByteBuffer)
        requires within { at + count ≤ length self.now }
        requires small { at + count < 2 ^ 64 }
        requires room { count ≤ into.old.spare }
        ensures bytes { into.new.bytes ≡ into.old.bytes ++ take count (drop at self.now) }
        ensures spare { into.new.spare ≡ into.old.spare - count }
    {
        let mut done = 0;
        while done < count {
            let piece = self.piece(at + done, count - done);
            into.push_slice(piece);
            done += piece.len();
        }
    }
}
