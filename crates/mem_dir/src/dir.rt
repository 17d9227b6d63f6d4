ghost use Rattle.std.specs.Prelude.{◌≡◌, ◌+◌, ◌-◌, ◌^◌, ◌<◌, ◌++◌, ◌∷◌, [], min, max, if◌then◌else◌, Some, None, is_some, IfSome, IfNone, IfOk, OnOk, OnErr};
ghost use Rattle.std.specs.List.{list_any};
ghost use Rattle.std.specs.FinMap as map;
ghost use Rattle.std.specs.FinMap.{entries};
ghost use Rattle.vfs_tree.specs.Counts.{gives_node};
ghost use Rattle.vfs_tree.specs.Visible.{given_names};
ghost use Rattle.mem_dir.specs.Directory.{white_names};

use crate::block::Block;
use crate::blocks;
use std::alloc::{AllocError, Global};
use std::marker::Model;
use vfs_tree::{Name, NameEntry, NameMap};

/// The names of a directory. Contracts see the finite map of the names, `names`, how many more names have room, `spare`,
/// and how many records were read, `reads`.
///
/// The records stand in byte order in blocks. A look-up, an insert and a removal cost logarithmic time in the names, and
/// move the records of one block at most. An insert that splits a block and a removal that empties one also shift the
/// handles of the blocks behind it, a few words for each, at most once for every 32 names put in or taken away.
#[derive(Debug, Drop)]
pub struct Dir {
    blocks: Vec<Block>,
    room: Option<Block>,
    spare: usize,
    reads: u64,
}

impl Model for Dir {
    ghost use Rattle.std.specs.Prelude.{vec_len, vec_capacity};
    ghost use Rattle.std.specs.FinMap as map;
    ghost use Rattle.mem_dir.specs.Records.{joined};
    ghost use Rattle.mem_dir.specs.Directory.{Directory, IsReady, directory_code};

    ghost Value = { Directory };

    ghost coded = { directory_code };

    ghost view = { λ d. record { names = map.from_entries (joined d.blocks.items); spare = d.spare; reads = d.reads } };

    ghost invariant = { λ d. IsReady d.blocks.items (vec_len d.blocks) (vec_capacity d.blocks) d.room d.spare };
}

impl Dir {
    /// A directory without names, and without room for any.
    pub fn new(alloc: Global) -> Dir
        ensures names { result.names ≡ map.empty }
        ensures spare { result.spare ≡ 0 }
        ensures reads { result.reads ≡ 0 }
    {
        Dir {
            blocks: Vec::new(alloc),
            room: None,
            spare: 0,
            reads: 0,
        }
    }

    /// What the name gives, and `None` exactly where it is not there. The count of records read goes up by one, and
    /// stands still at the greatest word.
    pub fn find(&mut self, name: &Name) -> Option<NameEntry>
        ensures found { result ≡ map.get self.old.names name.now }
        ensures names { self.new.names ≡ self.old.names }
        ensures spare { self.new.spare ≡ self.old.spare }
        ensures reads { self.new.reads ≡ min (self.old.reads + 1) (2 ^ 64 - 1) }
    {
        self.reads = self.reads.saturating_add(1);
        self.peek(name)
    }

    /// What the name gives, for an edit that changes it next: the count of records read stays.
    pub fn peek(&self, name: &Name) -> Option<NameEntry>
        ensures { result ≡ map.get self.now.names name.now }
    {
        blocks::find(&self.blocks, name)
    }

    /// How many records were read.
    pub fn reads(&self) -> u64
        ensures { result ≡ self.now.reads }
    {
        self.reads
    }

    /// Makes room for a name, if there is none. The only fault is want of memory.
    pub fn reserve(&mut self, alloc: Global) -> Result<(), AllocError>
        ensures room { OnOk result (self.new.spare ≡ max self.old.spare 1) }
        ensures names { self.new.names ≡ self.old.names }
        ensures reads { self.new.reads ≡ self.old.reads }
        ensures err { OnErr result (self.new ≡ self.old) }
    {
        blocks::fill_room(alloc, &mut self.room)?;
        self.blocks.reserve(1)?;
        self.spare = self.spare.max(1);
        Ok(())
    }

    /// Lets the name give the entry, without memory. A name that is not there takes up the room of one.
    pub fn insert(&mut self, name: Name, entry: NameEntry)
        requires { map.get self.old.names name ≡ None → 0 < self.old.spare }
        ensures names { self.new.names ≡ map.insert self.old.names name entry }
        ensures spare { self.new.spare ≡ (if is_some (map.get self.old.names name) then self.old.spare else self.old.spare - 1) }
        ensures reads { self.new.reads ≡ self.old.reads }
    {
        if self.blocks.is_empty() {
            blocks::insert_first(&mut self.blocks, &mut self.room, name, entry);
            self.spare -= 1;
            return;
        }
        let place = blocks::locate(&self.blocks, &name);
        if self.blocks[place.block].entry(place.at, &name).is_some() {
            self.blocks[place.block].put(place.at, entry);
        } else {
            blocks::insert(&mut self.blocks, &mut self.room, place, name, entry);
            self.spare -= 1;
        }
    }

    /// Takes the name away, and answers what it gave. `None` comes exactly where it was not there.
    pub fn remove(&mut self, name: &Name) -> Option<NameEntry>
        ensures before { result ≡ map.get self.old.names name.now }
        ensures names { self.new.names ≡ map.remove self.old.names name.now }
        ensures spare { self.new.spare ≡ self.old.spare }
        ensures reads { self.new.reads ≡ self.old.reads }
    {
        if self.blocks.is_empty() {
            return None;
        }
        let place = blocks::locate(&self.blocks, name);
        let entry = self.blocks[place.block].entry(place.at, name)?;
        blocks::remove(&mut self.blocks, place);
        Some(entry)
    }

    /// Takes the last name in byte order away, without memory, and answers it with what it gave. `None` comes exactly
    /// where there is no name. The room stays.
    pub fn pop_last(&mut self) -> Option<(Name, NameEntry)>
        ensures last { IfSome result (λ pair. entries self.old.names ≡ entries self.new.names ++ pair ∷ []) }
        ensures some { IfSome result (λ pair. map.get self.old.names pair.0 ≡ Some pair.1) }
        ensures names { IfSome result (λ pair. self.new.names ≡ map.remove self.old.names pair.0) }
        ensures none { IfNone result (self.old.names ≡ map.empty) }
        ensures unchanged { IfNone result (self.new.names ≡ self.old.names) }
        ensures spare { self.new.spare ≡ self.old.spare }
        ensures reads { self.new.reads ≡ self.old.reads }
    {
        blocks::pop_last(&mut self.blocks)
    }

    /// Takes all names away, without memory. The room stays.
    pub fn clear(&mut self)
        ensures names { self.new.names ≡ map.empty }
        ensures spare { self.new.spare ≡ self.old.spare }
        ensures reads { self.new.reads ≡ self.old.reads }
    {
        self.blocks.clear();
    }

    /// Whether some name gives an inode, without memory.
    pub fn gives_some(&self) -> bool
        ensures { result ≡ list_any gives_node (map.values self.now.names) }
    {
        blocks::gives_some(&self.blocks)
    }

    /// The names that give an inode, in byte order. The only fault is want of memory.
    pub fn list(&self, alloc: Global) -> Result<Vec<Name>, AllocError>
        ensures { IfOk result (λ names. names.items ≡ given_names self.now.names) }
    {
        blocks::list(alloc, &self.blocks, false)
    }

    /// The names that give a whiteout, in byte order. The only fault is want of memory.
    pub fn list_white(&self, alloc: Global) -> Result<Vec<Name>, AllocError>
        ensures { IfOk result (λ names. names.items ≡ white_names self.now.names) }
    {
        blocks::list(alloc, &self.blocks, true)
    }

    /// A copy of the names, with what each gives, as a map. The only fault is want of memory.
    pub fn copy(&self, alloc: Global) -> Result<NameMap<NameEntry>, AllocError>
        ensures { IfOk result (λ names. names ≡ self.now.names) }
    {
        blocks::copy(alloc, &self.blocks)
    }
}
