ghost use Rattle.std.specs.Prelude.{ℕ, ◌≡◌, ◌≢◌, ◌+◌, ◌-◌, ◌<◌, ◌≤◌, ◌^◌, ◌++◌, ◌↔◌, ◌||◌, min, max, length, take, drop, true, false, if◌then◌else◌, is_some, Some, IsTrue, IsSome, IfSome, IfOk, OnOk, OnErr, option_map, option_and_then};
ghost use Rattle.std.specs.Option.{option_copied};
ghost use Rattle.std.specs.FinMap as map;
ghost use Rattle.mem_dir.specs.Directory.{white_names};
ghost use Rattle.vfs_tree.specs.Nodes.{entry_in, is_dir_node, is_given, is_white};
ghost use Rattle.vfs_tree.specs.Counts.{gives_some_at};
ghost use Rattle.vfs_tree.specs.Edits.{made};
ghost use Rattle.vfs_tree.specs.StoreEdits.{entry_of, set_entry, clear_entry, removed, renamed};
ghost use Rattle.vfs_tree.specs.FileEdits.{written, resized};
ghost use Rattle.vfs_tree.specs.Start.{empty_store};
ghost use Rattle.vfs_tree.specs.Views.{kind_of_node, target_in, is_named_in, dir_in, dir_name};
ghost use Rattle.vfs_tree.specs.Visible.{given_names, names_in};
ghost use Rattle.vfs_tree.specs.declared.node.NameEntry.TheVariants.{Ino};
ghost use Rattle.vfs_tree.specs.declared.node.Kind.TheVariants.{File};
ghost use Rattle.mem_fs.specs.Inodes.{edited, with_new};
ghost use Rattle.mem_fs.specs.NewNodes.{new_node, new_reads, new_reserved};
ghost use Rattle.mem_fs.specs.FileSystem.{with_store, without, bytes_in, GivesBare};

use crate::entries::is_white;
use crate::inode::{Content, Inode, NewNode, content_of};
use crate::nodes;
use finite_maps::{Duplicate, NumberMap};
use mem_dir::Dir;
use std::alloc::{AllocError, Global};
use std::marker::Model;
use vfs_tree::{ByteBuffer, DirFacts, Kind, Name, NameEntry, Store};

/// A memory file system. Contracts see its store, `store`, how many records of each directory were read, `reads`, and up
/// to which length each regular file has room, `reserved`.
///
/// A node keeps how many names give it, and a directory the name that its parent has for it, so no look-up goes through
/// the names of the store. A look-up of a node, and of a name in a directory, costs logarithmic time.
#[derive(Debug, Drop)]
pub struct MemFs {
    nodes: NumberMap<Inode>,
    next: u32,
}

impl Model for MemFs {
    ghost use Rattle.mem_fs.specs.FileSystem.{FileSystem, file_system_code, seen};
    ghost use Rattle.mem_fs.specs.Invariant.{IsKept};

    ghost Value = { FileSystem };

    ghost coded = { file_system_code };

    ghost view = { λ f. seen f.nodes f.next };

    ghost invariant = { λ f. IsKept f.nodes f.next };
}

/// Whether a directory becomes opaque that is renamed to a name that has this entry.
fn hides(opaque: bool, target: Option<NameEntry>) -> bool
    ensures { result ≡ (opaque || is_white target) }
{
    opaque || is_white(target)
}

impl MemFs {
    /// A file system that has its root directory, with the inode number 1, alone. The only fault is want of memory.
    pub fn new(alloc: Global) -> Result<MemFs, AllocError>
        ensures store { IfOk result (λ fs. fs.store ≡ empty_store) }
        ensures reads { IfOk result (λ fs. fs.reads ≡ map.insert map.empty 1 0) }
        ensures reserved { IfOk result (λ fs. fs.reserved ≡ map.empty) }
    {
        let mut nodes = NumberMap::new(alloc);
        let content = Content::Dir {
            parent: 1,
            opaque: false,
            name: None,
            names: Dir::new(alloc),
        };
        nodes.insert(1, Inode { links: 0, content })?;
        Ok(MemFs { nodes, next: 2 })
    }

    /// Whether there is a number for one more node.
    pub fn has_number(&self) -> bool
        ensures { IsTrue result ↔ (self.now.store.next < 4294967295) }
    {
        self.next < u32::MAX
    }

    /// Makes a node under a name of a directory, and answers its inode number. A new directory is opaque exactly where a
    /// whiteout stood at the name, and a shadow never is. The only fault is want of memory.
    pub fn make(
        &mut self,
        alloc: Global,
        dir: u32,
        name: Name,
        node: NewNode,
    ) -> Result<u32, AllocError>
        requires number { self.old.store.next < 4294967295 }
        requires dir { is_dir_node (map.get self.old.store.nodes dir) ≡ true }
        requires new { is_given (entry_of self.old.store dir name) ≡ false }
        ensures number { IfOk result (λ ino. ino ≡ self.old.store.next) }
        ensures made { OnOk result (self.new.store ≡ made self.old.store dir name (new_node dir (is_white (entry_of self.old.store dir name)) node)) }
        ensures reads { OnOk result (self.new.reads ≡ with_new (new_reads node) self.old.reads self.old.store.next) }
        ensures reserved { OnOk result (self.new.reserved ≡ with_new (new_reserved node) self.old.reserved self.old.store.next) }
        ensures err { OnErr result (self.new ≡ self.old) }
    {
        let white = is_white(nodes::entry_of(&self.nodes, dir, &name));
        let content = content_of(alloc, dir, &name, white, node)?;
        nodes::make_room(alloc, &mut self.nodes, dir)?;
        let ino = self.next;
        self.nodes.insert(ino, Inode { links: 1, content })?;
        nodes::put(&mut self.nodes, dir, name, NameEntry::Ino { ino });
        self.next = ino + 1;
        Ok(ino)
    }

    /// Removes a name of a directory, as unlink(2) and rmdir(2): the entry goes, or becomes a whiteout where `white` says
    /// so, also where there was none, and a directory that it gave loses its whiteouts. The only fault is want of memory.
    pub fn remove(
        &mut self,
        alloc: Global,
        dir: u32,
        name: &Name,
        white: bool,
    ) -> Result<(), AllocError>
        requires dir { is_dir_node (map.get self.old.store.nodes dir) ≡ true }
        requires bare { GivesBare self.old.store (entry_of self.old.store dir name.now) }
        ensures removed { OnOk result (self.new ≡ with_store (removed white self.old.store dir name.now) self.old) }
        ensures err { OnErr result (self.new ≡ self.old) }
    {
        let copy = nodes::whiteout(alloc, &mut self.nodes, dir, name, white)?;
        let given = nodes::entry_of(&self.nodes, dir, name);
        nodes::let_go(&mut self.nodes, given);
        nodes::drop_name(&mut self.nodes, dir, name, copy);
        Ok(())
    }

    /// Renames, as rename(2): what the new name gave loses its whiteouts, the old name is dropped, as a whiteout where
    /// `white` says so, and the new name gives what the old one gave. A directory gets its new parent, and becomes opaque
    /// where `opaque` says so or a whiteout stood at the new name. The only fault is want of memory.
    pub fn rename(
        &mut self,
        alloc: Global,
        from: u32,
        old: &Name,
        to: u32,
        new: &Name,
        white: bool,
        opaque: bool,
    ) -> Result<(), AllocError>
        requires from { is_dir_node (map.get self.old.store.nodes from) ≡ true }
        requires to { is_dir_node (map.get self.old.store.nodes to) ≡ true }
        requires given { is_given (entry_of self.old.store from old.now) ≡ true }
        requires apart { entry_of self.old.store to new.now ≢ entry_of self.old.store from old.now }
        requires bare { GivesBare self.old.store (entry_of self.old.store to new.now) }
        ensures renamed { OnOk result (self.new ≡ with_store (renamed white opaque self.old.store from old.now to new.now) self.old) }
        ensures err { OnErr result (self.new ≡ self.old) }
    {
        let name = new.duplicate(alloc)?;
        let own = new.duplicate(alloc)?;
        let copy = nodes::whiteout(alloc, &mut self.nodes, from, old, white)?;
        nodes::make_room(alloc, &mut self.nodes, to)?;
        let given = nodes::entry_of(&self.nodes, from, old);
        let target = nodes::entry_of(&self.nodes, to, new);
        let conceals = hides(opaque, target);
        nodes::let_go(&mut self.nodes, target);
        nodes::drop_name(&mut self.nodes, from, old, copy);
        nodes::give(&mut self.nodes, to, name, given);
        nodes::move_to(&mut self.nodes, to, own, conceals, given);
        Ok(())
    }

    /// Lets a further name of a directory give a node that is no directory, as link(2). The only fault is want of
    /// memory, which is also answered where 2^64-1 names give the node: so many fit in no machine's memory.
    pub fn link(&mut self, alloc: Global, ino: u32, dir: u32, name: Name) -> Result<(), AllocError>
        requires node { IsSome (map.get self.old.store.nodes ino) }
        requires file { is_dir_node (map.get self.old.store.nodes ino) ≡ false }
        requires dir { is_dir_node (map.get self.old.store.nodes dir) ≡ true }
        requires new { is_given (entry_of self.old.store dir name) ≡ false }
        ensures linked { OnOk result (self.new ≡ with_store (set_entry self.old.store dir name (Ino ino)) self.old) }
        ensures err { OnErr result (self.new ≡ self.old) }
    {
        if nodes::links(&self.nodes, ino) == u64::MAX {
            return Err(AllocError);
        }
        nodes::make_room(alloc, &mut self.nodes, dir)?;
        nodes::gain(&mut self.nodes, ino);
        let further = NameEntry::Ino { ino };
        nodes::put(&mut self.nodes, dir, name, further);
        Ok(())
    }

    /// Takes the whiteout at a name of a directory away, as undelete(2).
    pub fn clear_white(&mut self, dir: u32, name: &Name)
        requires white { is_white (entry_of self.old.store dir name.now) ≡ true }
        ensures { self.new ≡ with_store (clear_entry self.old.store dir name.now) self.old }
    {
        nodes::clear(&mut self.nodes, dir, name);
    }

    /// Drops a node that no name gives, and with a directory its names, without memory. The root stays for good. It
    /// costs a look-up of a node for each of the names.
    pub fn forget(&mut self, ino: u32)
        requires root { ino ≢ 1 }
        requires unnamed { is_named_in self.old.store ino ≡ false }
        ensures { self.new ≡ without self.old ino }
    {
        nodes::take_names(&mut self.nodes, ino);
        self.nodes.remove(ino);
    }

    /// What a directory has at a name, and `None` exactly where it has nothing there. The directory's count of records
    /// read goes up by one, and stands still at the greatest word.
    pub fn find(&mut self, dir: u32, name: &Name) -> Option<NameEntry>
        ensures found { result ≡ entry_of self.old.store dir name.now }
        ensures store { self.new.store ≡ self.old.store }
        ensures reads { self.new.reads ≡ edited (λ reads. min (reads + 1) (2 ^ 64 - 1)) self.old.reads dir }
        ensures reserved { self.new.reserved ≡ self.old.reserved }
    {
        nodes::find(&mut self.nodes, dir, name)
    }

    /// How many records of a directory were read. `None` comes exactly where there is no such directory.
    pub fn reads(&self, dir: u32) -> Option<u64>
        ensures count { result ≡ map.get self.now.reads dir }
        ensures there { is_some result ≡ is_dir_node (map.get self.now.store.nodes dir) }
    {
        match self.nodes.get(dir) {
            Some(inode) => inode.content.reads(),
            None => None,
        }
    }

    /// A copy of the store. The only fault is want of memory.
    pub fn store(&self, alloc: Global) -> Result<Store, AllocError>
        ensures { IfOk result (λ store. store ≡ self.now.store) }
    {
        Ok(Store {
            nodes: nodes::copy(alloc, &self.nodes)?,
            next: self.next,
        })
    }

    /// Whether there is such a directory and one of its names gives a node.
    pub fn gives_some(&self, dir: u32) -> bool
        ensures { result ≡ gives_some_at (map.get self.now.store.nodes dir) }
    {
        match self.nodes.get(dir) {
            Some(inode) => inode.content.gives_some(),
            None => false,
        }
    }

    /// The names of a directory that give an inode, in byte order. The only fault is want of memory.
    pub fn list(&self, alloc: Global, dir: u32) -> Result<Vec<Name>, AllocError>
        ensures { IfOk result (λ names. names.items ≡ given_names (names_in (map.get self.now.store.nodes dir))) }
    {
        match self.nodes.get(dir) {
            Some(inode) => inode.content.list(alloc),
            None => Ok(Vec::new(alloc)),
        }
    }

    /// The names of a directory that give a whiteout, in byte order. The only fault is want of memory.
    pub fn list_white(&self, alloc: Global, dir: u32) -> Result<Vec<Name>, AllocError>
        ensures { IfOk result (λ names. names.items ≡ white_names (names_in (map.get self.now.store.nodes dir))) }
    {
        match self.nodes.get(dir) {
            Some(inode) => inode.content.list_white(alloc),
            None => Ok(Vec::new(alloc)),
        }
    }

    /// Whether some name of the store gives the inode.
    pub fn is_named(&self, ino: u32) -> bool
        ensures { result ≡ is_named_in self.now.store ino }
    {
        nodes::is_linked(&self.nodes, ino)
    }

    /// What is to be known of a directory. `None` comes exactly where there is no directory.
    pub fn facts(&self, ino: u32) -> Option<DirFacts>
        ensures { result ≡ dir_in self.now.store ino }
    {
        let linked = nodes::is_reached(&self.nodes, ino);
        match self.nodes.get(ino) {
            Some(inode) => inode.content.facts(linked),
            None => None,
        }
    }

    /// The name that its parent has for a directory. `None` comes exactly where there is no directory, and for the root
    /// and a directory that was removed or replaced.
    pub fn name_of(&self, ino: u32) -> Option<&Name>
        ensures { option_copied result ≡ dir_name self.now.store ino }
    {
        match self.nodes.get(ino) {
            Some(inode) => inode.content.own_name(),
            None => None,
        }
    }

    /// What a node is. `None` comes exactly where there is none.
    pub fn kind(&self, ino: u32) -> Option<Kind>
        ensures { result ≡ option_map kind_of_node (map.get self.now.store.nodes ino) }
    {
        match self.nodes.get(ino) {
            Some(inode) => Some(inode.content.kind()),
            None => None,
        }
    }

    /// The path that a symbolic link stands for. `None` comes exactly where there is no symbolic link.
    pub fn target(&self, ino: u32) -> Option<&[u8]>
        ensures { option_copied result ≡ option_and_then target_in (map.get self.now.store.nodes ino) }
    {
        match self.nodes.get(ino) {
            Some(inode) => inode.content.target(),
            None => None,
        }
    }

    /// How many bytes a regular file has. A node of another kind has none.
    pub fn size(&self, ino: u32) -> usize
        ensures size { result ≡ length (bytes_in (map.get self.now.store.nodes ino)) }

        // What every file system keeps: a regular file alone has room, at most 1 MiB, and its bytes are within it.
        ensures room { IsSome (map.get self.now.reserved ino) ↔ (option_map kind_of_node (map.get self.now.store.nodes ino) ≡ Some File) }
        ensures within { IfSome (map.get self.now.reserved ino) (λ room. result ≤ room) }
        ensures small { IfSome (map.get self.now.reserved ino) (λ room. room ≤ 1048576) }
    {
        match self.nodes.get(ino) {
            Some(inode) => inode.content.size(),
            None => 0,
        }
    }

    /// Appends the bytes of a regular file from `at` on, at most `most`, as far as there are any, to the buffer, which has
    /// room for `most`.
    pub fn read_into(&self, ino: u32, at: usize, most: usize, into: &mut ByteBuffer)
        requires { most ≤ into.old.spare }
        ensures bytes { into.new.bytes ≡ into.old.bytes ++ take most (drop at (bytes_in (map.get self.now.store.nodes ino))) }
        ensures spare { into.new.spare ≡ into.old.spare - length (take most (drop at (bytes_in (map.get self.now.store.nodes ino)))) }
    {
        match self.nodes.get(ino) {
            Some(inode) => inode.content.read_into(at, most, into),
            None => (),
        }
    }

    /// Makes room for a regular file of `len` bytes. The only fault is want of memory.
    pub fn reserve_to(&mut self, alloc: Global, ino: u32, len: usize) -> Result<(), AllocError>
        requires { len ≤ 1048576 }
        ensures room { OnOk result (self.new.reserved ≡ edited (λ room. max room len) self.old.reserved ino) }
        ensures store { self.new.store ≡ self.old.store }
        ensures reads { self.new.reads ≡ self.old.reads }
        ensures err { OnErr result (self.new ≡ self.old) }
    {
        nodes::reserve_to(alloc, &mut self.nodes, ino, len)
    }

    /// Puts the bytes at `at` of a regular file, up to whose end there is room, without memory. A gap before them is
    /// filled with zeros, and no bytes change nothing.
    pub fn write_at(&mut self, ino: u32, at: usize, bytes: &[u8])
        requires { IfSome (map.get self.old.reserved ino) (λ room. at + length bytes.now ≤ room) }
        ensures { self.new ≡ with_store (written self.old.store ino at bytes.now) self.old }
    {
        nodes::write_at(&mut self.nodes, ino, at, bytes);
    }

    /// Cuts a regular file off at `len`, or lengthens it by zeros to `len`, up to which there is room, without memory.
    pub fn cut(&mut self, ino: u32, len: usize)
        requires { IfSome (map.get self.old.reserved ino) (λ room. len ≤ room) }
        ensures { self.new ≡ with_store (resized self.old.store ino len) self.old }
    {
        nodes::cut(&mut self.nodes, ino, len);
    }
}
