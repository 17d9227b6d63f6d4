// What the calls on names ask for, found out by the file system's own calls.
ghost use Rattle.std.specs.Prelude.{◌≡◌, false, IsTrue, IsSome, Some};
ghost use Rattle.std.specs.FinMap as map;
ghost use Rattle.vfs_tree.specs.Nodes.{is_dir_node};
ghost use Rattle.vfs_tree.specs.declared.node.NameEntry.TheVariants.{Ino};
ghost use Rattle.mem_fs.specs.FileSystem.{GivesBare};

use crate::fs::MemFs;
use vfs_tree::{Kind, NameEntry};

/// Whether there is such a directory.
pub fn is_dir(fs: &MemFs, ino: u32) -> bool
    ensures { result ≡ is_dir_node (map.get fs.now.store.nodes ino) }
{
    fs.kind(ino) == Some(Kind::Dir)
}

/// Whether there is a node that is no directory.
pub fn is_no_dir(fs: &MemFs, ino: u32) -> bool
    ensures there { IsTrue result → IsSome (map.get fs.now.store.nodes ino) }
    ensures other { IsTrue result → is_dir_node (map.get fs.now.store.nodes ino) ≡ false }
    ensures each { IsSome (map.get fs.now.store.nodes ino) → is_dir_node (map.get fs.now.store.nodes ino) ≡ false → IsTrue result }
{
    match fs.kind(ino) {
        Some(Kind::File) => true,
        Some(Kind::Link) => true,
        Some(Kind::Dir) => false,
        None => false,
    }
}

/// Whether a node has no names that give an inode.
fn is_bare(fs: &MemFs, ino: u32) -> bool
    ensures bare { IsTrue result → GivesBare fs.now.store (Some (Ino ino)) }
    ensures each { GivesBare fs.now.store (Some (Ino ino)) → IsTrue result }
{
    !fs.gives_some(ino)
}

/// Whether what the entry gives has no names that give an inode.
pub fn gives_bare(fs: &MemFs, entry: Option<NameEntry>) -> bool
    ensures bare { IsTrue result → GivesBare fs.now.store entry }
    ensures each { GivesBare fs.now.store entry → IsTrue result }
{
    match entry {
        Some(NameEntry::Ino { ino }) => is_bare(fs, ino),
        Some(NameEntry::White) => true,
        None => true,
    }
}
