// Edits of one of the nodes by number, each without memory but where it says so.
ghost use Rattle.std.specs.Prelude.{ℕ, ◌≡◌, ◌+◌, ◌-◌, ◌<◌, ◌≤◌, ◌^◌, ◌==◌, ◌||◌, length, is_some, Some, IfOk, IfSome, IfNone, OnOk, OnErr, option_map};
ghost use Rattle.std.specs.FinMap as map;
ghost use Rattle.vfs_tree.specs.Nodes.{entry_in};
ghost use Rattle.vfs_tree.specs.Visible.{names_in};
ghost use Rattle.mem_fs.specs.Contents.{counted_in, made_ready, placed, written_in, cut_in, reserved_to};
ghost use Rattle.mem_fs.specs.Inodes.{node_of, nodes_of, edited, with_content, links_of, name_count, gained, put_at, cleared_at, given_lost, given_gone, dropped_at, given_at, moved_to};
ghost use Rattle.vfs_tree.specs.Counts.{above_zero};
ghost use Rattle.mem_fs.specs.FileSystem.{seen, without};
ghost use Rattle.mem_fs.specs.Invariant.{IsKept, IsLike};
ghost use Rattle.mem_fs.specs.Rooms.{HasRoomAt, IsRoomyAt, HasRoomToAt};

use crate::inode::Inode;
use finite_maps::{Duplicate, NumberMap};
use std::alloc::{AllocError, Global};
use vfs_tree::{Name, NameEntry, Node};

/// What a directory has at a name.
pub fn entry_of(nodes: &NumberMap<Inode>, dir: u32, name: &Name) -> Option<NameEntry>
    ensures { result ≡ entry_in name.now (option_map node_of (map.get nodes.now dir)) }
{
    match nodes.get(dir) {
        Some(inode) => inode.content.entry(name),
        None => None,
    }
}

/// What a directory has at a name, as a look-up that is counted.
pub fn find(nodes: &mut NumberMap<Inode>, dir: u32, name: &Name) -> Option<NameEntry>
    ensures found { result ≡ entry_in name.now (option_map node_of (map.get nodes.old dir)) }
    ensures counted { nodes.new ≡ edited (with_content counted_in) nodes.old dir }
{
    match nodes.get_mut(dir) {
        Some(inode) => inode.content.find(name),
        None => None,
    }
}

/// Makes room for a name in a directory. The only fault is want of memory.
fn reserve(alloc: Global, nodes: &mut NumberMap<Inode>, dir: u32) -> Result<(), AllocError>
    ensures ok { OnOk result (nodes.new ≡ edited (with_content made_ready) nodes.old dir) }
    ensures err { OnErr result (nodes.new ≡ nodes.old) }
{
    match nodes.get_mut(dir) {
        Some(inode) => inode.content.reserve(alloc),
        None => Ok(()),
    }
}

/// Lets a name of a directory give the entry.
pub fn put(nodes: &mut NumberMap<Inode>, dir: u32, name: Name, entry: NameEntry)
    requires { HasRoomAt name (map.get nodes.old dir) }
    ensures { nodes.new ≡ put_at nodes.old dir name entry }
{
    if let Some(inode) = nodes.get_mut(dir) {
        inode.content.put(name, entry);
    }
}

/// Takes a name of a directory away.
pub fn clear(nodes: &mut NumberMap<Inode>, dir: u32, name: &Name)
    ensures { nodes.new ≡ cleared_at nodes.old dir name.now }
{
    if let Some(inode) = nodes.get_mut(dir) {
        inode.content.clear(name);
    }
}

/// Takes the last name of a directory away, and answers it with what it gave. `None` comes exactly where there is none.
fn pop_last(nodes: &mut NumberMap<Inode>, dir: u32) -> Option<(Name, NameEntry)>
    ensures some { IfSome result (λ pair. entry_in pair.0 (option_map node_of (map.get nodes.old dir)) ≡ Some pair.1) }
    ensures cleared { IfSome result (λ pair. nodes.new ≡ cleared_at nodes.old dir pair.0) }
    ensures fewer { IfSome result (λ pair. name_count (map.get nodes.old dir) ≡ name_count (map.get nodes.new dir) + 1) }
    ensures none { IfNone result (names_in (option_map node_of (map.get nodes.old dir)) ≡ map.empty) }
    ensures unchanged { IfNone result (nodes.new ≡ nodes.old) }
{
    match nodes.get_mut(dir) {
        Some(inode) => inode.content.pop_last(),
        None => None,
    }
}

/// Takes note that a name of a directory that is dropped gave what the entry gives.
fn lose(nodes: &mut NumberMap<Inode>, entry: NameEntry)
    ensures { nodes.new ≡ given_lost nodes.old entry }
{
    let ino = match entry {
        NameEntry::Ino { ino } => ino,
        NameEntry::White => return,
    };
    if let Some(inode) = nodes.get_mut(ino) {
        inode.lose();
    }
}

/// Takes all names of a directory that is to be dropped away, from the last on. Each node that they gave has one name
/// fewer.
pub fn take_names(nodes: &mut NumberMap<Inode>, dir: u32)
    requires { links_of (map.get nodes.old dir) ≡ 0 }
    ensures names { names_in (option_map node_of (map.get nodes.new dir)) ≡ map.empty }
    ensures unnamed { links_of (map.get nodes.new dir) ≡ 0 }
    ensures kept { (next : ℕ) → IsKept nodes.old next → IsKept nodes.new next }
    ensures rest { (next : ℕ) → without (seen nodes.new next) dir ≡ without (seen nodes.old next) dir }
{
    while let Some((_name, entry)) = pop_last(nodes, dir) {
        lose(nodes, entry);
    }
}

/// Lets the node go that an entry gave.
pub fn let_go(nodes: &mut NumberMap<Inode>, given: Option<NameEntry>)
    ensures { nodes.new ≡ given_gone nodes.old given }
{
    let ino = match given {
        Some(NameEntry::Ino { ino }) => ino,
        Some(NameEntry::White) => return,
        None => return,
    };
    if let Some(inode) = nodes.get_mut(ino) {
        inode.let_go();
    }
}

/// Takes note that one name more gives a node.
pub fn gain(nodes: &mut NumberMap<Inode>, ino: u32)
    requires { links_of (map.get nodes.old ino) < 2 ^ 64 - 1 }
    ensures { nodes.new ≡ edited gained nodes.old ino }
{
    if let Some(inode) = nodes.get_mut(ino) {
        inode.gain();
    }
}

/// Drops a name of a directory: the entry goes, or becomes a whiteout where a copy of the name is at hand for it.
pub fn drop_name(nodes: &mut NumberMap<Inode>, dir: u32, name: &Name, copy: Option<Name>)
    requires room { IfSome copy (λ copy. HasRoomAt copy (map.get nodes.old dir)) }
    requires same { IfSome copy (λ copy. copy ≡ name.now) }
    ensures { nodes.new ≡ dropped_at (is_some copy) nodes.old dir name.now }
{
    match copy {
        Some(copy) => put(nodes, dir, copy, NameEntry::White),
        None => clear(nodes, dir, name),
    }
}

/// Gives a directory another parent and its name there.
fn place(nodes: &mut NumberMap<Inode>, ino: u32, to: u32, own: Name, hides: bool)
    ensures { nodes.new ≡ edited (with_content (placed to own hides)) nodes.old ino }
{
    if let Some(inode) = nodes.get_mut(ino) {
        inode.content.place(to, own, hides);
    }
}

/// Lets a name of a directory give what an entry gave.
pub fn give(nodes: &mut NumberMap<Inode>, dir: u32, name: Name, given: Option<NameEntry>)
    requires { HasRoomAt name (map.get nodes.old dir) }
    ensures { nodes.new ≡ given_at nodes.old dir name given }
{
    let ino = match given {
        Some(NameEntry::Ino { ino }) => ino,
        Some(NameEntry::White) => return,
        None => return,
    };
    put(nodes, dir, name, NameEntry::Ino { ino });
}

/// Moves what an entry gave, if it is a directory, to the name of another directory that gives it now.
pub fn move_to(
    nodes: &mut NumberMap<Inode>,
    dir: u32,
    own: Name,
    hides: bool,
    given: Option<NameEntry>,
)
    ensures { nodes.new ≡ moved_to nodes.old dir own hides given }
{
    let ino = match given {
        Some(NameEntry::Ino { ino }) => ino,
        Some(NameEntry::White) => return,
        None => return,
    };
    place(nodes, ino, dir, own, hides);
}

/// Puts a piece at an offset of a regular file.
pub fn write_at(nodes: &mut NumberMap<Inode>, ino: u32, at: usize, piece: &[u8])
    requires { HasRoomToAt (at + length piece.now) (map.get nodes.old ino) }
    ensures { nodes.new ≡ edited (with_content (written_in at piece.now)) nodes.old ino }
{
    if let Some(inode) = nodes.get_mut(ino) {
        inode.content.write_at(at, piece);
    }
}

/// Gives a regular file a length.
pub fn cut(nodes: &mut NumberMap<Inode>, ino: u32, len: usize)
    requires { HasRoomToAt len (map.get nodes.old ino) }
    ensures { nodes.new ≡ edited (with_content (cut_in len)) nodes.old ino }
{
    if let Some(inode) = nodes.get_mut(ino) {
        inode.content.cut(len);
    }
}

/// Makes room for a regular file of that length. The only fault is want of memory.
pub fn reserve_to(
    alloc: Global,
    nodes: &mut NumberMap<Inode>,
    ino: u32,
    len: usize,
) -> Result<(), AllocError>
    requires { len ≤ 1048576 }
    ensures ok { OnOk result (nodes.new ≡ edited (with_content (reserved_to len)) nodes.old ino) }
    ensures err { OnErr result (nodes.new ≡ nodes.old) }
{
    match nodes.get_mut(ino) {
        Some(inode) => inode.content.reserve_to(alloc, len),
        None => Ok(()),
    }
}

/// A copy of the name for a whiteout, with room for it, where one is wanted. The only fault is want of memory.
pub fn whiteout(
    alloc: Global,
    nodes: &mut NumberMap<Inode>,
    dir: u32,
    name: &Name,
    white: bool,
) -> Result<Option<Name>, AllocError>
    ensures like { IsLike nodes.old nodes.new }
    ensures copy { IfOk result (λ copy. is_some copy ≡ white) }
    ensures same { IfOk result (λ copy. IfSome copy (λ n. n ≡ name.now)) }
    ensures room { IfOk result (λ copy. IfSome copy (λ _. IsRoomyAt (map.get nodes.new dir))) }
{
    if !white {
        return Ok(None);
    }
    let copy = name.duplicate(alloc)?;
    make_room(alloc, nodes, dir)?;
    Ok(Some(copy))
}

/// Makes room for a name in a directory, of which contracts see nothing. The only fault is want of memory.
pub fn make_room(alloc: Global, nodes: &mut NumberMap<Inode>, dir: u32) -> Result<(), AllocError>
    ensures like { IsLike nodes.old nodes.new }
    ensures keeps { (q : ℕ) → IsRoomyAt (map.get nodes.old q) → IsRoomyAt (map.get nodes.new q) }
    ensures room { OnOk result (IsRoomyAt (map.get nodes.new dir)) }
{
    reserve(alloc, nodes, dir)
}

/// How many names give a node.
pub fn links(nodes: &NumberMap<Inode>, ino: u32) -> u64
    ensures { result ≡ links_of (map.get nodes.now ino) }
{
    match nodes.get(ino) {
        Some(inode) => inode.links,
        None => 0,
    }
}

/// Whether some name gives a node.
pub fn is_linked(nodes: &NumberMap<Inode>, ino: u32) -> bool
    ensures { result ≡ above_zero (links_of (map.get nodes.now ino)) }
{
    0 < links(nodes, ino)
}

/// Whether a node is the root or some name gives it.
pub fn is_reached(nodes: &NumberMap<Inode>, ino: u32) -> bool
    ensures { result ≡ ((ino == 1) || above_zero (links_of (map.get nodes.now ino))) }
{
    ino == 1 || is_linked(nodes, ino)
}

/// A copy of the nodes, as a store has them. The only fault is want of memory.
pub fn copy(alloc: Global, nodes: &NumberMap<Inode>) -> Result<NumberMap<Node>, AllocError>
    ensures { IfOk result (λ copy. copy ≡ nodes_of nodes.now) }
{
    let mut copy = NumberMap::new(alloc);
    for (number, inode) in nodes.iter() {
        let node = inode.content.copy(alloc)?;
        copy.insert(*number, node)?;
    }
    Ok(copy)
}
