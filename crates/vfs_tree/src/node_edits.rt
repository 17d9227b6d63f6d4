// Edits of one node. A node of another kind than the edit is for stays.
ghost use Rattle.std.specs.Prelude.{◌≡◌, ◌+◌, ◌<◌, ◌^◌, length, IfOk, IsSome, MatchOption, OnOk, OnErr, Some};
ghost use Rattle.std.specs.FinMap as map;
ghost use Rattle.vfs_tree.specs.Nodes.{entry_in};
ghost use Rattle.vfs_tree.specs.Edits.{with_names};
ghost use Rattle.vfs_tree.specs.StoreEdits.{moved};
ghost use Rattle.vfs_tree.specs.Bytes.{resize_bytes, write_bytes};
ghost use Rattle.vfs_tree.specs.FileEdits.{with_bytes};

use crate::name::Name;
use crate::name_map::NameMap;
use crate::node::{NameEntry, Node};
use std::alloc::{AllocError, Global};
use std::mem;

/// Puts an entry at a name, and answers the one that was there. The only fault is want of memory.
pub fn put_name(
    node: &mut Node,
    name: Name,
    entry: NameEntry,
) -> Result<Option<NameEntry>, AllocError>
    ensures before { IfOk result (λ before. before ≡ entry_in name (Some node.old)) }
    ensures ok { OnOk result (node.new ≡ with_names (λ names. map.insert names name entry) node.old) }
    ensures err { OnErr result (node.new ≡ node.old) }
{
    match node {
        Node::Dir { names, .. } => match names.insert(name, entry) {
            Ok(before) => Ok(before),
            Err(error) => Err(error),
        },
        Node::File { .. } => Ok(None),
        Node::Link { .. } => Ok(None),
    }
}

/// Puts an entry in the place of the one at a name, without memory.
pub fn replace_name(node: &mut Node, name: &Name, entry: NameEntry)
    requires { IsSome (entry_in name.now (Some node.old)) }
    ensures { node.new ≡ with_names (λ names. map.insert names name.now entry) node.old }
{
    match node {
        Node::Dir { names, .. } => {
            names.replace(name, entry);
        }
        Node::File { .. } => unreachable!(),
        Node::Link { .. } => unreachable!(),
    }
}

/// Takes the entry at a name away.
pub fn clear_name(node: &mut Node, name: &Name)
    ensures { node.new ≡ with_names (λ names. map.remove names name.now) node.old }
{
    match node {
        Node::Dir { names, .. } => {
            names.remove(name);
        }
        Node::File { .. } => (),
        Node::Link { .. } => (),
    }
}

/// Takes all names out of a directory. `None` comes where it is none.
pub fn take_names(alloc: Global, node: &mut Node) -> Option<NameMap<NameEntry>>
    ensures taken { node.new ≡ with_names (λ names. map.empty) node.old }
    ensures back { MatchOption result (node.new ≡ node.old) (λ names. with_names (λ _. names) node.new ≡ node.old) }
{
    match node {
        Node::Dir { names, .. } => Some(mem::replace(names, NameMap::new(alloc))),
        Node::File { .. } => None,
        Node::Link { .. } => None,
    }
}

/// Gives a directory these names.
pub fn give_names(node: &mut Node, given: NameMap<NameEntry>)
    ensures { node.new ≡ with_names (λ _. given) node.old }
{
    match node {
        Node::Dir { names, .. } => *names = given,
        Node::File { .. } => (),
        Node::Link { .. } => (),
    }
}

/// Gives a directory another parent, and makes it opaque where that is said.
pub fn move_dir(node: &mut Node, to: u32, hides: bool)
    ensures { node.new ≡ moved to hides node.old }
{
    match node {
        Node::Dir { parent, opaque, .. } => {
            *parent = to;
            *opaque = *opaque || hides;
        }
        Node::File { .. } => (),
        Node::Link { .. } => (),
    }
}

/// Puts a piece at an offset of a node that is a regular file.
pub fn write_node(node: &mut Node, at: usize, piece: &[u8]) -> Result<(), AllocError>
    requires { at + length piece.now < 2 ^ 64 }
    ensures ok { OnOk result (node.new ≡ with_bytes (λ old. write_bytes old at piece.now) node.old) }
    ensures err { OnErr result (node.new ≡ node.old) }
{
    match node {
        Node::File { bytes } => match bytes.write_at(at, piece) {
            Ok(()) => Ok(()),
            Err(error) => Err(error),
        },
        Node::Dir { .. } => Ok(()),
        Node::Link { .. } => Ok(()),
    }
}

/// Gives a node that is a regular file a length.
pub fn resize_node(node: &mut Node, len: usize) -> Result<(), AllocError>
    ensures ok { OnOk result (node.new ≡ with_bytes (λ old. resize_bytes old len) node.old) }
    ensures err { OnErr result (node.new ≡ node.old) }
{
    match node {
        Node::File { bytes } => match bytes.resize(len) {
            Ok(()) => Ok(()),
            Err(error) => Err(error),
        },
        Node::Dir { .. } => Ok(()),
        Node::Link { .. } => Ok(()),
    }
}
