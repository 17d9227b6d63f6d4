ghost use Rattle.std.specs.Prelude.{◌≡◌, ℕ, ◌||◌, ◌==◌, cond, [], ◌++◌, is_some, IfOk, OnOk};
ghost use Rattle.std.specs.List.{list_any};
ghost use Rattle.std.specs.FinMap.{entries, get};
ghost use Rattle.trace_text.specs.Node.{node_text};
ghost use Rattle.trace_text.specs.Trees.{is_of, gives, has_name, store_text, nodes_text, tree_text, trees_text};

use crate::mount::put_mount;
use crate::node::put_node;
use finite_maps::NumberMap;
use std::alloc::{AllocError, Global};
use vfs_tree::{CountedStore, Mount, MountKind, NameEntry, NameMap, Node, Store, World};

fn add_names(given: &mut NumberMap<()>, names: &NameMap<NameEntry>) -> Result<(), AllocError>
    ensures { OnOk result ((ino : ℕ) → is_some (get given.new ino) ≡ (is_some (get given.old ino) || list_any (λ e. is_of ino e.1) (entries names.now))) }
{
    for (_, entry) in names.iter() {
        if let NameEntry::Ino { ino } = entry {
            given.insert(*ino, ())?;
        }
    }
    Ok(())
}

fn add_node(given: &mut NumberMap<()>, node: &Node) -> Result<(), AllocError>
    ensures { OnOk result ((ino : ℕ) → is_some (get given.new ino) ≡ (is_some (get given.old ino) || gives ino node.now)) }
{
    match node {
        Node::Dir { names, .. } => add_names(given, names),
        Node::File { .. } | Node::Link { .. } => Ok(()),
    }
}

/// The inode numbers that the names of a store give. The only fault is want of memory.
pub fn given_by(alloc: Global, store: &Store) -> Result<NumberMap<()>, AllocError>
    ensures { IfOk result (λ given. (ino : ℕ) → is_some (get given ino) ≡ has_name store.now ino) }
{
    let mut given = NumberMap::new(alloc);
    for (_, node) in store.nodes.iter() {
        add_node(&mut given, node)?;
    }
    Ok(given)
}

/// Appends the lines of a node if it is the root or its number is among those that are given, and else nothing. The only
/// fault is want of memory.
pub fn put_shown(
    out: &mut Vec<u8>,
    given: &NumberMap<()>,
    ino: u32,
    node: &Node,
) -> Result<(), AllocError>
    ensures { OnOk result (out.new.items ≡ out.old.items ++ cond (ino == 1 || is_some (get given.now ino)) (node_text ino node.now) []) }
{
    if ino == 1 || given.get(ino).is_some() {
        put_node(out, ino, node)?;
    }
    Ok(())
}

fn put_store(alloc: Global, out: &mut Vec<u8>, store: &Store) -> Result<(), AllocError>
    ensures { OnOk result (out.new.items ≡ out.old.items ++ store_text store.now) }
{
    let given = given_by(alloc, store)?;
    for (ino, node) in store.nodes.iter() {
        put_shown(out, &given, *ino, node)?;
    }
    Ok(())
}

fn put_tree(
    alloc: Global,
    out: &mut Vec<u8>,
    stores: &NumberMap<CountedStore>,
    number: u32,
    mount: &Mount,
) -> Result<(), AllocError>
    ensures { OnOk result (out.new.items ≡ out.old.items ++ tree_text stores.now number mount.now) }
{
    put_mount(out, number, mount)?;
    match (&mount.kind, stores.get(number)) {
        (MountKind::Mem, Some(store)) => put_store(alloc, out, store.store()),
        _ => Ok(()),
    }
}

/// Appends the lines of a world's mounts, each memory mount with its nodes. The only fault is want of memory.
pub fn put_trees(alloc: Global, out: &mut Vec<u8>, world: &World) -> Result<(), AllocError>
    ensures { OnOk result (out.new.items ≡ out.old.items ++ trees_text world.now) }
{
    for (number, mount) in world.mounts.iter() {
        put_tree(alloc, out, &world.stores, *number, mount)?;
    }
    Ok(())
}
