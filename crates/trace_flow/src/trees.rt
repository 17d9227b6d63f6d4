ghost use Rattle.std.specs.Prelude.{◌++◌};
ghost use Rattle.trace_text.specs.Trees.{store_text, tree_text, trees_text};
ghost use Rattle.trace_flow.specs.Moves.{Passes};

use crate::piece::{Halt, pass};
use finite_maps::NumberMap;
use std::alloc::Global;
use trace_text::{given_by, put_mount, put_shown};
use vfs_flow::Sink;
use vfs_tree::{CountedStore, Mount, MountKind, Store, World};

/// Writes the lines of a store's nodes, by way of the buffer.
fn write_store<K: Sink>(
    alloc: Global,
    sink: &mut K,
    buffer: &mut Vec<u8>,
    store: &Store,
) -> Result<(), Halt>
    ensures { Passes K.written K.faults sink.old sink.new (buffer.old.items ++ store_text store.now) buffer.new.items result }
{
    let given = given_by(alloc, store)?;
    for (ino, node) in store.nodes.iter() {
        put_shown(buffer, &given, *ino, node)?;
        pass(sink, buffer)?;
    }
    Ok(())
}

/// Writes the line of a mount, and the nodes of a memory mount, by way of the buffer.
fn write_tree<K: Sink>(
    alloc: Global,
    sink: &mut K,
    buffer: &mut Vec<u8>,
    stores: &NumberMap<CountedStore>,
    number: u32,
    mount: &Mount,
) -> Result<(), Halt>
    ensures { Passes K.written K.faults sink.old sink.new (buffer.old.items ++ tree_text stores.now number mount.now) buffer.new.items result }
{
    put_mount(buffer, number, mount)?;
    match (&mount.kind, stores.get(number)) {
        (MountKind::Mem, Some(store)) => write_store(alloc, sink, buffer, store.store()),
        _ => pass(sink, buffer),
    }
}

/// Writes the lines of a world's mounts, each memory mount with its nodes, by way of the buffer.
pub fn write_trees<K: Sink>(
    alloc: Global,
    sink: &mut K,
    buffer: &mut Vec<u8>,
    world: &World,
) -> Result<(), Halt>
    ensures { Passes K.written K.faults sink.old sink.new (buffer.old.items ++ trees_text world.now) buffer.new.items result }
{
    for (number, mount) in world.mounts.iter() {
        write_tree(alloc, sink, buffer, &world.stores, *number, mount)?;
    }
    Ok(())
}
