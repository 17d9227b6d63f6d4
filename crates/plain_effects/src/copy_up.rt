// What a lower layer has is copied to the upper one.
ghost use Rattle.std.specs.Prelude.{◌≡◌, ◌<◌, [], false, IfOk, OnOk, OnErr};
ghost use Rattle.std.specs.FinMap as map;
ghost use Rattle.vfs_tree.specs.Child as child;
ghost use Rattle.vfs_tree.specs.Nodes.{IsNumbered, next_of};
ghost use Rattle.vfs_tree.specs.Views.{facts_of};
ghost use Rattle.vfs_tree.specs.declared.node.Node.TheVariants as node;
ghost use Rattle.call_model.specs.Checks.{is_full, upper_store, node_of};
ghost use Rattle.call_model.specs.Effects.{made_above, copy_of, copied_from, copied_child, copied_up};

use crate::turn::turn_opens;
use crate::upper::make_above;
use finite_maps::Duplicate;
use std::alloc::{AllocError, Global};
use vfs_paths::{base, child_of, low};
use vfs_tree::{Bytes, Child, Name, Node, Place, World};

/// A file without bytes.
fn empty_file(alloc: Global) -> Node
    ensures { result ≡ node.File [] }
{
    Node::File {
        bytes: Bytes::new(alloc),
    }
}

/// A copy of the file or link at a place. The only fault is want of memory.
fn copy_node(alloc: Global, world: &World, place: &Place) -> Result<Node, AllocError>
    ensures { IfOk result (λ copy. copy ≡ copy_of (node_of world.now place.now)) }
{
    let at = base(world, place);
    match world.node(at.store, at.ino) {
        Some(Node::File { bytes }) => Ok(Node::File {
            bytes: bytes.duplicate(alloc)?,
        }),
        Some(Node::Link { target }) => Ok(Node::Link {
            target: target.duplicate(alloc)?,
        }),
        Some(Node::Dir { .. }) => Ok(empty_file(alloc)),
        None => Ok(empty_file(alloc)),
    }
}

/// What the lower part of a union's directory has at a name. The only fault is want of memory.
fn lower_child(
    alloc: Global,
    world: &World,
    mount: u32,
    dir: u32,
    name: &Name,
) -> Result<Child, AllocError>
    ensures { IfOk result (λ found. found ≡ child.child_below (child.child_of (facts_of world.now)) (child.low (facts_of world.now) mount dir) name.now) }
{
    match low(alloc, world, mount, dir)? {
        Child::At { place } => child_of(alloc, world, &place, name),
        Child::Absent => Ok(Child::Absent),
        Child::Need { need } => Ok(Child::Need { need }),
    }
}

/// What stands at a place of the lower layer is copied to the upper one, and each open file that stands on it turns to the
/// copy. The only fault is want of memory.
fn copy_from(
    alloc: Global,
    world: &mut World,
    mount: u32,
    dir: u32,
    name: &Name,
    lower: Place,
) -> Result<(), AllocError>
    requires numbered { IsNumbered world.old }
    requires room { is_full world.old (upper_store world.old mount) ≡ false }
    ensures copied { OnOk result (world.new ≡ copied_from world.old mount dir name.now lower) }
    ensures small { OnOk result (next_of (map.get world.old.stores (upper_store world.old mount)) < 4294967295) }
    ensures err { OnErr result (world.new ≡ world.old) }
    ensures kept { IsNumbered world.new }
{
    let copy = copy_node(alloc, world, &lower)?;
    let from = Place::union_low(alloc, mount, dir, name.duplicate(alloc)?, lower)?;
    let name = name.duplicate(alloc)?;
    match make_above(world, mount, dir, name, copy) {
        Ok(ino) => {
            turn_opens(&mut world.opens, &from, mount, ino);
            Ok(())
        }
        Err(error) => Err(error),
    }
}

/// A file without bytes is made at a name of a directory in the upper layer of a union. The only fault is want of memory.
fn make_empty(
    alloc: Global,
    world: &mut World,
    mount: u32,
    dir: u32,
    name: &Name,
) -> Result<(), AllocError>
    requires numbered { IsNumbered world.old }
    requires room { is_full world.old (upper_store world.old mount) ≡ false }
    ensures made { OnOk result (world.new ≡ made_above world.old mount dir name.now (node.File [])) }
    ensures small { OnOk result (next_of (map.get world.old.stores (upper_store world.old mount)) < 4294967295) }
    ensures err { OnErr result (world.new ≡ world.old) }
    ensures kept { IsNumbered world.new }
{
    let name = name.duplicate(alloc)?;
    match make_above(world, mount, dir, name, empty_file(alloc)) {
        Ok(_) => Ok(()),
        Err(error) => Err(error),
    }
}

/// What was found in the lower layer is copied to the upper one. The only fault is want of memory.
fn copy_child(
    alloc: Global,
    world: &mut World,
    mount: u32,
    dir: u32,
    name: &Name,
    found: Child,
) -> Result<(), AllocError>
    requires numbered { IsNumbered world.old }
    requires room { is_full world.old (upper_store world.old mount) ≡ false }
    ensures copied { OnOk result (world.new ≡ copied_child world.old mount dir name.now found) }
    ensures small { OnOk result (next_of (map.get world.old.stores (upper_store world.old mount)) < 4294967295) }
    ensures err { OnErr result (world.new ≡ world.old) }
    ensures kept { IsNumbered world.new }
{
    match found {
        Child::At { place } => copy_from(alloc, world, mount, dir, name, place),
        Child::Absent => make_empty(alloc, world, mount, dir, name),
        Child::Need { .. } => make_empty(alloc, world, mount, dir, name),
    }
}

/// What the lower layer of a union has at a name, a file or a link, is copied to the upper one, and each open file that
/// stands on it turns to the copy. The only fault is want of memory.
pub(crate) fn make_copy(
    alloc: Global,
    world: &mut World,
    mount: u32,
    dir: u32,
    name: &Name,
) -> Result<(), AllocError>
    requires numbered { IsNumbered world.old }
    requires room { is_full world.old (upper_store world.old mount) ≡ false }
    ensures copied { OnOk result (world.new ≡ copied_up world.old mount dir name.now) }
    ensures small { OnOk result (next_of (map.get world.old.stores (upper_store world.old mount)) < 4294967295) }
    ensures err { OnErr result (world.new ≡ world.old) }
    ensures kept { IsNumbered world.new }
{
    let found = lower_child(alloc, world, mount, dir, name)?;
    copy_child(alloc, world, mount, dir, name, found)
}
