// Directories by the nodes on which they rest.
ghost use Rattle.std.specs.Prelude.{◌≡◌, ◌==◌, ◌&&◌, not};
ghost use Rattle.vfs_tree.specs.Carriers as carriers;
ghost use Rattle.vfs_tree.specs.Child.{steps};
ghost use Rattle.vfs_tree.specs.Layers as layers;
ghost use Rattle.vfs_tree.specs.Mounts.{is_left};
ghost use Rattle.vfs_tree.specs.Views.{facts_of};

use vfs_paths::{base, most_steps};
use vfs_tree::{Mount, NameView, NodeId, Place, World};

/// Whether the two are one node.
fn same_node(left: NodeId, right: NodeId) -> bool
    ensures { result ≡ layers.same_node left right }
{
    left.store == right.store && left.ino == right.ino
}

/// Whether a mount covers a place that rests on the node.
fn covers_node(world: &World, node: NodeId, cover: &Mount) -> bool
    ensures { result ≡ (carriers.is_on_node (facts_of world.now) node cover.now.on && not (is_left world.now.leaving cover.now.number)) }
{
    match &cover.on {
        Some(on) => same_node(base(world, on), node) && !world.is_left(cover.number),
        None => false,
    }
}

/// Whether a directory is busy: a mount covers a place that rests on the same node.
pub fn is_busy(world: &World, place: &Place) -> bool
    ensures { result ≡ carriers.is_busy world.now place.now }
{
    let node = base(world, place);
    for (_number, cover) in world.mounts.iter() {
        if covers_node(world, node, cover) {
            return true;
        }
    }
    false
}

/// The inode number of the parent of a directory.
fn parent_of(world: &World, node: NodeId) -> u32
    ensures { result ≡ layers.parent_ino (facts_of world.now) node.store node.ino }
{
    match world.dir(node.store, node.ino) {
        Some(dir) => dir.parent,
        None => node.ino,
    }
}

/// Whether a directory of a store is another, or below it, by at most so many steps up.
fn below_within(world: &World, steps: u32, node: NodeId, top: u32) -> bool
    ensures { result ≡ carriers.below_within steps (facts_of world.now) node.store top node.ino }
{
    if steps == 0 {
        return false;
    }
    if node.ino == top {
        return true;
    }
    if node.ino == 1 {
        return false;
    }
    let parent = NodeId {
        store: node.store,
        ino: parent_of(world, node),
    };
    below_within(world, steps - 1, parent, top)
}

/// Whether a directory rests on the same node as another, or on one below it.
pub fn is_below(world: &World, dir: &Place, top: &Place) -> bool
    ensures { result ≡ carriers.is_below (facts_of world.now) dir.now top.now }
{
    let node = base(world, dir);
    let top = base(world, top);
    node.store == top.store && below_within(world, most_steps(), node, top.ino)
}
