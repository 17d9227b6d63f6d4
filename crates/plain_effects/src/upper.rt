// Nodes that are made in the upper layer of a union.
ghost use Rattle.std.specs.Prelude.{◌≡◌, ◌<◌, ◌==◌, false, IfOk, OnOk, OnErr};
ghost use Rattle.std.specs.FinMap as map;
ghost use Rattle.vfs_tree.specs.Edits.{made};
ghost use Rattle.vfs_tree.specs.Nodes.{AreBelow, IsNumbered, next_of};
ghost use Rattle.call_model.specs.Checks.{is_full, upper_store};
ghost use Rattle.call_model.specs.Effects.{made_above};

use std::alloc::AllocError;
use vfs_paths::upper_store;
use vfs_tree::{CountedStore, Name, Node, World};

/// Makes a node at a name of a directory of a store that has a number left, and answers its inode number. The only fault
/// is want of memory.
fn make_in(store: &mut CountedStore, dir: u32, name: Name, node: Node) -> Result<u32, AllocError>
    requires room { (store.old.next == 4294967295) ≡ false }
    requires below { AreBelow store.old.nodes store.old.next }
    ensures made { OnOk result (store.new ≡ made store.old dir name node) }
    ensures number { IfOk result (λ ino. ino ≡ store.old.next) }
    ensures small { store.old.next < 4294967295 }
    ensures err { OnErr result (store.new ≡ store.old) }
    ensures kept { AreBelow store.new.nodes store.new.next }
{
    // That a number which was read fits its type tells with `room` that it is below the last one.
    let _next = store.next();
    store.make(dir, name, node)
}

/// Makes a node at a name of a directory in the upper layer of a union, whose store has a number left, and answers its
/// inode number. The only fault is want of memory.
pub(crate) fn make_above(
    world: &mut World,
    mount: u32,
    dir: u32,
    name: Name,
    node: Node,
) -> Result<u32, AllocError>
    requires numbered { IsNumbered world.old }
    requires room { is_full world.old (upper_store world.old mount) ≡ false }
    ensures made { OnOk result (world.new ≡ made_above world.old mount dir name node) }
    ensures number { IfOk result (λ ino. ino ≡ next_of (map.get world.old.stores (upper_store world.old mount))) }
    ensures small { next_of (map.get world.old.stores (upper_store world.old mount)) < 4294967295 }
    ensures err { OnErr result (world.new ≡ world.old) }
    ensures kept { IsNumbered world.new }
{
    let upper = upper_store(world, mount);
    match world.stores.get_mut(upper) {
        Some(store) => match make_in(store, dir, name, node) {
            Ok(ino) => Ok(ino),
            Err(error) => Err(error),
        },
        None => unreachable!(),
    }
}
