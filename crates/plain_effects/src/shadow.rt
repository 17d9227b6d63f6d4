// Shadow directories.
ghost use Rattle.std.specs.Prelude.{◌≡◌, ◌<◌, false, OnOk, OnErr};
ghost use Rattle.std.specs.FinMap as map;
ghost use Rattle.vfs_tree.specs.Nodes.{IsNumbered, next_of};
ghost use Rattle.call_model.specs.Checks.{is_full, upper_store};
ghost use Rattle.call_model.specs.Effects.{shadowed};

use crate::upper::make_above;
use finite_maps::Duplicate;
use std::alloc::{AllocError, Global};
use vfs_tree::{Name, NameMap, Node, World};

/// Makes a shadow directory: an empty one at a name of a directory in the upper layer of a union, in which what the lower
/// layer has is seen. The only fault is want of memory.
pub(crate) fn make_shadow(
    alloc: Global,
    world: &mut World,
    mount: u32,
    dir: u32,
    name: &Name,
) -> Result<(), AllocError>
    requires numbered { IsNumbered world.old }
    requires room { is_full world.old (upper_store world.old mount) ≡ false }
    ensures made { OnOk result (world.new ≡ shadowed world.old mount dir name.now) }
    ensures small { OnOk result (next_of (map.get world.old.stores (upper_store world.old mount)) < 4294967295) }
    ensures err { OnErr result (world.new ≡ world.old) }
    ensures kept { IsNumbered world.new }
{
    let name = name.duplicate(alloc)?;
    let shadow = Node::Dir {
        parent: dir,
        opaque: false,
        names: NameMap::new(alloc),
    };
    match make_above(world, mount, dir, name, shadow) {
        Ok(_) => Ok(()),
        Err(error) => Err(error),
    }
}
