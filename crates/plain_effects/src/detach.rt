// A forced unmount cuts a mount off, and each that stands on it.
ghost use Rattle.std.specs.Prelude.{◌≡◌, OnOk, OnErr};
ghost use Rattle.std.specs.FinMap.{entries};
ghost use Rattle.std.specs.FinMap as map;
ghost use Rattle.vfs_tree.specs.Mounts.{cut_with};
ghost use Rattle.call_model.specs.Effects.{each, detached};
ghost use Rattle.plain_effects.specs.Entries.{changed_at, changed_key};

use crate::entries::number_at;
use plain_views::is_of;
use std::alloc::AllocError;
use vfs_tree::World;

/// The mount under a key is cut, where it is a mount or stands on it.
fn cut_key(world: &mut World, key: u32, mount: u32)
    ensures { world.new ≡ record world.old { mounts = changed_key (cut_with world.old.mounts mount) world.old.mounts key (map.get world.old.mounts key) } }
{
    let number = match world.mounts.get(key) {
        Some(found) => found.number,
        None => return,
    };
    let cut = is_of(world, mount, number);
    match world.mounts.get_mut(key) {
        Some(found) => found.cut = found.cut || cut,
        None => (),
    }
}

/// The mount at an index is cut, where it is a mount or stands on it.
fn cut_at(world: &mut World, at: usize, mount: u32)
    ensures mounts { entries world.new.mounts ≡ changed_at at (cut_with world.old.mounts mount) (entries world.old.mounts) }
    ensures rest { world.new ≡ record world.old { mounts = world.new.mounts } }
{
    match number_at(&world.mounts, at) {
        Some(key) => cut_key(world, key, mount),
        None => (),
    }
}

/// A mount is cut, and each that stands on it.
fn cut_all(world: &mut World, mount: u32)
    ensures { world.new ≡ record world.old { mounts = each (cut_with world.old.mounts mount) world.old.mounts } }
{
    for at in 0..world.mounts.len() {
        cut_at(world, at, mount);
    }
}

/// A caller's forced unmount cuts a mount off, and each that stands on it; the caller is leaving it. The only fault is want
/// of memory.
pub(crate) fn detach(world: &mut World, caller: u32, mount: u32) -> Result<(), AllocError>
    ensures detached { OnOk result (world.new ≡ detached world.old caller mount) }
    ensures err { OnErr result (world.new ≡ world.old) }
{
    match world.leaving.insert(caller, mount) {
        Ok(_) => {
            cut_all(world, mount);
            Ok(())
        }
        Err(error) => Err(error),
    }
}
