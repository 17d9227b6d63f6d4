// Edits of a world through a place: of the store on whose node the place rests.
ghost use Rattle.std.specs.Prelude.{◌≡◌, ◌==◌, ◌⊎◌, true, false, IfOk, IfErr, OnOk, OnErr};
ghost use Rattle.std.specs.FinMap as map;
ghost use Rattle.vfs_tree.specs.Carriers.{is_in_union};
ghost use Rattle.vfs_tree.specs.Edits.{made};
ghost use Rattle.vfs_tree.specs.Layers as layers;
ghost use Rattle.vfs_tree.specs.Nodes.{AreBelow, IsNumbered, next_of};
ghost use Rattle.vfs_tree.specs.StoreEdits.{set_entry, clear_entry, renamed};
ghost use Rattle.vfs_tree.specs.Views.{facts_of};
ghost use Rattle.vfs_tree.specs.declared.errno.Errno.TheVariants.{ENOSPC};
ghost use Rattle.vfs_tree.specs.declared.node.NameEntry.TheVariants.{Ino};
ghost use Rattle.call_model.specs.Checks as checks;
ghost use Rattle.plain_checks.specs.Coming.{Edits};

use crate::stop::Stop;
use plain_edits::{Spot, clear_white, link, remove, rename};
use std::alloc::{AllocError, Global};
use vfs_paths::base;
use vfs_tree::{CountedStore, Errno, Name, NameEntry, Node, Place, View, World};

/// Whether a directory is one of a union.
pub fn is_in_union(dir: &Place) -> bool
    ensures { result ≡ is_in_union dir.now }
{
    match &dir.bare().view {
        View::UnionUp { .. } => true,
        View::Mem { .. } => false,
        View::Null { .. } => false,
        View::UnionLow { .. } => false,
    }
}

/// Whether a whiteout stands at a name of a directory.
pub fn has_white(world: &World, dir: &Place, name: &Name) -> bool
    ensures { result ≡ checks.has_white world.now dir.now name.now }
{
    let at = base(world, dir);
    match world.entry(at.store, at.ino, name) {
        Some(NameEntry::White) => true,
        Some(NameEntry::Ino { .. }) => false,
        None => false,
    }
}

/// Makes a node at a name of a directory of a store, and answers its inode number.
fn make_in(store: &mut CountedStore, dir: u32, name: Name, node: Node) -> Result<u32, Stop>
    requires { AreBelow store.old.nodes store.old.next }
    ensures room { OnOk result ((store.old.next == 4294967295) ≡ false) }
    ensures made { OnOk result (store.new ≡ made store.old dir name node) }
    ensures number { IfOk result (λ ino. ino ≡ store.old.next) }
    ensures why { IfErr result (λ why. (why ≡ Stop.NoMemory) ⊎ ((why ≡ Stop.Refused ENOSPC) × ((store.old.next == 4294967295) ≡ true))) }
    ensures err { OnErr result (store.new ≡ store.old) }
    ensures kept { AreBelow store.new.nodes store.new.next }
{
    if store.next() == 4294967295 {
        return Err(Stop::Refused {
            errno: Errno::ENOSPC,
        });
    }
    match store.make(dir, name, node) {
        Ok(ino) => Ok(ino),
        Err(_) => Err(Stop::NoMemory),
    }
}

/// Makes a node at a name of a directory, and answers its inode number. ENOSPC comes exactly where the store has no inode
/// number left.
pub fn make_at(world: &mut World, dir: &Place, name: Name, node: Node) -> Result<u32, Stop>
    requires { IsNumbered world.old }
    ensures made { Edits (checks.make_at world.old dir.now name node) world.old world.new result }
    ensures number { IfOk result (λ ino. ino ≡ next_of (map.get world.old.stores (layers.base (facts_of world.old) dir.now).store)) }
    ensures kept { IsNumbered world.new }
{
    let at = base(world, dir);
    match world.stores.get_mut(at.store) {
        Some(store) => match make_in(store, at.ino, name, node) {
            Ok(ino) => Ok(ino),
            Err(why) => Err(why),
        },
        None => Err(Stop::Refused {
            errno: Errno::ENOSPC,
        }),
    }
}

/// Drops a name of a directory; through a union it leaves a whiteout. The only fault is want of memory.
pub fn drop_at(alloc: Global, world: &mut World, dir: &Place, name: Name) -> Result<(), AllocError>
    requires { IsNumbered world.old }
    ensures dropped { OnOk result (world.new ≡ checks.drop_at world.old dir.now name) }
    ensures err { OnErr result (world.new ≡ world.old) }
    ensures kept { IsNumbered world.new }
{
    let at = base(world, dir);
    let white = is_in_union(dir);
    match world.stores.get_mut(at.store) {
        Some(store) => match remove(alloc, store, at.ino, name, white) {
            Ok(()) => Ok(()),
            Err(error) => Err(error),
        },
        None => Ok(()),
    }
}

/// Lets a name of a directory give a node. The only fault is want of memory.
pub fn link_at(world: &mut World, dir: &Place, name: Name, ino: u32) -> Result<(), AllocError>
    requires { IsNumbered world.old }
    ensures linked { OnOk result (world.new ≡ checks.edit_at world.old dir.now (λ t d. set_entry t d name (Ino ino))) }
    ensures err { OnErr result (world.new ≡ world.old) }
    ensures kept { IsNumbered world.new }
{
    let at = base(world, dir);
    match world.stores.get_mut(at.store) {
        Some(store) => match link(store, at.ino, name, ino) {
            Ok(()) => Ok(()),
            Err(error) => Err(error),
        },
        None => Ok(()),
    }
}

/// Takes the entry at a name of a directory away.
pub fn clear_at(world: &mut World, dir: &Place, name: &Name)
    requires { IsNumbered world.old }
    ensures cleared { world.new ≡ checks.edit_at world.old dir.now (λ t d. clear_entry t d name.now) }
    ensures kept { IsNumbered world.new }
{
    let at = base(world, dir);
    match world.stores.get_mut(at.store) {
        Some(store) => clear_white(store, at.ino, name),
        None => {}
    }
}

/// Renames a name of a directory to one of another directory of the same store. The only fault is want of memory.
pub fn rename_at(
    alloc: Global,
    world: &mut World,
    from: &Place,
    old: Name,
    to: &Place,
    new: Name,
) -> Result<(), AllocError>
    requires { IsNumbered world.old }
    ensures renamed { OnOk result (world.new ≡ checks.edit_at world.old from.now
        (λ t d. renamed (is_in_union from.now) (is_in_union to.now) t d old (layers.base (facts_of world.old) to.now).ino new)) }
    ensures err { OnErr result (world.new ≡ world.old) }
    ensures kept { IsNumbered world.new }
{
    let at = base(world, from);
    let into = base(world, to);
    let white = is_in_union(from);
    let opaque = is_in_union(to);
    let from = Spot {
        dir: at.ino,
        name: old,
    };
    let to = Spot {
        dir: into.ino,
        name: new,
    };
    match world.stores.get_mut(at.store) {
        Some(store) => match rename(alloc, store, from, to, white, opaque) {
            Ok(()) => Ok(()),
            Err(error) => Err(error),
        },
        None => Ok(()),
    }
}
