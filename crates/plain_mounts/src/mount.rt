// New mounts.
ghost use Rattle.std.specs.Prelude.{◌≡◌, ◌<◌, IfOk, IfErr, IsSome, OnOk, OnErr};
ghost use Rattle.std.specs.FinMap as map;
ghost use Rattle.vfs_tree.specs.Nodes.{IsNumbered};
ghost use Rattle.call_model.specs.MountRows as rows;
ghost use Rattle.plain_checks.specs.Coming.{Answers, Comes};
ghost use Rattle.plain_mounts.specs.Added.{with_mem, with_value};

use finite_maps::{Duplicate, NumberMap};
use plain_checks::{Answer, Stop, dir_at, made};
use std::alloc::{AllocError, Global};
use vfs_paths::{depth, has_store};
use vfs_tree::{CountedStore, Errno, Found, Mount, MountKind, NodeId, Place, View, World};

/// ENFILE where there may be no mount more, leaving ones counted; ENOSPC where no number is left for it.
#[tactic(auto, using(plain_checks::proofs::Binding::stops, plain_checks::proofs::Binding::goes))]
fn check_mounts(world: &World) -> Result<(), Stop>
    ensures checked { Comes (rows.check_mounts world.now) result }
    ensures number { OnOk result (world.now.next_mount < 4294967295) }
{
    if world.mounts.len() >= world.limits.mounts as usize {
        return Err(Stop::Refused {
            errno: Errno::ENFILE,
        });
    }
    if world.next_mount == 4294967295 {
        return Err(Stop::Refused {
            errno: Errno::ENOSPC,
        });
    }
    Ok(())
}

/// Adds a mount on a directory. The only fault is want of memory.
fn add_mount(world: &mut World, kind: MountKind, on: Place) -> Result<(), AllocError>
    requires { world.old.next_mount < 4294967295 }
    ensures made { OnOk result (world.new ≡ rows.with_mount world.old kind on) }
    ensures err { OnErr result (world.new ≡ world.old) }
{
    let number = world.next_mount;
    let mount = Mount {
        number,
        kind,
        on: Some(on),
        cut: false,
    };
    match world.mounts.insert(number, mount) {
        Ok(_) => {
            world.next_mount = number + 1;
            Ok(())
        }
        Err(error) => Err(error),
    }
}

/// Puts back what stood at a number at which there is a store now. It needs no memory.
fn put_back(stores: &mut NumberMap<CountedStore>, number: u32, before: Option<CountedStore>)
    requires { IsSome (map.get stores.old number) }
    ensures { stores.new ≡ with_value stores.old number before }
{
    match before {
        Some(store) => {
            let _ = stores.insert(number, store);
        }
        None => {
            stores.remove(number);
        }
    }
}

/// Adds a memory file system on a directory. The only fault is want of memory.
fn add_mem(alloc: Global, world: &mut World, on: Place) -> Result<(), AllocError>
    requires number { world.old.next_mount < 4294967295 }
    requires stores { IsNumbered world.old }
    ensures made { OnOk result (world.new ≡ with_mem world.old on) }
    ensures err { OnErr result (world.new ≡ world.old) }
    ensures kept { IsNumbered world.new }
{
    let number = world.next_mount;
    let store = CountedStore::new(alloc)?;
    let before = world.stores.insert(number, store)?;
    match add_mount(world, MountKind::Mem, on) {
        Ok(()) => Ok(()),
        Err(error) => {
            put_back(&mut world.stores, number, before);
            Err(error)
        }
    }
}

/// mount(2) of a memory file system, as tmpfs(5).
#[tactic(auto, using(plain_checks::proofs::Binding::stops_answer, plain_checks::proofs::Binding::goes_answer, plain_checks::proofs::Binding::kept_answer))]
pub fn mount_mem(alloc: Global, world: &mut World, found: Found) -> Result<Answer, Stop>
    requires { IsNumbered world.old }
    ensures answered { Answers (rows.mount_mem world.old found) world.old world.new result }
    ensures kept { IsNumbered world.new }
{
    let on = dir_at(world, found)?;
    check_mounts(world)?;
    made(add_mem(alloc, world, on))?;
    Ok(Answer::done())
}

/// mount(2) of a null layer, as mount_nullfs(8). EDEADLK where the layer is the covered directory itself, ELOOP where four
/// layers stand under it already.
#[tactic(auto, using(plain_checks::proofs::Binding::stops_answer, plain_checks::proofs::Binding::goes_answer, plain_checks::proofs::Binding::kept_answer))]
pub fn mount_null(world: &mut World, layer: Found, on: Found) -> Result<Answer, Stop>
    requires { IsNumbered world.old }
    ensures answered { Answers (rows.mount_null world.old layer on) world.old world.new result }
    ensures kept { IsNumbered world.new }
{
    let layer = dir_at(world, layer)?;
    let on = dir_at(world, on)?;
    if layer.same(&on) {
        return Err(Stop::Refused {
            errno: Errno::EDEADLK,
        });
    }
    if depth(world, &layer) == 4 {
        return Err(Stop::Refused {
            errno: Errno::ELOOP,
        });
    }
    check_mounts(world)?;
    made(add_mount(world, MountKind::Null { layer }, on))?;
    Ok(Answer::done())
}

/// The node of a directory that may be the upper layer of a union: one of a memory file system.
fn upper_of(place: &Place) -> Result<NodeId, Stop>
    ensures { Comes (rows.upper_of place.now) result }
{
    match &place.view {
        View::Mem { mount, ino } => Ok(NodeId {
            store: *mount,
            ino: *ino,
        }),
        View::Null { .. } => Err(Stop::Refused {
            errno: Errno::EINVAL,
        }),
        View::UnionUp { .. } => Err(Stop::Refused {
            errno: Errno::EINVAL,
        }),
        View::UnionLow { .. } => Err(Stop::Refused {
            errno: Errno::EINVAL,
        }),
    }
}

/// A copy of a place.
fn copy_place(alloc: Global, place: &Place) -> Result<Place, Stop>
    ensures copy { IfOk result (λ copy. copy ≡ place.now) }
    ensures err { IfErr result (λ why. why ≡ Stop.NoMemory) }
{
    match place.duplicate(alloc) {
        Ok(copy) => Ok(copy),
        Err(_) => Err(Stop::NoMemory),
    }
}

/// mount(2) of a union, as mount_unionfs(8). EINVAL where the upper layer is no directory of a memory file system or the
/// lower one, which the mount covers, rests on that; ELOOP where four layers stand under the lower one already.
#[tactic(auto, using(plain_checks::proofs::Binding::stops_answer, plain_checks::proofs::Binding::goes_answer, plain_checks::proofs::Binding::kept_answer))]
pub fn mount_union(
    alloc: Global,
    world: &mut World,
    upper: Found,
    lower: Found,
) -> Result<Answer, Stop>
    requires { IsNumbered world.old }
    ensures answered { Answers (rows.mount_union world.old upper lower) world.old world.new result }
    ensures kept { IsNumbered world.new }
{
    let up = dir_at(world, upper)?;
    let on = dir_at(world, lower)?;
    let NodeId { store, ino } = upper_of(&up)?;
    if has_store(world, &on, store) {
        return Err(Stop::Refused {
            errno: Errno::EINVAL,
        });
    }
    if depth(world, &on) == 4 {
        return Err(Stop::Refused {
            errno: Errno::ELOOP,
        });
    }
    check_mounts(world)?;
    let lower = copy_place(alloc, &on)?;
    let kind = MountKind::Union {
        store,
        upper: ino,
        lower,
    };
    made(add_mount(world, kind, on))?;
    Ok(Answer::done())
}
