// What the paths of a call found.
ghost use Rattle.std.specs.Prelude.{◌≡◌, IfOk, IfErr};
ghost use Rattle.call_model.specs.Checks as checks;
ghost use Rattle.plain_checks.specs.Coming.{Comes, stop_for};

use crate::stop::Stop;
use call_model::{Inner, Target};
use finite_maps::Duplicate;
use std::alloc::{AllocError, Global};
use vfs_paths::{is_dir, upper_store};
use vfs_tree::{Errno, Found, Name, Need, Place, View, World};

/// Whether a store has no inode number left.
fn is_full(world: &World, store: u32) -> bool
    ensures { result ≡ checks.is_full world.now store }
{
    match world.stores.get(store) {
        Some(store) => store.next() == 4294967295,
        None => true,
    }
}

/// Why a call goes no further that needs an inner entry in a union: that entry, or ENOSPC where the store of the upper layer
/// has no inode number left.
fn need(world: &World, mount: u32, what: Inner) -> Stop
    ensures { result ≡ stop_for (checks.is_full world.now (checks.upper_store world.now mount)) what }
{
    if is_full(world, upper_store(world, mount)) {
        return Stop::Refused {
            errno: Errno::ENOSPC,
        };
    }
    Stop::Needs { what }
}

/// Why a call goes no further that needs a shadow directory.
pub fn need_shadow(world: &World, shadow: Need) -> Stop
    ensures { result ≡ stop_for (checks.is_full world.now (checks.upper_store world.now shadow.mount)) (Inner.Shadow shadow.mount shadow.dir shadow.name) }
{
    let mount = shadow.mount;
    need(
        world,
        mount,
        Inner::Shadow {
            mount,
            dir: shadow.dir,
            name: shadow.name,
        },
    )
}

/// The place that a walk found.
#[tactic(auto, using(crate::proofs::Binding::needs))]
pub fn place_at(world: &World, found: Found) -> Result<Place, Stop>
    ensures { Comes (checks.place_at world.now found) result }
{
    match found {
        Found::At { place } => Ok(place),
        Found::Refused { errno } => Err(Stop::Refused { errno }),
        Found::Need { need } => Err(need_shadow(world, need)),
        Found::In { .. } => Err(Stop::Refused {
            errno: Errno::EINVAL,
        }),
        Found::Dot { .. } => Err(Stop::Refused {
            errno: Errno::EINVAL,
        }),
        Found::Mount { .. } => Err(Stop::Refused {
            errno: Errno::EINVAL,
        }),
    }
}

/// The number of the mount that a walk found.
#[tactic(auto, using(crate::proofs::Binding::needs))]
pub fn mount_at(world: &World, found: Found) -> Result<u32, Stop>
    ensures { Comes (checks.mount_at world.now found) result }
{
    match found {
        Found::Mount { number } => Ok(number),
        Found::Refused { errno } => Err(Stop::Refused { errno }),
        Found::Need { need } => Err(need_shadow(world, need)),
        Found::In { .. } => Err(Stop::Refused {
            errno: Errno::EINVAL,
        }),
        Found::Dot { .. } => Err(Stop::Refused {
            errno: Errno::EINVAL,
        }),
        Found::At { .. } => Err(Stop::Refused {
            errno: Errno::EINVAL,
        }),
    }
}

/// The name that a walk found, with `dot` as the error where the path ends with no name.
#[tactic(auto, using(crate::proofs::Binding::needs))]
pub fn target_at(world: &World, dot: Errno, found: Found) -> Result<Target, Stop>
    ensures { Comes (checks.target_at world.now dot found) result }
{
    match found {
        Found::In { dir, name, child } => Ok(Target { dir, name, child }),
        Found::Dot { .. } => Err(Stop::Refused { errno: dot }),
        Found::Refused { errno } => Err(Stop::Refused { errno }),
        Found::Need { need } => Err(need_shadow(world, need)),
        Found::At { .. } => Err(Stop::Refused {
            errno: Errno::EINVAL,
        }),
        Found::Mount { .. } => Err(Stop::Refused {
            errno: Errno::EINVAL,
        }),
    }
}

/// What stands at a name; ENOENT where nothing does.
pub fn there(child: Option<Place>) -> Result<Place, Stop>
    ensures { Comes (checks.there child) result }
{
    match child {
        Some(place) => Ok(place),
        None => Err(Stop::Refused {
            errno: Errno::ENOENT,
        }),
    }
}

/// The name that a walk found, at which nothing stands; EEXIST where something does.
#[tactic(auto, using(crate::proofs::Binding::stops, crate::proofs::Binding::goes))]
pub fn free_target(world: &World, found: Found) -> Result<Target, Stop>
    ensures { Comes (checks.free_target world.now found) result }
{
    let target = target_at(world, Errno::EEXIST, found)?;
    if target.child.is_some() {
        return Err(Stop::Refused {
            errno: Errno::EEXIST,
        });
    }
    Ok(target)
}

/// The directory that a walk found; ENOTDIR where it is none.
#[tactic(auto, using(crate::proofs::Binding::stops, crate::proofs::Binding::goes))]
pub fn dir_at(world: &World, found: Found) -> Result<Place, Stop>
    ensures { Comes (checks.dir_at world.now found) result }
{
    let place = place_at(world, found)?;
    if !is_dir(world, &place) {
        return Err(Stop::Refused {
            errno: Errno::ENOTDIR,
        });
    }
    Ok(place)
}

/// A copy of a name.
fn copy_name(alloc: Global, name: &Name) -> Result<Name, Stop>
    ensures copy { IfOk result (λ copy. copy ≡ name.now) }
    ensures err { IfErr result (λ why. why ≡ Stop.NoMemory) }
{
    match name.duplicate(alloc) {
        Ok(copy) => Ok(copy),
        Err(_) => Err(Stop::NoMemory),
    }
}

/// Why a call goes no further that needs a copy of a file of a union's lower layer.
fn need_copy(world: &World, mount: u32, dir: u32, name: Name) -> Stop
    ensures { result ≡ stop_for (checks.is_full world.now (checks.upper_store world.now mount)) (Inner.CopyUp mount dir name) }
{
    need(world, mount, Inner::CopyUp { mount, dir, name })
}

#[tactic(auto, using(crate::proofs::Binding::needs, crate::proofs::Binding::lacks))]
fn copied_place(alloc: Global, world: &World, bare: &Place) -> Result<(), Stop>
    ensures { Comes (checks.copied_place world.now bare.now) result }
{
    match &bare.view {
        View::UnionLow {
            mount,
            dir,
            name,
            ..
        } => {
            let name = copy_name(alloc, name)?;
            Err(need_copy(world, *mount, *dir, name))
        }
        View::UnionUp { .. } => Ok(()),
        View::Mem { .. } => Ok(()),
        View::Null { .. } => Ok(()),
    }
}

/// Nothing, or the copy that is needed before a file of a union's lower layer alone is changed.
pub fn copied(alloc: Global, world: &World, place: &Place) -> Result<(), Stop>
    ensures { Comes (checks.copied world.now place.now) result }
{
    copied_place(alloc, world, place.bare())
}
