ghost use Rattle.std.specs.Prelude.{◌≡◌, IfOk};
ghost use Rattle.std.specs.Option.{option_copied};
ghost use Rattle.vfs_tree.specs.Layers as layers;
ghost use Rattle.vfs_tree.specs.Place.{mount_of};

use finite_maps::Duplicate;
use std::alloc::{AllocError, Global};
use vfs_tree::{MountKind, NameView, Place, View};

/// The root of a mount, as `VFS_ROOT(9)` answers it. The only fault is want of memory.
pub fn root<V: NameView>(alloc: Global, view: &V, mount: u32) -> Result<Place, AllocError>
    ensures { IfOk result (λ root. root ≡ layers.root_of (V.facts view.now) mount) }
{
    match view.mount(mount) {
        Some(found) => match &found.kind {
            MountKind::Mem => Ok(Place::mem(mount, 1)),
            MountKind::Null { layer } => {
                let layer = layer.duplicate(alloc)?;
                Place::null(alloc, mount, layer)
            }
            MountKind::Union { upper, .. } => Ok(Place::union_up(mount, *upper)),
        },
        None => Ok(Place::mem(mount, 1)),
    }
}

/// Whether a place is the root of a mount of that kind.
fn is_root_of_kind(place: &Place, kind: &MountKind) -> bool
    ensures { result ≡ layers.same_place place.now (layers.root_by (mount_of place.now) (Some kind.now)) }
{
    match (&place.view, kind) {
        (View::Mem { ino, .. }, MountKind::Mem) => *ino == 1,
        (View::Null { lower, .. }, MountKind::Null { layer }) => lower.same(layer),
        (View::UnionUp { ino, .. }, MountKind::Union { upper, .. }) => *ino == *upper,
        _ => false,
    }
}

/// Whether a place is the root of its mount (`VV_ROOT` of vnode(9)).
pub fn is_root<V: NameView>(view: &V, place: &Place) -> bool
    ensures { result ≡ layers.is_root (V.facts view.now) place.now }
{
    match view.mount(place.mount()) {
        Some(found) => is_root_of_kind(place, &found.kind),
        None => match &place.view {
            View::Mem { ino, .. } => *ino == 1,
            View::Null { .. } => false,
            View::UnionUp { .. } => false,
            View::UnionLow { .. } => false,
        },
    }
}
