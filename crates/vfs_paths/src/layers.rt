ghost use Rattle.std.specs.Prelude.{◌≡◌, IfOk};
ghost use Rattle.std.specs.Option.{option_copied};
ghost use Rattle.vfs_tree.specs.Layers as layers;

use crate::mount_root::is_root;
use finite_maps::Duplicate;
use std::alloc::{AllocError, Global};
use vfs_tree::{Kind, MountKind, NameView, NodeId, Place, View};

/// The mount number of the memory file system in which a union has its upper layer; 0 where the mount is no union.
pub fn upper_store<V: NameView>(view: &V, mount: u32) -> u32
    ensures { result ≡ layers.store_by (layers.kind_in (V.facts view.now) mount) }
{
    match view.mount(mount) {
        Some(found) => match &found.kind {
            MountKind::Mem => 0,
            MountKind::Null { .. } => 0,
            MountKind::Union { store, .. } => *store,
        },
        None => 0,
    }
}

/// The node on which a place rests: the upper node of a union's place, and for a place that is seen through others the
/// node of the lowest.
pub fn base<V: NameView>(view: &V, place: &Place) -> NodeId
    ensures { result ≡ layers.base (V.facts view.now) place.now }
{
    match &place.view {
        View::Mem { mount, ino } => NodeId {
            store: *mount,
            ino: *ino,
        },
        View::Null { lower, .. } => base(view, lower),
        View::UnionUp { mount, ino } => NodeId {
            store: upper_store(view, *mount),
            ino: *ino,
        },
        View::UnionLow { lower, .. } => base(view, lower),
    }
}

/// What a place is: a directory, a regular file or a symbolic link. `None` comes exactly where its node isn't there.
pub fn kind_of<V: NameView>(view: &V, place: &Place) -> Option<Kind>
    ensures { result ≡ layers.kind_of (V.facts view.now) place.now }
{
    let node = base(view, place);
    view.kind(node.store, node.ino)
}

/// Whether a place is a directory.
pub fn is_dir<V: NameView>(view: &V, place: &Place) -> bool
    ensures { result ≡ layers.is_dir (V.facts view.now) place.now }
{
    match kind_of(view, place) {
        Some(Kind::Dir) => true,
        Some(Kind::File) => false,
        Some(Kind::Link) => false,
        None => false,
    }
}

/// Whether a place is a regular file.
pub fn is_file<V: NameView>(view: &V, place: &Place) -> bool
    ensures { result ≡ layers.is_file (V.facts view.now) place.now }
{
    match kind_of(view, place) {
        Some(Kind::File) => true,
        Some(Kind::Dir) => false,
        Some(Kind::Link) => false,
        None => false,
    }
}

/// The path that a place stands for. `None` comes exactly where the place is no symbolic link.
pub fn target_of<'a, V: NameView>(view: &'a V, place: &Place) -> Option<&'a [u8]>
    ensures { option_copied result ≡ layers.target_of (V.facts view.now) place.now }
{
    let node = base(view, place);
    view.target(node.store, node.ino)
}

/// Whether a directory of a store is its root or some name of the store gives it.
pub(crate) fn is_linked_at<V: NameView>(view: &V, store: u32, ino: u32) -> bool
    ensures { result ≡ layers.is_linked (V.facts view.now) store ino }
{
    match view.dir(store, ino) {
        Some(dir) => dir.linked,
        None => false,
    }
}

/// Whether the directory on which a place rests was not removed: it is the root of its store, or some name of the store
/// gives it.
pub fn is_linked<V: NameView>(view: &V, place: &Place) -> bool
    ensures { let node = layers.base (V.facts view.now) place.now in
        result ≡ layers.is_linked (V.facts view.now) node.store node.ino }
{
    let node = base(view, place);
    is_linked_at(view, node.store, node.ino)
}

/// Whether a union shows nothing of the lower layer in a directory.
pub(crate) fn is_opaque<V: NameView>(view: &V, store: u32, ino: u32) -> bool
    ensures { result ≡ layers.is_opaque (V.facts view.now) store ino }
{
    match view.dir(store, ino) {
        Some(dir) => dir.opaque,
        None => false,
    }
}

/// The inode number of the parent of a directory of a store.
pub(crate) fn parent_ino<V: NameView>(view: &V, store: u32, ino: u32) -> u32
    ensures { result ≡ layers.parent_ino (V.facts view.now) store ino }
{
    match view.dir(store, ino) {
        Some(dir) => dir.parent,
        None => ino,
    }
}

/// Whether a forced unmount has cut a mount off.
pub fn is_cut<V: NameView>(view: &V, mount: u32) -> bool
    ensures { result ≡ layers.is_cut (V.facts view.now) mount }
{
    match view.mount(mount) {
        Some(found) => found.cut,
        None => false,
    }
}

/// The parent of a directory within its mount; the mount's root is its own parent. The only fault is want of memory.
pub fn parent_in<V: NameView>(alloc: Global, view: &V, dir: &Place) -> Result<Place, AllocError>
    ensures { IfOk result (λ parent. parent ≡ layers.parent_in (V.facts view.now) dir.now) }
{
    if is_root(view, dir) {
        return dir.duplicate(alloc);
    }
    match &dir.view {
        View::Mem { mount, ino } => Ok(Place::mem(*mount, parent_ino(view, *mount, *ino))),
        View::Null { mount, lower } => {
            let parent = parent_in(alloc, view, lower)?;
            Place::null(alloc, *mount, parent)
        }
        View::UnionUp { mount, ino } => {
            let store = upper_store(view, *mount);
            Ok(Place::union_up(*mount, parent_ino(view, store, *ino)))
        }
        View::UnionLow { .. } => dir.duplicate(alloc),
    }
}
