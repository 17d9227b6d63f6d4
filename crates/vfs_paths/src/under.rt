ghost use Rattle.std.specs.Prelude.{◌≡◌, ◌≤◌, ◌==◌};
ghost use Rattle.std.specs.List.{list_any};
ghost use Rattle.vfs_tree.specs.Layers as layers;

use vfs_tree::{MountKind, NameView, Place};

fn depth_within<V: NameView>(view: &V, mounts: u64, mount: u32) -> u64
    ensures depth { result ≡ layers.depth_within mounts (V.facts view.now) mount }
    ensures bound { result ≤ mounts }
{
    if mounts == 0 {
        return 0;
    }
    match view.mount(mount) {
        Some(found) => match &found.kind {
            MountKind::Mem => 0,
            MountKind::Null { layer } => 1 + depth_within(view, mounts - 1, layer.mount()),
            MountKind::Union { lower, .. } => 1 + depth_within(view, mounts - 1, lower.mount()),
        },
        None => 0,
    }
}

/// How many layers a place has under it: none in a memory mount, and one more than the lower layer in a null mount or a
/// union.
pub fn depth<V: NameView>(view: &V, place: &Place) -> u64
    ensures { result ≡ layers.depth (V.facts view.now) place.now }
{
    let mount = place.mount();
    depth_within(view, u64::from(mount) + 1, mount)
}

fn has_within<V: NameView>(view: &V, mounts: u64, mount: u32, store: u32) -> bool
    ensures { result ≡ list_any (λ s. s == store) (layers.stores_within mounts (V.facts view.now) mount) }
{
    if mounts == 0 {
        return false;
    }
    match view.mount(mount) {
        Some(found) => match &found.kind {
            MountKind::Mem => mount == store,
            MountKind::Null { layer } => has_within(view, mounts - 1, layer.mount(), store),
            MountKind::Union {
                store: upper,
                lower,
                ..
            } => *upper == store || has_within(view, mounts - 1, lower.mount(), store),
        },
        None => false,
    }
}

/// Whether a place's mount rests on a memory mount: it is that one, or one of its layers rests on it.
pub fn has_store<V: NameView>(view: &V, place: &Place, store: u32) -> bool
    ensures { result ≡ list_any (λ s. s == store) (layers.stores (V.facts view.now) place.now) }
{
    let mount = place.mount();
    has_within(view, u64::from(mount) + 1, mount, store)
}
