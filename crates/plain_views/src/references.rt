ghost use Rattle.std.specs.Prelude.{◌≡◌, ◌==◌, ◌||◌, ℕ};
ghost use Rattle.std.specs.List.{list_any};
ghost use Rattle.vfs_tree.specs.Mounts.{layers, stands_within, stands_on, is_of, covers_in, is_covered, is_open_in, is_cwd_in, is_mounted_in, has_references};

use vfs_tree::{Mount, MountKind, World};

/// Whether a mount stands on another, through at most that many layers.
#[cycle(standing)]
fn stands_within(world: &World, steps: u64, above: u32, below: u32) -> bool
    ensures { result ≡ stands_within steps world.now.mounts above below }
{
    if steps == 0 {
        return false;
    }
    match world.mounts.get(above) {
        Some(mount) => match &mount.kind {
            MountKind::Mem => false,
            MountKind::Null { layer } => lies_within(world, steps - 1, layer.mount(), below),
            MountKind::Union { store, lower, .. } => {
                lies_within(world, steps - 1, *store, below)
                    || lies_within(world, steps - 1, lower.mount(), below)
            }
        },
        None => false,
    }
}

/// Whether a layer's mount is a mount, or stands on it.
#[cycle(standing)]
fn lies_within(world: &World, steps: u64, layer: u32, below: u32) -> bool
    ensures { result ≡ ((layer == below) || stands_within steps world.now.mounts layer below) }
{
    layer == below || stands_within(world, steps, layer, below)
}

/// Whether a mount stands on another: one of its layers lies in it, or in a mount that stands on it.
pub fn stands_on(world: &World, above: u32, below: u32) -> bool
    ensures { result ≡ stands_on world.now.mounts above below }
{
    stands_within(world, above as u64 + 1, above, below)
}

/// Whether a mount is a mount, or stands on it.
pub fn is_of(world: &World, mount: u32, above: u32) -> bool
    ensures { result ≡ is_of world.now.mounts mount above }
{
    above == mount || stands_on(world, above, mount)
}

/// Whether a mount covers a place of a mount or of one that stands on it.
fn covers_of(world: &World, cover: &Mount, mount: u32) -> bool
    ensures { result ≡ covers_in world.now.leaving (is_of world.now.mounts mount) cover.now }
{
    match &cover.on {
        Some(on) => is_of(world, mount, on.mount()) && !world.is_left(cover.number),
        None => false,
    }
}

/// Whether some mount covers a place of a mount or of one that stands on it. A mount that a forced unmount is leaving
/// covers nothing.
pub fn is_covered(world: &World, mount: u32) -> bool
    ensures { result ≡ is_covered world.now mount }
{
    for (_number, cover) in world.mounts.iter() {
        if covers_of(world, cover, mount) {
            return true;
        }
    }
    false
}

/// Whether a live open file has a place of the mount.
pub fn is_open_in(world: &World, mount: u32) -> bool
    ensures { result ≡ is_open_in world.now mount }
{
    for (_key, open) in world.opens.iter() {
        if !open.dead && open.place.mount() == mount {
            return true;
        }
    }
    false
}

/// Whether a live current directory is of the mount.
pub fn is_cwd_in(world: &World, mount: u32) -> bool
    ensures { result ≡ is_cwd_in world.now mount }
{
    for (_caller, cwd) in world.cwds.iter() {
        if !cwd.dead && cwd.place.mount() == mount {
            return true;
        }
    }
    false
}

/// Whether a mount covers a place of another.
fn covers_in(world: &World, cover: &Mount, mount: u32) -> bool
    ensures { result ≡ covers_in world.now.leaving (λ (n : ℕ). n == mount) cover.now }
{
    match &cover.on {
        Some(on) => on.mount() == mount && !world.is_left(cover.number),
        None => false,
    }
}

/// Whether one of the layers lies in the mount.
fn has_layer_in(kind: &MountKind, mount: u32) -> bool
    ensures { result ≡ list_any (λ (l : ℕ). l == mount) (layers kind.now) }
{
    match kind {
        MountKind::Mem => false,
        MountKind::Null { layer } => layer.mount() == mount,
        MountKind::Union { store, lower, .. } => *store == mount || lower.mount() == mount,
    }
}

/// Whether a mount covers a place of the mount, or has a layer in it.
pub fn is_mounted_in(world: &World, mount: u32) -> bool
    ensures { result ≡ is_mounted_in world.now mount }
{
    for (_number, other) in world.mounts.iter() {
        if covers_in(world, other, mount) || has_layer_in(&other.kind, mount) {
            return true;
        }
    }
    false
}

/// Whether anything refers to a mount: a live open file or current directory, a mount that covers a place of it, or one
/// that has a layer in it.
pub fn has_references(world: &World, mount: u32) -> bool
    ensures { result ≡ has_references world.now mount }
{
    is_open_in(world, mount) || is_cwd_in(world, mount) || is_mounted_in(world, mount)
}
