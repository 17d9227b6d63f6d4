ghost use Rattle.std.specs.Prelude.{◌≡◌, ◌==◌, ◌||◌, [], suc, map, reverse, option_map, IfOk};
ghost use Rattle.vfs_tree.specs.Child as child;
ghost use Rattle.vfs_tree.specs.Layers.{kind_in, is_opaque};
ghost use Rattle.vfs_tree.specs.Place.{UnionUp};
ghost use Rattle.vfs_paths.specs.Way.{way_within, down};

use crate::layers::{is_dir, is_linked_at, is_opaque, parent_ino, upper_store};
use finite_maps::Duplicate;
use std::alloc::{AllocError, Global};
use vfs_tree::{Child, MountKind, Name, NameEntry, NameView, Need, Place, View};

/// What a directory of a memory file system has at a name: nothing where a whiteout stands.
fn child_mem(mount: u32, entry: Option<NameEntry>) -> Child
    ensures { result ≡ child.child_mem mount entry }
{
    match entry {
        Some(NameEntry::Ino { ino }) => Child::At {
            place: Place::mem(mount, ino),
        },
        Some(NameEntry::White) => Child::Absent,
        None => Child::Absent,
    }
}

/// What the lower directory has, as a null mount shows it.
fn child_null(alloc: Global, mount: u32, below: Child) -> Result<Child, AllocError>
    ensures { IfOk result (λ c. c ≡ child.child_null mount below) }
{
    match below {
        Child::At { place } => Ok(Child::At {
            place: Place::null(alloc, mount, place)?,
        }),
        Child::Absent => Ok(Child::Absent),
        Child::Need { need } => Ok(Child::Need { need }),
    }
}

/// What the lower layer alone has, as a union shows it: a directory needs its shadow in the upper layer first.
fn child_low<V: NameView>(
    alloc: Global,
    view: &V,
    mount: u32,
    dir: u32,
    name: &Name,
    below: Child,
) -> Result<Child, AllocError>
    ensures { IfOk result (λ c. c ≡ child.child_low (V.facts view.now) mount dir name.now below) }
{
    match below {
        Child::At { place } => {
            let name = name.duplicate(alloc)?;
            if is_dir(view, &place) {
                return Ok(Child::Need {
                    need: Need { mount, dir, name },
                });
            }
            Ok(Child::At {
                place: Place::union_low(alloc, mount, dir, name, place)?,
            })
        }
        Child::Absent => Ok(Child::Absent),
        Child::Need { need } => Ok(Child::Need { need }),
    }
}

/// The child where it is a directory.
fn only_dir<V: NameView>(view: &V, found: Child) -> Child
    ensures { result ≡ child.only_dir (V.facts view.now) found }
{
    match found {
        Child::At { place } => {
            if is_dir(view, &place) {
                Child::At { place }
            } else {
                Child::Absent
            }
        }
        Child::Absent => Child::Absent,
        Child::Need { need } => Child::Need { need },
    }
}

/// Whether a union shows nothing of the lower layer in a directory, or it is the root of its store.
fn ends_way<V: NameView>(view: &V, store: u32, dir: u32) -> bool
    ensures { result ≡ (is_opaque (V.facts view.now) store dir || (dir == 1)) }
{
    is_opaque(view, store, dir) || dir == 1
}

/// The names on the way from a union's upper layer down to a directory, the uppermost last. `None` comes where one of the
/// directories is opaque or the root of its store. The only fault is want of memory.
fn way_up<'a, V: NameView>(
    alloc: Global,
    view: &'a V,
    store: u32,
    upper: u32,
    dir: u32,
) -> Result<Option<Vec<&'a Name>>, AllocError>
    ensures { IfOk result
        (λ way. option_map (λ v. reverse (map (λ n. n.now) v.items)) way ≡ way_within child.steps (V.facts view.now) store upper dir []) }
{
    let mut names = Vec::new(alloc);
    let mut at = dir;
    for _passed in 0..u32::MAX {
        if at == upper {
            return Ok(Some(names));
        }
        if ends_way(view, store, at) {
            return Ok(None);
        }
        match view.name_of(store, at) {
            Some(name) => names.push(name)?,
            None => return Ok(None),
        }
        at = parent_ino(view, store, at);
    }
    Ok(None)
}

/// What the upper layer of a union has at a name of a directory.
fn upper_entry<V: NameView>(view: &V, mount: u32, dir: u32, name: &Name) -> Option<NameEntry>
    ensures { result ≡ child.upper_entry (V.facts view.now) (kind_in (V.facts view.now) mount) dir name.now }
{
    match view.mount(mount) {
        Some(found) => match &found.kind {
            MountKind::Union { store, .. } => view.entry(*store, dir, name),
            MountKind::Mem => None,
            MountKind::Null { .. } => None,
        },
        None => None,
    }
}

/// What the directory that was found, if one was, has at a name.
#[cycle(child)]
fn child_below<V: NameView>(
    alloc: Global,
    view: &V,
    mounts: u64,
    found: Child,
    name: &Name,
) -> Result<Child, AllocError>
    ensures { IfOk result
        (λ c. c ≡ child.child_below (child.child_within mounts (V.facts view.now)) found name.now) }
{
    match found {
        Child::At { place } => child_within(alloc, view, mounts, &place, name),
        Child::Absent => Ok(Child::Absent),
        Child::Need { need } => Ok(Child::Need { need }),
    }
}

/// What the lower layer has at the end of a way, where directories lead to it.
#[cycle(child)]
fn down<V: NameView>(
    alloc: Global,
    view: &V,
    mounts: u64,
    lower: &Place,
    mut way: Vec<&Name>,
) -> Result<Child, AllocError>
    ensures { IfOk result
        (λ c. c ≡ down (V.facts view.now) (child.child_within mounts (V.facts view.now)) (Child.At lower.now) (reverse (map (λ n. n.now) way.entry.items))) }
{
    let mut found = Child::At {
        place: lower.duplicate(alloc)?,
    };
    while let Some(name) = way.pop() {
        let below = child_below(alloc, view, mounts, found, name)?;
        found = only_dir(view, below);
    }
    Ok(found)
}

/// The lower part of a directory of a union, through at most that many mounts.
#[cycle(child)]
fn low_within<V: NameView>(
    alloc: Global,
    view: &V,
    mounts: u64,
    mount: u32,
    dir: u32,
) -> Result<Child, AllocError>
    ensures { IfOk result
        (λ c. c ≡ child.low_by (V.facts view.now) (child.child_within mounts (V.facts view.now)) dir (kind_in (V.facts view.now) mount)) }
{
    match view.mount(mount) {
        Some(found) => match &found.kind {
            MountKind::Union {
                store,
                upper,
                lower,
            } => {
                if !is_linked_at(view, *store, dir) {
                    return Ok(Child::Absent);
                }
                match way_up(alloc, view, *store, *upper, dir)? {
                    Some(way) => down(alloc, view, mounts, lower, way),
                    None => Ok(Child::Absent),
                }
            }
            MountKind::Mem => Ok(Child::Absent),
            MountKind::Null { .. } => Ok(Child::Absent),
        },
        None => Ok(Child::Absent),
    }
}

/// What a union's directory has at a name: what its upper layer has there, and else what the lower part has.
#[cycle(child)]
fn child_union<V: NameView>(
    alloc: Global,
    view: &V,
    mounts: u64,
    mount: u32,
    dir: u32,
    name: &Name,
) -> Result<Child, AllocError>
    ensures { IfOk result
        (λ c. c ≡ child.child_within (suc mounts) (V.facts view.now) (UnionUp mount dir) name.now) }
{
    match upper_entry(view, mount, dir, name) {
        Some(NameEntry::Ino { ino }) => Ok(Child::At {
            place: Place::union_up(mount, ino),
        }),
        Some(NameEntry::White) => Ok(Child::Absent),
        None => {
            let part = low_within(alloc, view, mounts, mount, dir)?;
            let below = child_below(alloc, view, mounts, part, name)?;
            child_low(alloc, view, mount, dir, name, below)
        }
    }
}

/// What a directory has at a name, through at most that many mounts.
#[cycle(child)]
fn child_within<V: NameView>(
    alloc: Global,
    view: &V,
    mounts: u64,
    dir: &Place,
    name: &Name,
) -> Result<Child, AllocError>
    ensures { IfOk result (λ c. c ≡ child.child_within mounts (V.facts view.now) dir.now name.now) }
{
    if mounts == 0 {
        return Ok(Child::Absent);
    }
    match &dir.view {
        View::Mem { mount, ino } => Ok(child_mem(*mount, view.entry(*mount, *ino, name))),
        View::Null { mount, lower } => {
            let below = child_within(alloc, view, mounts - 1, lower, name)?;
            child_null(alloc, *mount, below)
        }
        View::UnionUp { mount, ino } => { child_union(alloc, view, mounts - 1, *mount, *ino, name) }
        View::UnionLow { .. } => Ok(Child::Absent),
    }
}

/// What a directory has at a name: a place, nothing, or a directory of a union's lower layer alone, which needs its shadow
/// first. It crosses no mounts. The only fault is want of memory.
pub fn child_of<V: NameView>(
    alloc: Global,
    view: &V,
    dir: &Place,
    name: &Name,
) -> Result<Child, AllocError>
    ensures { IfOk result (λ found. found ≡ child.child_of (V.facts view.now) dir.now name.now) }
{
    child_within(alloc, view, u64::from(dir.mount()) + 1, dir, name)
}

/// What a union's directory has below it: a directory of the lower layer, nothing, or a directory that needs a shadow
/// first. The only fault is want of memory.
pub fn low<V: NameView>(alloc: Global, view: &V, mount: u32, dir: u32) -> Result<Child, AllocError>
    ensures { IfOk result (λ found. found ≡ child.low (V.facts view.now) mount dir) }
{
    low_within(alloc, view, u64::from(mount), mount, dir)
}
