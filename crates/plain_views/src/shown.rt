// The names of one directory of a store, and those of a lower part added to them.
ghost use Rattle.std.specs.Prelude.{◌≡◌, IfOk, OnOk, OnErr};
ghost use Rattle.vfs_tree.specs.Visible.{names_at, given_names, merged, with_lower_name};

use finite_maps::Duplicate;
use std::alloc::{AllocError, Global};
use vfs_tree::{Name, NameEntry, NameList, NameMap, World};

/// The names that give an inode, in byte order. The only fault is want of memory.
fn given_names(alloc: Global, names: &NameMap<NameEntry>) -> Result<NameList, AllocError>
    ensures { IfOk result (λ list. list ≡ given_names names.now) }
{
    let mut given = Vec::new(alloc);
    for (name, entry) in names.iter() {
        if let NameEntry::Ino { .. } = entry {
            given.push(name.duplicate(alloc)?)?;
        }
    }
    Ok(NameList::of(given))
}

/// Adds a name of the lower part, unless the upper directory has an entry for it. The only fault is want of memory.
fn add_lower(
    alloc: Global,
    upper: &NameMap<NameEntry>,
    names: &mut NameMap<NameEntry>,
    name: &Name,
) -> Result<(), AllocError>
    ensures ok { OnOk result (names.new ≡ with_lower_name upper.now names.old name.now) }
{
    if upper.get(name).is_none() {
        names.insert(name.duplicate(alloc)?, NameEntry::Ino { ino: 0 })?;
    }
    Ok(())
}

/// The upper names that give an inode, and those of the lower part for which the upper directory has no entry, in byte
/// order. The only fault is want of memory.
fn merged(
    alloc: Global,
    upper: &NameMap<NameEntry>,
    lower: &NameList,
) -> Result<NameList, AllocError>
    ensures { IfOk result (λ list. list ≡ merged upper.now lower.now) }
{
    let mut names = upper.duplicate(alloc)?;
    let others = lower.as_slice();
    for name in others {
        add_lower(alloc, upper, &mut names, name)?;
    }
    given_names(alloc, &names)
}

/// The names of a directory of a store that give an inode. The only fault is want of memory.
pub fn given_at(alloc: Global, world: &World, store: u32, dir: u32) -> Result<NameList, AllocError>
    ensures { IfOk result (λ list. list ≡ given_names (names_at world.now store dir)) }
{
    match world.names(store, dir) {
        Some(names) => given_names(alloc, names),
        None => given_names(alloc, &NameMap::new(alloc)),
    }
}

/// The names that a union directory shows over those of its lower part. The only fault is want of memory.
pub fn merged_at(
    alloc: Global,
    world: &World,
    store: u32,
    dir: u32,
    lower: &NameList,
) -> Result<NameList, AllocError>
    ensures { IfOk result (λ list. list ≡ merged (names_at world.now store dir) lower.now) }
{
    match world.names(store, dir) {
        Some(upper) => merged(alloc, upper, lower),
        None => merged(alloc, &NameMap::new(alloc), lower),
    }
}
