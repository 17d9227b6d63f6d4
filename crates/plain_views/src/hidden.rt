// Names of a lower part, by the directories above it that hide some.
ghost use Rattle.std.specs.Prelude.{◌≡◌, ◌||◌};
ghost use Rattle.vfs_tree.specs.Visible.{names_at, given_names};
ghost use Rattle.plain_views.specs.Hidden as hidden;

use vfs_tree::{Name, NameEntry, NameMap, NodeId, World};

/// Whether one of the directories above has an entry for a name, be it a whiteout.
fn is_hidden(world: &World, above: &[NodeId], name: &Name) -> bool
    ensures { result ≡ hidden.is_hidden world.now above.now name.now }
{
    for dir in above {
        if world.entry(dir.store, dir.ino, name).is_some() {
            return true;
        }
    }
    false
}

/// Whether a name gives an inode and none of the directories above hides it.
fn has_unhidden(world: &World, above: &[NodeId], names: &NameMap<NameEntry>) -> bool
    ensures { result ≡ hidden.any_unhidden world.now above.now (given_names names.now) }
{
    for (name, entry) in names.iter() {
        if let NameEntry::Ino { .. } = entry {
            if !is_hidden(world, above, name) {
                return true;
            }
        }
    }
    false
}

/// Whether a name was found before, or one of a directory of a store gives an inode and none of the directories above
/// hides it.
pub fn has_unhidden_at(world: &World, above: &[NodeId], found: bool, store: u32, dir: u32) -> bool
    ensures { result ≡ (found || hidden.any_unhidden world.now above.now (given_names (names_at world.now store dir))) }
{
    if found {
        return true;
    }
    match world.names(store, dir) {
        Some(names) => has_unhidden(world, above, names),
        None => false,
    }
}
