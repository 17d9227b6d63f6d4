// What an entry of a directory is.
ghost use Rattle.std.specs.Prelude.{◌≡◌};
ghost use Rattle.vfs_tree.specs.Nodes.{is_given, is_white};

use vfs_tree::NameEntry;

/// Whether the entry gives an inode.
pub fn is_given(entry: Option<NameEntry>) -> bool
    ensures { result ≡ is_given entry }
{
    match entry {
        Some(NameEntry::Ino { .. }) => true,
        Some(NameEntry::White) => false,
        None => false,
    }
}

/// Whether a whiteout stands there.
pub fn is_white(entry: Option<NameEntry>) -> bool
    ensures { result ≡ is_white entry }
{
    match entry {
        Some(NameEntry::White) => true,
        Some(NameEntry::Ino { .. }) => false,
        None => false,
    }
}
