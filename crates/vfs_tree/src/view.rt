ghost use Rattle.std.specs.Prelude.{◌≡◌};
ghost use Rattle.std.specs.Option.{option_copied};
ghost use Rattle.vfs_tree.specs.Facts.{Facts};

use crate::mount::Mount;
use crate::name::Name;
use crate::node::{Kind, NameEntry};
use crate::place::Place;

/// What a walk reads of a directory.
#[derive(Clone, Copy, Debug, PartialEq, Eq)]
pub struct DirFacts {
    /// The inode number of its parent directory; the root is its own parent.
    pub parent: u32,
    /// Whether a union shows nothing of the lower layer in it.
    pub opaque: bool,
    /// Whether it is the root of its store or some name of the store gives it. A directory that was removed isn't
    /// linked.
    pub linked: bool,
}

/// The names and mounts that a walk reads, however they are kept. `None` comes exactly where there is no such thing.
pub trait NameView {
    ghost facts: { Self → Facts };

    /// What a directory of a store has at a name.
    fn entry(&self, store: u32, dir: u32, name: &Name) -> Option<NameEntry>
        ensures { result ≡ (facts self.now).entry store dir name.now };

    /// What a node of a store is.
    fn kind(&self, store: u32, ino: u32) -> Option<Kind>
        ensures { result ≡ (facts self.now).kind store ino };

    /// What is to be known of a directory of a store.
    fn dir(&self, store: u32, ino: u32) -> Option<DirFacts>
        ensures { result ≡ (facts self.now).dir store ino };

    /// The name that its parent has for a directory of a store.
    fn name_of(&self, store: u32, ino: u32) -> Option<&Name>
        ensures { option_copied result ≡ (facts self.now).name_of store ino };

    /// The path that a link of a store stands for.
    fn target(&self, store: u32, ino: u32) -> Option<&[u8]>
        ensures { option_copied result ≡ (facts self.now).target store ino };

    /// The number of the mount that covers a place.
    fn covering(&self, place: &Place) -> Option<u32>
        ensures { result ≡ (facts self.now).covering place.now };

    /// A mount by its number.
    fn mount(&self, number: u32) -> Option<&Mount>
        ensures { option_copied result ≡ (facts self.now).mount number };
}
