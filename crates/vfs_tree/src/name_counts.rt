// How many names give a node, kept beside a store so that nobody has to look at the names.
ghost use Rattle.std.specs.Prelude.{◌≡◌, true, IsTrue, Some, if◌then◌else◌};
ghost use Rattle.vfs_tree.specs.NameCounts.{known_of, unsure_if, raised, lowered, raised_for, lowered_for, replaced, first_named};

use crate::node::NameEntry;
use finite_maps::NumberMap;

/// How many names of a store give each node, as far as that is known.
#[derive(Debug, Drop)]
pub struct NameCounts {
    /// The counts by inode number; a number without one isn't known of.
    pub known: NumberMap<u64>,
    /// Whether the counts are right; nothing is known where that isn't sure.
    pub sure: bool,
}

impl NameCounts {
    /// How many names give the node. `None` comes where that isn't known.
    pub fn of(&self, ino: u32) -> Option<u64>
        ensures { result ≡ known_of self.now ino }
    {
        if self.sure {
            self.known.get(ino).copied()
        } else {
            None
        }
    }

    /// Whether it is known that one name gives the node.
    pub fn is_one(&self, ino: u32) -> bool
        ensures { IsTrue result → known_of self.now ino ≡ Some 1 }
    {
        match self.of(ino) {
            Some(count) => count == 1,
            None => false,
        }
    }

    /// Lets nothing be known, where that is said.
    pub fn forget_if(&mut self, does: bool)
        ensures { self.new ≡ unsure_if does self.old }
    {
        self.sure = self.sure && !does;
    }

    /// One name more gives the node, in a store whose next node has that number.
    fn raise(&mut self, next: u32, ino: u32)
        ensures { self.new ≡ raised next self.old ino }
    {
        self.sure = self.sure && ino < next;
        if let Some(count) = self.known.get_mut(ino) {
            self.sure = self.sure && *count < u64::MAX;
            *count = count.saturating_add(1);
        }
    }

    /// One name fewer gives the node.
    fn lower(&mut self, ino: u32)
        ensures { self.new ≡ lowered self.old ino }
    {
        if let Some(count) = self.known.get_mut(ino) {
            *count = count.saturating_sub(1);
        }
    }

    /// A name has this entry from now on.
    fn raise_for(&mut self, next: u32, entry: NameEntry)
        ensures { self.new ≡ raised_for next self.old entry }
    {
        match entry {
            NameEntry::Ino { ino } => self.raise(next, ino),
            NameEntry::White => (),
        }
    }

    /// A name doesn't have this entry any more.
    pub fn lower_for(&mut self, before: Option<NameEntry>)
        ensures { self.new ≡ lowered_for self.old before }
    {
        match before {
            Some(NameEntry::Ino { ino }) => self.lower(ino),
            Some(NameEntry::White) => (),
            None => (),
        }
    }

    /// A name that had one entry has another, where that is said.
    pub fn replace_if(&mut self, does: bool, next: u32, before: Option<NameEntry>, entry: NameEntry)
        ensures { self.new ≡ (if does then replaced next self.old before entry else self.old) }
    {
        if does {
            self.raise_for(next, entry);
            self.lower_for(before);
        }
    }

    /// A new node has its first name, which had another entry. Nothing is known any more where that isn't said, or where
    /// there is no memory for its count.
    pub fn make(&mut self, does: bool, ino: u32, before: Option<NameEntry>)
        ensures { self.new.sure ≡ true → (does ≡ true) × (self.new ≡ first_named self.old ino before) }
    {
        if !does || self.known.insert(ino, 1).is_err() {
            self.sure = false;
        }
        self.lower_for(before);
    }
}
