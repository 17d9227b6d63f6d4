ghost use Rattle.std.specs.Prelude.{ℕ, List, None, if◌then◌else◌, ◌≡◌, ◌==◌, ◌+◌, ◌-◌, ◌<◌, ◌≤◌, ◌++◌, ◌∷◌, [], true, false, length, insert, remove, set, vec_len, vec_capacity, Some, OnOk, IfOk, IfSome, IfNone};
ghost use Rattle.mem_dir.specs.Records.{is_below, record_at, name_at, with_records, gives_some};
ghost use Rattle.mem_dir.specs.Directory.{listed};
ghost use Rattle.std.specs.List.{filter_map};
ghost use Rattle.mem_dir.specs.declared.block.TheConstants.{MOST, HALF};

use finite_maps::Duplicate;
use std::alloc::{AllocError, Global};
use std::cmp::Ordering;
use std::marker::Model;
use vfs_tree::{Name, NameEntry, NameMap};

/// How many records a block has at most.
pub const MOST: usize = 64;

/// How many records stay in a block that is split.
pub const HALF: usize = 32;

/// Records of names in byte order, at most `MOST`, with room for as many. Contracts see the list of the records.
#[derive(Debug, Drop)]
pub struct Block {
    records: Vec<(Name, NameEntry)>,
}

impl Model for Block {
    ghost use Rattle.std.specs.Prelude.{List, ◌≤◌, vec_len, vec_capacity};
    ghost use Rattle.mem_dir.specs.Records.{Record};
    ghost use Rattle.mem_dir.specs.declared.block.TheConstants.{MOST};

    ghost Value = { List Record };

    ghost view = { λ b. b.records.items };

    ghost invariant = { λ b. (vec_len b.records ≤ MOST) × (MOST ≤ vec_capacity b.records) };
}

/// Whether the name comes before the other.
pub fn is_below(name: &Name, other: &Name) -> bool
    ensures { result ≡ is_below name.now other.now }
{
    match name.cmp(other) {
        Ordering::Less => true,
        Ordering::Equal | Ordering::Greater => false,
    }
}

/// Moves the records behind the first `HALF` to an empty vector that has room for them.
fn move_back(from: &mut Vec<(Name, NameEntry)>, to: &mut Vec<(Name, NameEntry)>)
    requires full { vec_len from.old ≡ MOST }
    requires empty { to.old.items ≡ [] }
    requires room { MOST ≤ vec_capacity to.old }
    ensures joined { from.new.items ++ to.new.items ≡ from.old.items }
    ensures half { vec_len from.new ≡ HALF }
    ensures rest { vec_len to.new ≡ MOST - HALF }
    ensures kept { vec_capacity from.new ≡ vec_capacity from.old }
    ensures kept_room { MOST ≤ vec_capacity to.new }
{
    while HALF < from.len() {
        if let Some(record) = from.pop() {
            to.push(record).unwrap();
        }
    }
    to.reverse();
}

/// Whether the entry is a whiteout where whiteouts are asked for, and an inode else.
fn is_listed(white: bool, entry: &NameEntry) -> bool
    ensures { (name : List ℕ) → listed white (name, entry.now) ≡ (if result then Some name else None) }
{
    match entry {
        NameEntry::Ino { ino: _ } => !white,
        NameEntry::White => white,
    }
}

/// Appends the names of the records that give a whiteout, or those that give an inode.
fn list_records(
    alloc: Global,
    records: &[(Name, NameEntry)],
    white: bool,
    names: &mut Vec<Name>,
) -> Result<(), AllocError>
    ensures { OnOk result (names.new.items ≡ names.old.items ++ filter_map (listed white) records.now) }
{
    for (name, entry) in records {
        if is_listed(white, entry) {
            names.push(name.duplicate(alloc)?)?;
        }
    }
    Ok(())
}

/// Puts a copy of each record into the map. The only fault is want of memory.
fn copy_records(
    alloc: Global,
    records: &[(Name, NameEntry)],
    names: &mut NameMap<NameEntry>,
) -> Result<(), AllocError>
    ensures { OnOk result (names.new ≡ with_records names.old records.now) }
{
    for (name, entry) in records {
        let name = name.duplicate(alloc)?;
        names.insert(name, *entry)?;
    }
    Ok(())
}

impl Block {
    /// A block without records. The only fault is want of memory.
    pub fn new(alloc: Global) -> Result<Block, AllocError>
        ensures { IfOk result (λ block. block ≡ []) }
    {
        Ok(Block {
            records: Vec::with_capacity(alloc, MOST)?,
        })
    }

    /// How many records there are.
    pub fn len(&self) -> usize
        ensures len { result ≡ length self.now }
        ensures most { result ≤ MOST }
    {
        self.records.len()
    }

    /// Whether there is no room for another record.
    pub fn is_full(&self) -> bool
        ensures full { result ≡ (length self.now == MOST) }
        ensures most { length self.now ≤ MOST }
    {
        self.records.len() == MOST
    }

    /// The name at a place.
    pub fn name(&self, at: usize) -> &Name
        requires { at < length self.now }
        ensures { result.now ≡ name_at self.now at }
    {
        &self.records[at].0
    }

    /// The place of the first name that is not below this one, or the number of records.
    pub fn place(&self, name: &Name) -> usize
        ensures within { result ≤ length self.now }
        ensures below { 0 < result → is_below (name_at self.now (result - 1)) name.now ≡ true }
        ensures from { result < length self.now → is_below (name_at self.now result) name.now ≡ false }
    {
        let mut low = 0;
        let mut high = self.len();
        while low < high {
            let middle = low + (high - low) / 2;
            if is_below(self.name(middle), name) {
                low = middle + 1;
            } else {
                high = middle;
            }
        }
        low
    }

    /// What the name gives, if the name at the place is not behind it. `None` comes exactly where it is.
    pub fn entry(&self, at: usize, name: &Name) -> Option<NameEntry>
        ensures some { IfSome result (λ entry. (at < length self.now) × (is_below name.now (name_at self.now at) ≡ false) × (entry ≡ (record_at self.now at).1)) }
        ensures none { IfNone result (at < length self.now → is_below name.now (name_at self.now at) ≡ true) }
    {
        if self.len() <= at || is_below(name, self.name(at)) {
            None
        } else {
            Some(self.records[at].1)
        }
    }

    /// Lets the name at a place give something else.
    pub fn put(&mut self, at: usize, entry: NameEntry)
        requires { at < length self.old }
        ensures { self.new ≡ set self.old at (name_at self.old at, entry) }
    {
        self.records[at].1 = entry;
    }

    /// Puts a record at a place of a block that has room, without memory.
    pub fn insert(&mut self, at: usize, name: Name, entry: NameEntry)
        requires within { at ≤ length self.old }
        requires room { length self.old < MOST }
        ensures { self.new ≡ insert self.old at (name, entry) }
    {
        self.records.insert(at, (name, entry)).unwrap();
    }

    /// Takes the record at a place away.
    pub fn remove(&mut self, at: usize)
        requires { at < length self.old }
        ensures { self.new ≡ remove self.old at }
    {
        self.records.remove(at);
    }

    /// Takes the last record away and answers it. `None` comes exactly where there is none.
    pub fn pop(&mut self) -> Option<(Name, NameEntry)>
        ensures last { IfSome result (λ pair. self.old ≡ self.new ++ pair ∷ []) }
        ensures none { IfNone result (self.old ≡ []) }
    {
        self.records.pop()
    }

    /// Whether some name gives an inode.
    pub fn gives_some(&self) -> bool
        ensures { result ≡ gives_some self.now }
    {
        self.records.iter().any(|record| record.1.is_given())
    }

    /// Puts a record at a place of a full block, and moves the records of the upper half to an empty block, without
    /// memory.
    pub fn insert_split(&mut self, upper: &mut Block, at: usize, name: Name, entry: NameEntry)
        requires full { length self.old ≡ MOST }
        requires empty { upper.old ≡ [] }
        requires within { at ≤ MOST }
        ensures joined { self.new ++ upper.new ≡ insert self.old at (name, entry) }
        ensures filled { 0 < length self.new }
        ensures upper_filled { 0 < length upper.new }
    {
        move_back(&mut self.records, &mut upper.records);
        if at <= HALF {
            self.insert(at, name, entry);
        } else {
            upper.insert(at - HALF, name, entry);
        }
    }

    /// Appends the names that give a whiteout, or those that give an inode. The only fault is want of memory.
    pub fn list_into(
        &self,
        alloc: Global,
        white: bool,
        names: &mut Vec<Name>,
    ) -> Result<(), AllocError>
        ensures { OnOk result (names.new.items ≡ names.old.items ++ filter_map (listed white) self.now) }
    {
        list_records(alloc, &self.records, white, names)
    }

    /// Puts a copy of each record into the map. The only fault is want of memory.
    pub fn copy_into(&self, alloc: Global, names: &mut NameMap<NameEntry>) -> Result<(), AllocError>
        ensures { OnOk result (names.new ≡ with_records names.old self.now) }
    {
        copy_records(alloc, &self.records, names)
    }
}
