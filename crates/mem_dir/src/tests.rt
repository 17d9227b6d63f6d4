ghost use Rattle.std.specs.Prelude.{◌<◌, ◌≤◌, IsTrue, vec_len};

use super::*;
use finite_maps::Duplicate;
use std::alloc::Global;
use std::test::Fail;
use vfs_tree::{Name, NameEntry, NameMap};

/// One of a thousand names.
fn name_of(alloc: Global, number: u32) -> Result<Name, Fail> {
    let letter = b'a' + (number / 100 % 10) as u8;
    let tens = b'0' + (number / 10 % 10) as u8;
    let ones = b'0' + (number % 10) as u8;
    Ok(Name::new(alloc, [letter, tens, ones].as_slice())?)
}

/// What that name gives.
fn entry_of(number: u32) -> NameEntry {
    if number % 7 == 0 {
        NameEntry::White
    } else {
        NameEntry::Ino { ino: number }
    }
}

#[test]
fn each_call(rt: HostRuntime) -> Result<(), Fail> {
    let alloc = rt.alloc();
    let mut dir = Dir::new(alloc);
    let name = name_of(alloc, 5)?;
    assert_eq!(rt; dir.remove(&name), None);
    assert_eq!(rt; dir.find(&name), None);
    dir.reserve(alloc)?;
    dir.insert(name_of(alloc, 5)?, NameEntry::White);
    assert_eq!(rt; dir.find(&name), Some(NameEntry::White));
    assert!(rt; !dir.gives_some());
    assert_eq!(rt; dir.list(alloc)?.len(), 0);
    assert_eq!(rt; dir.list_white(alloc)?.as_slice().first(), Some(&name));
    dir.reserve(alloc)?;
    dir.insert(name_of(alloc, 5)?, NameEntry::Ino { ino: 2 });
    assert_eq!(rt; dir.list(alloc)?.as_slice().first(), Some(&name));
    assert_eq!(rt; dir.list_white(alloc)?.len(), 0);
    assert!(rt; dir.gives_some());
    assert_eq!(rt; dir.remove(&name), Some(NameEntry::Ino { ino: 2 }));
    assert_eq!(rt; dir.find(&name), None);
    assert_eq!(rt; dir.reads(), 3);
    Ok(())
}

#[test]
fn names_that_are_copied_and_cleared(rt: HostRuntime) -> Result<(), Fail> {
    let alloc = rt.alloc();
    let mut dir = Dir::new(alloc);
    let name = name_of(alloc, 5)?;
    dir.reserve(alloc)?;
    dir.insert(name_of(alloc, 5)?, NameEntry::Ino { ino: 2 });
    assert_eq!(rt; dir.peek(&name), Some(NameEntry::Ino { ino: 2 }));
    let copy = dir.copy(alloc)?;
    dir.clear();
    assert_eq!(rt; dir.peek(&name), None);
    assert_eq!(rt; dir.reads(), 0);
    assert_eq!(rt; copy.get(&name), Some(&NameEntry::Ino { ino: 2 }));
    Ok(())
}

/// Puts a thousand names into both forms, in an order that a step gives.
fn fill(
    alloc: Global,
    step: u32,
    dir: &mut Dir,
    plain: &mut NameMap<NameEntry>,
) -> Result<(), Fail> {
    for turn in 0..1000 {
        let turn: u32 = turn;
        let number = turn.wrapping_mul(step) % 1000;
        dir.reserve(alloc)?;
        dir.insert(name_of(alloc, number)?, entry_of(number));
        plain.insert(name_of(alloc, number)?, entry_of(number))?;
    }
    Ok(())
}

#[test]
fn a_thousand_names_in_three_orders(rt: HostRuntime) -> Result<(), Fail> {
    let alloc = rt.alloc();
    for step in [1, 999, 617] {
        let mut dir = Dir::new(alloc);
        let mut plain = NameMap::new(alloc);
        fill(alloc, step, &mut dir, &mut plain)?;
        let given = dir.list(alloc)?;
        let white = dir.list_white(alloc)?;
        let mut given = given.iter();
        let mut white = white.iter();
        for (name, entry) in plain.iter() {
            let listed = match entry {
                NameEntry::Ino { ino: _ } => given.next(),
                NameEntry::White => white.next(),
            };
            assert!(rt; listed == Some(name));
            assert!(rt; dir.find(name) == Some(*entry));
        }
        assert!(rt; given.next().is_none());
        assert!(rt; white.next().is_none());
        assert_eq!(rt; dir.reads(), 1000);
        for number in 0..1000 {
            let name = name_of(alloc, number)?;
            assert!(rt; dir.remove(&name) == Some(entry_of(number)));
            assert!(rt; dir.find(&name).is_none());
        }
        assert_eq!(rt; dir.list(alloc)?.len(), 0);
    }
    Ok(())
}

/// A directory's names in one vector, in byte order.
#[derive(Drop)]
struct PlainDir {
    records: Vec<(Name, NameEntry)>,
}

impl PlainDir {
    /// The place of the first name that is not below this one, or the number of records.
    fn place(&self, name: &Name) -> usize
        ensures { result ≤ vec_len self.now.records }
    {
        self.records
            .iter()
            .position(|record| *name <= record.0)
            .unwrap_or(self.records.len())
    }

    /// Whether the name stands at a place.
    fn is_at(&self, place: usize, name: &Name) -> bool
        ensures { IsTrue result → place < vec_len self.now.records }
    {
        match self.records.get(place) {
            Some(record) => record.0 == *name,
            None => false,
        }
    }

    fn insert(&mut self, name: Name, entry: NameEntry) -> Result<(), Fail> {
        let place = self.place(&name);
        if self.is_at(place, &name) {
            self.records.remove(place);
        }
        self.records.insert(place, (name, entry))?;
        Ok(())
    }

    fn remove(&mut self, name: &Name) -> Option<NameEntry> {
        let place = self.place(name);
        if self.is_at(place, name) {
            Some(self.records.remove(place).1)
        } else {
            None
        }
    }

    fn find(&self, name: &Name) -> Option<NameEntry> {
        match self.records.get(self.place(name)) {
            Some(record) if record.0 == *name => Some(record.1),
            _ => None,
        }
    }

    /// The names that give a whiteout, or those that give an inode.
    fn list(&self, alloc: Global, white: bool) -> Result<Vec<Name>, Fail> {
        let mut names = Vec::new(alloc);
        for (name, entry) in self.records.iter() {
            if (*entry == NameEntry::White) == white {
                names.push(name.duplicate(alloc)?)?;
            }
        }
        Ok(names)
    }
}

/// Lets the name of that number give the entry of another number, in both forms.
fn insert(
    alloc: Global,
    number: u32,
    what: u32,
    dir: &mut Dir,
    plain: &mut PlainDir,
) -> Result<(), Fail> {
    dir.reserve(alloc)?;
    dir.insert(name_of(alloc, number)?, entry_of(what));
    plain.insert(name_of(alloc, number)?, entry_of(what))
}

/// Takes the name of that number away from both forms. It answers whether both answer alike.
fn remove(alloc: Global, number: u32, dir: &mut Dir, plain: &mut PlainDir) -> Result<bool, Fail> {
    let name = name_of(alloc, number)?;
    Ok(dir.remove(&name) == plain.remove(&name))
}

/// Puts names into both forms in nine groups of 32, each of which fills a block by half.
fn fill_by_half(alloc: Global, dir: &mut Dir, plain: &mut PlainDir) -> Result<(), Fail> {
    for turn in 0..288 {
        let turn: u32 = turn;
        insert(alloc, turn * 3, turn, dir, plain)?;
    }
    Ok(())
}

/// Brings the blocks of every other group to 63 records, which leaves room for one.
fn fill_up(alloc: Global, dir: &mut Dir, plain: &mut PlainDir) -> Result<(), Fail> {
    for turn in 0..288 {
        let turn: u32 = turn;
        if turn / 32 % 2 == 0 && turn % 32 < 31 {
            insert(alloc, turn * 3 + 1, turn, dir, plain)?;
        }
    }
    Ok(())
}

/// Leaves the blocks of the other groups one record each.
fn thin_out(alloc: Global, dir: &mut Dir, plain: &mut PlainDir) -> Result<bool, Fail> {
    let mut alike = true;
    for turn in 0..288 {
        let turn: u32 = turn;
        if turn / 32 % 2 == 1 && 0 < turn % 32 {
            alike = remove(alloc, turn * 3, dir, plain)? && alike;
        }
    }
    Ok(alike)
}

/// The number of a name of a block near full, by a number.
fn chosen(number: u32) -> u32
    ensures { result ≤ 861 }
{
    number / 5 % 5 * 192 + number / 25 % 32 * 3
}

/// One edit of both forms, by a number: a name that is new, one that was there from the start, a removal, the removal of
/// a block's only name, or the last name. It answers whether both answer alike.
fn edit(alloc: Global, number: u32, dir: &mut Dir, plain: &mut PlainDir) -> Result<bool, Fail> {
    let which = chosen(number);
    match number % 5 {
        0 => insert(alloc, which + 2, number, dir, plain)?,
        1 => insert(alloc, which, number, dir, plain)?,
        2 => return remove(alloc, which, dir, plain),
        3 => return remove(alloc, number / 5 % 4 * 192 + 96, dir, plain),
        _ => return Ok(dir.pop_last() == plain.records.pop()),
    }
    Ok(true)
}

/// Whether both forms have the same names, and find each of the forty from that number on alike.
fn are_alike(alloc: Global, from: u32, dir: &mut Dir, plain: &PlainDir) -> Result<bool, Fail>
    requires { from ≤ 861 }
{
    for turn in 0..40 {
        let turn: u32 = turn;
        let name = name_of(alloc, from + turn)?;
        if dir.find(&name) != plain.find(&name) {
            return Ok(false);
        }
    }
    let given = dir.list(alloc)? == plain.list(alloc, false)?;
    let white = dir.list_white(alloc)? == plain.list(alloc, true)?;
    Ok(given && white)
}

/// The next of a row of numbers that look mixed.
fn mixed(number: u32) -> u32 {
    number.wrapping_mul(1664525).wrapping_add(1013904223)
}

#[test]
fn a_hundred_edits_in_blocks_and_in_one_vector(rt: HostRuntime) -> Result<(), Fail> {
    let alloc = rt.alloc();
    let mut dir = Dir::new(alloc);
    let mut plain = PlainDir {
        records: Vec::new(alloc),
    };
    fill_by_half(alloc, &mut dir, &mut plain)?;
    fill_up(alloc, &mut dir, &mut plain)?;
    assert!(rt; thin_out(alloc, &mut dir, &mut plain)?);
    assert!(rt; are_alike(alloc, 0, &mut dir, &plain)?);
    let mut number = 1;
    for step in 0..100 {
        number = mixed(number);
        let by = number / 4096;
        assert!(rt; edit(alloc, by, &mut dir, &mut plain)?, "{step}");
        assert!(rt; are_alike(alloc, chosen(by), &mut dir, &plain)?, "{step}");
    }
    for _turn in 0..plain.records.len() {
        assert!(rt; dir.pop_last() == plain.records.pop());
    }
    assert!(rt; dir.pop_last().is_none());
    Ok(())
}
