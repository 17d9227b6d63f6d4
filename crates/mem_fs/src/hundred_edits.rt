// The same edits on a memory file system and on the plain store. An edit is made on both where its checks pass.
ghost use Rattle.std.specs.Prelude.{◌≤◌};
ghost use Rattle.vfs_tree.specs.Nodes.{AreBelow};

use crate::{MemFs, NewNode, callers};
use plain_edits::Spot;
use std::alloc::{AllocError, Global};
use std::test::Fail;
use vfs_tree::{Bytes, CountedStore, Kind, Name, NameEntry, NameMap, Node, Store};

/// How many edits were made, of which kinds, and after how many the two stores differed.
#[derive(Clone, Copy, Debug)]
struct Tally {
    made: u32,
    /// Removals of a directory that had whiteouts.
    removed: u32,
    /// Renames over a directory that had whiteouts.
    replaced: u32,
    /// Renames that make a directory opaque.
    hidden: u32,
    /// Whiteouts that were taken away.
    cleared: u32,
    differing: u32,
}

/// One more, where that is said.
fn count(number: &mut u32, counts: bool) {
    if counts {
        *number = number.saturating_add(1);
    }
}

/// One of four names.
fn name_by(alloc: Global, number: u32) -> Result<Name, Fail> {
    Ok(Name::new(alloc, [b'a' + (number % 4) as u8].as_slice())?)
}

/// One of the first four numbers of nodes.
fn node_by(number: u32) -> u32 {
    number % 4 + 1
}

/// A directory or a regular file of the plain store.
fn plain_node(alloc: Global, dir: u32, white: bool, is_dir: bool) -> Node {
    if is_dir {
        Node::Dir {
            parent: dir,
            opaque: white,
            names: NameMap::new(alloc),
        }
    } else {
        Node::File {
            bytes: Bytes::new(alloc),
        }
    }
}

fn new_node(is_dir: bool) -> NewNode {
    if is_dir { NewNode::Dir } else { NewNode::File }
}

fn make(
    alloc: Global,
    number: u32,
    is_dir: bool,
    fs: &mut MemFs,
    plain: &mut CountedStore,
) -> Result<bool, Fail>
    requires { AreBelow plain.old.nodes plain.old.next }
    ensures { AreBelow plain.new.nodes plain.new.next }
{
    let dir = node_by(number);
    let name = name_by(alloc, number / 8)?;
    let white = fs.find(dir, &name) == Some(NameEntry::White);
    if callers::make(alloc, fs, dir, name, new_node(is_dir)).is_err() || plain.next() == u32::MAX {
        return Ok(false);
    }
    let name = name_by(alloc, number / 8)?;
    plain.make(dir, name, plain_node(alloc, dir, white, is_dir))?;
    Ok(true)
}

/// Puts a whiteout into the newest node, which is a directory without names.
fn put_white(
    alloc: Global,
    number: u32,
    fs: &mut MemFs,
    plain: &mut CountedStore,
) -> Result<(), Fail>
    requires { AreBelow plain.old.nodes plain.old.next }
    ensures { AreBelow plain.new.nodes plain.new.next }
{
    let dir = plain.next().saturating_sub(1);
    let name = name_by(alloc, number)?;
    callers::remove(alloc, fs, dir, &name, true)?;
    plain_edits::remove(alloc, plain, dir, name, true)?;
    Ok(())
}

/// Makes a directory, with a whiteout in every other.
fn make_dir(
    alloc: Global,
    number: u32,
    fs: &mut MemFs,
    plain: &mut CountedStore,
) -> Result<bool, Fail>
    requires { AreBelow plain.old.nodes plain.old.next }
    ensures { AreBelow plain.new.nodes plain.new.next }
{
    let made = make(alloc, number, true, fs, plain)?;
    if made && number / 32 % 2 == 0 {
        put_white(alloc, number / 64, fs, plain)?;
    }
    Ok(made)
}

/// Whether a name of a directory gives a directory that has whiteouts.
fn gives_white(alloc: Global, fs: &mut MemFs, dir: u32, name: &Name) -> Result<bool, Fail> {
    match fs.find(dir, name) {
        Some(NameEntry::Ino { ino }) => Ok(!fs.list_white(alloc, ino)?.is_empty()),
        _ => Ok(false),
    }
}

fn remove(
    alloc: Global,
    number: u32,
    fs: &mut MemFs,
    plain: &mut CountedStore,
    tally: &mut Tally,
) -> Result<bool, Fail>
    requires { AreBelow plain.old.nodes plain.old.next }
    ensures { AreBelow plain.new.nodes plain.new.next }
{
    let dir = node_by(number);
    let name = name_by(alloc, number / 8)?;
    let white = number / 32 % 2 == 0;
    let had_white = gives_white(alloc, fs, dir, &name)?;
    if callers::remove(alloc, fs, dir, &name, white).is_err() {
        return Ok(false);
    }
    count(&mut tally.removed, had_white);
    plain_edits::remove(alloc, plain, dir, name, white)?;
    Ok(true)
}

/// A name of a directory.
fn spot_by(alloc: Global, number: u32) -> Result<Spot, Fail> {
    Ok(Spot {
        dir: node_by(number),
        name: name_by(alloc, number / 8)?,
    })
}

fn rename(
    alloc: Global,
    number: u32,
    fs: &mut MemFs,
    plain: &mut CountedStore,
    tally: &mut Tally,
) -> Result<bool, Fail>
    requires { AreBelow plain.old.nodes plain.old.next }
    ensures { AreBelow plain.new.nodes plain.new.next }
{
    let from = spot_by(alloc, number)?;
    let to = spot_by(alloc, number / 32)?;
    let white = number / 1024 % 2 == 0;
    let opaque = number / 2048 % 2 == 0;
    let had_white = gives_white(alloc, fs, to.dir, &to.name)?;
    let (old, new) = (&from.name, &to.name);
    if callers::rename(alloc, fs, from.dir, old, to.dir, new, white, opaque).is_err() {
        return Ok(false);
    }
    count(&mut tally.replaced, had_white);
    count(&mut tally.hidden, opaque);
    plain_edits::rename(alloc, plain, from, to, white, opaque)?;
    Ok(true)
}

fn link(alloc: Global, number: u32, fs: &mut MemFs, plain: &mut CountedStore) -> Result<bool, Fail>
    requires { AreBelow plain.old.nodes plain.old.next }
    ensures { AreBelow plain.new.nodes plain.new.next }
{
    let dir = node_by(number);
    let ino = node_by(number / 32);
    if callers::link(alloc, fs, ino, dir, name_by(alloc, number / 8)?).is_err() {
        return Ok(false);
    }
    plain_edits::link(plain, dir, name_by(alloc, number / 8)?, ino)?;
    Ok(true)
}

fn clear_white(
    alloc: Global,
    number: u32,
    fs: &mut MemFs,
    plain: &mut CountedStore,
    tally: &mut Tally,
) -> Result<bool, Fail>
    requires { AreBelow plain.old.nodes plain.old.next }
    ensures { AreBelow plain.new.nodes plain.new.next }
{
    let dir = node_by(number);
    let name = name_by(alloc, number / 8)?;
    if callers::clear_white(fs, dir, &name).is_err() {
        return Ok(false);
    }
    count(&mut tally.cleared, true);
    plain_edits::clear_white(plain, dir, &name);
    Ok(true)
}

fn write(alloc: Global, number: u32, fs: &mut MemFs, plain: &mut CountedStore) -> Result<bool, Fail>
    requires { AreBelow plain.old.nodes plain.old.next }
    ensures { AreBelow plain.new.nodes plain.new.next }
{
    let ino = node_by(number);
    let at = (number / 8 % 9) as usize;
    if fs.kind(ino) != Some(Kind::File) {
        return Ok(false);
    }
    callers::write(alloc, fs, ino, at, b"abc")?;
    plain.write(ino, at, b"abc")?;
    Ok(true)
}

fn cut(alloc: Global, number: u32, fs: &mut MemFs, plain: &mut CountedStore) -> Result<bool, Fail>
    requires { AreBelow plain.old.nodes plain.old.next }
    ensures { AreBelow plain.new.nodes plain.new.next }
{
    let ino = node_by(number);
    let len = (number / 8 % 9) as usize;
    if fs.kind(ino) != Some(Kind::File) {
        return Ok(false);
    }
    callers::cut(alloc, fs, ino, len)?;
    plain.resize(ino, len)?;
    Ok(true)
}

/// An edit of names or of bytes, by a number. It answers whether it was made.
fn edit(
    alloc: Global,
    number: u32,
    fs: &mut MemFs,
    plain: &mut CountedStore,
    tally: &mut Tally,
) -> Result<bool, Fail>
    requires { AreBelow plain.old.nodes plain.old.next }
    ensures { AreBelow plain.new.nodes plain.new.next }
{
    let which = number / 10;
    match number % 10 {
        0 => make_dir(alloc, which, fs, plain),
        1 => make(alloc, which, false, fs, plain),
        2 | 8 => remove(alloc, which, fs, plain, tally),
        3 | 9 => rename(alloc, which, fs, plain, tally),
        4 => link(alloc, which, fs, plain),
        5 => clear_white(alloc, which, fs, plain, tally),
        6 => write(alloc, which, fs, plain),
        _ => cut(alloc, which, fs, plain),
    }
}

/// The next of a row of numbers that look mixed.
fn mixed(number: u32) -> u32 {
    number.wrapping_mul(1664525).wrapping_add(1013904223)
}

/// Edits of both, one after another, each that is made with a look at both stores.
fn edits(alloc: Global, fs: &mut MemFs, plain: &mut CountedStore) -> Result<Tally, Fail>
    requires { AreBelow plain.old.nodes plain.old.next }
{
    let mut number: u32 = 7;
    let mut tally = Tally {
        made: 0,
        removed: 0,
        replaced: 0,
        hidden: 0,
        cleared: 0,
        differing: 0,
    };
    for step in 0..400 {
        number = mixed(number.wrapping_add(step));
        if edit(alloc, number / 4096, fs, plain, &mut tally)? {
            let equal = are_equal(alloc, &fs.store(alloc)?, plain.store())?;
            count(&mut tally.made, true);
            count(&mut tally.differing, !equal);
        }
    }
    Ok(tally)
}

/// Whether two stores are written alike.
pub fn are_equal(alloc: Global, left: &Store, right: &Store) -> Result<bool, AllocError> {
    let left = format!(in alloc; "{left:?}")?;
    let right = format!(in alloc; "{right:?}")?;
    Ok(left == right)
}

#[test]
fn a_hundred_edits_and_the_plain_store(rt: HostRuntime) -> Result<(), Fail> {
    let alloc = rt.alloc();
    let mut fs = MemFs::new(alloc)?;
    let mut plain = CountedStore::new(alloc)?;
    let tally = edits(alloc, &mut fs, &mut plain)?;
    assert_eq!(rt; tally.differing, 0);
    assert!(rt; 100 <= tally.made, "{tally:?}");
    assert!(rt; 2 <= tally.removed, "{tally:?}");
    assert!(rt; 2 <= tally.replaced, "{tally:?}");
    assert!(rt; 2 <= tally.hidden, "{tally:?}");
    assert!(rt; 2 <= tally.cleared, "{tally:?}");
    Ok(())
}
