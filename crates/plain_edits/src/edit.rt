ghost use Rattle.std.specs.Prelude.{◌≡◌, ◌↔◌, IsTrue, IsOk, IsSome, OnOk, OnErr, true, false, if◌then◌else◌};
ghost use Rattle.vfs_tree.specs.Nodes.{AreBelow, is_white};
ghost use Rattle.vfs_tree.specs.StoreEdits.{entry_of, set_entry, clear_entry, drop_entry, removed, renamed_to, renamed};
ghost use Rattle.vfs_tree.specs.Undo.{restored};
ghost use Rattle.vfs_tree.specs.declared.node.NameEntry.TheVariants.{Ino};

use finite_maps::Duplicate;
use std::alloc::{AllocError, Global};
use vfs_tree::{CountedStore, Name, NameEntry};

/// A name of a directory of a store.
#[derive(Debug, Drop)]
pub struct Spot {
    /// The inode number of the directory.
    pub dir: u32,
    /// The name in it.
    pub name: Name,
}

/// Lets a name of a directory give a node, as link(2). The only fault is want of memory.
pub fn link(store: &mut CountedStore, dir: u32, name: Name, ino: u32) -> Result<(), AllocError>
    ensures linked { OnOk result (store.new ≡ set_entry store.old dir name (Ino ino)) }
    ensures err { OnErr result (store.new ≡ store.old) }
    ensures kept { AreBelow store.old.nodes store.old.next → AreBelow store.new.nodes store.new.next }
{
    match store.put_entry(dir, name, NameEntry::Ino { ino }) {
        Ok(_) => Ok(()),
        Err(error) => Err(error),
    }
}

/// Takes the whiteout at a name of a directory away, as undelete(2).
pub fn clear_white(store: &mut CountedStore, dir: u32, name: &Name)
    ensures cleared { store.new ≡ clear_entry store.old dir name.now }
    ensures kept { AreBelow store.old.nodes store.old.next → AreBelow store.new.nodes store.new.next }
{
    store.clear(dir, name);
}

/// Drops a name of a directory: the entry goes, or becomes a whiteout where that is said. The only fault is want of
/// memory for a whiteout.
fn drop_name(store: &mut CountedStore, dir: u32, name: Name, white: bool) -> Result<(), AllocError>
    ensures ok { OnOk result (store.new ≡ drop_entry white store.old dir name) }
    ensures plain { white ≡ false → IsOk result }
    ensures err { OnErr result (store.new ≡ store.old) }
{
    if !white {
        store.clear(dir, &name);
        return Ok(());
    }
    match store.put_entry(dir, name, NameEntry::White) {
        Ok(_) => Ok(()),
        Err(error) => Err(error),
    }
}

/// Removes a name of a directory, as unlink(2) and rmdir(2): the entry goes, or becomes a whiteout where `white` says so,
/// and a directory that it gave loses its whiteouts. The only fault is want of memory for a whiteout.
pub fn remove(
    alloc: Global,
    store: &mut CountedStore,
    dir: u32,
    name: Name,
    white: bool,
) -> Result<(), AllocError>
    ensures removed { OnOk result (store.new ≡ removed white store.old dir name) }
    ensures plain { white ≡ false → IsOk result }
    ensures err { OnErr result (store.new ≡ store.old) }
    ensures kept { AreBelow store.old.nodes store.old.next → AreBelow store.new.nodes store.new.next }
{
    let given = store.entry_of(dir, &name);
    let taken = store.empty_given(alloc, given);
    match drop_name(store, dir, name, white) {
        Ok(()) => Ok(()),
        Err(error) => {
            store.refill(taken);
            Err(error)
        }
    }
}

/// Whether both are one name of one directory.
fn is_same(left: &Spot, right: &Spot) -> bool
    ensures { IsTrue result ↔ ((left.now.dir ≡ right.now.dir) × (left.now.name ≡ right.now.name)) }
{
    left.dir == right.dir && left.name == right.name
}

/// Gives a name of a directory back what it had, without memory.
fn restore(store: &mut CountedStore, dir: u32, name: &Name, before: Option<NameEntry>)
    requires { IsSome before → IsSome (entry_of store.old dir name.now) }
    ensures { store.new ≡ restored store.old dir name.now before }
{
    match before {
        Some(entry) => store.replace_entry(dir, name, entry),
        None => store.clear(dir, name),
    }
}

/// Puts a whiteout at a name and lets another give the node. The only fault is want of memory.
fn shift_white(
    alloc: Global,
    store: &mut CountedStore,
    from: Spot,
    to: Spot,
    ino: u32,
) -> Result<(), AllocError>
    ensures ok { OnOk result (store.new ≡ set_entry (drop_entry true store.old from.dir from.name) to.dir to.name (Ino ino)) }
    ensures err { OnErr result (store.new ≡ store.old) }
{
    let old = from.name.duplicate(alloc)?;
    let before = store.put_entry(from.dir, from.name, NameEntry::White)?;
    match store.put_entry(to.dir, to.name, NameEntry::Ino { ino }) {
        Ok(_) => Ok(()),
        Err(error) => {
            restore(store, from.dir, &old, before);
            Err(error)
        }
    }
}

/// Takes a name away, unless it is said to stay.
fn clear_unless(store: &mut CountedStore, stays: bool, dir: u32, name: &Name)
    ensures { store.new ≡ (if stays then store.old else clear_entry store.old dir name.now) }
{
    if !stays {
        store.clear(dir, name);
    }
}

/// Takes a name away and lets another give the node. The only fault is want of memory.
fn shift_plain(store: &mut CountedStore, from: Spot, to: Spot, ino: u32) -> Result<(), AllocError>
    ensures ok { OnOk result (store.new ≡ set_entry (drop_entry false store.old from.dir from.name) to.dir to.name (Ino ino)) }
    ensures err { OnErr result (store.new ≡ store.old) }
{
    let same = is_same(&from, &to);
    match store.put_entry(to.dir, to.name, NameEntry::Ino { ino }) {
        Ok(_) => {
            clear_unless(store, same, from.dir, &from.name);
            Ok(())
        }
        Err(error) => Err(error),
    }
}

/// Drops a name and lets another give the node. The only fault is want of memory.
fn shift(
    alloc: Global,
    store: &mut CountedStore,
    from: Spot,
    to: Spot,
    ino: u32,
    white: bool,
) -> Result<(), AllocError>
    ensures ok { OnOk result (store.new ≡ set_entry (drop_entry white store.old from.dir from.name) to.dir to.name (Ino ino)) }
    ensures err { OnErr result (store.new ≡ store.old) }
{
    if white {
        shift_white(alloc, store, from, to, ino)
    } else {
        shift_plain(store, from, to, ino)
    }
}

/// Drops the first name, and lets the second give what the first gave. The only fault is want of memory.
fn rename_given(
    alloc: Global,
    store: &mut CountedStore,
    from: Spot,
    to: Spot,
    given: Option<NameEntry>,
    white: bool,
    hides: bool,
) -> Result<(), AllocError>
    ensures ok { OnOk result (store.new ≡ renamed_to (drop_entry white store.old from.dir from.name) to.dir to.name hides given) }
    ensures err { OnErr result (store.new ≡ store.old) }
{
    let dir = to.dir;
    match given {
        Some(NameEntry::Ino { ino }) => {
            shift(alloc, store, from, to, ino, white)?;
            store.move_to(ino, dir, hides);
            Ok(())
        }
        Some(NameEntry::White) => drop_name(store, from.dir, from.name, white),
        None => drop_name(store, from.dir, from.name, white),
    }
}

/// Whether a whiteout stands there.
fn is_white(entry: Option<NameEntry>) -> bool
    ensures { result ≡ is_white entry }
{
    match entry {
        Some(NameEntry::White) => true,
        Some(NameEntry::Ino { .. }) => false,
        None => false,
    }
}

/// Renames, as rename(2): what the second name gave loses its whiteouts, the first name is dropped, as a whiteout where
/// `white` says so, and the second gives what the first gave. A directory becomes opaque where `opaque` says so or a
/// whiteout stood at the second name. The only fault is want of memory.
pub fn rename(
    alloc: Global,
    store: &mut CountedStore,
    from: Spot,
    to: Spot,
    white: bool,
    opaque: bool,
) -> Result<(), AllocError>
    ensures renamed { OnOk result (store.new ≡ renamed white opaque store.old from.dir from.name to.dir to.name) }
    ensures err { OnErr result (store.new ≡ store.old) }
    ensures kept { AreBelow store.old.nodes store.old.next → AreBelow store.new.nodes store.new.next }
{
    let given = store.entry_of(from.dir, &from.name);
    let target = store.entry_of(to.dir, &to.name);
    let hides = opaque || is_white(target);
    let taken = store.empty_given(alloc, target);
    match rename_given(alloc, store, from, to, given, white, hides) {
        Ok(()) => Ok(()),
        Err(error) => {
            store.refill(taken);
            Err(error)
        }
    }
}
