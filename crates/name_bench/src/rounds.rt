ghost use Rattle.std.specs.Prelude.{ℕ, ◌≡◌, ◌<◌, ◌≤◌, ◌*◌, List, IsTrue, IfOk, OnOk, Some, length, vec_len, count_by};
ghost use Rattle.std.specs.List.{All};
ghost use Rattle.vfs_tree.specs.StoreEdits.{entry_of};
ghost use Rattle.vfs_tree.specs.declared.node.NameEntry.TheVariants.{Ino};
ghost use Rattle.name_bench.specs.Found.{gives};

use crate::fault::Fault;
use finite_maps::Duplicate;
use mem_fs::{MemFs, NewNode, gives_bare, is_dir, is_given, is_no_dir};
use std::alloc::Global;
use turn_order::mix;
use vfs_tree::{Name, NameEntry};

/// The inode number of the root directory.
const ROOT: u32 = 1;

/// The name number `k`: a scattered word of 64 bits in sixteen digits, another for each `k`.
fn name_at(alloc: Global, k: u32) -> Result<Name, Fault> {
    let word = mix(0, u64::from(k));
    let text = format!(in alloc; "{word:016x}")?;
    Ok(Name::new(alloc, text.as_bytes())?)
}

/// So many names.
fn names_of(alloc: Global, count: u32) -> Result<Vec<Name>, Fault>
    ensures { IfOk result (λ names. vec_len names ≡ count) }
{
    let mut names = Vec::new(alloc);
    for k in 0..count {
        let name = name_at(alloc, k)?;
        if names.push(name).is_err() {
            return Err(Fault::NoMemory);
        }
    }
    Ok(names)
}

/// Makes a file in the root directory, and answers its inode number.
fn make_file(alloc: Global, fs: &mut MemFs) -> Result<u32, Fault> {
    let name = Name::new(alloc, b"file")?;
    if is_given(fs.find(ROOT, &name)) || !fs.has_number() || !is_dir(fs, ROOT) {
        return Err(Fault::Unmet);
    }
    Ok(fs.make(alloc, ROOT, name, NewNode::File)?)
}

/// Lets the name give the file in the root directory, as link(2).
fn link(alloc: Global, fs: &mut MemFs, file: u32, name: Name) -> Result<(), Fault>
    ensures gives { OnOk result (entry_of fs.new.store 1 name ≡ Some (Ino file)) }
    ensures kept { OnOk result ((n : List ℕ) → entry_of fs.old.store 1 n ≡ Some (Ino file) → entry_of fs.new.store 1 n ≡ Some (Ino file)) }
{
    if is_given(fs.find(ROOT, &name)) || !is_no_dir(fs, file) || !is_dir(fs, ROOT) {
        return Err(Fault::Unmet);
    }
    fs.link(alloc, file, ROOT, name)?;
    Ok(())
}

/// Lets each name give the file.
fn link_each(alloc: Global, fs: &mut MemFs, file: u32, names: &[Name]) -> Result<(), Fault>
    ensures { OnOk result (All (λ n. entry_of fs.new.store 1 n ≡ Some (Ino file)) names.now) }
{
    for name in names {
        let own = name.duplicate(alloc)?;
        link(alloc, fs, file, own)?;
    }
    Ok(())
}

/// Whether the entry gives the file.
fn gives(entry: Option<NameEntry>, file: u32) -> bool
    ensures { result ≡ gives file entry }
{
    match entry {
        Some(NameEntry::Ino { ino }) => ino == file,
        Some(NameEntry::White) => false,
        None => false,
    }
}

/// Looks each name up, and counts those that give the file.
fn find_each(fs: &mut MemFs, file: u32, names: &[Name]) -> u64
    requires { length names.now ≤ 100000 }
    ensures found { result ≡ count_by (λ n. gives file (entry_of fs.old.store 1 n)) names.now }
    ensures store { fs.new.store ≡ fs.old.store }
{
    let mut found = 0;
    for name in names {
        if gives(fs.find(ROOT, name), file) {
            found += 1;
        }
    }
    found
}

/// Removes the name of the root directory, as unlink(2).
fn remove(alloc: Global, fs: &mut MemFs, name: &Name) -> Result<(), Fault> {
    let entry = fs.find(ROOT, name);
    if !gives_bare(fs, entry) || !is_dir(fs, ROOT) {
        return Err(Fault::Unmet);
    }
    fs.remove(alloc, ROOT, name, false)?;
    Ok(())
}

/// Removes each name.
fn remove_each(alloc: Global, fs: &mut MemFs, names: &[Name]) -> Result<(), Fault> {
    for name in names {
        remove(alloc, fs, name)?;
    }
    Ok(())
}

/// Makes each name, finds each, and removes each; answers how many look-ups found the file.
fn round(alloc: Global, fs: &mut MemFs, file: u32, names: &[Name]) -> Result<u64, Fault>
    requires { length names.now ≤ 100000 }
    ensures { IfOk result (λ found. found ≡ length names.now) }
{
    link_each(alloc, fs, file, names)?;
    let found = find_each(fs, file, names);
    remove_each(alloc, fs, names)?;
    Ok(found)
}

/// Makes so many names of one file, finds each and removes each, so many times, in the root directory of one file system.
/// Answers how many look-ups found the file: all of them.
pub fn run(alloc: Global, count: u32, rounds: u32) -> Result<u64, Fault>
    requires { count ≤ 100000 }
    ensures { IfOk result (λ found. found ≡ count * rounds) }
{
    let names = names_of(alloc, count)?;
    let mut fs = MemFs::new(alloc)?;
    let file = make_file(alloc, &mut fs)?;
    let mut found = 0;
    for _turn in 0..rounds {
        found += round(alloc, &mut fs, file, names.as_slice())?;
    }
    Ok(found)
}
