// Each call on names, with the checks that a caller makes before it. A check that fails is answered as an error.
use crate::checks::{gives_bare, is_dir, is_no_dir};
use crate::entries::{is_given, is_white};
use crate::{MemFs, NewNode};
use std::alloc::{AllocError, Global};
use vfs_tree::Name;

/// Makes a node.
pub fn make(
    alloc: Global,
    fs: &mut MemFs,
    dir: u32,
    name: Name,
    node: NewNode,
) -> Result<u32, AllocError> {
    if is_given(fs.find(dir, &name)) {
        return Err(AllocError);
    }
    if !fs.has_number() {
        return Err(AllocError);
    }
    if !is_dir(fs, dir) {
        return Err(AllocError);
    }
    fs.make(alloc, dir, name, node)
}

/// Removes a name.
pub fn remove(
    alloc: Global,
    fs: &mut MemFs,
    dir: u32,
    name: &Name,
    white: bool,
) -> Result<(), AllocError> {
    let entry = fs.find(dir, name);
    if !gives_bare(fs, entry) {
        return Err(AllocError);
    }
    if !is_dir(fs, dir) {
        return Err(AllocError);
    }
    fs.remove(alloc, dir, name, white)
}

/// Renames.
pub fn rename(
    alloc: Global,
    fs: &mut MemFs,
    from: u32,
    old: &Name,
    to: u32,
    new: &Name,
    white: bool,
    opaque: bool,
) -> Result<(), AllocError> {
    let given = fs.find(from, old);
    let target = fs.find(to, new);
    if !is_given(given) {
        return Err(AllocError);
    }
    if target == given {
        return Err(AllocError);
    }
    if !gives_bare(fs, target) {
        return Err(AllocError);
    }
    if !is_dir(fs, from) {
        return Err(AllocError);
    }
    if !is_dir(fs, to) {
        return Err(AllocError);
    }
    fs.rename(alloc, from, old, to, new, white, opaque)
}

/// Lets a further name give a node.
pub fn link(
    alloc: Global,
    fs: &mut MemFs,
    ino: u32,
    dir: u32,
    name: Name,
) -> Result<(), AllocError> {
    if is_given(fs.find(dir, &name)) {
        return Err(AllocError);
    }
    if !is_no_dir(fs, ino) {
        return Err(AllocError);
    }
    if !is_dir(fs, dir) {
        return Err(AllocError);
    }
    fs.link(alloc, ino, dir, name)
}

/// Takes a whiteout away.
pub fn clear_white(fs: &mut MemFs, dir: u32, name: &Name) -> Result<(), AllocError> {
    if !is_white(fs.find(dir, name)) {
        return Err(AllocError);
    }
    fs.clear_white(dir, name);
    Ok(())
}

/// Drops a node.
pub fn forget(fs: &mut MemFs, ino: u32) -> Result<(), AllocError> {
    if ino == 1 {
        return Err(AllocError);
    }
    if fs.is_named(ino) {
        return Err(AllocError);
    }
    fs.forget(ino);
    Ok(())
}

/// Puts bytes, with room for them.
pub fn write(
    alloc: Global,
    fs: &mut MemFs,
    ino: u32,
    at: usize,
    bytes: &[u8],
) -> Result<(), AllocError> {
    if 1000 < at {
        return Err(AllocError);
    }
    if 1000 < bytes.len() {
        return Err(AllocError);
    }
    fs.reserve_to(alloc, ino, at + bytes.len())?;
    fs.write_at(ino, at, bytes);
    Ok(())
}

/// Gives a file a length, with room for it.
pub fn cut(alloc: Global, fs: &mut MemFs, ino: u32, len: usize) -> Result<(), AllocError> {
    if 1000 < len {
        return Err(AllocError);
    }
    fs.reserve_to(alloc, ino, len)?;
    fs.cut(ino, len);
    Ok(())
}
