ghost use Rattle.std.specs.Prelude.{◌≡◌, IfOk};
ghost use Rattle.vfs_paths.specs.View as named;
ghost use Rattle.vfs_paths.specs.View.{walk_in};

use crate::forms::{in_place, walk};
use crate::path::PathText;
use std::alloc::{AllocError, Global};
use vfs_tree::{Errno, Found, Leaf, Name, NameView, Place};

/// What a path names in a view.
#[derive(Debug, Drop)]
pub enum Walked {
    /// A file, a link or a directory.
    Found {
        /// Its place.
        place: Place,
    },
    /// Nothing: the last name is absent.
    Absent {
        /// The directory of the last name.
        dir: Place,
        /// That name.
        name: Name,
    },
    /// The walk is refused.
    Refused {
        /// Why.
        errno: Errno,
    },
    /// The walk needs a shadow directory first.
    Need {
        /// The number of the union mount.
        mount: u32,
        /// The inode number of the union directory, in the upper layer's store.
        dir: u32,
        /// The name of the directory.
        name: Name,
    },
}

/// A link at the end is followed, or is the answer.
fn finding(follow: bool) -> Leaf
    ensures { result ≡ named.finding follow }
{
    if follow { Leaf::Follow } else { Leaf::NoFollow }
}

/// The form that finds the name where the other finds nothing.
fn naming(follow: bool) -> Leaf
    ensures { result ≡ named.naming follow }
{
    if follow { Leaf::Create } else { Leaf::Parent }
}

/// Whether a refusal says that there is no such file.
fn is_absence(errno: Errno) -> bool
    ensures { result ≡ named.is_absence errno }
{
    matches!(errno, Errno::ENOENT)
}

/// The refusal of a walk to what isn't there.
fn nothing() -> Walked
    ensures { result ≡ Walked.Refused Errno.ENOENT }
{
    Walked::Refused {
        errno: Errno::ENOENT,
    }
}

/// The directory and the last name, where nothing stands there, and else ENOENT.
fn absent_at(found: Found) -> Walked
    ensures { result ≡ named.absent_at found }
{
    match found {
        Found::In { dir, name, child } => match child {
            Some(_) => nothing(),
            None => Walked::Absent { dir, name },
        },
        Found::At { .. } => nothing(),
        Found::Dot { .. } => nothing(),
        Found::Mount { .. } => nothing(),
        Found::Refused { .. } => nothing(),
        Found::Need { .. } => nothing(),
    }
}

/// What a walk of a form finds from a place.
fn found_from<V: NameView>(
    alloc: Global,
    view: &V,
    leaf: Leaf,
    start: &Place,
    path: &PathText,
) -> Result<Found, AllocError>
    ensures { IfOk result (λ found. found ≡ named.found_from (V.facts view.now) leaf start.now path.now) }
{
    let from = in_place(alloc, view, start)?;
    let found = walk(alloc, view, leaf, from, path)?;
    Ok(found)
}

/// What a path names in a view, from a place at which a relative one begins: the answer of `walk` with `Leaf::Follow` or
/// `Leaf::NoFollow`. Where that is ENOENT since the last name is absent, `Absent` has that name and its directory; where a
/// link stands at the end and is followed, those of the link's path.
///
/// A refusal comes exactly where `walk` refuses the path for another reason, and EIO where a forced unmount has cut off the
/// mount of the start of a relative path. The only fault is want of memory.
pub fn walk_view<V: NameView>(
    alloc: Global,
    view: &V,
    start: &Place,
    path: &PathText,
    follow: bool,
) -> Result<Walked, AllocError>
    ensures { IfOk result (λ walked. walked ≡ walk_in (V.facts view.now) start.now path.now follow) }
{
    match found_from(alloc, view, finding(follow), start, path)? {
        Found::At { place } => Ok(Walked::Found { place }),
        Found::Refused { errno } => {
            if !is_absence(errno) {
                return Ok(Walked::Refused { errno });
            }
            let name = found_from(alloc, view, naming(follow), start, path)?;
            Ok(absent_at(name))
        }
        Found::Need { need } => Ok(Walked::Need {
            mount: need.mount,
            dir: need.dir,
            name: need.name,
        }),
        Found::In { .. } => Ok(nothing()),
        Found::Dot { .. } => Ok(nothing()),
        Found::Mount { .. } => Ok(nothing()),
    }
}
