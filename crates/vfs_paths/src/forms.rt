ghost use Rattle.std.specs.Prelude.{◌≡◌, IfOk};
ghost use Rattle.std.specs.Option.{option_copied};
ghost use Rattle.vfs_tree.specs.Walk as walk;

use crate::along::walk_path;
use crate::child::child_of;
use crate::crossing::check_dir;
use crate::layers::is_cut;
use crate::mount_root::is_root;
use crate::path::{PathText, read};
use finite_maps::Duplicate;
use std::alloc::{AllocError, Global};
use vfs_tree::{Child, Cwd, Errno, Found, Leaf, Name, NameView, Need, Place, Step};

/// The start of a relative path at a place: EIO where a forced unmount has cut its mount off. The only fault is want of
/// memory.
pub fn in_place<V: NameView>(
    alloc: Global,
    view: &V,
    place: &Place,
) -> Result<Step<Place, Need>, AllocError>
    ensures { IfOk result (λ from. from ≡ walk.in_place (V.facts view.now) place.now) }
{
    if is_cut(view, place.mount()) {
        return Ok(Step::Refuse { errno: Errno::EIO });
    }
    Ok(Step::Go {
        value: place.duplicate(alloc)?,
    })
}

/// The start of a relative path at a current directory: ENOTDIR where there is none or it was doomed, EIO where a forced
/// unmount has cut its mount off. The only fault is want of memory.
pub fn in_cwd<V: NameView>(
    alloc: Global,
    view: &V,
    cwd: Option<&Cwd>,
) -> Result<Step<Place, Need>, AllocError>
    ensures { IfOk result (λ from. from ≡ walk.in_cwd (V.facts view.now) (option_copied cwd.entry)) }
{
    match cwd {
        Some(cwd) => {
            if cwd.dead {
                return Ok(Step::Refuse {
                    errno: Errno::ENOTDIR,
                });
            }
            in_place(alloc, view, &cwd.place)
        }
        None => Ok(Step::Refuse {
            errno: Errno::ENOTDIR,
        }),
    }
}

/// A name in a directory and what stands there.
fn named(dir: Place, name: Name, child: Child) -> Step<Found, Need>
    ensures { result ≡ walk.named dir name child }
{
    match child {
        Child::At { place } => Step::Go {
            value: Found::In {
                dir,
                name,
                child: Some(place),
            },
        },
        Child::Absent => Step::Go {
            value: Found::In {
                dir,
                name,
                child: None,
            },
        },
        Child::Need { need } => Step::Wants { what: need },
    }
}

/// The last name of a path in its directory, or the directory where there is no last name.
fn parent_at<V: NameView>(
    alloc: Global,
    view: &V,
    last: Option<Name>,
    dir: Place,
) -> Result<Step<Found, Need>, AllocError>
    ensures { IfOk result (λ step. step ≡ walk.parent_at (V.facts view.now) last dir) }
{
    match last {
        Some(name) => {
            let child = child_of(alloc, view, &dir, &name)?;
            Ok(named(dir, name, child))
        }
        None => Ok(Step::Go {
            value: Found::Dot { dir },
        }),
    }
}

/// The last name of a path in the directory that was found, which is checked.
fn parent_in_dir<V: NameView>(
    alloc: Global,
    view: &V,
    last: Option<Name>,
    dir: Place,
) -> Result<Step<Found, Need>, AllocError>
    ensures { IfOk result (λ step. step ≡ walk.parent_found (V.facts view.now) last (Found.At dir)) }
{
    match check_dir(view, &dir) {
        Step::Go { .. } => parent_at(alloc, view, last, dir),
        Step::Refuse { errno } => Ok(Step::Refuse { errno }),
        Step::Wants { what } => Ok(Step::Wants { what }),
    }
}

fn parent_found<V: NameView>(
    alloc: Global,
    view: &V,
    last: Option<Name>,
    found: Found,
) -> Result<Step<Found, Need>, AllocError>
    ensures { IfOk result (λ step. step ≡ walk.parent_found (V.facts view.now) last found) }
{
    let value = match found {
        Found::At { place } => return parent_in_dir(alloc, view, last, place),
        Found::In { dir, name, child } => Found::In { dir, name, child },
        Found::Dot { dir } => Found::Dot { dir },
        Found::Mount { number } => Found::Mount { number },
        Found::Refused { errno } => Found::Refused { errno },
        Found::Need { need } => Found::Need { need },
    };
    Ok(Step::Go { value })
}

/// The mount whose root was found, and else EINVAL.
fn mount_found<V: NameView>(view: &V, found: Found) -> Step<Found, Need>
    ensures { result ≡ walk.mount_found (V.facts view.now) found }
{
    let value = match found {
        Found::At { place } => {
            if !is_root(view, &place) {
                return Step::Refuse {
                    errno: Errno::EINVAL,
                };
            }
            Found::Mount {
                number: place.mount(),
            }
        }
        Found::In { dir, name, child } => Found::In { dir, name, child },
        Found::Dot { dir } => Found::Dot { dir },
        Found::Mount { number } => Found::Mount { number },
        Found::Refused { errno } => Found::Refused { errno },
        Found::Need { need } => Found::Need { need },
    };
    Step::Go { value }
}

/// The walk to a mount.
fn walk_mount<V: NameView>(
    alloc: Global,
    view: &V,
    from: Step<Place, Need>,
    path: PathText,
) -> Result<Step<Found, Need>, AllocError>
    ensures { IfOk result (λ step. step ≡ walk.walk (V.facts view.now) Leaf.Mount from path) }
{
    match walk_path(alloc, view, Leaf::Mount, from, path)? {
        Step::Go { value } => Ok(mount_found(view, value)),
        Step::Refuse { errno } => Ok(Step::Refuse { errno }),
        Step::Wants { what } => Ok(Step::Wants { what }),
    }
}

/// The walk to the directory of the last name.
fn walk_parent<V: NameView>(
    alloc: Global,
    view: &V,
    from: Step<Place, Need>,
    path: PathText,
) -> Result<Step<Found, Need>, AllocError>
    ensures { IfOk result (λ step. step ≡ walk.walk (V.facts view.now) Leaf.Parent from path) }
{
    let (front, last) = path.into_parent();
    match walk_path(alloc, view, Leaf::Follow, from, front)? {
        Step::Go { value } => parent_found(alloc, view, last, value),
        Step::Refuse { errno } => Ok(Step::Refuse { errno }),
        Step::Wants { what } => Ok(Step::Wants { what }),
    }
}

/// The walk of a form.
fn walk_as<V: NameView>(
    alloc: Global,
    view: &V,
    leaf: Leaf,
    from: Step<Place, Need>,
    path: PathText,
) -> Result<Step<Found, Need>, AllocError>
    ensures { IfOk result (λ step. step ≡ walk.walk (V.facts view.now) leaf from path) }
{
    match leaf {
        Leaf::Follow => walk_path(alloc, view, Leaf::Follow, from, path),
        Leaf::NoFollow => walk_path(alloc, view, Leaf::NoFollow, from, path),
        Leaf::Parent => walk_parent(alloc, view, from, path),
        Leaf::Create => walk_path(alloc, view, Leaf::Create, from, path),
        Leaf::Mount => walk_mount(alloc, view, from, path),
    }
}

/// What a walk finds, as a value.
fn settled(step: Step<Found, Need>) -> Found
    ensures { result ≡ walk.found_of step }
{
    match step {
        Step::Go { value } => value,
        Step::Refuse { errno } => Found::Refused { errno },
        Step::Wants { what } => Found::Need { need: what },
    }
}

/// What a walk of a form finds along a path, as `namei(9)` does. A relative path begins at `from`, which `in_cwd` and
/// `in_place` answer; an absolute one at the root directory.
///
/// `Follow` and `NoFollow` find a place, `Create` also the directory of a last name that is absent, `Parent` the directory
/// of the last name and what stands there, `Mount` the mount whose root is found. ENOTDIR comes where a component is looked
/// up in what is no directory, ENOENT where one is absent or its directory was removed, ELOOP where over 32 links would be
/// followed, EIO where a mount on the way is cut, and EINVAL where `Mount` finds no root. A link's target is refused as
/// `parse_path` refuses it. The only fault is want of memory.
pub fn walk<V: NameView>(
    alloc: Global,
    view: &V,
    leaf: Leaf,
    from: Step<Place, Need>,
    path: &PathText,
) -> Result<Found, AllocError>
    ensures { IfOk result (λ found. found ≡ walk.found_of (walk.walk (V.facts view.now) leaf from path.now)) }
{
    let path = path.duplicate(alloc)?;
    let step = walk_as(alloc, view, leaf, from, path)?;
    Ok(settled(step))
}

/// What a walk of a form finds at a path as it is written: it is refused as `parse_path` refuses it, and else walked along
/// as by `walk`. The only fault is want of memory.
pub fn find<V: NameView>(
    alloc: Global,
    view: &V,
    leaf: Leaf,
    from: Step<Place, Need>,
    text: &[u8],
) -> Result<Found, AllocError>
    ensures { IfOk result (λ found. found ≡ walk.find (V.facts view.now) leaf from text.now) }
{
    let step = match read(alloc, text)? {
        Step::Go { value } => walk_as(alloc, view, leaf, from, value)?,
        Step::Refuse { errno } => Step::Refuse { errno },
        Step::Wants { what } => Step::Wants { what },
    };
    Ok(settled(step))
}
