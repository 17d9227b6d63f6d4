ghost use Rattle.std.specs.Prelude.{◌≡◌, ◌==◌, ◌&&◌, not, IfOk};
ghost use Rattle.std.specs.Option.{option_copied};
ghost use Rattle.vfs_tree.specs.Child.{steps};
ghost use Rattle.vfs_tree.specs.Layers.{is_cut, is_root, on_of};
ghost use Rattle.vfs_tree.specs.Place.{mount_of};
ghost use Rattle.vfs_tree.specs.Walk as walk;

use crate::layers::{is_cut, is_dir, is_linked, parent_in};
use crate::mount_root::{is_root, root};
use finite_maps::Duplicate;
use std::alloc::{AllocError, Global};
use vfs_tree::{Errno, NameView, Need, Place, Step};

/// The most mounts that are entered or left at one place, and the most directories that are climbed: more than there can be.
pub fn most_steps() -> u32
    ensures { result ≡ steps }
{
    u32::MAX
}

/// Whether a mount is cut and may not be entered.
fn is_shut<V: NameView>(view: &V, into_cut: bool, mount: u32) -> bool
    ensures { result ≡ (not into_cut && is_cut (V.facts view.now) mount) }
{
    !into_cut && is_cut(view, mount)
}

fn enter_within<V: NameView>(
    alloc: Global,
    view: &V,
    steps: u32,
    into_cut: bool,
    place: Place,
) -> Result<Step<Place, Need>, AllocError>
    ensures { IfOk result (λ step. step ≡ walk.enter_within steps (V.facts view.now) into_cut place) }
{
    if steps == 0 {
        return Ok(Step::Go { value: place });
    }
    match view.covering(&place) {
        Some(mount) => {
            if is_shut(view, into_cut, mount) {
                return Ok(Step::Refuse { errno: Errno::EIO });
            }
            let root = root(alloc, view, mount)?;
            enter_within(alloc, view, steps - 1, into_cut, root)
        }
        None => Ok(Step::Go { value: place }),
    }
}

/// The root of the mount that covers a place, and so on, or the place where none does. EIO comes where one of these mounts
/// is cut, unless it may be entered. The only fault is want of memory.
pub fn enter<V: NameView>(
    alloc: Global,
    view: &V,
    into_cut: bool,
    place: Place,
) -> Result<Step<Place, Need>, AllocError>
    ensures { IfOk result (λ step. step ≡ walk.enter_as (V.facts view.now) into_cut place) }
{
    enter_within(alloc, view, most_steps(), into_cut, place)
}

/// The directory that a mount covers.
fn covered<'a, V: NameView>(view: &'a V, mount: u32) -> Option<&'a Place>
    ensures { option_copied result ≡ on_of (V.facts view.now) mount }
{
    match view.mount(mount) {
        Some(found) => match &found.on {
            Some(on) => Some(on),
            None => None,
        },
        None => None,
    }
}

/// Whether a directory is the root of a mount other than the first, so that the way up leaves the mount.
fn is_left<V: NameView>(view: &V, dir: &Place) -> bool
    ensures { result ≡ (not (mount_of dir.now == 0) && is_root (V.facts view.now) dir.now) }
{
    dir.mount() != 0 && is_root(view, dir)
}

fn leave_within<V: NameView>(
    alloc: Global,
    view: &V,
    steps: u32,
    dir: Place,
) -> Result<Place, AllocError>
    ensures { IfOk result (λ place. place ≡ walk.leave_within steps (V.facts view.now) dir) }
{
    if steps == 0 {
        return Ok(dir);
    }
    if !is_left(view, &dir) {
        return Ok(dir);
    }
    match covered(view, dir.mount()) {
        Some(on) => {
            let on = on.duplicate(alloc)?;
            leave_within(alloc, view, steps - 1, on)
        }
        None => Ok(dir),
    }
}

/// The directory above another, over the roots of mounts and not yet entered. The only fault is want of memory.
pub(crate) fn above<V: NameView>(alloc: Global, view: &V, dir: Place) -> Result<Place, AllocError>
    ensures { IfOk result (λ place. place ≡ walk.above (V.facts view.now) dir) }
{
    let left = leave_within(alloc, view, most_steps(), dir)?;
    parent_in(alloc, view, &left)
}

/// Whether a component may be looked up in a place: ENOTDIR where it is no directory, ENOENT where it was removed.
pub fn check_dir<V: NameView>(view: &V, dir: &Place) -> Step<(), Need>
    ensures { result ≡ walk.check_dir (V.facts view.now) dir.now }
{
    if !is_dir(view, dir) {
        return Step::Refuse {
            errno: Errno::ENOTDIR,
        };
    }
    if !is_linked(view, dir) {
        return Step::Refuse {
            errno: Errno::ENOENT,
        };
    }
    Step::Go { value: () }
}
