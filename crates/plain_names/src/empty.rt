// Directories that may be removed or replaced.
ghost use Rattle.vfs_tree.specs.Visible.{has_visible};
ghost use Rattle.call_model.specs.Checks as checks;
ghost use Rattle.call_model.specs.NameRows as rows;
ghost use Rattle.plain_checks.specs.Coming.{Comes};

use plain_checks::{Stop, need_shadow, there};
use plain_views::{has_visible, is_busy};
use std::alloc::Global;
use vfs_paths::is_dir;
use vfs_tree::{Errno, Place, Step, World};

/// Whether a directory shows a name.
#[tactic(auto, using(plain_checks::proofs::Binding::needs, plain_checks::proofs::Binding::lacks))]
fn shows(alloc: Global, world: &World, dir: &Place) -> Result<bool, Stop>
    ensures { Comes (checks.lifted world.now (has_visible world.now dir.now)) result }
{
    match has_visible(alloc, world, dir) {
        Ok(Step::Go { value }) => Ok(value),
        Ok(Step::Refuse { errno }) => Err(Stop::Refused { errno }),
        Ok(Step::Wants { what }) => Err(need_shadow(world, what)),
        Err(_) => Err(Stop::NoMemory),
    }
}

/// ENOTEMPTY where a name is visible in a directory.
#[tactic(auto, using(plain_checks::proofs::Binding::stops, plain_checks::proofs::Binding::goes))]
pub fn check_empty(alloc: Global, world: &World, dir: &Place) -> Result<(), Stop>
    ensures { Comes (rows.check_empty world.now dir.now) result }
{
    if shows(alloc, world, dir)? {
        return Err(Stop::Refused {
            errno: Errno::ENOTEMPTY,
        });
    }
    Ok(())
}

/// Why what stands at a name can't be removed as a directory.
#[tactic(auto, using(plain_checks::proofs::Binding::stops, plain_checks::proofs::Binding::goes))]
pub fn check_removed(alloc: Global, world: &World, child: Option<Place>) -> Result<(), Stop>
    ensures { Comes (rows.check_removed world.now child) result }
{
    let dir = there(child)?;
    if !is_dir(world, &dir) {
        return Err(Stop::Refused {
            errno: Errno::ENOTDIR,
        });
    }
    if is_busy(world, &dir) {
        return Err(Stop::Refused {
            errno: Errno::EBUSY,
        });
    }
    check_empty(alloc, world, &dir)
}
