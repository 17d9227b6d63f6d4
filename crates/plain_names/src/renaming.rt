// rename(2).
ghost use Rattle.std.specs.Prelude.{◌≡◌, true};
ghost use Rattle.std.specs.Option.{option_copied};
ghost use Rattle.vfs_tree.specs.Nodes.{IsNumbered};
ghost use Rattle.vfs_tree.specs.Views.{facts_of};
ghost use Rattle.call_model.specs.NameRows as rows;
ghost use Rattle.plain_checks.specs.Coming.{Answers, Comes};

use crate::empty::check_empty;
use call_model::Target;
use plain_checks::{Answer, Stop, copied, made, need_shadow, rename_at, target_at, there};
use plain_views::{is_below, is_busy};
use std::alloc::Global;
use vfs_paths::{is_dir, low};
use vfs_tree::{Child, Errno, Found, Name, Place, View, World};

/// Whether there is a lower part.
#[tactic(auto, using(plain_checks::proofs::Binding::stops, plain_checks::proofs::Binding::goes, plain_checks::proofs::Binding::lacks, plain_checks::proofs::Binding::needs))]
fn is_lower(world: &World, part: Child) -> Result<bool, Stop>
    ensures { Comes (rows.is_lower world.now part) result }
{
    match part {
        Child::At { .. } => Ok(true),
        Child::Absent => Ok(false),
        Child::Need { need } => Err(need_shadow(world, need)),
    }
}

/// Whether a directory, seen through no null mount, is one of a union and has a lower part.
#[tactic(auto, using(plain_checks::proofs::Binding::stops, plain_checks::proofs::Binding::goes, plain_checks::proofs::Binding::lacks, plain_checks::proofs::Binding::needs))]
fn has_lower(alloc: Global, world: &World, bare: &Place) -> Result<bool, Stop>
    ensures { Comes (rows.has_lower_place world.now bare.now) result }
{
    match &bare.view {
        View::UnionUp { mount, ino } => match low(alloc, world, *mount, *ino) {
            Ok(part) => is_lower(world, part),
            Err(_) => Err(Stop::NoMemory),
        },
        View::Mem { .. } => Ok(false),
        View::Null { .. } => Ok(false),
        View::UnionLow { .. } => Ok(false),
    }
}

/// EXDEV where a directory of a union has a lower part.
#[tactic(auto, using(plain_checks::proofs::Binding::stops, plain_checks::proofs::Binding::goes, plain_checks::proofs::Binding::lacks, plain_checks::proofs::Binding::needs))]
fn check_lower(alloc: Global, world: &World, dir: &Place) -> Result<(), Stop>
    ensures { Comes (rows.check_lower world.now dir.now) result }
{
    if has_lower(alloc, world, dir.bare())? {
        return Err(Stop::Refused {
            errno: Errno::EXDEV,
        });
    }
    Ok(())
}

/// Why a directory can't be moved: something is mounted on it, it would go below itself, or it has a lower part.
#[tactic(auto, using(plain_checks::proofs::Binding::stops, plain_checks::proofs::Binding::goes, plain_checks::proofs::Binding::lacks, plain_checks::proofs::Binding::needs))]
fn check_moved_dir(alloc: Global, world: &World, source: &Place, to: &Place) -> Result<(), Stop>
    ensures { Comes (rows.check_source true world.now source.now to.now) result }
{
    if is_busy(world, source) {
        return Err(Stop::Refused {
            errno: Errno::EBUSY,
        });
    }
    if is_below(world, to, source) {
        return Err(Stop::Refused {
            errno: Errno::EINVAL,
        });
    }
    check_lower(alloc, world, source)
}

/// Why what is moved, where it is a directory, can't be.
fn check_source(
    alloc: Global,
    world: &World,
    moves_dir: bool,
    source: &Place,
    to: &Place,
) -> Result<(), Stop>
    ensures { Comes (rows.check_source moves_dir world.now source.now to.now) result }
{
    if moves_dir {
        return check_moved_dir(alloc, world, source, to);
    }
    Ok(())
}

/// Why a directory can't be replaced: something is mounted on it, a name is visible in it, or it has a lower part.
#[tactic(auto, using(plain_checks::proofs::Binding::stops, plain_checks::proofs::Binding::goes, plain_checks::proofs::Binding::lacks, plain_checks::proofs::Binding::needs))]
fn check_replaced_dir(alloc: Global, world: &World, dir: &Place) -> Result<(), Stop>
    ensures { Comes (rows.check_replaced_dir world.now dir.now) result }
{
    if is_busy(world, dir) {
        return Err(Stop::Refused {
            errno: Errno::EBUSY,
        });
    }
    check_empty(alloc, world, dir)?;
    check_lower(alloc, world, dir)
}

/// Why what stands at the new name can't be replaced.
#[tactic(auto, using(plain_checks::proofs::Binding::stops, plain_checks::proofs::Binding::goes, plain_checks::proofs::Binding::lacks, plain_checks::proofs::Binding::needs))]
fn check_replaced(
    alloc: Global,
    world: &World,
    moves_dir: bool,
    child: Option<&Place>,
) -> Result<(), Stop>
    ensures { Comes (rows.check_replaced world.now moves_dir (option_copied child.entry)) result }
{
    let place = match child {
        Some(place) => place,
        None => return Ok(()),
    };
    match (moves_dir, is_dir(world, place)) {
        (true, false) => Err(Stop::Refused {
            errno: Errno::ENOTDIR,
        }),
        (false, true) => Err(Stop::Refused {
            errno: Errno::EISDIR,
        }),
        (true, true) => check_replaced_dir(alloc, world, place),
        (false, false) => Ok(()),
    }
}

/// Renames where the two names don't stand for one place.
#[tactic(auto, using(plain_checks::proofs::Binding::stops_answer, plain_checks::proofs::Binding::goes_answer, plain_checks::proofs::Binding::stops_edit, plain_checks::proofs::Binding::goes_edit, plain_checks::proofs::Binding::kept_answer))]
fn rename_apart(
    alloc: Global,
    world: &mut World,
    source: &Place,
    from: &Place,
    old: Name,
    new: Target,
) -> Result<Answer, Stop>
    requires { IsNumbered world.old }
    ensures answered { Answers (rows.rename_apart world.old source.now from.now old new) world.old world.new result }
    ensures kept { IsNumbered world.new }
{
    let Target { dir, name, child } = new;
    let moves_dir = is_dir(world, source);
    check_source(alloc, world, moves_dir, source, &dir)?;
    check_replaced(alloc, world, moves_dir, child.as_ref())?;
    copied(alloc, world, source)?;
    made(rename_at(alloc, world, from, old, &dir, name))?;
    Ok(Answer::done())
}

/// Whether the place stands at the name.
fn is_there(place: &Place, child: Option<&Place>) -> bool
    ensures { result ≡ rows.is_there place.now (option_copied child.entry) }
{
    match child {
        Some(other) => place.same(other),
        None => false,
    }
}

/// rename(2).
#[tactic(auto, using(plain_checks::proofs::Binding::stops_answer, plain_checks::proofs::Binding::goes_answer, plain_checks::proofs::Binding::stops_edit, plain_checks::proofs::Binding::goes_edit, plain_checks::proofs::Binding::kept_answer))]
pub fn rename(alloc: Global, world: &mut World, old: Found, new: Found) -> Result<Answer, Stop>
    requires { IsNumbered world.old }
    ensures answered { Answers (rows.rename world.old old new) world.old world.new result }
    ensures kept { IsNumbered world.new }
{
    let Target { dir, name, child } = target_at(world, Errno::EINVAL, old)?;
    let source = there(child)?;
    let new = target_at(world, Errno::EINVAL, new)?;
    if dir.mount() != new.dir.mount() {
        return Err(Stop::Refused {
            errno: Errno::EXDEV,
        });
    }
    if is_there(&source, new.child.as_ref()) {
        return Ok(Answer::done());
    }
    rename_apart(alloc, world, &source, &dir, name, new)
}
