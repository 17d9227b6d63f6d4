ghost use Rattle.std.specs.Prelude.{◌≡◌};
ghost use Rattle.vfs_tree.specs.Nodes.{IsNumbered};
ghost use Rattle.call_model.specs.NameRows as rows;
ghost use Rattle.plain_checks.specs.Coming.{Answers, Comes, Edits};

use call_model::Target;
use plain_checks::{
    Answer, Stop, clear_at, copied, drop_at, free_target, has_white, link_at, made, make_at,
    place_at, target_at, there,
};
use std::alloc::Global;
use vfs_paths::{base, is_dir, target_of};
use vfs_tree::{Bytes, Errno, Found, Node, Place, World};

/// unlink(2).
#[tactic(auto, using(plain_checks::proofs::Binding::stops_answer, plain_checks::proofs::Binding::goes_answer, plain_checks::proofs::Binding::stops_edit, plain_checks::proofs::Binding::goes_edit, plain_checks::proofs::Binding::kept_answer))]
pub fn unlink(alloc: Global, world: &mut World, found: Found) -> Result<Answer, Stop>
    requires { IsNumbered world.old }
    ensures answered { Answers (rows.unlink world.old found) world.old world.new result }
    ensures kept { IsNumbered world.new }
{
    let Target { dir, name, child } = target_at(world, Errno::EPERM, found)?;
    let place = there(child)?;
    if is_dir(world, &place) {
        return Err(Stop::Refused {
            errno: Errno::EPERM,
        });
    }
    made(drop_at(alloc, world, &dir, name))?;
    Ok(Answer::done())
}

/// link(2): the name gives the file's inode.
#[tactic(auto, using(plain_checks::proofs::Binding::stops_answer, plain_checks::proofs::Binding::goes_answer, plain_checks::proofs::Binding::stops_edit, plain_checks::proofs::Binding::goes_edit, plain_checks::proofs::Binding::kept_answer))]
pub fn link(alloc: Global, world: &mut World, old: Found, new: Found) -> Result<Answer, Stop>
    requires { IsNumbered world.old }
    ensures answered { Answers (rows.link world.old old new) world.old world.new result }
    ensures kept { IsNumbered world.new }
{
    let place = place_at(world, old)?;
    if is_dir(world, &place) {
        return Err(Stop::Refused {
            errno: Errno::EPERM,
        });
    }
    let Target { dir, name, .. } = free_target(world, new)?;
    if place.mount() != dir.mount() {
        return Err(Stop::Refused {
            errno: Errno::EXDEV,
        });
    }
    copied(alloc, world, &place)?;
    let ino = base(world, &place).ino;
    made(link_at(world, &dir, name, ino))?;
    Ok(Answer::done())
}

/// Why the text of a link is none.
fn check_text(text: &[u8]) -> Result<(), Stop>
    ensures { Comes (rows.check_text text.now) result }
{
    if text.is_empty() {
        return Err(Stop::Refused {
            errno: Errno::ENOENT,
        });
    }
    if text.contains(&0) {
        return Err(Stop::Refused {
            errno: Errno::EINVAL,
        });
    }
    if text.len() > 1023 {
        return Err(Stop::Refused {
            errno: Errno::ENAMETOOLONG,
        });
    }
    Ok(())
}

/// Makes a link with that text at a name at which nothing stands.
fn make_link(alloc: Global, world: &mut World, text: &[u8], target: Target) -> Result<u32, Stop>
    requires { IsNumbered world.old }
    ensures made { Edits (rows.made_link world.old text.now target) world.old world.new result }
    ensures kept { IsNumbered world.new }
{
    let Target { dir, name, .. } = target;
    match Bytes::copy_of(alloc, text) {
        Ok(target) => make_at(world, &dir, name, Node::Link { target }),
        Err(_) => Err(Stop::NoMemory),
    }
}

/// symlink(2).
#[tactic(auto, using(plain_checks::proofs::Binding::stops_answer, plain_checks::proofs::Binding::goes_answer, plain_checks::proofs::Binding::stops_edit, plain_checks::proofs::Binding::goes_edit, plain_checks::proofs::Binding::kept_answer))]
pub fn symlink(alloc: Global, world: &mut World, text: &[u8], found: Found) -> Result<Answer, Stop>
    requires { IsNumbered world.old }
    ensures answered { Answers (rows.symlink world.old text.now found) world.old world.new result }
    ensures kept { IsNumbered world.new }
{
    check_text(text)?;
    let target = free_target(world, found)?;
    make_link(alloc, world, text, target)?;
    Ok(Answer::done())
}

/// readlink(2).
#[tactic(auto, using(plain_checks::proofs::Binding::stops_answer, plain_checks::proofs::Binding::goes_answer, plain_checks::proofs::Binding::stops_edit, plain_checks::proofs::Binding::goes_edit, plain_checks::proofs::Binding::kept_answer))]
pub fn readlink(alloc: Global, world: &World, found: Found) -> Result<Answer, Stop>
    ensures { Answers (rows.readlink world.now found) world.now world.now result }
{
    let place = place_at(world, found)?;
    match target_of(world, &place) {
        Some(text) => match Answer::target(alloc, text) {
            Ok(answer) => Ok(answer),
            Err(_) => Err(Stop::NoMemory),
        },
        None => Err(Stop::Refused {
            errno: Errno::EINVAL,
        }),
    }
}

/// undelete(2): a whiteout goes.
#[tactic(auto, using(plain_checks::proofs::Binding::stops_answer, plain_checks::proofs::Binding::goes_answer, plain_checks::proofs::Binding::stops_edit, plain_checks::proofs::Binding::goes_edit, plain_checks::proofs::Binding::kept_answer))]
pub fn undelete(world: &mut World, found: Found) -> Result<Answer, Stop>
    requires { IsNumbered world.old }
    ensures answered { Answers (rows.undelete world.old found) world.old world.new result }
    ensures kept { IsNumbered world.new }
{
    let target = target_at(world, Errno::EEXIST, found)?;
    if !has_white(world, &target.dir, &target.name) {
        return Err(Stop::Refused {
            errno: Errno::EEXIST,
        });
    }
    clear_at(world, &target.dir, &target.name);
    Ok(Answer::done())
}
