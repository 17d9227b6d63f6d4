ghost use Rattle.std.specs.Prelude.{◌≡◌, OnOk, OnErr};
ghost use Rattle.vfs_tree.specs.Nodes.{IsNumbered};
ghost use Rattle.call_model.specs.NameRows as rows;
ghost use Rattle.plain_checks.specs.Coming.{Answers, Edits};

use crate::empty::check_removed;
use call_model::Target;
use plain_checks::{
    Answer, Stop, dir_at, drop_at, free_target, has_white, made, make_at, target_at,
};
use std::alloc::{AllocError, Global};
use vfs_paths::base;
use vfs_tree::{Cwd, Errno, Found, NameMap, Node, Place, World};

/// Makes an empty directory at a name at which nothing stands; over a whiteout it is opaque.
fn make_dir(alloc: Global, world: &mut World, target: Target) -> Result<u32, Stop>
    requires { IsNumbered world.old }
    ensures made { Edits (rows.made_dir world.old target) world.old world.new result }
    ensures kept { IsNumbered world.new }
{
    let Target { dir, name, .. } = target;
    let node = Node::Dir {
        parent: base(world, &dir).ino,
        opaque: has_white(world, &dir, &name),
        names: NameMap::new(alloc),
    };
    make_at(world, &dir, name, node)
}

/// mkdir(2).
#[tactic(auto, using(plain_checks::proofs::Binding::stops_answer, plain_checks::proofs::Binding::goes_answer, plain_checks::proofs::Binding::stops_edit, plain_checks::proofs::Binding::goes_edit, plain_checks::proofs::Binding::kept_answer))]
pub fn mkdir(alloc: Global, world: &mut World, found: Found) -> Result<Answer, Stop>
    requires { IsNumbered world.old }
    ensures answered { Answers (rows.mkdir world.old found) world.old world.new result }
    ensures kept { IsNumbered world.new }
{
    let target = free_target(world, found)?;
    make_dir(alloc, world, target)?;
    Ok(Answer::done())
}

/// rmdir(2).
#[tactic(auto, using(plain_checks::proofs::Binding::stops_answer, plain_checks::proofs::Binding::goes_answer, plain_checks::proofs::Binding::stops_edit, plain_checks::proofs::Binding::goes_edit, plain_checks::proofs::Binding::kept_answer))]
pub fn rmdir(alloc: Global, world: &mut World, found: Found) -> Result<Answer, Stop>
    requires { IsNumbered world.old }
    ensures answered { Answers (rows.rmdir world.old found) world.old world.new result }
    ensures kept { IsNumbered world.new }
{
    let Target { dir, name, child } = target_at(world, Errno::EINVAL, found)?;
    check_removed(alloc, world, child)?;
    made(drop_at(alloc, world, &dir, name))?;
    Ok(Answer::done())
}

/// Sets a caller's current directory. The only fault is want of memory.
pub fn set_cwd(world: &mut World, caller: u32, dir: Place) -> Result<(), AllocError>
    ensures set { OnOk result (world.new ≡ rows.with_cwd world.old caller dir) }
    ensures err { OnErr result (world.new ≡ world.old) }
{
    let cwd = Cwd {
        place: dir,
        dead: false,
    };
    match world.cwds.insert(caller, cwd) {
        Ok(_) => Ok(()),
        Err(error) => Err(error),
    }
}

/// chdir(2).
#[tactic(auto, using(plain_checks::proofs::Binding::stops_answer, plain_checks::proofs::Binding::goes_answer, plain_checks::proofs::Binding::stops_edit, plain_checks::proofs::Binding::goes_edit, plain_checks::proofs::Binding::kept_answer))]
pub fn chdir(world: &mut World, caller: u32, found: Found) -> Result<Answer, Stop>
    requires { IsNumbered world.old }
    ensures answered { Answers (rows.chdir world.old caller found) world.old world.new result }
    ensures kept { IsNumbered world.new }
{
    let dir = dir_at(world, found)?;
    made(set_cwd(world, caller, dir))?;
    Ok(Answer::done())
}
