ghost use Rattle.std.specs.Prelude.{◌≡◌, IfOk, IfErr};
ghost use Rattle.vfs_tree.specs.Nodes.{IsNumbered};
ghost use Rattle.vfs_tree.specs.declared.walk.Step.TheVariants.{Go};
ghost use Rattle.call_model.specs.DataRows as rows;
ghost use Rattle.plain_checks.specs.Coming.{Answers, Comes, Stops};
ghost use Rattle.plain_names.specs.Decided.{IsDecided};

use finite_maps::Duplicate;
use plain_checks::{Answer, Stop, made};
use plain_names::set_cwd;
use std::alloc::Global;
use vfs_paths::is_dir;
use vfs_tree::{Errno, Open, Place, World};

/// The open file of a caller's descriptor; EBADF where it isn't open.
pub fn descriptor(world: &World, caller: u32, fd: u32) -> Result<&Open, Stop>
    ensures found { IfOk result (λ o. rows.descriptor world.now caller fd ≡ Go o.now) }
    ensures closed { IfErr result (λ why. Stops (rows.descriptor world.now caller fd) why) }
    ensures sure { IfErr result IsDecided }
{
    match world.opens.get((caller, fd)) {
        Some(open) => Ok(open),
        None => Err(Stop::Refused {
            errno: Errno::EBADF,
        }),
    }
}

/// Sets the offset of an open descriptor.
pub(crate) fn set_offset(world: &mut World, caller: u32, fd: u32, at: u64)
    ensures moved { (o : Open) → rows.descriptor world.old caller fd ≡ Go o → world.new ≡ rows.with_offset world.old caller fd o at }
    ensures kept { IsNumbered world.old → IsNumbered world.new }
{
    match world.opens.get_mut((caller, fd)) {
        Some(open) => open.offset = at,
        None => {}
    }
}

/// close(2). It never wants memory.
#[tactic(auto, using(plain_checks::proofs::Binding::stops_answer, plain_checks::proofs::Binding::goes_answer))]
pub fn close(world: &mut World, caller: u32, fd: u32) -> Result<Answer, Stop>
    requires { IsNumbered world.old }
    ensures answered { Answers (rows.close world.old caller fd) world.old world.new result }
    ensures sure { IfErr result IsDecided }
    ensures kept { IsNumbered world.new }
{
    descriptor(world, caller, fd)?;
    world.opens.remove((caller, fd));
    Ok(Answer::done())
}

/// The place of a descriptor that may become a current directory.
#[tactic(auto, using(plain_checks::proofs::Binding::stops, plain_checks::proofs::Binding::goes, plain_checks::proofs::Binding::lacks))]
fn open_dir(alloc: Global, world: &World, caller: u32, fd: u32) -> Result<Place, Stop>
    ensures { Comes (rows.open_dir world.now caller fd) result }
{
    let open = descriptor(world, caller, fd)?;
    if open.dead {
        return Err(Stop::Refused {
            errno: Errno::ENOTDIR,
        });
    }
    if !is_dir(world, &open.place) {
        return Err(Stop::Refused {
            errno: Errno::ENOTDIR,
        });
    }
    match open.place.duplicate(alloc) {
        Ok(place) => Ok(place),
        Err(_) => Err(Stop::NoMemory),
    }
}

/// fchdir(2).
#[tactic(auto, using(plain_checks::proofs::Binding::stops_answer, plain_checks::proofs::Binding::goes_answer, plain_checks::proofs::Binding::kept_answer))]
pub fn fchdir(alloc: Global, world: &mut World, caller: u32, fd: u32) -> Result<Answer, Stop>
    requires { IsNumbered world.old }
    ensures answered { Answers (rows.fchdir world.old caller fd) world.old world.new result }
    ensures kept { IsNumbered world.new }
{
    let dir = open_dir(alloc, world, caller, fd)?;
    made(set_cwd(world, caller, dir))?;
    Ok(Answer::done())
}
