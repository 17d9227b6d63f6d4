// Mounts that go.
ghost use Rattle.std.specs.Prelude.{◌≡◌, IfErr};
ghost use Rattle.vfs_tree.specs.Nodes.{IsNumbered};
ghost use Rattle.call_model.specs.MountRows as rows;
ghost use Rattle.call_model.specs.Refs as refs;
ghost use Rattle.plain_checks.specs.Coming.{Answers};

use crate::first::first_in;
use call_model::Inner;
use plain_checks::{Answer, Stop, mount_at};
use plain_views::{has_references, is_covered};
use vfs_tree::{Errno, Found, World};

/// unmount(2). EBUSY where anything refers to the mount.
#[tactic(auto, using(plain_checks::proofs::Binding::stops_answer, plain_checks::proofs::Binding::goes_answer))]
pub fn umount(world: &mut World, found: Found) -> Result<Answer, Stop>
    requires { IsNumbered world.old }
    ensures answered { Answers (rows.umount world.old found) world.old world.new result }
    ensures kept { IsNumbered world.new }
{
    let mount = mount_at(world, found)?;
    if mount == 0 {
        return Err(Stop::Refused {
            errno: Errno::EINVAL,
        });
    }
    if has_references(world, mount) {
        return Err(Stop::Refused {
            errno: Errno::EBUSY,
        });
    }
    world.mounts.remove(mount);
    Ok(Answer::done())
}

/// How a forced unmount begins: the mount has to be detached. EBUSY where some mount covers a place of it or of one that
/// stands on it.
#[tactic(auto, using(plain_checks::proofs::Binding::stops_answer, plain_checks::proofs::Binding::goes_answer))]
pub fn detach_first(world: &World, found: Found) -> Result<Answer, Stop>
    ensures { Answers (rows.detach_first world.now found) world.now world.now result }
{
    let mount = mount_at(world, found)?;
    if mount == 0 {
        return Err(Stop::Refused {
            errno: Errno::EINVAL,
        });
    }
    if is_covered(world, mount) {
        return Err(Stop::Refused {
            errno: Errno::EBUSY,
        });
    }
    Err(Stop::Needs {
        what: Inner::Detach { mount },
    })
}

/// How a forced unmount goes on: the first live reference in the mount or in one that stands on it has to be doomed;
/// where there is none, the caller has left the mount. It needs no memory.
pub fn doom_next(world: &mut World, caller: u32, mount: u32) -> Result<Answer, Stop>
    requires { IsNumbered world.old }
    ensures answered { Answers (rows.doom_next world.old caller mount (refs.first_in world.old mount)) world.old world.new result }
    ensures kept { IsNumbered world.new }
    ensures sure { IfErr result (λ why. why ≡ Stop.NoMemory → ⊥) }
{
    if let Some(at) = first_in(world, mount) {
        return Err(Stop::Needs {
            what: Inner::Doom { at },
        });
    }
    world.leaving.remove(caller);
    world.mounts.remove(mount);
    Ok(Answer::done())
}
