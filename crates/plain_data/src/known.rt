ghost use Rattle.std.specs.Prelude.{IfErr};
ghost use Rattle.call_model.specs.DataRows as rows;
ghost use Rattle.plain_checks.specs.Coming.{Answers};
ghost use Rattle.plain_names.specs.Decided.{IsDecided};

use crate::descriptors::descriptor;
use plain_checks::{Answer, Stop};
use plain_names::stat_of;
use vfs_tree::{Errno, World};

/// fstat(2). It never wants memory.
#[tactic(auto, using(plain_checks::proofs::Binding::stops_answer, plain_checks::proofs::Binding::goes_answer, plain_checks::proofs::Binding::replies))]
pub fn fstat(world: &World, caller: u32, fd: u32) -> Result<Answer, Stop>
    ensures answered { Answers (rows.fstat world.now caller fd) world.now world.now result }
    ensures sure { IfErr result IsDecided }
{
    let open = descriptor(world, caller, fd)?;
    if open.dead {
        return Err(Stop::Refused {
            errno: Errno::EBADF,
        });
    }
    stat_of(world, &open.place)
}
