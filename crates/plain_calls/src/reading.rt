// Reads, in the room that was made for their bytes.
ghost use Rattle.vfs_tree.specs.Nodes.{IsNumbered};
ghost use Rattle.call_model.specs.DataRows as rows;
ghost use Rattle.plain_checks.specs.Coming.{Answers};
ghost use Rattle.plain_calls.specs.Answering.{HasMemory, HoldsBytes};

use plain_checks::{Answer, Stop};
use plain_data::Room;
use std::alloc::Global;
use vfs_tree::World;

/// read(2), in room that is there.
pub fn read(
    alloc: Global,
    world: &mut World,
    caller: u32,
    fd: u32,
    n: u32,
    room: Option<Room>,
) -> Result<Answer, Stop>
    requires numbered { IsNumbered world.old }
    requires room { HoldsBytes n room }
    ensures answered { Answers (rows.read world.old caller fd n) world.old world.new result }
    ensures reserved { HasMemory result }
    ensures kept { IsNumbered world.new }
{
    match room {
        Some(room) => plain_data::read(alloc, world, caller, fd, n, room),
        None => unreachable!(),
    }
}

/// pread(2), in room that is there.
pub fn pread(
    alloc: Global,
    world: &World,
    caller: u32,
    fd: u32,
    n: u32,
    at: u32,
    room: Option<Room>,
) -> Result<Answer, Stop>
    requires { HoldsBytes n room }
    ensures answered { Answers (rows.pread world.now caller fd n at) world.now world.now result }
    ensures reserved { HasMemory result }
{
    match room {
        Some(room) => plain_data::pread(alloc, world, caller, fd, n, at, room),
        None => unreachable!(),
    }
}
