ghost use Rattle.std.specs.Prelude.{◌≡◌, Some, None, IsSome};
ghost use Rattle.std.specs.FinMap as map;
ghost use Rattle.vfs_tree.specs.Nodes.{IsNumbered};
ghost use Rattle.call_model.specs.Rows.{row};
ghost use Rattle.call_laws.specs.Leaving.{IsLeaving};
ghost use Rattle.plain_checks.specs.Coming.{Answers};
ghost use Rattle.plain_calls.specs.Answering.{HasMemory, HasRoomFor, NeedsNoMemory};

use crate::decide::decide;
use crate::ways::{check_way, first_way, found_at, second_way};
use call_model::Call;
use plain_checks::{Answer, Stop};
use plain_data::Room;
use std::alloc::Global;
use vfs_tree::World;

/// Answers a call of a caller that isn't leaving a mount.
#[tactic(auto, using(plain_checks::proofs::Binding::stops_answer, plain_checks::proofs::Binding::goes_answer, plain_checks::proofs::Binding::kept_answer))]
fn answer_staying(
    alloc: Global,
    world: &mut World,
    caller: u32,
    call: &Call,
    room: Option<Room>,
) -> Result<Answer, Stop>
    requires numbered { IsNumbered world.old }
    requires stays { map.get world.old.leaving caller ≡ None }
    requires room { HasRoomFor call.now room }
    ensures answered { Answers (row world.old caller call.now) world.old world.new result }
    ensures reserved { NeedsNoMemory call.now → HasMemory result }
    ensures kept { IsNumbered world.new }
{
    let first_path = first_way(call);
    let second_path = second_way(call);
    check_way(alloc, first_path)?;
    check_way(alloc, second_path)?;
    let first = found_at(alloc, world, caller, first_path)?;
    let second = found_at(alloc, world, caller, second_path)?;
    decide(alloc, world, caller, call, first, second, room)
}

/// Answers a call in the world, which it changes in place, or tells why it goes no further: it is refused, it needs an inner
/// entry first, or memory is wanting; then the world is as it was. A caller that is leaving a mount goes on with its forced
/// unmount and needs no memory; nor do close, read, pread, lseek and fstat, which get room for what they read.
pub fn answer_call(
    alloc: Global,
    world: &mut World,
    caller: u32,
    call: &Call,
    room: Option<Room>,
) -> Result<Answer, Stop>
    requires numbered { IsNumbered world.old }
    requires leaving { IsLeaving world.old caller (Some call.now) }
    requires room { HasRoomFor call.now room }
    ensures answered { Answers (row world.old caller call.now) world.old world.new result }
    ensures sure { IsSome (map.get world.old.leaving caller) → HasMemory result }
    ensures reserved { NeedsNoMemory call.now → HasMemory result }
    ensures kept { IsNumbered world.new }
{
    match world.leaving.get(caller) {
        Some(mount) => {
            let mount = *mount;
            plain_mounts::doom_next(world, caller, mount)
        }
        None => answer_staying(alloc, world, caller, call, room),
    }
}
