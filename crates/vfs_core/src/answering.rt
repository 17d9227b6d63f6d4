// What a call comes to: its answer, which is ENOMEM where memory is wanting, or the inner entry that it needs.
ghost use Rattle.std.specs.Prelude.{◌≡◌, Some};
ghost use Rattle.vfs_tree.specs.Nodes.{IsNumbered};
ghost use Rattle.call_laws.specs.Leaving.{IsLeaving};
ghost use Rattle.plain_calls.specs.Answering.{HasRoomFor, NeedsNoMemory};
ghost use Rattle.vfs_core.specs.Coming.{ComesTo, IsAnswered};

use call_model::{Call, Inner, Reply};
use plain_calls::answer_call;
use plain_checks::{Answer, Stop};
use plain_data::Room;
use std::alloc::Global;
use vfs_tree::{Errno, World};

/// What a call comes to in a world.
#[derive(Debug, Drop)]
pub enum Came {
    /// It is answered.
    Answered {
        /// Its answer.
        answer: Answer,
    },
    /// It needs an inner entry first.
    Needs {
        /// That entry.
        what: Inner,
    },
}

/// The answer of a call that fails.
pub fn failed(errno: Errno) -> Answer
    ensures { result.reply ≡ Reply.Fail errno }
{
    Answer {
        reply: Reply::Fail { errno },
        entered: Reply::Fail { errno },
    }
}

/// Answers a call in the world, by ENOMEM where memory is wanting, or tells what it needs first. Where it isn't answered
/// the world stays.
pub fn answer_or_need(
    alloc: Global,
    world: &mut World,
    caller: u32,
    call: &Call,
    room: Option<Room>,
) -> Came
    requires numbered { IsNumbered world.old }
    requires leaving { IsLeaving world.old caller (Some call.now) }
    requires room { HasRoomFor call.now room }
    ensures came { ComesTo world.old world.new caller call.now result }
    ensures sure { NeedsNoMemory call.now → IsAnswered result }
    ensures kept { IsNumbered world.new }
{
    match answer_call(alloc, world, caller, call, room) {
        Ok(answer) => Came::Answered { answer },
        Err(Stop::Refused { errno }) => Came::Answered {
            answer: failed(errno),
        },
        Err(Stop::Needs { what }) => Came::Needs { what },
        Err(Stop::NoMemory) => Came::Answered {
            answer: failed(Errno::ENOMEM),
        },
    }
}
