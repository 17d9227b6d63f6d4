// How far a step takes a call.
ghost use Rattle.std.specs.Prelude.{◌≡◌, ◌∷◌, ◌++◌, [], ◌+◌, ◌≤◌, ◌↔◌, Some, IsTrue, OnOk, OnErr};
ghost use Rattle.vfs_tree.specs.Nodes.{IsNumbered};
ghost use Rattle.vfs_tree.specs.declared.walk.Step.TheVariants.{Wants};
ghost use Rattle.call_model.specs.Effects.{effect};
ghost use Rattle.call_model.specs.Rows.{row};
ghost use Rattle.call_laws.specs.Fitting.{IsRevoke, TakesNumber};
ghost use Rattle.call_laws.specs.Leaving.{IsLeaving};
ghost use Rattle.call_laws.specs.Live.{live};
ghost use Rattle.plain_calls.specs.Answering.{HasRoomFor, NeedsNoMemory};
ghost use Rattle.plain_effects.specs.Room.{HasRoom};
ghost use Rattle.vfs_core.specs.Coming.{Advances, IsEnded, doomed_by};

use crate::answering::{Came, answer_or_need, failed};
use crate::ledger::Ledger;
use crate::revoking::{doom_open, enter_doom, node_under};
use call_model::{Call, Entry, Inner, Ref};
use plain_checks::Answer;
use plain_data::Room;
use plain_effects::make_effect;
use std::alloc::{AllocError, Global};
use vfs_tree::{Errno, World};

/// How far a step took a call.
#[derive(Debug, Drop)]
pub enum Advanced {
    /// An inner entry that it needs was made and entered.
    Went,
    /// It is answered, after the dooms that it needed, which were entered.
    Ended {
        /// Its answer.
        answer: Answer,
    },
}

/// Whether a call revokes a file.
fn is_revoke(call: &Call) -> bool
    ensures { IsTrue result ↔ IsRevoke call.now }
{
    matches!(call, Call::Revoke { .. })
}

/// The reference that an inner entry dooms.
fn doomed_by(what: &Inner) -> Option<Ref>
    ensures { result ≡ doomed_by what.now }
{
    match what {
        Inner::Doom { at } => Some(*at),
        Inner::Shadow { .. } => None,
        Inner::CopyUp { .. } => None,
        Inner::Detach { .. } => None,
    }
}

/// Makes an inner entry of a caller, and enters it, for which room is made first. The only fault is want of memory.
fn enter(
    alloc: Global,
    world: &mut World,
    history: &mut Ledger,
    caller: u32,
    what: Inner,
) -> Result<(), AllocError>
    requires numbered { IsNumbered world.old }
    requires room { HasRoom world.old what }
    ensures made { OnOk result (world.new ≡ effect world.old caller what) }
    ensures number { OnOk result (TakesNumber world.old what) }
    ensures entered { OnOk result (history.new.entries ≡ history.old.entries ++ Entry.Inner caller what ∷ []) }
    ensures never_less { history.old.spare ≤ history.new.spare }
    ensures err_world { OnErr result (world.new ≡ world.old) }
    ensures err_history { OnErr result (history.new.entries ≡ history.old.entries) }
    ensures kept { IsNumbered world.new }
{
    history.widen(1)?;
    make_effect(alloc, world, caller, &what)?;
    history.push(Entry::Inner { caller, what });
    Ok(())
}

/// Makes the doom that a call needs, and enters it. A revoke makes all its dooms and ends.
fn enter_dooms(
    world: &mut World,
    history: &mut Ledger,
    caller: u32,
    call: &Call,
    at: Ref,
) -> Advanced
    requires numbered { IsNumbered world.old }
    requires needs { row world.old caller call.now ≡ Wants (Inner.Doom at) }
    requires room { live world.old + 1 ≤ history.old.spare }
    ensures advanced { Advances world.old world.new history.old history.new caller call.now result }
    ensures kept { IsNumbered world.new }
{
    if !is_revoke(call) {
        enter_doom(world, history, caller, at);
        return Advanced::Went;
    }
    match node_under(world, at) {
        Some(node) => {
            doom_open(world, history, caller, node);
            Advanced::Ended {
                answer: Answer::done(),
            }
        }
        None => unreachable!(),
    }
}

/// Takes a caller's call one step further in the world, and enters what it needs.
pub fn advance(
    alloc: Global,
    world: &mut World,
    history: &mut Ledger,
    caller: u32,
    call: &Call,
    room: Option<Room>,
) -> Advanced
    requires numbered { IsNumbered world.old }
    requires leaving { IsLeaving world.old caller (Some call.now) }
    requires room { live world.old + 1 ≤ history.old.spare }
    requires holds { HasRoomFor call.now room }
    ensures advanced { Advances world.old world.new history.old history.new caller call.now result }
    ensures sure { NeedsNoMemory call.now → IsEnded result }
    ensures kept { IsNumbered world.new }
{
    let what = match answer_or_need(alloc, world, caller, call, room) {
        Came::Answered { answer } => return Advanced::Ended { answer },
        Came::Needs { what } => what,
    };
    match doomed_by(&what) {
        Some(at) => enter_dooms(world, history, caller, call, at),
        None => match enter(alloc, world, history, caller, what) {
            Ok(()) => Advanced::Went,
            Err(_) => Advanced::Ended {
                answer: failed(Errno::ENOMEM),
            },
        },
    }
}
