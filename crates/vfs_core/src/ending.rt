// A call ends with its entry in the history.
ghost use Rattle.std.specs.Prelude.{◌≡◌, ◌∷◌, ◌++◌, [], ◌+◌, ◌≤◌, Some, IsSome};
ghost use Rattle.std.specs.FinMap as map;

use crate::ledger::Ledger;
use call_model::{Call, Entry, Reply};
use finite_maps::NumberMap;
use plain_checks::Answer;

/// Enters the answer of a caller's call, which is pending no more, and gives the reply.
pub fn end(
    pending: &mut NumberMap<Call>,
    history: &mut Ledger,
    caller: u32,
    answer: Answer,
) -> Reply
    requires live { IsSome (map.get pending.old caller) }
    requires room { 1 ≤ history.old.spare }
    ensures reply { result ≡ answer.reply }
    ensures removed { pending.new ≡ map.remove pending.old caller }
    ensures entered { (call : Call) → map.get pending.old caller ≡ Some call → history.new.entries ≡ history.old.entries ++ Entry.Call caller call result ∷ [] }
    ensures spare { history.new.spare + 1 ≡ history.old.spare }
{
    let Some(call) = pending.remove(caller) else {
        unreachable!()
    };
    history.push(Entry::Call {
        caller,
        call,
        reply: answer.entered,
    });
    answer.reply
}
