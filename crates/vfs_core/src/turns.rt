// Turns at a kernel that threads share: in each, one call is begun or one is stepped.
ghost use Rattle.std.specs.Prelude.{◌≡◌, ℕ, true, List, Some, None, IfErr, OnOk, OnErr};
ghost use Rattle.vfs_tree.specs.Limits.{IsCaller};
ghost use Rattle.call_model.specs.declared.call.Call.{Call};
ghost use Rattle.turn_lock.specs.Known.{ComesFrom, has_number, known_part};
ghost use Rattle.vfs_core.specs.Kernel.{Kernel};
ghost use Rattle.vfs_core.specs.Stepping.{Steps};
ghost use Rattle.vfs_core.specs.Seats.{part_of, IsResting, IsCalling, BeginsCall, MayEnd, HadTurn, TookTurn, StepsTurn, EndsTurn};

use crate::kern::{Kern, Stepped};
use call_model::{Call, Reply};
use std::alloc::Global;
use std::sync::Wait;
use turn_lock::{Pass, TurnLock};

/// Ends a turn, and is the only call that does. The kernel goes back to the lock as it came out of it, or after one `begin` or
/// one `step` of a caller whose number the pass has.
fn end_turn(lock: &TurnLock<Kern>, pass: &mut Pass<Kern>, kern: Kern)
    requires own { ComesFrom lock.now pass.old }
    requires once { MayEnd lock.now.fixed pass.old kern }
    ensures own { ComesFrom lock.now pass.new }
    ensures idle { pass.new.held ≡ None }
    ensures seen { pass.new.seen ≡ kern.history }
    ensures numbers { (n : ℕ) → has_number n pass.new ≡ has_number n pass.old }
    ensures parts { (n : ℕ) → has_number n pass.new ≡ true → known_part n pass.new ≡ Some (part_of kern n) }
{
    lock.leave(pass, kern);
}

/// Begins a call in a turn. For want of memory it comes back.
pub fn begin_in_turn(
    rt: &impl Wait,
    lock: &TurnLock<Kern>,
    pass: &mut Pass<Kern>,
    caller: u32,
    call: Call,
) -> Result<(), Call>
    requires own { ComesFrom lock.now pass.old }
    requires idle { pass.old.held ≡ None }
    requires caller { IsCaller lock.now.fixed caller }
    requires rests { (calls : List Call) × IsResting caller pass.old calls }
    ensures own { ComesFrom lock.now pass.new }
    ensures idle { pass.new.held ≡ None }
    ensures took { TookTurn lock.now.fixed caller pass.old pass.new }
    ensures one { (out back : Kernel) × HadTurn lock.now.fixed pass.old pass.new out back × OnOk result (BeginsCall out back caller call) × OnErr result (back ≡ out) }
    ensures begun { OnOk result ((calls : List Call) → IsResting caller pass.old calls → IsCalling caller pass.new calls call) }
    ensures back { IfErr result (λ back. back ≡ call) }
    ensures same { OnErr result (known_part caller pass.new ≡ known_part caller pass.old) }
{
    let mut kern = lock.enter(rt, pass);
    let begun = kern.begin(caller, call);
    end_turn(lock, pass, kern);
    begun
}

/// Steps the live call of a caller in a turn.
pub fn step_in_turn(
    rt: &impl Wait,
    alloc: Global,
    lock: &TurnLock<Kern>,
    pass: &mut Pass<Kern>,
    caller: u32,
) -> Stepped
    requires own { ComesFrom lock.now pass.old }
    requires idle { pass.old.held ≡ None }
    requires live { (calls : List Call) × (call : Call) × IsCalling caller pass.old calls call }
    ensures own { ComesFrom lock.now pass.new }
    ensures idle { pass.new.held ≡ None }
    ensures took { TookTurn lock.now.fixed caller pass.old pass.new }
    ensures one { (out back : Kernel) × HadTurn lock.now.fixed pass.old pass.new out back × Steps out back caller result }
    ensures stepped { StepsTurn caller pass.old pass.new result }
{
    let mut kern = lock.enter(rt, pass);
    let stepped = kern.step(alloc, caller);
    end_turn(lock, pass, kern);
    stepped
}

/// Takes turns until the live call of a caller has ended, and gives its reply.
pub fn end_in_turns(
    rt: &impl Wait,
    alloc: Global,
    lock: &TurnLock<Kern>,
    pass: &mut Pass<Kern>,
    caller: u32,
) -> Reply
    requires own { ComesFrom lock.now pass.old }
    requires idle { pass.old.held ≡ None }
    requires live { (calls : List Call) × (call : Call) × IsCalling caller pass.old calls call }
    ensures own { ComesFrom lock.now pass.new }
    ensures idle { pass.new.held ≡ None }
    ensures took { TookTurn lock.now.fixed caller pass.old pass.new }
    ensures ended { (calls : List Call) (call : Call) → IsCalling caller pass.old calls call → EndsTurn caller calls call result pass.new }
{
    for _ in rt.forever() {
        match step_in_turn(rt, alloc, lock, pass, caller) {
            Stepped::Went => {}
            Stepped::Ended { reply } => return reply,
        }
    }
    unreachable!()
}
