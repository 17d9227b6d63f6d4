ghost use Rattle.std.specs.Prelude.{◌≡◌, ◌≢◌, ℕ, true, cond, nat_eq, [], length, Some, None, IfOk, IfErr, OnErr};
ghost use Rattle.std.specs.Option.{option_or};
ghost use Rattle.std.specs.FinMap as map;
ghost use Rattle.vfs_tree.specs.Limits.{IsCaller};
ghost use Rattle.vfs_tree.specs.Start.{start_world};
ghost use Rattle.call_model.specs.Legal.{IsLegal, Extends, calls_of};
ghost use Rattle.turn_lock.specs.Known.{longer};
ghost use Rattle.vfs_core.specs.Seats.{IsSeatOf, has_number, made, mine, own_calls, Called, CameBack};

use crate::kern::Kern;
use crate::seat::Seat;
use crate::turns::{begin_in_turn, end_in_turns};
use call_model::{Call, Entry, Reply};
use std::alloc::{AllocError, Global};
use std::collections::LinkedList;
use std::marker::Model;
use std::snapshot::Snapshot;
use std::sync::Wait;
use turn_lock::{Kept, TurnLock};
use vfs_tree::Limits;

impl Kept for Kern {
    ghost use Rattle.vfs_core.specs.Seats.{part_of};

    type Entry = Entry;

    type Fixed = Limits;

    type Part = (LinkedList<Call>, Option<Call>);

    ghost list = { λ k. k.history };

    ghost fixed = { λ k. k.limits };

    ghost part = { part_of };

    fn count(&self) -> u64 {
        self.history().len() as u64
    }
}

/// A kernel that threads share. Each makes its calls by a seat of its own, and calls of different seats run beside one
/// another, one step in each turn.
///
/// It is closed and not dropped. Contracts see what tells it from every other one, and its limits.
pub struct Vfs {
    lock: TurnLock<Kern>,
}

impl Model for Vfs {
    ghost use Rattle.std.specs.Prelude.{◌≡◌};
    ghost use Rattle.vfs_core.specs.Seats.{Sharing, shared};

    ghost Value = { Sharing };

    ghost view = { λ v. shared v.lock };

    ghost invariant = { λ v. v.lock.numbers ≡ v.lock.fixed.callers };
}

impl Vfs {
    /// Shares a kernel in which no call is live, and gives the seat of caller 1, which has the numbers of all callers. The
    /// only fault is want of memory, and then the kernel is dropped. It doesn't wait yet.
    pub fn new(_rt: &impl Wait, alloc: Global, kern: Kern) -> Result<(Vfs, Seat), AllocError>
        requires idle { kern.pending ≡ map.empty }
        ensures limits { IfOk result (λ t. t.0.limits ≡ kern.limits) }
        ensures seat { IfOk result (λ t. IsSeatOf t.0 t.1) }
        ensures caller { IfOk result (λ t. t.1.caller ≡ 1) }
        ensures seen { IfOk result (λ t. t.1.seen ≡ kern.history) }
        ensures made { IfOk result (λ t. (n : ℕ) → IsCaller kern.limits n → made n t.1 ≡ Some (calls_of n kern.history)) }
        ensures numbers { IfOk result (λ t. (n : ℕ) → has_number n t.1 ≡ true → IsCaller kern.limits n) }
        ensures born { IfOk result (λ t. t.1.born ≡ length (calls_of 1 kern.history)) }
        ensures mine { IfOk result (λ t. mine t.1 ≡ []) }
    {
        let numbers = kern.limits().callers;
        match TurnLock::new(alloc, kern, numbers) {
            Ok((lock, pass)) => {
                let born = Snapshot::of(&pass);
                Ok((
                    Vfs { lock },
                    Seat {
                        pass,
                        caller: 1,
                        born,
                    },
                ))
            }
            Err(_) => Err(AllocError),
        }
    }

    /// Gives a caller a seat of its own, which has seen the same. The old seat loses the caller's number.
    pub fn split(&self, seat: &mut Seat, caller: u32) -> Seat
        requires own { IsSeatOf self.now seat.old }
        requires has { has_number caller seat.old ≡ true }
        requires another { caller ≢ seat.old.caller }
        ensures own { IsSeatOf self.now seat.new × IsSeatOf self.now result }
        ensures caller { (result.caller ≡ caller) × (seat.new.caller ≡ seat.old.caller) }
        ensures seen { (result.seen ≡ seat.old.seen) × (seat.new.seen ≡ seat.old.seen) }
        ensures born { (result.born ≡ length (own_calls result)) × (seat.new.born ≡ seat.old.born) }
        ensures mine { (mine result ≡ []) × (mine seat.new ≡ mine seat.old) }
        ensures kept { (n : ℕ) → made n seat.new ≡ cond (nat_eq n caller) None (made n seat.old) }
        ensures given { (n : ℕ) → made n result ≡ cond (nat_eq n caller) (made n seat.old) None }
    {
        let pass = self.lock.split(&mut seat.pass, caller);
        let born = Snapshot::of(&pass);
        Seat { pass, caller, born }
    }

    /// Takes in the numbers of another seat. What the seat has then seen is the longer of the two histories, and both are
    /// beginnings of it.
    pub fn join(&self, seat: &mut Seat, other: Seat)
        requires own { IsSeatOf self.now seat.old × IsSeatOf self.now other }
        ensures own { IsSeatOf self.now seat.new }
        ensures caller { seat.new.caller ≡ seat.old.caller }
        ensures born { seat.new.born ≡ seat.old.born }
        ensures mine { mine seat.new ≡ mine seat.old }
        ensures seen { seat.new.seen ≡ longer seat.old.seen other.seen }
        ensures later { Extends seat.old.seen seat.new.seen × Extends other.seen seat.new.seen }
        ensures made { (n : ℕ) → made n seat.new ≡ option_or (made n seat.old) (made n other) }
    {
        let Seat {
            pass,
            caller: _,
            born: _born,
        } = other;
        self.lock.join(&mut seat.pass, pass);
    }

    /// Makes a call of the seat's caller, and waits until it has ended. It is begun in one turn and stepped in turns of its
    /// own, and between these other seats have theirs. For want of memory alone the call comes back, and stands nowhere.
    pub fn call(
        &self,
        rt: &impl Wait,
        alloc: Global,
        seat: &mut Seat,
        call: Call,
    ) -> Result<Reply, Call>
        requires own { IsSeatOf self.now seat.old }
        ensures own { IsSeatOf self.now seat.new }
        ensures caller { seat.new.caller ≡ seat.old.caller }
        ensures born { seat.new.born ≡ seat.old.born }
        ensures numbers { (n : ℕ) → has_number n seat.new ≡ has_number n seat.old }
        ensures called { IfOk result (λ reply. Called self.now.limits seat.old seat.new call reply) }
        ensures back { IfErr result (λ back. back ≡ call) }
        ensures refused { OnErr result (CameBack self.now.limits seat.old seat.new) }
    {
        let caller = seat.caller;
        match begin_in_turn(rt, &self.lock, &mut seat.pass, caller, call) {
            Ok(()) => Ok(end_in_turns(rt, alloc, &self.lock, &mut seat.pass, caller)),
            Err(call) => Err(call),
        }
    }

    /// Ends the sharing, and gives the kernel back, in which no call is live. The seat has the numbers of all callers, so no
    /// other one is left to wait for, and it doesn't wait yet.
    pub fn close(self, _rt: &impl Wait, seat: Seat) -> Kern
        requires own { IsSeatOf self seat }
        requires all { (n : ℕ) → IsCaller self.limits n → has_number n seat ≡ true }
        ensures limits { result.limits ≡ self.limits }
        ensures idle { result.pending ≡ map.empty }
        ensures legal { IsLegal map.empty (start_world result.limits) result.history }
        ensures later { Extends seat.seen result.history }
        ensures calls { (n : ℕ) → IsCaller self.limits n → made n seat ≡ Some (calls_of n result.history) }
    {
        let Self { lock } = self;
        let Seat {
            pass,
            caller: _,
            born: _born,
        } = seat;
        let kern = lock.close(pass);
        let _history = kern.history();
        let _limits = kern.limits();
        kern
    }
}
