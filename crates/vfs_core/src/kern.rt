ghost use Rattle.std.specs.Prelude.{ℕ, ◌≡◌, ◌∷◌, ◌++◌, [], true, IsSome, IfSome, is_some, IfOk, IfErr, OnOk, OnErr, None};
ghost use Rattle.std.specs.FinMap as map;
ghost use Rattle.vfs_tree.specs.Limits.{IsLawful, IsCaller};
ghost use Rattle.vfs_tree.specs.Start.{start_world};
ghost use Rattle.call_model.specs.Legal.{IsLegal, replay, calls_of};
ghost use Rattle.plain_calls.specs.Answering.{NeedsNoMemory};
ghost use Rattle.vfs_core.specs.Stepping.{EndsWithMemory, Steps};

use crate::advancing::{Advanced, advance};
use crate::ending::end;
use crate::ledger::Ledger;
use crate::rooms::{make_room, take_room};
use call_model::{Call, History, Reply};
use finite_maps::{Duplicate, NumberMap};
use plain_data::Room;
use std::alloc::{AllocError, Global};
use std::marker::Model;
use vfs_tree::{Limits, World};

/// What a step of a call did.
#[derive(Debug, Drop)]
pub enum Stepped {
    /// The call went on: an inner entry that it needs was appended, and it is live still.
    Went,
    /// The call was answered: its entry stands in the history, and it is live no more.
    Ended {
        /// The answer.
        reply: Reply,
    },
}

/// The kernel: a world, and the history of calls that leads to it.
///
/// Contracts see its limits, the entries of its history, and its pending calls by caller. Its history is legal with its
/// pending calls, from the world at the start on.
#[derive(Drop)]
pub struct Kern {
    limits: Limits,
    world: World,
    history: Ledger,
    pending: NumberMap<Call>,
    rooms: NumberMap<Room>,
    alloc: Global,
}

impl Model for Kern {
    ghost use Rattle.vfs_core.specs.Kernel.{Kernel, HaveRoom, IsKept};

    ghost Value = { Kernel };

    ghost use Rattle.call_model.specs.contracts.call.Call as call;
    ghost use Rattle.std.specs.Coded.{codes, coded_ℕ};
    ghost use Rattle.std.specs.Ordering.{nat_cmp};
    ghost use Rattle.std.specs.FinMap as map;

    ghost coded = { Prim.hlevel (codes, map.code {R = nat_cmp} coded_ℕ call.the_row.coded) };

    ghost view = { λ k. record { limits = k.limits; history = k.history.entries; pending = k.pending } };

    ghost invariant = { λ k. IsKept k.limits k.world k.history k.pending × HaveRoom k.pending k.rooms };
}

impl Kern {
    /// A kernel in the world at the start, with an empty history. The only fault is want of memory.
    pub fn new(alloc: Global, limits: Limits) -> Result<Kern, AllocError>
        requires { IsLawful limits }
        ensures { IfOk result (λ kern. kern ≡ record { limits = limits; history = []; pending = map.empty }) }
    {
        let world = World::start(alloc, limits)?;
        let history = Ledger::with_room(alloc, limits.callers as usize)?;
        Ok(Kern {
            limits,
            world,
            history,
            pending: NumberMap::new(alloc),
            rooms: NumberMap::new(alloc),
            alloc,
        })
    }

    /// Makes a call of a caller that has none live. For want of memory the call comes back, and nothing changes. A call that
    /// is to read bytes takes the room for them here.
    pub fn begin(&mut self, caller: u32, call: Call) -> Result<(), Call>
        requires caller { IsCaller self.old.limits caller }
        requires idle { map.get self.old.pending caller ≡ None }
        ensures begun { OnOk result (self.new ≡ record self.old { pending = map.insert self.old.pending caller call }) }
        ensures back { IfErr result (λ back. back ≡ call) }
        ensures err { OnErr result (self.new ≡ self.old) }
        ensures legal { IsLegal self.new.pending (start_world self.new.limits) self.new.history }
    {
        match self.history.widen(2) {
            Ok(()) => {}
            Err(_) => return Err(call),
        }
        match make_room(self.alloc, &mut self.rooms, caller, &call) {
            Ok(()) => {}
            Err(_) => return Err(call),
        }
        match self.pending.try_insert(caller, call) {
            Ok(_) => Ok(()),
            Err(call) => {
                take_room(&mut self.rooms, caller);
                Err(call)
            }
        }
    }

    /// Takes the live call of a caller one step further: to the inner entry that it needs, or to its end. A forced unmount
    /// takes a step for each of its entries; a revoke makes its dooms and ends in one step. Where memory is wanting the
    /// answer is ENOMEM and the world stays; a caller that has detached a mount, or doomed a reference, never meets that, nor
    /// does a close, a read, a pread, an lseek or an fstat.
    pub fn step(&mut self, alloc: Global, caller: u32) -> Stepped
        requires { IsSome (map.get self.old.pending caller) }
        ensures stepped { Steps self.old self.new caller result }
        ensures sure { IfSome (map.get self.old.pending caller) NeedsNoMemory → EndsWithMemory result }
        ensures legal { IsLegal self.new.pending (start_world self.new.limits) self.new.history }
    {
        let Some(call) = self.pending.get(caller) else {
            unreachable!()
        };
        let room = take_room(&mut self.rooms, caller);
        match advance(
            alloc,
            &mut self.world,
            &mut self.history,
            caller,
            call,
            room,
        ) {
            Advanced::Went => Stepped::Went,
            Advanced::Ended { answer } => Stepped::Ended {
                reply: end(&mut self.pending, &mut self.history, caller, answer),
            },
        }
    }

    /// The history of all calls that ended.
    pub fn history(&self) -> &History
        ensures history { result.now.entries ≡ self.now.history }
        ensures legal { IsLegal self.now.pending (start_world self.now.limits) self.now.history }
        // Only callers have calls in it.
        ensures callers { (c : ℕ) → (IsCaller self.now.limits c → ⊥) → calls_of c self.now.history ≡ [] }
    {
        self.history.history()
    }

    /// Whether a call of the caller is live.
    pub fn is_live(&self, caller: u32) -> bool
        ensures { result ≡ is_some (map.get self.now.pending caller) }
    {
        self.pending.get(caller).is_some()
    }

    /// A copy of the world that the history leaves. The only fault is want of memory.
    pub fn world(&self, alloc: Global) -> Result<World, AllocError>
        ensures { IfOk result (λ world. world ≡ replay (start_world self.now.limits) self.now.history) }
    {
        self.world.duplicate(alloc)
    }

    /// The limits that the kernel was made with.
    pub fn limits(&self) -> Limits
        ensures limits { result ≡ self.now.limits }
        ensures lawful { IsLawful result }
        // Only callers have live calls.
        ensures within { (c : ℕ) → IsSome (map.get self.now.pending c) → IsCaller self.now.limits c }
    {
        self.limits
    }
}
