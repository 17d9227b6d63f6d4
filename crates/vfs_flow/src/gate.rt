// When workers make their calls.
ghost use Rattle.std.specs.Prelude.{◌≡◌};
ghost use Rattle.vfs_flow.specs.Gates.{IsCallOf};

use std::hint::spin_loop;
use std::marker::Model;
use std::sync::atomic::{AtomicBool, AtomicU64, Ordering};

/// How often a `MeetGate` looks for the other call.
const MOST_LOOKS: u32 = 100_000_000;

/// Whether a worker may make its call.
#[derive(Clone, Copy, Debug, PartialEq, Eq)]
pub enum Pace {
    /// It may.
    Go,
    /// It is to ask again.
    Hold,
}

/// Holds workers up between their calls, so that a test can choose an order of them. A worker asks before each call, and
/// tells after each answer. Calls of a caller are counted from 0.
pub trait Gate {
    /// Whether the caller may make this call now.
    fn before(&self, caller: u32, call: u32) -> Pace;

    /// Takes note that this call of the caller was answered.
    fn told(&self, caller: u32, call: u32);
}

/// Holds nobody up.
#[derive(Clone, Copy, Debug, Drop)]
pub struct OpenGate;

impl Gate for OpenGate {
    fn before(&self, _caller: u32, _call: u32) -> Pace
        ensures { result ≡ Pace.Go }
    {
        Pace::Go
    }

    fn told(&self, _caller: u32, _call: u32) {}
}

/// Holds one call until another one was answered.
#[derive(Drop)]
pub struct FlagGate {
    caller: u32,
    call: u32,
    until_caller: u32,
    until_call: u32,
    told: AtomicBool,
    holds: AtomicU64,
}

impl Model for FlagGate {
    ghost use Rattle.vfs_flow.specs.Gates.{Pair};

    ghost Value = { Pair };

    ghost view = { λ g. record { caller = g.caller; call = g.call; other_caller = g.until_caller; other_call = g.until_call } };
}

impl FlagGate {
    /// A gate that holds a call of `caller` until `until_call` of `until_caller` was answered.
    pub fn new(caller: u32, call: u32, until_caller: u32, until_call: u32) -> FlagGate
        ensures { result ≡ record { caller = caller; call = call; other_caller = until_caller; other_call = until_call } }
    {
        FlagGate {
            caller,
            call,
            until_caller,
            until_call,
            told: AtomicBool::new(false),
            holds: AtomicU64::new(0),
        }
    }

    /// How often the call was held. The count stands still at the greatest word.
    pub fn holds(&self) -> u64 {
        self.holds.load(Ordering::SeqCst)
    }
}

impl Gate for FlagGate {
    /// Only the one call is ever held.
    fn before(&self, caller: u32, call: u32) -> Pace
        ensures { (IsCallOf self.now.caller self.now.call caller call → ⊥) → result ≡ Pace.Go }
    {
        if caller != self.caller || call != self.call || self.told.load(Ordering::SeqCst) {
            return Pace::Go;
        }
        if self.holds.fetch_add(1, Ordering::SeqCst) == u64::MAX {
            self.holds.store(u64::MAX, Ordering::SeqCst);
        }
        Pace::Hold
    }

    fn told(&self, caller: u32, call: u32) {
        if caller == self.until_caller && call == self.until_call {
            self.told.store(true, Ordering::SeqCst);
        }
    }
}

/// Lets two calls of different callers begin together: the worker of each looks for the other before it goes on. A thread
/// that is alone doesn't find it.
#[derive(Drop)]
pub struct MeetGate {
    caller: u32,
    call: u32,
    other_caller: u32,
    other_call: u32,
    came: AtomicBool,
    other_came: AtomicBool,
    missed: AtomicBool,
}

impl Model for MeetGate {
    ghost use Rattle.vfs_flow.specs.Gates.{Pair};

    ghost Value = { Pair };

    ghost view = { λ g. record { caller = g.caller; call = g.call; other_caller = g.other_caller; other_call = g.other_call } };
}

impl MeetGate {
    /// A gate at which a call of `caller` and `other_call` of `other_caller`, another one, meet.
    pub fn new(caller: u32, call: u32, other_caller: u32, other_call: u32) -> MeetGate
        ensures { result ≡ record { caller = caller; call = call; other_caller = other_caller; other_call = other_call } }
    {
        MeetGate {
            caller,
            call,
            other_caller,
            other_call,
            came: AtomicBool::new(false),
            other_came: AtomicBool::new(false),
            missed: AtomicBool::new(false),
        }
    }

    /// Whether one of the two looked for the other in vain.
    pub fn missed(&self) -> bool {
        self.missed.load(Ordering::SeqCst)
    }

    // Raises a flag, and looks for the other.
    fn meet(&self, mine: &AtomicBool, other: &AtomicBool) {
        mine.store(true, Ordering::SeqCst);
        for _ in 0..MOST_LOOKS {
            if other.load(Ordering::SeqCst) {
                return;
            }
            spin_loop();
        }
        self.missed.store(true, Ordering::SeqCst);
    }
}

impl Gate for MeetGate {
    /// Looks at most 100,000,000 times, and never holds.
    fn before(&self, caller: u32, call: u32) -> Pace
        ensures { result ≡ Pace.Go }
    {
        if caller == self.caller && call == self.call {
            self.meet(&self.came, &self.other_came);
        } else if caller == self.other_caller && call == self.other_call {
            self.meet(&self.other_came, &self.came);
        }
        Pace::Go
    }

    fn told(&self, _caller: u32, _call: u32) {}
}
