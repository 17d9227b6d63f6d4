// The calls that callers have yet to make.
ghost use Rattle.std.specs.Prelude.{◌≡◌, ◌==◌, ◌∷◌, ◌++◌, [], None, OnOk, OnErr, length};
ghost use Rattle.std.specs.FinMap as map;
ghost use Rattle.vfs_tree.specs.Limits.{IsCaller};
ghost use Rattle.vfs_core.specs.Queues.{queue_at, BeginsNext};

use crate::kern::Kern;
use call_model::Call;
use finite_maps::NumberMap;
use std::alloc::{AllocError, Global};
use std::collections::VecDeque;
use std::marker::Model;

/// What became of a caller's next call.
#[derive(Clone, Copy)]
pub enum Begun {
    /// It was begun.
    Began,
    /// There is none.
    Idle,
    /// For want of memory it wasn't begun.
    NoMemory,
}

/// The calls that a caller has yet to make, the next one first.
#[derive(Drop)]
pub struct CallQueue {
    calls: VecDeque<Call>,
}

impl Model for CallQueue {
    ghost use Rattle.std.specs.Prelude.{List};
    ghost use Rattle.call_model.specs.declared.call.Call.{Call};

    ghost Value = { List Call };

    ghost view = { λ q. q.calls.items };
}

impl CallQueue {
    /// No call.
    fn new(alloc: Global) -> CallQueue
        ensures { result ≡ [] }
    {
        CallQueue {
            calls: VecDeque::new(alloc),
        }
    }

    /// Puts a call at the end. The only fault is want of memory.
    fn push(&mut self, call: Call) -> Result<(), AllocError>
        ensures ok { OnOk result (self.new ≡ self.old ++ call ∷ []) }
        ensures err { OnErr result (self.new ≡ self.old) }
    {
        match self.calls.push_back(call) {
            Ok(()) => Ok(()),
            Err(_) => Err(AllocError),
        }
    }

    /// How many calls there are.
    pub fn len(&self) -> usize
        ensures { result ≡ length self.now }
    {
        self.calls.len()
    }

    /// Whether there is no call.
    pub fn is_empty(&self) -> bool
        ensures { result ≡ (length self.now == 0) }
    {
        self.calls.is_empty()
    }

    /// Begins the next call of a caller that has none live. For want of memory the call stays the next one.
    pub fn begin_next(&mut self, kern: &mut Kern, caller: u32) -> Begun
        requires caller { IsCaller kern.old.limits caller }
        requires idle { map.get kern.old.pending caller ≡ None }
        ensures { BeginsNext self.old self.new kern.old kern.new caller result }
    {
        let call = match self.calls.pop_front() {
            Some(call) => call,
            None => return Begun::Idle,
        };
        match kern.begin(caller, call) {
            Ok(()) => Begun::Began,
            Err(call) => {
                self.calls.push_front_reserved(call);
                Begun::NoMemory
            }
        }
    }
}

/// Puts a call at the end of its caller's queue. The only fault is want of memory.
pub fn enqueue(
    alloc: Global,
    queues: &mut NumberMap<CallQueue>,
    caller: u32,
    call: Call,
) -> Result<(), AllocError>
    ensures { OnOk result (queues.new ≡ map.insert queues.old caller (queue_at queues.old caller ++ call ∷ [])) }
{
    match queues.get_mut(caller) {
        Some(queue) => match queue.push(call) {
            Ok(()) => return Ok(()),
            Err(error) => return Err(error),
        },
        None => {}
    }
    let mut queue = CallQueue::new(alloc);
    queue.push(call)?;
    queues.insert(caller, queue)?;
    Ok(())
}
