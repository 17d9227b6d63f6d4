ghost use Rattle.std.specs.Prelude.{◌≡◌, ◌≢◌, ◌<◌, ◌≤◌, ◌+◌, ◌↔◌, ℕ, [], true, false, length, IfOk, All, MatchOption, replicate};
ghost use Rattle.vnode_lock.specs.Listed.{has_slot, AreBelow, moved};
ghost use Rattle.vnode_lock.specs.Locks.{shared_of, exclusive_of, with_locks, IsCaller, HoldsNothing, IsNowhereExclusive, bars, IsFree, IsLeastHolder, IsFirstHeld, AreFree, IsFirstConflict, OnTaken, IfHeld, IsLawful};

use crate::MOST_LOCKS;
use crate::answer::{LockAnswer, Mode};
use crate::lock_rows::LockRows;
use op_vector::Vid;
use std::alloc::{AllocError, Global};
use std::marker::Model;

/// The locks that callers hold on vnodes, as VOP_LOCK(9), all of a call's locks being taken in one step.
///
/// Callers have the numbers from 1. A lock is on the slot of its vnode: two numbers of one slot conflict as one, since
/// a slot that is locked isn't filled anew. Contracts see for each caller the vnodes that it holds shared and those
/// that it holds exclusively, as the lists that it named. No two callers' locks are ever in conflict: a vnode that one
/// holds exclusively no other holds. A caller's own locks never conflict.
///
/// But for `new`, a call takes no memory and costs in proportion to the locks that it names and those that its caller
/// holds, times the number of callers, and not to the number of slots.
#[derive(Drop)]
pub struct LockTable {
    shared: LockRows,
    exclusive: LockRows,
    slots: u32,
    callers: u32,
}

impl Model for LockTable {
    ghost use Rattle.vnode_lock.specs.Locks.{Locks, IsLawful, locks_of};

    ghost Value = { Locks };

    ghost view = { λ t. locks_of t.shared t.exclusive t.slots t.callers };

    ghost use Rattle.vnode_lock.specs.Locks.{IsTable};

    ghost invariant = { λ t. IsTable t.shared t.exclusive t.slots t.callers };
}

impl LockTable {
    /// A table for the vnodes of the slots below `slots` and the callers 1 to `callers`, none of whom holds a lock. The
    /// only fault is want of memory.
    pub fn new(alloc: Global, slots: u32, callers: u32) -> Result<LockTable, AllocError>
        ensures { IfOk result (λ table. table ≡ record { slots = slots; callers = callers; shared = replicate (callers + 1) []; exclusive = replicate (callers + 1) [] }) }
    {
        let shared = LockRows::new(alloc, slots, callers)?;
        let exclusive = LockRows::new(alloc, slots, callers)?;
        Ok(LockTable {
            shared,
            exclusive,
            slots,
            callers,
        })
    }

    /// Whether a caller's locks keep others from a lock of that mode on the slot.
    fn blocks(&self, by: u32, mode: Mode, slot: u32) -> bool
        requires caller { by ≤ self.now.callers }
        requires below { slot < self.now.slots }
        ensures { result ≡ bars by mode slot self.now }
    {
        match mode {
            Mode::Shared => self.exclusive.has(by, slot),
            Mode::Exclusive => self.exclusive.has(by, slot) || self.shared.has(by, slot),
        }
    }

    /// The least other caller that holds the vnode in conflict with a lock of that mode.
    fn holder(&self, caller: u32, mode: Mode, vid: Vid) -> Option<u32>
        requires { vid.slot < self.now.slots }
        ensures { MatchOption result (IsFree self.now caller mode vid) (λ by. IsLeastHolder self.now caller mode vid by) }
    {
        for by in 1..=self.callers {
            if by != caller && self.blocks(by, mode, vid.slot) {
                return Some(by);
            }
        }
        None
    }

    /// The first of the vnodes that another caller holds in conflict with a lock of that mode, and the least such
    /// caller.
    fn first_held(&self, caller: u32, mode: Mode, vids: &[Vid]) -> Option<(Vid, u32)>
        requires { AreBelow self.now.slots vids.now }
        ensures { MatchOption result (All (IsFree self.now caller mode) vids.now) (λ held. IsFirstHeld self.now caller mode vids.now held.0 held.1) }
    {
        for vid in vids {
            if let Some(by) = self.holder(caller, mode, *vid) {
                return Some((*vid, by));
            }
        }
        None
    }

    /// The first wanted vnode that another caller holds in conflict, those wanted exclusively first, and the least such
    /// caller.
    fn first_conflict(&self, caller: u32, shared: &[Vid], exclusive: &[Vid]) -> Option<(Vid, u32)>
        requires shared_below { AreBelow self.now.slots shared.now }
        requires exclusive_below { AreBelow self.now.slots exclusive.now }
        ensures { MatchOption result (AreFree self.now caller shared.now exclusive.now) (λ held. IsFirstConflict self.now caller shared.now exclusive.now held.0 held.1) }
    {
        if let Some(held) = self.first_held(caller, Mode::Exclusive, exclusive) {
            return Some(held);
        }
        self.first_held(caller, Mode::Shared, shared)
    }

    /// Takes all these locks, or none.
    ///
    /// `Held` comes exactly where another caller holds one of the vnodes in conflict. It names the first such vnode,
    /// of those wanted exclusively before those wanted shared, and the least such caller.
    pub fn take_all(&mut self, caller: u32, shared: &[Vid], exclusive: &[Vid]) -> LockAnswer
        requires caller { IsCaller caller self.old }
        requires idle { HoldsNothing caller self.old }
        requires shared_below { AreBelow self.old.slots shared.now }
        requires exclusive_below { AreBelow self.old.slots exclusive.now }
        requires most { length shared.now + length exclusive.now ≤ MOST_LOCKS }
        ensures taken { (result ≡ LockAnswer.Taken) ↔ AreFree self.old caller shared.now exclusive.now }
        ensures first { IfHeld result (λ vid by. IsFirstConflict self.old caller shared.now exclusive.now vid by) }
        ensures holder { IfHeld result (λ vid by. IsCaller by self.old × (by ≢ caller)) }

        // What is held then.
        ensures locked { OnTaken result (self.new ≡ with_locks caller shared.now exclusive.now self.old) }
        ensures kept { IfHeld result (λ vid by. self.new ≡ self.old) }
        ensures lawful { IsLawful self.new }
    {
        if let Some((vid, by)) = self.first_conflict(caller, shared, exclusive) {
            return LockAnswer::Held { vid, by };
        }
        self.shared.fill(caller, shared);
        self.exclusive.fill(caller, exclusive);
        LockAnswer::Taken
    }

    /// Gives back all locks that the caller holds.
    pub fn drop_all(&mut self, caller: u32)
        ensures dropped { self.new ≡ with_locks caller [] [] self.old }
        ensures lawful { IsLawful self.new }
    {
        if caller <= self.callers {
            self.shared.clear(caller);
            self.exclusive.clear(caller);
        }
    }

    /// Moves the caller's shared lock from one vnode to another, which nobody holds exclusively.
    pub fn move_shared(&mut self, caller: u32, from: Vid, to: Vid)
        requires held { has_slot from.slot (shared_of caller self.old) ≡ true }
        requires below { to.slot < self.old.slots }
        requires free { IsNowhereExclusive self.old to }
        ensures moved { self.new ≡ with_locks caller (moved from to (shared_of caller self.old)) (exclusive_of caller self.old) self.old }
        ensures lawful { IsLawful self.new }
    {
        self.shared.replace(caller, from, to);
    }
}

#[cfg(test)]
mod tests {
    use super::LockTable;
    use crate::answer::LockAnswer;
    use op_vector::Vid;
    use std::alloc::AllocError;

    fn vnode(slot: u32) -> Vid
        ensures { result ≡ record { slot = slot; generation = 1 } }
    {
        Vid {
            slot,
            generation: 1,
        }
    }

    #[test]
    fn locks_are_shared_or_exclusive(rt: HostRuntime) -> Result<(), AllocError> {
        let mut table = LockTable::new(rt.alloc(), 8, 3)?;
        let first = table.take_all(1, &[vnode(2), vnode(5)], &[vnode(7)]);
        assert!(rt; first == LockAnswer::Taken);
        let beside = table.take_all(2, &[vnode(5)], &[vnode(6), vnode(0)]);
        assert!(rt; beside == LockAnswer::Taken);
        let third = table.take_all(3, &[vnode(7)], &[vnode(5), vnode(2)]);
        let held = LockAnswer::Held {
            vid: vnode(5),
            by: 1,
        };
        assert!(rt; third == held);
        table.move_shared(1, vnode(5), vnode(3));
        table.drop_all(2);
        let again = table.take_all(3, &[vnode(6)], &[vnode(5)]);
        assert!(rt; again == LockAnswer::Taken);
        Ok(())
    }
}
