ghost use Rattle.std.specs.Prelude.{◌≡◌, ◌<◌, ◌≤◌, ◌+◌, [], true, length, slice_index_or, slice_set, replicate, IfOk};
ghost use Rattle.vnode_lock.specs.Listed.{has_slot, AreBelow, moved};

use crate::MOST_LOCKS;
use crate::lock_list::LockList;
use op_vector::Vid;
use std::alloc::{AllocError, Global};
use std::marker::Model;

/// A list of locked vnodes for each caller, by its number; number 0 has one too, which stays empty.
///
/// Contracts see the lists of vnodes and the number of slots.
#[derive(Drop)]
pub struct LockRows {
    lists: Vec<LockList>,
    slots: u32,
}

impl Model for LockRows {
    ghost use Rattle.vnode_lock.specs.Listed.{Rows, vids_of, AreOf};

    ghost Value = { Rows };

    ghost view = { λ r. record { rows = vids_of r.lists.items; slots = r.slots } };

    ghost invariant = { λ r. AreOf r.slots r.lists.items };
}

impl LockRows {
    /// Empty lists of the callers up to `callers`, for the slots below `slots`. The only fault is want of memory.
    pub fn new(alloc: Global, slots: u32, callers: u32) -> Result<LockRows, AllocError>
        ensures { IfOk result (λ rows. rows ≡ record { rows = replicate (callers + 1) []; slots = slots }) }
    {
        let rows = callers as usize + 1;
        let mut lists = Vec::with_capacity(alloc, rows)?;
        for _ in 0..rows {
            lists.push(LockList::new(alloc, slots)?)?;
        }
        Ok(LockRows { lists, slots })
    }

    /// Whether a vnode of the caller's list has that slot.
    pub fn has(&self, caller: u32, slot: u32) -> bool
        requires caller { caller < length self.now.rows }
        requires below { slot < self.now.slots }
        ensures { result ≡ has_slot slot (slice_index_or self.now.rows caller []) }
    {
        self.lists[caller as usize].has(slot)
    }

    /// Puts these vnodes into the caller's list, which is empty.
    pub fn fill(&mut self, caller: u32, vids: &[Vid])
        requires caller { caller < length self.old.rows }
        requires empty { slice_index_or self.old.rows caller [] ≡ [] }
        requires below { AreBelow self.old.slots vids.now }
        requires room { length vids.now ≤ MOST_LOCKS }
        ensures { self.new ≡ record self.old { rows = slice_set self.old.rows caller vids.now } }
    {
        self.lists[caller as usize].fill(vids);
    }

    /// Takes all vnodes out of the caller's list.
    pub fn clear(&mut self, caller: u32)
        requires { caller < length self.old.rows }
        ensures { self.new ≡ record self.old { rows = slice_set self.old.rows caller [] } }
    {
        self.lists[caller as usize].clear();
    }

    /// Puts `to` in place of each vnode of the caller's list that has the slot of `from`.
    pub fn replace(&mut self, caller: u32, from: Vid, to: Vid)
        requires caller { caller < length self.old.rows }
        requires listed { has_slot from.slot (slice_index_or self.old.rows caller []) ≡ true }
        requires below { to.slot < self.old.slots }
        ensures { self.new ≡ record self.old { rows = slice_set self.old.rows caller (moved from to (slice_index_or self.old.rows caller [])) } }
    {
        self.lists[caller as usize].replace(from, to);
    }
}
