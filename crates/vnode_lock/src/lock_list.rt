ghost use Rattle.std.specs.Prelude.{◌≡◌, ◌<◌, ◌≤◌, ℕ, [], true, false, cond, length, slice_index_or, vec_capacity, IfOk};
ghost use Rattle.vnode_lock.specs.Listed.{Listed, has_slot, AreBelow, replaced, moved};

use crate::MOST_LOCKS;
use op_vector::Vid;
use std::alloc::{AllocError, Global};
use std::marker::Model;

/// A list of at most `MOST_LOCKS` vnodes with a mark for each slot, so that a slot is looked up in constant time.
///
/// Contracts see the vnodes and the number of slots.
#[derive(Drop)]
pub struct LockList {
    vids: Vec<Vid>,
    marks: Vec<bool>,
}

impl Model for LockList {
    ghost use Rattle.std.specs.Prelude.{length, vec_capacity};
    ghost use Rattle.vnode_lock.specs.Listed.{Listed, IsMarked};
    ghost use Rattle.vnode_lock.specs.declared.TheConstants.{MOST_LOCKS};

    ghost Value = { Listed };

    ghost view = { λ l. record { vids = l.vids.items; slots = length l.marks.items } };

    ghost invariant = { λ l. IsMarked l.vids.items l.marks.items MOST_LOCKS (vec_capacity l.vids) };
}

/// Writes the mark of each vnode's slot.
fn write_marks(marks: &mut [bool], vids: &[Vid], mark: bool)
    requires { AreBelow (length marks.old) vids.now }
    ensures { (slot : ℕ) → slice_index_or marks.new slot false ≡ cond (has_slot slot vids.now) mark (slice_index_or marks.old slot false) }
{
    for vid in vids {
        marks[vid.slot as usize] = mark;
    }
}

/// Puts `to` in place of each vnode that has the slot of `from`.
fn replace_each(vids: &mut [Vid], from: Vid, to: Vid)
    ensures { vids.new ≡ moved from to vids.old }
{
    for vid in vids.iter_mut() {
        if vid.slot == from.slot {
            *vid = to;
        }
    }
}

/// Puts vnodes for which there is room into an empty vector.
fn push_each(into: &mut Vec<Vid>, vids: &[Vid])
    requires empty { into.old.items ≡ [] }
    requires room { length vids.now ≤ vec_capacity into.old }
    ensures items { into.new.items ≡ vids.now }
    ensures capacity { vec_capacity into.new ≡ vec_capacity into.old }
{
    for vid in vids {
        into.push_reserved(*vid);
    }
}

impl LockList {
    /// An empty list for the slots below `slots`. The only fault is want of memory.
    pub fn new(alloc: Global, slots: u32) -> Result<LockList, AllocError>
        ensures { IfOk result (λ list. list ≡ record { vids = []; slots = slots }) }
    {
        let vids = Vec::with_capacity(alloc, MOST_LOCKS)?;
        let marks = vec![in alloc; false; slots as usize]?;
        Ok(LockList { vids, marks })
    }

    /// Whether a vnode of the list has that slot.
    pub fn has(&self, slot: u32) -> bool
        requires { slot < self.now.slots }
        ensures { result ≡ has_slot slot self.now.vids }
    {
        self.marks[slot as usize]
    }

    /// Puts these vnodes into the empty list.
    pub fn fill(&mut self, vids: &[Vid])
        requires empty { self.old.vids ≡ [] }
        requires below { AreBelow self.old.slots vids.now }
        requires room { length vids.now ≤ MOST_LOCKS }
        ensures { self.new ≡ record self.old { vids = vids.now } }
    {
        push_each(&mut self.vids, vids);
        write_marks(self.marks.as_mut_slice(), vids, true);
    }

    /// Takes all vnodes out.
    pub fn clear(&mut self)
        ensures { self.new ≡ record self.old { vids = [] } }
    {
        write_marks(self.marks.as_mut_slice(), self.vids.as_slice(), false);
        self.vids.clear();
    }

    /// Puts `to` in place of each vnode that has the slot of `from`.
    pub fn replace(&mut self, from: Vid, to: Vid)
        requires listed { has_slot from.slot self.old.vids ≡ true }
        requires below { to.slot < self.old.slots }
        ensures { self.new ≡ record self.old { vids = moved from to self.old.vids } }
    {
        self.marks[from.slot as usize] = false;
        self.marks[to.slot as usize] = true;
        replace_each(self.vids.as_mut_slice(), from, to);
    }
}
