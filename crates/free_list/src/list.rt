ghost use Rattle.std.specs.Prelude.{◌≡◌, ◌<◌, ◌↔◌, ◌∷◌, ◌++◌, [], false, true, IsNone, IfSome, IfNone, IfOk, All, nat_eq};
ghost use Rattle.std.specs.List.{IsDistinct};
ghost use Rattle.free_list.specs.Queue.{member, without};
ghost use Rattle.free_list.specs.Links.{AreLooped};

use std::alloc::{AllocError, Global};
use std::marker::Model;

/// A list of slots without repeats. Contracts see the list, `queue`, from the front, and the number of slots, `slots`.
///
/// Each slot has a link to the next and to the one before, and an end whose number is `slots` closes both to a ring. A
/// slot that is not in the list is linked to itself. So each call on a list takes constant time and no memory.
#[derive(Drop)]
pub struct FreeList {
    next: Vec<u32>,
    prev: Vec<u32>,
    end: u32,
}

impl Model for FreeList {
    ghost use Rattle.free_list.specs.Queue.{Queue};
    ghost use Rattle.free_list.specs.Links.{chased, IsRing};

    ghost Value = { Queue };

    ghost view = { λ f. record { queue = chased f.next.items f.end; slots = f.end } };

    ghost invariant = { λ f. IsRing f.next.items f.prev.items f.end };
}

/// Links that lead from each slot and from the end to itself.
fn looped(alloc: Global, slots: u32) -> Result<Vec<u32>, AllocError>
    ensures { IfOk result (λ links. AreLooped links.items slots) }
{
    let mut links = Vec::new(alloc);
    links.reserve(slots as usize + 1)?;
    for slot in 0..slots {
        links.push(slot)?;
    }
    links.push(slots)?;
    Ok(links)
}

impl FreeList {
    /// An empty list for the slots below `slots`. The only fault is want of memory.
    pub fn new(alloc: Global, slots: u32) -> Result<FreeList, AllocError>
        ensures { IfOk result (λ list. list ≡ record { queue = []; slots = slots }) }
    {
        let next = looped(alloc, slots)?;
        let prev = looped(alloc, slots)?;
        Ok(FreeList {
            next,
            prev,
            end: slots,
        })
    }

    /// Puts a slot that is not in the list at the back.
    pub fn push_back(&mut self, slot: u32)
        requires below { slot < self.old.slots }
        requires absent { member slot self.old.queue ≡ false }
        ensures { self.new ≡ record self.old { queue = self.old.queue ++ slot ∷ [] } }
    {
        let end = self.end;
        let last = self.prev[end as usize];
        self.next[last as usize] = slot;
        self.next[slot as usize] = end;
        self.prev[slot as usize] = last;
        self.prev[end as usize] = slot;
    }

    /// Takes a slot of the list out of it.
    pub fn remove(&mut self, slot: u32)
        requires { member slot self.old.queue ≡ true }
        ensures { self.new ≡ record self.old { queue = without slot self.old.queue } }
    {
        let before = self.prev[slot as usize];
        let after = self.next[slot as usize];
        self.next[before as usize] = after;
        self.prev[after as usize] = before;
        self.next[slot as usize] = slot;
        self.prev[slot as usize] = slot;
    }

    /// Takes a slot out of the list where it is in it.
    pub fn discard(&mut self, slot: u32)
        requires { slot < self.old.slots }
        ensures { self.new ≡ record self.old { queue = without slot self.old.queue } }
    {
        if self.has(slot) {
            self.remove(slot);
        }
    }

    /// Takes the slot at the front out. `None` comes exactly where the list is empty.
    pub fn pop_front(&mut self) -> Option<u32>
        ensures none { IsNone result ↔ (self.old.queue ≡ []) }
        ensures kept { IfNone result (self.new ≡ self.old) }
        ensures front { IfSome result (λ slot. self.old.queue ≡ slot ∷ self.new.queue) }
        ensures others { IfSome result (λ slot. self.new ≡ record self.old { queue = without slot self.old.queue }) }
    {
        let front = self.front()?;
        self.remove(front);
        Some(front)
    }

    /// The slot at the front. `None` comes exactly where the list is empty.
    pub fn front(&self) -> Option<u32>
        ensures none { IsNone result ↔ (self.now.queue ≡ []) }
        ensures front { IfSome result (λ slot. self.now.queue ≡ slot ∷ without slot self.now.queue) }
        ensures listed { IfSome result (λ slot. member slot self.now.queue ≡ true) }

        // What every list keeps.
        ensures below { All (λ slot. slot < self.now.slots) self.now.queue }
        ensures distinct { IsDistinct nat_eq self.now.queue }
    {
        let front = self.next[self.end as usize];
        if front == self.end { None } else { Some(front) }
    }

    /// Whether the slot is in the list.
    pub fn has(&self, slot: u32) -> bool
        requires { slot < self.now.slots }
        ensures { result ≡ member slot self.now.queue }
    {
        self.next[slot as usize] != slot
    }
}

#[cfg(test)]
mod tests {
    use super::FreeList;
    use std::alloc::AllocError;

    #[test]
    fn slots_come_and_go(rt: HostRuntime) -> Result<(), AllocError> {
        let mut list = FreeList::new(rt.alloc(), 5)?;
        assert!(rt; list.pop_front() == None);
        list.push_back(3);
        list.push_back(0);
        list.push_back(4);
        list.push_back(1);
        list.remove(4);
        list.discard(2);
        list.discard(3);
        assert!(rt; list.has(0) && !list.has(3));
        assert!(rt; list.front() == Some(0));
        assert!(rt; list.pop_front() == Some(0));
        assert!(rt; list.pop_front() == Some(1));
        assert!(rt; list.pop_front() == None);
        Ok(())
    }
}
