ghost use Rattle.std.specs.Prelude.{◌≡◌, ◌≢◌, ◌<◌, ◌≤◌, ◌+◌, ◌↔◌, ℕ, false, None, Some, IsSome, IfOk, OnOk, OnErr, slice_get, option_map};
ghost use Rattle.std.specs.Option.{option_copied};
ghost use Rattle.std.specs.FinMap as entries;
ghost use Rattle.vfs_tree.specs.Mounts.{covering, stands_on, is_left, cut_with};
ghost use Rattle.mount_table.specs.Table.{start_table, with_mount, HasLayers};
ghost use Rattle.mount_table.specs.declared.fault.AddFault.TheVariants as fault;

use crate::fault::AddFault;
use crate::seat::{
    Seat, covering, found, is_left, leave, left_by, place_of, seat_at, stands_on, take_out,
};
use std::alloc::{AllocError, Global};
use std::marker::Model;
use vfs_tree::{Mount, MountKind, Place};

/// The mounts of a file tree. Contracts see them by their numbers, with the mount that each caller is leaving, the number
/// of the next mount, and a slot for each mount.
#[derive(Drop)]
pub struct MountTable {
    seats: Vec<Seat>,
    free: Vec<u32>,
    next: u32,
    most: u32,
}

impl Model for MountTable {
    ghost use Rattle.std.specs.Prelude.{vec_capacity};
    ghost use Rattle.vfs_tree.specs.contracts.mount.Mount as mount;
    ghost use Rattle.mount_table.specs.Table.{Table, table_code};
    ghost use Rattle.mount_table.specs.Seats.{table_of, IsKept};

    ghost Value = { Table };

    ghost coded = { table_code mount.the_row.coded };

    ghost view = { λ t. table_of t.seats.items t.next t.most };

    ghost invariant = { λ t. IsKept t.seats.items t.free.items t.next t.most (vec_capacity t.free) };
}

impl MountTable {
    /// A table for `most` mounts that has mount 0, the memory file system of the root. The only fault is want of memory.
    pub fn new(alloc: Global, most: u32) -> Result<MountTable, AllocError>
        requires { 1 ≤ most }
        ensures { IfOk result (λ table. table ≡ start_table most) }
    {
        let mut free = Vec::with_capacity(alloc, most as usize)?;
        for slot in 1..most {
            free.push(slot)?;
        }
        let root = Mount {
            number: 0,
            kind: MountKind::Mem,
            on: None,
            cut: false,
        };
        let mut seats = Vec::new(alloc);
        seats.push(Seat {
            mount: root,
            slot: 0,
            left_by: None,
        })?;
        Ok(MountTable {
            seats,
            free,
            next: 1,
            most,
        })
    }

    /// Adds a mount, whose layers lie in mounts that are there, and answers its number.
    ///
    /// `Full` comes exactly where there are `most` mounts, and else `NoNumber` exactly where every number was given once.
    /// `NoMemory` is the other.
    pub fn add(&mut self, kind: MountKind, on: Place) -> Result<u32, AddFault>
        requires { HasLayers kind self.old.mounts }
        ensures full { (result ≡ Err fault.Full) ↔ (entries.len self.old.mounts ≡ self.old.most) }
        ensures no_number { (result ≡ Err fault.NoNumber) ↔ ((entries.len self.old.mounts ≢ self.old.most) × (self.old.next_mount ≡ 4294967295)) }
        ensures number { IfOk result (λ number. number ≡ self.old.next_mount) }
        ensures added { OnOk result ((slot : ℕ) × (self.new ≡ with_mount kind on slot self.old)) }
        ensures err { OnErr result (self.new ≡ self.old) }
    {
        if self.seats.len() == self.most as usize {
            return Err(AddFault::Full);
        }
        if self.next == u32::MAX {
            return Err(AddFault::NoNumber);
        }
        let number = self.next;
        let slot = self.free[self.free.len() - 1];
        let mount = Mount {
            number,
            kind,
            on: Some(on),
            cut: false,
        };
        self.seats.push(Seat {
            mount,
            slot,
            left_by: None,
        })?;
        self.free.pop();
        self.next += 1;
        Ok(number)
    }

    /// The mount of that number. `None` comes exactly where there is none.
    pub fn get(&self, number: u32) -> Option<&Mount>
        ensures { option_copied result ≡ entries.get self.now.mounts number }
    {
        match place_of(self.seats.as_slice(), number) {
            Some(at) => Some(&self.seats[at].mount),
            None => None,
        }
    }

    /// The mount that covers the place: it is on it, and nobody is leaving it. `None` comes exactly where none does.
    pub fn top_on(&self, place: &Place) -> Option<u32>
        ensures { result ≡ covering self.now.mounts self.now.leaving place.now }
    {
        covering(self.seats.as_slice(), place)
    }

    /// Whether mount `a` stands on mount `b`: a layer of `a` lies in `b`, or in a mount that stands on `b`.
    pub fn stands_on(&self, a: u32, b: u32) -> bool
        ensures { result ≡ stands_on self.now.mounts a b }
    {
        stands_on(self.seats.as_slice(), a, b)
    }

    /// The mounts in the order of their numbers, counted from 0. `None` comes exactly from their count on.
    pub fn at(&self, index: u32) -> Option<&Mount>
        ensures { option_copied result ≡ slice_get (entries.values self.now.mounts) index }
    {
        match seat_at(self.seats.as_slice(), index as usize) {
            Some(seat) => Some(&seat.mount),
            None => None,
        }
    }

    /// The number of the next mount.
    pub fn next_number(&self) -> u32
        ensures { result ≡ self.now.next_mount }
    {
        self.next
    }

    /// The mount that the caller is leaving. `None` comes exactly where it leaves none.
    pub fn leaving(&self, caller: u32) -> Option<u32>
        ensures { result ≡ entries.get self.now.leaving caller }
    {
        left_by(self.seats.as_slice(), caller)
    }

    /// Whether some caller is leaving the mount of that number.
    pub fn is_left(&self, number: u32) -> bool
        ensures { result ≡ is_left self.now.leaving number }
    {
        is_left(self.seats.as_slice(), number)
    }

    /// The slot of a mount that is there: a number that it keeps, and that no other mount has meanwhile.
    pub fn slot(&self, number: u32) -> u32
        requires { IsSome (entries.get self.now.mounts number) }
        ensures slot { Some result ≡ entries.get self.now.slots number }
        ensures below { result < self.now.most }
        ensures own { (other : ℕ) → entries.get self.now.slots other ≡ Some result → other ≡ number }
    {
        let at = found(self.seats.as_slice(), number);
        self.seats[at].slot
    }

    /// Cuts a mount that is there, and each that stands on it, as a forced unmount begins. The caller is leaving it from
    /// then on, and it covers nothing. The caller was leaving no mount, and nobody was leaving this one.
    pub fn detach(&mut self, number: u32, caller: u32)
        requires there { IsSome (entries.get self.old.mounts number) }
        requires idle { entries.get self.old.leaving caller ≡ None }
        requires staying { is_left self.old.leaving number ≡ false }
        ensures cut { (other : ℕ) → entries.get self.new.mounts other ≡ option_map (cut_with self.old.mounts number) (entries.get self.old.mounts other) }
        ensures others { self.new ≡ record self.old { mounts = self.new.mounts; leaving = entries.insert self.old.leaving caller number } }
    {
        leave(self.seats.as_mut_slice(), number, caller);
    }

    /// Takes a mount that is there away. Nobody is leaving it then.
    pub fn drop_mount(&mut self, number: u32)
        requires { IsSome (entries.get self.old.mounts number) }
        ensures dropped { self.new ≡ record self.old { mounts = entries.remove self.old.mounts number; slots = entries.remove self.old.slots number; leaving = self.new.leaving } }
        ensures left { (caller : ℕ) → entries.get self.old.leaving caller ≡ Some number → self.new.leaving ≡ entries.remove self.old.leaving caller }
        ensures staying { is_left self.old.leaving number ≡ false → self.new.leaving ≡ self.old.leaving }
    {
        let at = found(self.seats.as_slice(), number);
        let slot = take_out(&mut self.seats, at);
        self.free.push_reserved(slot);
    }
}

#[cfg(test)]
mod tests {
    use super::MountTable;
    use crate::fault::AddFault;
    use std::test::Fail;
    use vfs_tree::{MountKind, Place};

    #[test]
    fn a_mount_covers_its_place(rt: HostRuntime) -> Result<(), Fail> {
        let mut table = MountTable::new(rt.alloc(), 2)?;
        let added = table.add(MountKind::Mem, Place::mem(0, 1));
        assert!(rt; added == Ok(1));
        assert!(rt; table.top_on(&Place::mem(0, 1)) == Some(1));
        assert!(rt; table.top_on(&Place::mem(0, 2)).is_none());
        let full = table.add(MountKind::Mem, Place::mem(0, 2));
        assert!(rt; full == Err(AddFault::Full));
        assert!(rt; table.next_number() == 2);
        assert!(rt; table.at(1).is_some() && table.at(2).is_none());
        Ok(())
    }

    // A null mount of the mount before, on the directory with that inode.
    fn add_view(table: &mut MountTable, layer: u32, on: u32) -> bool {
        if table.get(layer).is_none() {
            return false;
        }
        let kind = MountKind::Null {
            layer: Place::mem(layer, 1),
        };
        table.add(kind, Place::mem(0, on)).is_ok()
    }

    fn detach(table: &mut MountTable, number: u32, caller: u32) -> bool {
        if table.get(number).is_none() || table.leaving(caller).is_some() || table.is_left(number) {
            return false;
        }
        table.detach(number, caller);
        true
    }

    fn is_cut(table: &MountTable, number: u32) -> Option<bool> {
        table.get(number).map(|mount| mount.cut)
    }

    #[test]
    fn a_mount_is_cut_with_those_over_it(rt: HostRuntime) -> Result<(), Fail> {
        let mut table = MountTable::new(rt.alloc(), 5)?;
        assert!(rt; table.add(MountKind::Mem, Place::mem(0, 2)) == Ok(1));
        assert!(rt; add_view(&mut table, 1, 3));
        assert!(rt; add_view(&mut table, 2, 4));
        assert!(rt; add_view(&mut table, 0, 5));
        assert!(rt; table.stands_on(3, 1) && !table.stands_on(1, 3) && !table.stands_on(4, 1));
        assert!(rt; detach(&mut table, 1, 2));
        assert!(rt; table.leaving(2) == Some(1) && table.leaving(1).is_none());
        assert!(rt; table.top_on(&Place::mem(0, 2)).is_none());
        assert!(rt; table.top_on(&Place::mem(0, 3)) == Some(2));
        for (number, cut) in [(0, false), (1, true), (2, true), (3, true), (4, false)] {
            assert_eq!(rt; is_cut(&table, number), Some(cut));
        }
        Ok(())
    }
}
