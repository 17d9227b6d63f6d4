ghost use Rattle.std.specs.Prelude.{◌≡◌, ◌↔◌, ◌<◌, ◌≤◌, ℕ, Some, None, Err, IsSome, IsNone, IfSome, IfNone, IfOk, OnErr};
ghost use Rattle.std.specs.Option.{option_copied};
ghost use Rattle.std.specs.FinMap as map;
ghost use Rattle.open_files.specs.Opens.{IsCallerFull, IsLowestFree, GetsSlot, HasLawfulKeys, HasLimitsOf};

use crate::fault::OpenFault;
use crate::places::{
    Seat, exchange, free_places, free_slots, lowest_free, next_taken, open_of, place_of, seat_at,
    slot_of, take_seat,
};
use std::alloc::Global;
use std::marker::Model;
use vfs_tree::{NoMemory, Open};

/// The open descriptors of all callers. Contracts see the numbers of callers and of files that may be open, the opens by
/// caller and descriptor, and the slot of each: a number below `files` that no other open has.
///
/// Each caller has a row of 32 places. So each call looks at no more than the places of one row, and takes no memory.
#[derive(Drop)]
pub struct OpenTable {
    places: Vec<Option<Seat>>,
    free: Vec<u32>,
    callers: u32,
    files: u32,
}

impl Model for OpenTable {
    ghost use Rattle.std.specs.Prelude.{◌≤◌, vec_capacity};
    ghost use Rattle.open_files.specs.Opens.{Opens, coded_opens};

    ghost Value = { Opens };

    ghost coded = { coded_opens };

    ghost use Rattle.open_files.specs.Rows.{opens_in, slots_in, IsSeated};

    ghost view = { λ t. record { callers = t.callers; files = t.files; opens = opens_in t.places.items; slots = slots_in t.places.items } };

    ghost invariant = { λ t. IsSeated t.callers t.files t.places.items t.free.items × (t.files ≤ vec_capacity t.free) };
}

impl OpenTable {
    /// A table for the callers from 1 to `callers`, who may have `files` opens together. The only fault is want of memory.
    pub fn new(alloc: Global, callers: u32, files: u32) -> Result<OpenTable, NoMemory>
        ensures { IfOk result (λ table. table ≡ record { callers = callers; files = files; opens = map.empty; slots = map.empty }) }
    {
        let places = free_places(alloc, callers)?;
        let free = free_slots(alloc, files)?;
        Ok(OpenTable {
            places,
            free,
            callers,
            files,
        })
    }

    /// Opens the lowest descriptor of the caller that is free, and answers it. It takes no memory.
    ///
    /// `CallerFull` comes exactly where all 32 descriptors of the caller are open. Else `AllFull` comes exactly where
    /// `files` descriptors are open in all.
    pub fn open(&mut self, caller: u32, o: Open) -> Result<u32, OpenFault>
        requires from { 1 ≤ caller }
        requires to { caller ≤ self.old.callers }
        ensures caller_full { (result ≡ Err OpenFault.CallerFull) ↔ IsCallerFull caller self.old }
        ensures all_full { (result ≡ Err OpenFault.AllFull) ↔ ((¬ (IsCallerFull caller self.old)) × (map.len self.old.opens ≡ self.old.files)) }
        ensures lowest { IfOk result (λ fd. IsLowestFree caller fd self.old) }
        ensures opens { IfOk result (λ fd. self.new.opens ≡ map.insert self.old.opens (caller, fd) o) }
        ensures slot { IfOk result (λ fd. GetsSlot (caller, fd) self.old self.new) }
        ensures limits { HasLimitsOf self.old self.new }
        ensures kept { OnErr result (self.new ≡ self.old) }
    {
        let Some(fd) = lowest_free(self.places.as_slice(), caller) else {
            return Err(OpenFault::CallerFull);
        };
        let Some(slot) = self.free.pop() else {
            return Err(OpenFault::AllFull);
        };
        self.places[place_of(caller, fd)] = Some(Seat { slot, file: o });
        Ok(fd)
    }

    /// The open file of the caller's descriptor. `None` comes exactly where the descriptor isn't open.
    pub fn get(&self, caller: u32, fd: u32) -> Option<&Open>
        requires from { 1 ≤ caller }
        requires to { caller ≤ self.now.callers }
        ensures { option_copied result ≡ map.get self.now.opens (caller, fd) }
    {
        open_of(seat_at(self.places.as_slice(), caller, fd))
    }

    /// The slot of the caller's descriptor, which it keeps until it is closed. `None` comes exactly where the descriptor
    /// isn't open.
    pub fn slot(&self, caller: u32, fd: u32) -> Option<u32>
        requires from { 1 ≤ caller }
        requires to { caller ≤ self.now.callers }
        ensures slot { result ≡ map.get self.now.slots (caller, fd) }
        ensures none { IsNone result ↔ (map.get self.now.opens (caller, fd) ≡ None) }
        ensures below { IfSome result (λ slot. slot < self.now.files) }
        ensures alone { IfSome result (λ slot. (key : ℕ × ℕ) → map.get self.now.slots key ≡ Some slot → key ≡ (caller, fd)) }
    {
        slot_of(seat_at(self.places.as_slice(), caller, fd))
    }

    /// The lowest descriptor of the caller, from `from` on, that is open. `None` comes exactly where none is.
    ///
    /// With it all opens can be gone through in the order of the callers and of their descriptors.
    pub fn next_open(&self, caller: u32, from: u32) -> Option<u32>
        requires from { 1 ≤ caller }
        requires to { caller ≤ self.now.callers }
        ensures within { IfSome result (λ fd. (from ≤ fd) × (fd < 32)) }
        ensures open { IfSome result (λ fd. IsSome (map.get self.now.opens (caller, fd))) }
        ensures lower { IfSome result (λ fd. (k : ℕ) → from ≤ k → k < fd → map.get self.now.opens (caller, k) ≡ None) }
        ensures none { IfNone result ((k : ℕ) → from ≤ k → map.get self.now.opens (caller, k) ≡ None) }

        // What every table keeps.
        ensures lawful { HasLawfulKeys self.now }
        ensures few { map.len self.now.opens ≤ self.now.files }
    {
        next_taken(self.places.as_slice(), caller, from)
    }

    /// Puts another open file in the place of the one of an open descriptor, and answers that one. The descriptor keeps its
    /// slot. It takes no memory.
    pub fn set(&mut self, caller: u32, fd: u32, o: Open) -> Open
        requires { IsSome (map.get self.old.opens (caller, fd)) }
        ensures before { map.get self.old.opens (caller, fd) ≡ Some result }
        ensures after { self.new ≡ record self.old { opens = map.insert self.old.opens (caller, fd) o } }
    {
        exchange(self.places.as_mut_slice(), caller, fd, o)
    }

    /// Closes the caller's descriptor, and answers its open file. `None` comes exactly where the descriptor isn't open. It
    /// takes no memory.
    pub fn close(&mut self, caller: u32, fd: u32) -> Option<Open>
        requires from { 1 ≤ caller }
        requires to { caller ≤ self.old.callers }
        ensures closed { result ≡ map.get self.old.opens (caller, fd) }
        ensures opens { self.new.opens ≡ map.remove self.old.opens (caller, fd) }
        ensures slots { self.new.slots ≡ map.remove self.old.slots (caller, fd) }
        ensures limits { HasLimitsOf self.old self.new }
    {
        let seat = take_seat(self.places.as_mut_slice(), caller, fd)?;
        self.free.push_reserved(seat.slot);
        Some(seat.file)
    }
}
