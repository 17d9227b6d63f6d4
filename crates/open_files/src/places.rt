ghost use Rattle.std.specs.Prelude.{◌≡◌, ℕ, ◌*◌, ◌<◌, ◌≤◌, ◌==◌, nat_lt, cond, length, replicate, count_by, vec_capacity, IsSome, IfSome, IfNone, IfOk, None};
ghost use Rattle.std.specs.Option.{option_copied, option_map};
ghost use Rattle.std.specs.List.{slice_index_or};
ghost use Rattle.open_files.specs.Rows.{place_of, file_of, slot_of, seat_of, without_seat, HasExchanged};

use std::alloc::Global;
use std::mem;
use vfs_tree::{NoMemory, Open};

/// How many descriptors a caller has; they are numbered from 0.
pub const DESCRIPTORS: u32 = 32;

/// An open file with the slot that it has until it is closed.
#[derive(Drop)]
pub struct Seat {
    /// The slot.
    pub slot: u32,
    /// The open file.
    pub file: Open,
}

/// The place of a caller's descriptor.
pub fn place_of(caller: u32, fd: u32) -> usize
    requires from { 1 ≤ caller }
    requires within { fd < 32 }
    ensures { result ≡ place_of caller fd }
{
    (caller as usize - 1) * DESCRIPTORS as usize + fd as usize
}

/// What a caller's descriptor has. `None` comes exactly where it has nothing.
pub fn seat_at(places: &[Option<Seat>], caller: u32, fd: u32) -> Option<&Seat>
    requires from { 1 ≤ caller }
    requires to { caller * 32 ≤ length places.now }
    ensures { option_copied result ≡ seat_of places.now caller fd }
{
    if DESCRIPTORS <= fd {
        return None;
    }
    places[place_of(caller, fd)].as_ref()
}

/// Takes out what a caller's descriptor has. `None` comes exactly where it has nothing.
pub fn take_seat(places: &mut [Option<Seat>], caller: u32, fd: u32) -> Option<Seat>
    requires from { 1 ≤ caller }
    requires to { caller * 32 ≤ length places.old }
    ensures before { result ≡ seat_of places.old caller fd }
    ensures taken { places.new ≡ without_seat places.old caller fd }
{
    if fd >= DESCRIPTORS {
        return None;
    }
    places[place_of(caller, fd)].take()
}

/// Puts another open file in the place of the one that the caller's descriptor has, and answers that one.
pub fn exchange(places: &mut [Option<Seat>], caller: u32, fd: u32, file: Open) -> Open
    requires from { 1 ≤ caller }
    requires within { fd < 32 }
    requires to { caller * 32 ≤ length places.old }
    requires taken { IsSome (slice_index_or places.old (place_of caller fd) None) }
    ensures { HasExchanged places.old places.new (place_of caller fd) result file }
{
    match &mut places[place_of(caller, fd)] {
        Some(seat) => mem::replace(&mut seat.file, file),
        None => unreachable!(),
    }
}

/// The lowest descriptor of the caller that has nothing. `None` comes exactly where all have something.
pub fn lowest_free(places: &[Option<Seat>], caller: u32) -> Option<u32>
    requires from { 1 ≤ caller }
    requires to { caller * 32 ≤ length places.now }
    ensures within { IfSome result (λ fd. fd < 32) }
    ensures free { IfSome result (λ fd. slice_index_or places.now (place_of caller fd) None ≡ None) }
    ensures lower { IfSome result (λ fd. (k : ℕ) → k < fd → IsSome (slice_index_or places.now (place_of caller k) None)) }
    ensures none { IfNone result ((k : ℕ) → k < 32 → IsSome (slice_index_or places.now (place_of caller k) None)) }
{
    for fd in 0..DESCRIPTORS {
        if places[place_of(caller, fd)].is_none() {
            return Some(fd);
        }
    }
    None
}

/// The lowest descriptor of the caller, from `from` on, that has something. `None` comes exactly where none has.
pub fn next_taken(places: &[Option<Seat>], caller: u32, from: u32) -> Option<u32>
    requires from { 1 ≤ caller }
    requires to { caller * 32 ≤ length places.now }
    ensures within { IfSome result (λ fd. (from ≤ fd) × (fd < 32)) }
    ensures taken { IfSome result (λ fd. IsSome (slice_index_or places.now (place_of caller fd) None)) }
    ensures lower { IfSome result (λ fd. (k : ℕ) → from ≤ k → k < fd → slice_index_or places.now (place_of caller k) None ≡ None) }
    ensures none { IfNone result ((k : ℕ) → from ≤ k → k < 32 → slice_index_or places.now (place_of caller k) None ≡ None) }
{
    for fd in from..DESCRIPTORS {
        if places[place_of(caller, fd)].is_some() {
            return Some(fd);
        }
    }
    None
}

/// The open file of what a descriptor has.
pub fn open_of(seat: Option<&Seat>) -> Option<&Open>
    ensures { option_copied result ≡ option_map file_of (option_copied seat.entry) }
{
    match seat {
        Some(seat) => Some(&seat.file),
        None => None,
    }
}

/// The slot of what a descriptor has.
pub fn slot_of(seat: Option<&Seat>) -> Option<u32>
    ensures { result ≡ option_map slot_of (option_copied seat.entry) }
{
    match seat {
        Some(seat) => Some(seat.slot),
        None => None,
    }
}

/// Free places for the callers from 1 to `callers`. The only fault is want of memory.
pub fn free_places(alloc: Global, callers: u32) -> Result<Vec<Option<Seat>>, NoMemory>
    ensures { IfOk result (λ places. places.items ≡ replicate (callers * 32) None) }
{
    let most = callers as usize * DESCRIPTORS as usize;
    let mut places = Vec::new(alloc);
    places.reserve(most)?;
    for _place in 0..most {
        places.push(None)?;
    }
    Ok(places)
}

/// The slots below `files`, and room for them. The only fault is want of memory.
pub fn free_slots(alloc: Global, files: u32) -> Result<Vec<u32>, NoMemory>
    ensures room { IfOk result (λ free. files ≤ vec_capacity free) }
    ensures len { IfOk result (λ free. length free.items ≡ files) }
    ensures once { IfOk result (λ free. (slot : ℕ) → count_by (λ x. x == slot) free.items ≡ cond (nat_lt slot files) 1 0) }
{
    let mut free = Vec::new(alloc);
    free.reserve(files as usize)?;
    for slot in 0..files {
        free.push(slot)?;
    }
    Ok(free)
}
