ghost use Rattle.std.specs.Prelude.{◌≡◌, ◌≢◌, ◌==◌, ◌<◌, length, slice_index_or, slice_get, map, option_map, IsSome, All, MatchOption};
ghost use Rattle.std.specs.Option.{option_copied};
ghost use Rattle.std.specs.List.{find, list_any, remove};
ghost use Rattle.std.specs.Ordering.{nat_cmp};
ghost use Rattle.std.specs.FinMap as entries;
ghost use Rattle.vfs_tree.specs.Mounts.{stands_on, is_of};
ghost use Rattle.mount_table.specs.Seats.{mounts_in, leavers, AreLower, IsPlace, IsLeft, covers_seat, cut_seat};

use vfs_tree::{Mount, MountKind, Place};

/// A mount with what the table keeps beside it.
#[derive(Drop)]
pub struct Seat {
    pub mount: Mount,
    /// A number that no other mount of the table has while this one is there.
    pub slot: u32,
    /// The caller whose forced unmount is leaving it.
    pub left_by: Option<u32>,
}

/// Where the mount of that number stands.
pub fn place_of(seats: &[Seat], number: u32) -> Option<usize>
    ensures { MatchOption result (All (λ seat. seat.mount.number ≢ number) seats.now) (IsPlace seats.now number) }
{
    for (at, seat) in seats.iter().enumerate() {
        if seat.mount.number == number {
            return Some(at);
        }
    }
    None
}

/// Where the mount of that number, which is there, stands.
pub fn found(seats: &[Seat], number: u32) -> usize
    requires { IsSome (entries.get (mounts_in seats.now) number) }
    ensures { IsPlace seats.now number result }
{
    match place_of(seats, number) {
        Some(at) => at,
        None => unreachable!(),
    }
}

/// The seat at an index.
pub fn seat_at(seats: &[Seat], index: usize) -> Option<&Seat>
    ensures { option_copied result ≡ slice_get seats.now index }
{
    seats.get(index)
}

/// The mount that the caller is leaving.
pub fn left_by(seats: &[Seat], caller: u32) -> Option<u32>
    ensures { result ≡ entries.find nat_cmp caller (leavers seats.now) }
{
    for seat in seats {
        if let Some(by) = seat.left_by {
            if by == caller {
                return Some(seat.mount.number);
            }
        }
    }
    None
}

/// Whether some caller is leaving the mount of that number.
pub fn is_left(seats: &[Seat], number: u32) -> bool
    ensures { result ≡ list_any (λ entry. entry.1 == number) (leavers seats.now) }
{
    for seat in seats {
        if seat.left_by.is_some() && seat.mount.number == number {
            return true;
        }
    }
    false
}

/// Whether the mount of a seat covers the place.
fn covers(seat: &Seat, place: &Place) -> bool
    ensures { result ≡ covers_seat place.now seat.now }
{
    match (&seat.mount.on, seat.left_by) {
        (Some(on), None) => on.same(place),
        (Some(_), Some(_)) => false,
        (None, _) => false,
    }
}

/// The mount that covers the place.
pub fn covering(seats: &[Seat], place: &Place) -> Option<u32>
    ensures { result ≡ option_map (λ seat. seat.mount.number) (find (covers_seat place.now) seats.now) }
{
    for seat in seats {
        if covers(seat, place) {
            return Some(seat.mount.number);
        }
    }
    None
}

/// Whether mount `a` stands on mount `b`.
pub fn stands_on(seats: &[Seat], a: u32, b: u32) -> bool
    requires { AreLower seats.now }
    ensures { result ≡ stands_on (mounts_in seats.now) a b }
{
    let Some(at) = place_of(seats, a) else {
        return false;
    };
    match &seats[at].mount.kind {
        MountKind::Mem => false,
        MountKind::Null { layer } => {
            let below = layer.mount();
            if below == b {
                return true;
            }
            stands_on(seats, below, b)
        }
        MountKind::Union { store, lower, .. } => {
            let below = lower.mount();
            if *store == b {
                return true;
            }
            if stands_on(seats, *store, b) {
                return true;
            }
            if below == b {
                return true;
            }
            stands_on(seats, below, b)
        }
    }
}

/// Whether a mount is the one of that number, or stands on it.
fn is_of(seats: &[Seat], number: u32, other: u32) -> bool
    requires { AreLower seats.now }
    ensures { result ≡ is_of (mounts_in seats.now) number other }
{
    other == number || stands_on(seats, other, number)
}

/// Cuts the mount of that number, and each that stands on it.
fn cut_all(seats: &mut [Seat], number: u32)
    requires { AreLower seats.old }
    ensures { seats.new ≡ map (cut_seat (mounts_in seats.old) number) seats.old }
{
    for at in 0..seats.len() {
        if is_of(seats, number, seats[at].mount.number) {
            seats[at].mount.cut = true;
        }
    }
}

/// Cuts the mount of that number, which is there, and each that stands on it. The caller is leaving it then.
pub fn leave(seats: &mut [Seat], number: u32, caller: u32)
    requires lower { AreLower seats.old }
    requires there { IsSome (entries.get (mounts_in seats.old) number) }
    ensures { IsLeft seats.old number caller seats.new }
{
    let at = found(seats, number);
    cut_all(seats, number);
    seats[at].left_by = Some(caller);
}

/// Takes a seat out, and answers its slot.
pub fn take_out(seats: &mut Vec<Seat>, at: usize) -> u32
    requires { at < length seats.old.items }
    ensures items { seats.new.items ≡ remove seats.old.items at }
    ensures slot { (seat : Seat) → result ≡ (slice_index_or seats.old.items at seat).slot }
{
    let slot = seats[at].slot;
    seats.remove(at);
    slot
}
