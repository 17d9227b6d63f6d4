//! What one thread knows of a lock.
ghost use Rattle.std.specs.Prelude.{◌≡◌};
ghost use Rattle.turn_lock.specs.Plays.{Settled, shown};

use crate::kept::Kept;
use crate::view::View;
use atomic_table::Seat;
use std::marker::Model;

/// A pass of one lock, by which a thread takes its turns. It has no bytes but a count.
///
/// A pass that is dropped takes its numbers with it, so that no pass has all numbers again and the lock can't be closed. Dropped in its turn it leaves the others waiting forever.
///
/// Contracts see the lock that it comes from, the list that it has seen, its numbers, what it knows of their parts, and the value that was handed out to it, if it holds the turn.
pub struct Pass<K: Kept> {
    pub(crate) seat: Seat<Option<K>, View<K, K::Entry, K::Fixed, K::Part>>,
    // The number of entries that were seen.
    pub(crate) count: u64,
}

impl<K: Kept> Model for Pass<K> {
    ghost use Rattle.turn_lock.specs.Known.{Known};
    ghost use Rattle.turn_lock.specs.Plays.{Settled, shown};

    ghost Value = { Known K K.Entry K.Fixed K.Part };

    ghost view = { λ p. shown p.seat };

    ghost invariant = { λ p. Settled p.count p.seat.me };
}

impl<K: Kept> Pass<K> {
    pub(crate) fn into_seat(self) -> (Seat<Option<K>, View<K, K::Entry, K::Fixed, K::Part>>, u64)
        ensures shown { shown result.0 ≡ self }
        ensures settled { Settled result.1 result.0.me }
    {
        let Self { seat, count } = self;
        (seat, count)
    }
}

impl<K: Kept> Drop for Pass<K> {
    fn drop(self) {
        let Self {
            seat: _seat,
            count: _,
        } = self;
    }
}
