//! What the table behind a lock is told of each pass, and the rule of the lock. No value of these types is made but of `Start`.
use crate::kept::Kept;
use atomic_table::{Seat, Shared, TableRule};
use std::collections::LinkedList;
use std::marker::PhantomData;
use std::snapshot::Snapshot;

/// A view: the list that was seen, the list that a joined pass had seen, until the two are compared, the fixed data, the ticket, the value while it is out here, and each number with its part.
pub struct View<T, E, F, Q> {
    pub seen: LinkedList<E>,
    pub heard: LinkedList<E>,
    pub fixed: Option<F>,
    pub ticket: Option<u64>,
    pub out: Option<T>,
    pub mine: LinkedList<(u64, Q)>,
}

/// The value and the numbers at the start.
pub struct Start<T> {
    pub of: Snapshot<T>,
    pub numbers: u32,
}

/// The rule of the lock.
pub struct Turning<T> {
    marker: PhantomData<T>,
}

impl<T: Kept> TableRule<Option<T>, View<T, T::Entry, T::Fixed, T::Part>, Start<T>> for Turning<T> {
    ghost use Rattle.turn_lock.specs.Turns.{Turns, first_view};

    ghost holds = { λ k. Turns T.list T.fixed T.part (T.fixed k.of.value) k.numbers };

    ghost first = { λ k. first_view T.list T.fixed T.part k.of.value k.numbers };
}

impl<T> Drop for Start<T> {
    fn drop(self) {
        let Self {
            of: _of,
            numbers: _,
        } = self;
    }
}
