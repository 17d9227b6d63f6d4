//! What each step tells. These types are for the proofs alone.
ghost use Rattle.std.specs.Prelude.{ℕ};
ghost use Rattle.turn_lock.specs.Plays.{drew, looked, recounted, passed, agreed, kept_view, given_view, both_view};
ghost use Rattle.turn_lock.specs.Turns.{spent_view};

use crate::kept::Kept;
use crate::view::View;
use atomic_table::{Join, Play, Split};
use std::marker::{Brand, PhantomData};

/// Draws a ticket.
pub struct Draw;

impl<T, E, F, Q> Play<Option<T>, View<T, E, F, Q>> for Draw {
    ghost then = { drew };
}

/// Loads the serving number, with a ticket.
pub struct Look<T> {
    marker: PhantomData<T>,
}

impl<T: Kept> Play<Option<T>, View<T, T::Entry, T::Fixed, T::Part>> for Look<T> {
    ghost then = { looked T.list T.fixed T.part };
}

/// Counts entries.
pub struct Count<T> {
    marker: PhantomData<T>,
}

impl<T: Kept> Play<Option<T>, View<T, T::Entry, T::Fixed, T::Part>> for Count<T> {
    ghost then = { recounted T.list T.part };
}

/// Passes the turn.
pub struct PassOn;

impl<T, E, F, Q> Play<Option<T>, View<T, E, F, Q>> for PassOn {
    ghost then = { passed };
}

/// Loads the serving number, without a ticket.
pub struct Agree;

impl<T, E, F, Q> Play<Option<T>, View<T, E, F, Q>> for Agree {
    ghost then = { agreed };
}

/// The number that a split gives away. Each call picks it.
pub trait Number {
    ghost number: { ℕ };
}

impl Number for Brand {
    ghost number = { 0 };
}

/// Splits a pass.
pub struct Cut<J> {
    marker: PhantomData<J>,
}

impl<T, E, F, Q, J: Number> Split<View<T, E, F, Q>> for Cut<J> {
    ghost left = { kept_view J.number };

    ghost right = { given_view J.number };
}

/// Joins two passes.
pub struct Glue;

impl<T, E, F, Q> Join<View<T, E, F, Q>> for Glue {
    ghost both = { both_view };

    ghost spent = { spent_view };
}
