//! The steps of a turn, over a seat of the table.
ghost use Rattle.std.specs.Prelude.{◌≡◌, ◌≢◌, ℕ, ◌+◌, ◌^◌, ◌<◌, true, [], length, None, Some};
ghost use Rattle.turn_lock.specs.Known.{is_in};
ghost use Rattle.turn_lock.specs.Plays.{with_ticket, Took, IsIdle, Entered, MayLeave, Left, Joined, kept_view, given_view};

use crate::kept::Kept;
use crate::plays::{Agree, Count, Cut, Draw, Glue, Look, Number, PassOn};
use crate::view::{Start, Turning, View};
use atomic_table::{Seat, Shared};
use std::sync::Wait;
use std::thread;

type Viewer<K> = Seat<
    Option<K>,
    View<K, <K as Kept>::Entry, <K as Kept>::Fixed, <K as Kept>::Part>,
>;

type Words<K> = Shared<
    Option<K>,
    View<K, <K as Kept>::Entry, <K as Kept>::Fixed, <K as Kept>::Part>,
    Start<K>,
    Turning<K>,
>;

// Draws a ticket.
fn draw<K: Kept>(rt: &impl Wait, words: &Words<K>, seat: &mut Viewer<K>) -> u64
    requires own { (seat.old.table_id ≡ words.now.table_id) × (words.now.table_id.words ≡ 3) }
    requires idle { (seat.old.me.0.ticket ≡ None) × (seat.old.me.0.out ≡ None) × (0 < length seat.old.me.0.mine) }
    ensures own { seat.new.table_id ≡ seat.old.table_id }
    ensures ticket { seat.new.me ≡ (with_ticket result seat.old.me.0, seat.old.me.1) }
{
    let mut next = words.peek(0);
    for _ in rt.forever() {
        if next < u64::MAX {
            let found = words.compare_exchange::<Draw>(seat, 0, next, next + 1);
            if found == next {
                return next;
            }
            next = found;
        } else {
            thread::yield_now();
            next = words.peek(0);
        }
    }
    unreachable!()
}

// Waits until the ticket is served, and takes the slot.
fn wait_turn<K: Kept>(rt: &impl Wait, words: &Words<K>, seat: &mut Viewer<K>, ticket: u64)
    requires own { (seat.old.table_id ≡ words.now.table_id) × (words.now.table_id.words ≡ 3) }
    requires ticket { (seat.old.me.0.ticket ≡ Some ticket) × (seat.old.me.0.out ≡ None) }
    ensures own { seat.new.table_id ≡ seat.old.table_id }
    ensures took { Took K.list K.fixed K.part seat.old.me seat.new.me }
{
    for _ in rt.forever() {
        if words.load::<Look<K>>(seat, 1) == ticket {
            return;
        }
        thread::yield_now();
    }
    unreachable!()
}

/// Waits for a turn, and moves the value out of the slot.
pub fn take<K: Kept>(rt: &impl Wait, words: &Words<K>, seat: &mut Viewer<K>) -> K
    requires own { (seat.old.table_id ≡ words.now.table_id) × (words.now.table_id.words ≡ 3) }
    requires idle { IsIdle seat.old.me }
    ensures own { seat.new.table_id ≡ seat.old.table_id }
    ensures entered { Entered K.list K.fixed K.part seat.old.me seat.new.me result }
{
    let ticket = draw(rt, words, seat);
    wait_turn(rt, words, seat, ticket);
    match words.exchange(seat, 0, None) {
        Some(value) => value,
        None => unreachable!(),
    }
}

/// Moves the value into the slot, counts its new entries, and passes the turn.
pub fn give<K: Kept>(words: &Words<K>, seat: &mut Viewer<K>, value: K, added: u64)
    requires own { (seat.old.table_id ≡ words.now.table_id) × (words.now.table_id.words ≡ 3) }
    requires may { MayLeave K.list K.fixed K.part seat.old.me value }
    requires added { length seat.old.me.0.seen + added ≡ length (K.list value) }
    requires fits { length (K.list value) < 2 ^ 64 }
    ensures own { seat.new.table_id ≡ seat.old.table_id }
    ensures left { Left K.list K.fixed K.part seat.old.me seat.new.me value }
{
    match words.exchange(seat, 0, Some(value)) {
        None => {}
        Some(_) => unreachable!(),
    }
    words.fetch_add::<Count<K>>(seat, 2, added);
    words.fetch_add::<PassOn>(seat, 1, 1);
}

/// Cuts the number `J.number` off.
pub fn cut<K: Kept, J: Number>(words: &Words<K>, seat: &mut Viewer<K>, number: u32) -> Viewer<K>
    requires own { (seat.old.table_id ≡ words.now.table_id) × (words.now.table_id.words ≡ 3) }
    requires number { number ≡ J.number }
    requires idle { IsIdle seat.old.me }
    requires has { is_in number seat.old.me.0.mine ≡ true }
    requires another { (n : ℕ) × (n ≢ number) × (is_in n seat.old.me.0.mine ≡ true) }
    ensures own { (seat.new.table_id ≡ seat.old.table_id) × (result.table_id ≡ seat.old.table_id) }
    ensures views { (seat.new.me ≡ (kept_view number seat.old.me.0, [])) × (result.me ≡ (given_view number seat.old.me.0, [])) }
{
    words.split_seat::<Cut<J>>(seat)
}

/// Joins another seat to this one, and compares what the two have seen.
pub fn glue<K: Kept>(words: &Words<K>, seat: &mut Viewer<K>, other: Viewer<K>)
    requires own { (seat.old.table_id ≡ words.now.table_id) × (other.table_id ≡ words.now.table_id) × (words.now.table_id.words ≡ 3) }
    requires idle { IsIdle seat.old.me × IsIdle other.me }
    ensures own { seat.new.table_id ≡ seat.old.table_id }
    ensures joined { Joined seat.old.me other.me seat.new.me }
{
    words.join_seat::<Glue>(seat, other);
    words.load::<Agree>(seat, 1);
}
