//! The lock.
ghost use Rattle.std.specs.Prelude.{◌≡◌, ◌≢◌, ℕ, true, false, cond, nat_eq, ◌<◌, ◌≤◌, None, Some, IfOk, IfErr, IsSome};
ghost use Rattle.std.specs.Option.{option_or};
ghost use Rattle.turn_lock.specs.Known.{StartsWith, ComesFrom, known_part, has_number, longer};

use crate::kept::Kept;
use crate::pass::Pass;
use crate::steps::{cut, give, glue, take};
use crate::view::{Start, Turning, View};
use atomic_table::{Refused, Table};
use std::alloc::Global;
use std::marker::{Brand, Model};
use std::snapshot::Snapshot;
use std::sync::Wait;

/// A lock round a value of `K`, which threads share by reference. Contracts see what tells it from every other lock, the fixed data of the value that it was made with, and how many numbers there are.
pub struct TurnLock<K: Kept> {
    table: Table<Option<K>, View<K, K::Entry, K::Fixed, K::Part>, Start<K>, Turning<K>, Global>,
}

impl<K: Kept> Model for TurnLock<K> {
    ghost use Rattle.std.specs.Prelude.{◌≡◌};
    ghost use Rattle.turn_lock.specs.Known.{Lock};

    ghost Value = { Lock K.Fixed };

    ghost view = { λ l. record { table = l.table.shared.table_id; fixed = K.fixed l.table.shared.key.of.value; numbers = l.table.shared.key.numbers } };

    ghost invariant = { λ l. (l.table.shared.table_id.words ≡ 3) × (l.table.shared.table_id.slots ≡ 1) };
}

impl<K: Kept> TurnLock<K> {
    /// Puts the value under a lock, and gives the pass that has the numbers 1 to `numbers` and has seen the value's list. The value comes back for want of memory alone.
    pub fn new(alloc: Global, value: K, numbers: u32) -> Result<(TurnLock<K>, Pass<K>), K>
        requires { 0 < numbers }
        ensures lock { IfOk result (λ t. (t.0.fixed ≡ K.fixed value) × (t.0.numbers ≡ numbers)) }
        ensures pass { IfOk result (λ t. ComesFrom t.0 t.1 × (t.1.held ≡ None)) }
        ensures seen { IfOk result (λ t. t.1.seen ≡ K.list value) }
        ensures parts { IfOk result (λ t. (n : ℕ) → 0 < n → n ≤ numbers → known_part n t.1 ≡ Some (K.part value n)) }
        ensures numbers { IfOk result (λ t. (n : ℕ) → has_number n t.1 ≡ true → (0 < n) × (n ≤ numbers)) }
        ensures back { IfErr result (λ y. y ≡ value) }
    {
        let start = Start {
            of: Snapshot::of(&value),
            numbers,
        };
        let count = value.count();
        let mut slots = Vec::new(alloc);
        if slots.reserve(1).is_err() {
            slots.destroy_empty();
            return Err(value);
        }
        slots.push_reserved(Some(value));
        match Table::new(alloc, &[0, 0, count], slots, &start) {
            Ok((table, seat)) => Ok((TurnLock { table }, Pass { seat, count })),
            Err(Refused { mut slots }) => match slots.pop() {
                Some(Some(value)) => {
                    slots.destroy_empty();
                    Err(value)
                }
                _ => unreachable!(),
            },
        }
    }

    /// Waits for the turn of this pass, and hands the value out. The pass has then seen its whole list.
    pub fn enter(&self, rt: &impl Wait, pass: &mut Pass<K>) -> K
        requires own { ComesFrom self.now pass.old }
        requires idle { pass.old.held ≡ None }
        ensures own { ComesFrom self.now pass.new }
        ensures holds { pass.new.held ≡ Some result }
        ensures later { StartsWith (K.list result) pass.old.seen }
        ensures seen { pass.new.seen ≡ K.list result }
        ensures same { K.fixed result ≡ self.now.fixed }
        ensures known { (n : ℕ) (q : K.Part) → known_part n pass.old ≡ Some q → K.part result n ≡ q }
        ensures parts { pass.new.parts ≡ pass.old.parts }
    {
        let value = take(rt, &self.table.shared, &mut pass.seat);
        pass.count = value.count();
        value
    }

    /// Gives the value back, and ends the turn. The value may have further entries and other parts for the numbers of this pass, and nothing else may differ.
    /// The new entries then stand in the shared list, and the pass knows the new parts.
    pub fn leave(&self, pass: &mut Pass<K>, value: K)
        requires own { ComesFrom self.now pass.old }
        requires holds { IsSome pass.old.held }
        requires later { StartsWith (K.list value) pass.old.seen }
        requires same { K.fixed value ≡ self.now.fixed }
        requires others { (out : K) (n : ℕ) → pass.old.held ≡ Some out → has_number n pass.old ≡ false → K.part value n ≡ K.part out n }
        ensures own { ComesFrom self.now pass.new }
        ensures idle { pass.new.held ≡ None }
        ensures seen { pass.new.seen ≡ K.list value }
        ensures numbers { (n : ℕ) → has_number n pass.new ≡ has_number n pass.old }
        ensures parts { (n : ℕ) → has_number n pass.new ≡ true → known_part n pass.new ≡ Some (K.part value n) }
    {
        let count = value.count();
        give(
            &self.table.shared,
            &mut pass.seat,
            value,
            count - pass.count,
        );
        pass.count = count;
    }

    /// Cuts a number off, for a pass of its own that has seen the same.
    pub fn split(&self, pass: &mut Pass<K>, number: u32) -> Pass<K>
        requires own { ComesFrom self.now pass.old }
        requires idle { pass.old.held ≡ None }
        requires has { has_number number pass.old ≡ true }
        requires another { (n : ℕ) × (n ≢ number) × (has_number n pass.old ≡ true) }
        ensures own { ComesFrom self.now pass.new × ComesFrom self.now result }
        ensures idle { (pass.new.held ≡ None) × (result.held ≡ None) }
        ensures seen { (pass.new.seen ≡ pass.old.seen) × (result.seen ≡ pass.old.seen) }
        ensures kept { (n : ℕ) → known_part n pass.new ≡ cond (nat_eq n number) None (known_part n pass.old) }
        ensures given { (n : ℕ) → known_part n result ≡ cond (nat_eq n number) (known_part n pass.old) None }
    {
        let seat = cut::<K, Brand>(&self.table.shared, &mut pass.seat, number);
        Pass {
            seat,
            count: pass.count,
        }
    }

    /// Takes in the numbers of another pass. Of the two lists that were seen one begins the other, and the longer is then the one that the pass has seen.
    pub fn join(&self, pass: &mut Pass<K>, other: Pass<K>)
        requires own { ComesFrom self.now pass.old × ComesFrom self.now other }
        requires idle { (pass.old.held ≡ None) × (other.held ≡ None) }
        ensures own { ComesFrom self.now pass.new }
        ensures idle { pass.new.held ≡ None }
        ensures seen { pass.new.seen ≡ longer pass.old.seen other.seen }
        ensures later { StartsWith pass.new.seen pass.old.seen × StartsWith pass.new.seen other.seen }
        ensures parts { (n : ℕ) → known_part n pass.new ≡ option_or (known_part n pass.old) (known_part n other) }
    {
        let (seat, count) = other.into_seat();
        glue(&self.table.shared, &mut pass.seat, seat);
        pass.count = pass.count.max(count);
    }

    /// Ends the lock, and gives the value back. The pass has all numbers, so no other one is left to wait for.
    pub fn close(self, pass: Pass<K>) -> K
        requires own { ComesFrom self pass }
        requires idle { pass.held ≡ None }
        requires all { (n : ℕ) → 0 < n → n ≤ self.numbers → has_number n pass ≡ true }
        ensures later { StartsWith (K.list result) pass.seen }
        ensures same { K.fixed result ≡ self.fixed }
        ensures known { (n : ℕ) (q : K.Part) → known_part n pass ≡ Some q → K.part result n ≡ q }
    {
        let Self { table } = self;
        let (seat, _) = pass.into_seat();
        let mut closed = table.close_with(seat);
        let value = closed.take(0);
        closed.free();
        match value {
            Some(value) => value,
            None => unreachable!(),
        }
    }
}

impl<K: Kept + Drop> Drop for TurnLock<K> {
    fn drop(self) {
        let Self { table: _table } = self;
    }
}
