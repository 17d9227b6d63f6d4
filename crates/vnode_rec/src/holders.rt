// The rows of holders and the counts of each slot: a vnode put on a row or taken out changes both.
ghost use Rattle.std.specs.Prelude.{◌≡◌, ◌<◌, ◌≤◌, ◌+◌, ◌-◌, ◌*◌, ◌==◌, ◌^◌, ℕ, [], ◌∷◌, ◌++◌, cond, length, take, All, IfOk, slice_set, slice_index};
ghost use Rattle.vnode_rec.specs.Holders.{Held, row_in, held_in, pushed, weight, occurs};

use crate::row::Row;
use op_vector::Vid;
use std::alloc::{AllocError, Global};
use std::marker::Model;

/// The rows of holders, with the use count and the hold count of each slot. Contracts see the rows, the number of use
/// rows, which are the first ones, and the number of slots. The counts are the numbers of occurrences in the rows.
#[derive(Drop)]
pub struct Holders {
    rows: Vec<Row>,
    uses: usize,
    use_counts: Vec<u64>,
    hold_counts: Vec<u64>,
}

impl Model for Holders {
    ghost use Rattle.std.specs.Prelude.{length};
    ghost use Rattle.vnode_rec.specs.Holders.{Held, AreCounted};

    ghost Value = { Held };

    ghost view = { λ h. record { rows = h.rows.items; uses = h.uses; slots = length h.hold_counts.items } };

    ghost invariant = { λ h. AreCounted h.rows.items h.uses h.use_counts.items h.hold_counts.items };
}

/// So many empty rows.
fn empty_rows(alloc: Global, count: usize) -> Result<Vec<Row>, AllocError>
    ensures len { IfOk result (λ rows. length rows.items ≡ count) }
    ensures empty { IfOk result (λ rows. All (λ row. row ≡ []) rows.items) }
{
    let mut rows = Vec::new(alloc);
    rows.reserve(count)?;
    for _ in 0..count {
        rows.push(Row::new())?;
    }
    Ok(rows)
}

/// So many counts of 0.
fn zeros(alloc: Global, count: usize) -> Result<Vec<u64>, AllocError>
    ensures len { IfOk result (λ counts. length counts.items ≡ count) }
    ensures zero { IfOk result (λ counts. (s : ℕ) → slice_index counts.items s ≡ 0) }
{
    let mut counts = Vec::new(alloc);
    counts.resize(count, 0)?;
    Ok(counts)
}

/// Adds to the count of a slot.
fn raise(counts: &mut Vec<u64>, slot: usize, by: u64)
    requires within { slot < length counts.old.items }
    requires small { slice_index counts.old.items slot + by < 2 ^ 63 }
    ensures { counts.new.items ≡ slice_set counts.old.items slot (slice_index counts.old.items slot + by) }
{
    counts[slot] += by;
}

/// Takes from the count of a slot.
fn lower(counts: &mut Vec<u64>, slot: usize, by: u64)
    requires within { slot < length counts.old.items }
    requires enough { by ≤ slice_index counts.old.items slot }
    ensures { counts.new.items ≡ slice_set counts.old.items slot (slice_index counts.old.items slot - by) }
{
    counts[slot] -= by;
}

/// Whether a row is a use row, as a number: 1, or 0.
fn weight(uses: usize, row: usize) -> u64
    ensures { result ≡ weight uses row }
{
    if row < uses { 1 } else { 0 }
}

impl Holders {
    /// Empty rows, the first `uses` of them use rows, and slots without a hold.
    pub fn new(
        alloc: Global,
        slots: usize,
        uses: usize,
        holds: usize,
    ) -> Result<Holders, AllocError>
        requires small { slots < 2 ^ 32 }
        requires few { 9 * (uses + holds) ≤ slots }
        ensures slots { IfOk result (λ h. h.slots ≡ slots) }
        ensures uses { IfOk result (λ h. h.uses ≡ uses) }
        ensures len { IfOk result (λ h. length h.rows ≡ uses + holds) }
        ensures empty { IfOk result (λ h. All (λ row. row ≡ []) h.rows) }
    {
        let rows = empty_rows(alloc, uses + holds)?;
        let use_counts = zeros(alloc, slots)?;
        let hold_counts = zeros(alloc, slots)?;
        Ok(Holders {
            rows,
            uses,
            use_counts,
            hold_counts,
        })
    }

    /// Puts a vnode on top of a row.
    pub fn push(&mut self, row: usize, vid: Vid)
        requires there { row < length self.old.rows }
        requires room { length (row_in self.old.rows row) < 9 }
        requires below { vid.slot < self.old.slots }
        ensures { self.new ≡ record self.old { rows = pushed row vid self.old.rows } }
    {
        let slot = vid.slot as usize;
        raise(&mut self.use_counts, slot, weight(self.uses, row));
        raise(&mut self.hold_counts, slot, 1);
        self.rows[row].push(vid);
    }

    /// Takes the uppermost vnode out of a row.
    pub fn pop(&mut self, row: usize) -> Vid
        requires there { row < length self.old.rows }
        requires some { 0 < length (row_in self.old.rows row) }
        ensures popped { row_in self.old.rows row ≡ row_in self.new.rows row ++ result ∷ [] }
        ensures others { self.new ≡ record self.old { rows = slice_set self.old.rows row (row_in self.new.rows row) } }
        ensures below { result.slot < self.old.slots }
    {
        let vid = self.rows[row].pop();
        let slot = vid.slot as usize;
        lower(&mut self.use_counts, slot, weight(self.uses, row));
        lower(&mut self.hold_counts, slot, 1);
        vid
    }

    /// Each use row is a row, and no row has more than nine vnodes.
    pub fn keep_rows(&self)
        ensures uses { self.now.uses ≤ length self.now.rows }
        ensures nine { All (λ row. length row ≤ 9) self.now.rows }
    {
        let _uses = self.uses;
    }

    /// How often a slot stands in the use rows.
    pub fn use_count(&self, slot: usize) -> u64
        requires { slot < self.now.slots }
        ensures { result ≡ occurs slot (take self.now.uses self.now.rows) }
    {
        self.use_counts[slot]
    }

    /// How often a slot stands in all rows.
    pub fn hold_count(&self, slot: usize) -> u64
        requires { slot < self.now.slots }
        ensures { result ≡ occurs slot self.now.rows }
    {
        self.hold_counts[slot]
    }

    /// How many vnodes a row has.
    pub fn row_len(&self, row: usize) -> usize
        requires { row < length self.now.rows }
        ensures { result ≡ length (row_in self.now.rows row) }
    {
        self.rows[row].len()
    }

    /// The vnode at that place of a row, the lowest at 0.
    pub fn get(&self, row: usize, at: usize) -> Option<Vid>
        ensures { result ≡ held_in self.now.rows row at }
    {
        let row = self.rows.get(row)?;
        row.get(at)
    }
}
