// One row of holders: at most nine vnodes, put on top and taken from there.
ghost use Rattle.std.specs.Prelude.{◌≡◌, ◌<◌, ◌≤◌, [], ◌∷◌, ◌++◌, length, slice_get};

use op_vector::Vid;
use std::marker::Model;

/// The most vnodes that a row has: a place stands on four unions, their four upper nodes and one memory node at most.
const MOST: usize = 9;

/// A row of holders: the vnodes of one place from the lowest up. Contracts see the list.
#[derive(Drop)]
pub struct Row {
    vids: [Vid; 9],
    len: usize,
}

impl Model for Row {
    ghost use Rattle.std.specs.Prelude.{List, take, ◌≤◌};
    ghost use Rattle.op_vector.specs.declared.data.Vid.{Vid};

    ghost Value = { List Vid };

    ghost view = { λ r. take r.len r.vids };

    ghost invariant = { λ r. r.len ≤ 9 };
}

impl Row {
    /// An empty row.
    pub fn new() -> Row
        ensures { result ≡ [] }
    {
        let none = Vid {
            slot: 0,
            generation: 0,
        };
        Row {
            vids: [none; MOST],
            len: 0,
        }
    }

    /// How many vnodes the row has.
    pub fn len(&self) -> usize
        ensures { result ≡ length self.now }
    {
        self.vids[..self.len].len()
    }

    /// Puts a vnode on top.
    pub fn push(&mut self, vid: Vid)
        requires { length self.old < 9 }
        ensures { self.new ≡ self.old ++ vid ∷ [] }
    {
        self.vids[self.len] = vid;
        self.len += 1;
    }

    /// Takes the uppermost vnode out.
    pub fn pop(&mut self) -> Vid
        requires { 0 < length self.old }
        ensures { self.old ≡ self.new ++ result ∷ [] }
    {
        self.len -= 1;
        self.vids[self.len]
    }

    /// The vnode at that place, the lowest at 0.
    pub fn get(&self, at: usize) -> Option<Vid>
        ensures { result ≡ slice_get self.now at }
    {
        self.vids[..self.len].get(at).copied()
    }
}
