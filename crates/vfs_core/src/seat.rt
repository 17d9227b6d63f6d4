ghost use Rattle.std.specs.Prelude.{◌≡◌, true};
ghost use Rattle.vfs_core.specs.Seats.{has_number};

use crate::kern::Kern;
use std::marker::Model;
use std::snapshot::Snapshot;
use turn_lock::Pass;

/// A seat at a kernel that threads share, by which one thread makes the calls of one caller.
///
/// A seat that is dropped takes its numbers with it, so that the kernel can't be closed any more.
///
/// Contracts see which kernel it comes from and that kernel's limits, its caller, the history that it has seen, its numbers
/// and by number the calls that were made, and as `born` how many of its own caller's there were when the seat was made.
#[derive(Drop)]
pub struct Seat {
    pub(crate) pass: Pass<Kern>,
    pub(crate) caller: u32,
    // The pass when the seat was made, for contracts alone.
    pub(crate) born: Snapshot<Pass<Kern>>,
}

impl Model for Seat {
    ghost use Rattle.vfs_core.specs.Seats.{Seating, IsSeated, known_calls, seated};

    ghost Value = { Seating };

    ghost view = { λ s. seated s.caller (known_calls s.caller s.born.value) s.pass };

    ghost invariant = { λ s. IsSeated s.caller (known_calls s.caller s.born.value) s.pass };
}

impl Seat {
    /// The caller whose calls the seat makes.
    pub fn caller(&self) -> u32
        ensures caller { result ≡ self.now.caller }
        ensures own { has_number self.now.caller self.now ≡ true }
    {
        self.caller
    }
}
