ghost use Rattle.std.specs.Prelude.{◌≡◌, ◌+◌, ◌≤◌, ◌↔◌, ◌∷◌, ◌++◌, [], length, slice_get, IsTrue, OnOk};
ghost use Rattle.std.specs.Option.{option_copied};

use crate::entry::Entry;
use std::alloc::{AllocError, Global};
use std::marker::Model;

/// A history: the entries of all callers in the order in which they came, with room for more.
///
/// Contracts see the list of entries, and `spare`, the number of entries that can be pushed without memory.
#[derive(Debug, Drop)]
pub struct History {
    entries: Vec<Entry>,
}

impl Model for History {
    ghost use Rattle.std.specs.Prelude.{◌-◌, vec_len, vec_capacity};
    ghost use Rattle.call_model.specs.Recorded.{Recorded};

    ghost Value = { Recorded };

    ghost view = { λ h. record { entries = h.entries.items; spare = vec_capacity h.entries - vec_len h.entries } };
}

impl History {
    /// A history without entries.
    pub fn new(alloc: Global) -> History
        ensures { result.entries ≡ [] }
    {
        History {
            entries: Vec::new(alloc),
        }
    }

    /// Makes room for at least `more` entries. The only fault is want of memory.
    pub fn reserve(&mut self, more: usize) -> Result<(), AllocError>
        ensures room { OnOk result (more ≤ self.new.spare) }
        ensures never_less { self.old.spare ≤ self.new.spare }
        ensures kept { self.new.entries ≡ self.old.entries }
    {
        self.entries.reserve(more)
    }

    /// Puts an entry, for which there is room, at the end.
    pub fn push(&mut self, entry: Entry)
        requires { 1 ≤ self.old.spare }
        ensures pushed { self.new.entries ≡ self.old.entries ++ entry ∷ [] }
        ensures spare { self.new.spare + 1 ≡ self.old.spare }
    {
        self.entries.push_reserved(entry);
    }

    /// How many entries can be pushed without memory.
    pub fn spare(&self) -> usize
        ensures { result ≡ self.now.spare }
    {
        self.entries.capacity() - self.entries.len()
    }

    /// How many entries there are.
    pub fn len(&self) -> usize
        ensures { result ≡ length self.now.entries }
    {
        self.entries.len()
    }

    /// Whether there is no entry.
    pub fn is_empty(&self) -> bool
        ensures { IsTrue result ↔ (self.now.entries ≡ []) }
    {
        self.entries.is_empty()
    }

    /// The entry at that place, counted from 0. `None` comes exactly where there is no such place.
    pub fn get(&self, at: usize) -> Option<&Entry>
        ensures { option_copied result ≡ slice_get self.now.entries at }
    {
        self.entries.get(at)
    }

    /// The entries in their order.
    pub fn as_slice(&self) -> &[Entry]
        ensures { result.now ≡ self.now.entries }
    {
        self.entries.as_slice()
    }
}
