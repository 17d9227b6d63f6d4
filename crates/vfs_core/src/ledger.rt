ghost use Rattle.std.specs.Prelude.{◌≡◌, ◌∷◌, ◌++◌, [], ◌+◌, ◌≤◌, IfOk, OnOk};

use call_model::{Entry, History};
use std::alloc::{AllocError, Global};
use std::marker::Model;

/// A history, and for how many entries more it has promised room.
///
/// Contracts see the entries, and the promised room as `spare`. A history's own room may be larger, since it grows by more
/// than is asked of it: were that promised, each entry would make it grow again.
#[derive(Drop)]
pub struct Ledger {
    history: History,
    promised: usize,
}

impl Model for Ledger {
    ghost use Rattle.std.specs.Prelude.{◌≤◌};
    ghost use Rattle.call_model.specs.Recorded.{Recorded};

    ghost Value = { Recorded };

    ghost view = { λ l. record { entries = l.history.entries; spare = l.promised } };

    ghost invariant = { λ l. l.promised ≤ l.history.spare };
}

impl Ledger {
    /// No entry, and room for so many. The only fault is want of memory.
    pub fn with_room(alloc: Global, more: usize) -> Result<Ledger, AllocError>
        ensures entries { IfOk result (λ ledger. ledger.entries ≡ []) }
        ensures room { IfOk result (λ ledger. more ≤ ledger.spare) }
    {
        let mut history = History::new(alloc);
        history.reserve(more)?;
        Ok(Ledger {
            history,
            promised: more,
        })
    }

    /// Promises room for so many entries more. The only fault is want of memory.
    pub fn widen(&mut self, more: usize) -> Result<(), AllocError>
        ensures wider { OnOk result (self.old.spare + more ≤ self.new.spare) }
        ensures never_less { self.old.spare ≤ self.new.spare }
        ensures kept { self.new.entries ≡ self.old.entries }
    {
        let promised = match self.promised.checked_add(more) {
            Some(promised) => promised,
            None => return Err(AllocError),
        };
        self.history.reserve(promised)?;
        self.promised = promised;
        Ok(())
    }

    /// Puts an entry, for which there is room, at the end.
    pub fn push(&mut self, entry: Entry)
        requires { 1 ≤ self.old.spare }
        ensures pushed { self.new.entries ≡ self.old.entries ++ entry ∷ [] }
        ensures spare { self.new.spare + 1 ≡ self.old.spare }
    {
        self.history.push(entry);
        self.promised -= 1;
    }

    /// The history.
    pub fn history(&self) -> &History
        ensures { result.now.entries ≡ self.now.entries }
    {
        &self.history
    }
}
