// Legal histories one after the other are one legal history, and the other way round.
ghost use Rattle.std.specs.Prelude.{◌≡◌, ℕ, List, [], ◌++◌};
ghost use Rattle.std.specs.FinMap.{get};
ghost use Rattle.vfs_tree.specs.declared.world.World.{World};
ghost use Rattle.call_model.specs.Legal.{Pending, IsLegal, IsLegalFrom, doomers_in, next_call, replay};
ghost use Rattle.call_model.specs.declared.entry.Entry.{Entry};
ghost use Rattle.call_laws.specs.Prefixes.{pending_before};

/// How legal histories stand one after the other: a law of the model, with no code.
pub fn legal_histories_join()
    // A legal history and entries that are right after it are a legal history.
    ensures joined { (p : Pending) (w : World) (es fs : List Entry)
        → IsLegal (pending_before p fs) w es → IsLegalFrom p (doomers_in [] es) (replay w es) fs → IsLegal p w (es ++ fs) }
    // The beginning of a legal history is legal, with the calls pending that have their entries behind it.
    ensures before { (p : Pending) (w : World) (es fs : List Entry)
        → IsLegal p w (es ++ fs) → IsLegal (pending_before p fs) w es }
    // What stands behind it is right in the world that it leaves.
    ensures behind { (p : Pending) (w : World) (es fs : List Entry)
        → IsLegal p w (es ++ fs) → IsLegalFrom p (doomers_in [] es) (replay w es) fs }
    // The world that both leave is the one that the second leaves in the world of the first.
    ensures world { (w : World) (es fs : List Entry) → replay w (es ++ fs) ≡ replay (replay w es) fs }
    // Before some entries a caller's call is pending that has the next entry among them, or that is pending after them.
    ensures pending { (p : Pending) (fs : List Entry) (c : ℕ) → get (pending_before p fs) c ≡ next_call p c fs }
{}
