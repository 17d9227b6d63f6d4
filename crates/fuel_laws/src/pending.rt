// A history has each caller's calls in their order, each ended by its own entry.
ghost use Rattle.std.specs.Prelude.{◌≡◌, ◌==◌, ◌∷◌, ◌++◌, [], ℕ, List, Some, None, false};
ghost use Rattle.std.specs.FinMap.{get};
ghost use Rattle.vfs_tree.specs.declared.world.World.{World};
ghost use Rattle.call_model.specs.Apply.{Needs, apply};
ghost use Rattle.call_model.specs.Legal.{Pending, IsLegal, MayAnswer, calls_of, doomers_in, replay};
ghost use Rattle.call_model.specs.declared.call.Call.{Call};
ghost use Rattle.call_model.specs.declared.entry.Entry.{Entry};
ghost use Rattle.call_model.specs.declared.entry.Entry.TheVariants as entry;
ghost use Rattle.call_model.specs.declared.entry.Inner.{Inner};
ghost use Rattle.call_model.specs.declared.reply.Reply.{Reply};
ghost use Rattle.call_laws.specs.Prefixes.{pending_before};
ghost use Rattle.fuel_laws.specs.Ended.{pending_after};

/// An entry ends its caller's call and no other: a law of the model, with no code.
pub fn an_entry_ends_its_own_call()
    // After the entry of a call its caller has none pending, and the others' calls are pending as before.
    ensures own { (p : Pending) (c : ℕ) (call : Call) (r : Reply) → get (pending_after p (entry.Call c call r)) c ≡ None }
    ensures others { (p : Pending) (c d : ℕ) (call : Call) (r : Reply)
        → (d == c) ≡ false → get (pending_after p (entry.Call c call r)) d ≡ get p d }
    // An inner entry leaves every call pending.
    ensures inner { (p : Pending) (c : ℕ) (x : Inner) → pending_after p (entry.Inner c x) ≡ p }
    // With these calls pending the history is legal that ends with a right entry.
    ensures answered { (p : Pending) (w new : World) (es : List Entry) (c : ℕ) (call : Call) (r : Reply)
        → IsLegal p w es → get p c ≡ Some call → MayAnswer (replay w es) (doomers_in [] es) c call r new
        → IsLegal (pending_after p (entry.Call c call r)) w (es ++ entry.Call c call r ∷ []) }
    ensures needed { (p : Pending) (w : World) (es : List Entry) (c : ℕ) (call : Call) (x : Inner)
        → IsLegal p w es → get p c ≡ Some call → apply (replay w es) c call ≡ Needs x
        → IsLegal (pending_after p (entry.Inner c x)) w (es ++ entry.Inner c x ∷ []) }
    // Before some entries a call is pending that has its entry first, and else what is pending behind that entry.
    ensures first { (p : Pending) (es : List Entry) (c : ℕ) (call : Call) (r : Reply)
        → get (pending_before p (entry.Call c call r ∷ es)) c ≡ Some call }
    ensures behind { (p : Pending) (es : List Entry) (c d : ℕ) (call : Call) (r : Reply)
        → (d == c) ≡ false → get (pending_before p (entry.Call c call r ∷ es)) d ≡ get (pending_before p es) d }
    ensures behind_inner { (p : Pending) (es : List Entry) (c : ℕ) (x : Inner)
        → pending_before p (entry.Inner c x ∷ es) ≡ pending_before p es }
{}

/// A history has each caller's calls in their order: a law of the model, with no code.
pub fn histories_keep_each_callers_calls()
    // Of two histories, one behind the other, a caller has its calls in the first and then those in the second.
    ensures joined { (c : ℕ) (es fs : List Entry) → calls_of c (es ++ fs) ≡ calls_of c es ++ calls_of c fs }
    // After the entry of a call that call stands last among its caller's, and the others have the calls that they had.
    ensures own { (es : List Entry) (c : ℕ) (call : Call) (r : Reply)
        → calls_of c (es ++ entry.Call c call r ∷ []) ≡ calls_of c es ++ call ∷ [] }
    ensures others { (es : List Entry) (c d : ℕ) (call : Call) (r : Reply)
        → (d == c) ≡ false → calls_of d (es ++ entry.Call c call r ∷ []) ≡ calls_of d es }
    // An inner entry is no call.
    ensures inner { (es : List Entry) (c d : ℕ) (x : Inner) → calls_of d (es ++ entry.Inner c x ∷ []) ≡ calls_of d es }
{}
