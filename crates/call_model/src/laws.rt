ghost use Rattle.std.specs.Prelude.{◌≡◌, ℕ, List, [], ◌∷◌, ◌++◌, Some, None};
ghost use Rattle.std.specs.FinMap.{get, insert, remove};
ghost use Rattle.vfs_tree.specs.declared.world.World.{World};
ghost use Rattle.call_model.specs.Apply.{Needs, apply};
ghost use Rattle.call_model.specs.Effects.{effect};
ghost use Rattle.call_model.specs.declared.call.Call.{Call};
ghost use Rattle.call_model.specs.declared.entry.Entry.{Entry};
ghost use Rattle.call_model.specs.declared.entry.Entry.TheVariants as entry;
ghost use Rattle.call_model.specs.declared.entry.Inner.{Inner};
ghost use Rattle.call_model.specs.declared.reply.Reply.{Reply};
ghost use Rattle.call_model.specs.Legal.{Pending, IsLegal, MayAnswer, doomers_in, replay};

/// How legal histories grow: a law of the model, with no code.
pub fn legal_histories_grow()
    // A call that is begun, by a caller that has none pending, leaves the history legal.
    ensures begun { (p : Pending) (w : World) (es : List Entry) (c : ℕ) (call : Call)
        → get p c ≡ None → IsLegal p w es → IsLegal (insert p c call) w es }
    // The entry of a pending call with a right answer leaves it legal, and the call is pending no more.
    ensures answered { (p : Pending) (w new : World) (es : List Entry) (c : ℕ) (call : Call) (r : Reply)
        → IsLegal p w es → get p c ≡ Some call → MayAnswer (replay w es) (doomers_in [] es) c call r new
        → IsLegal (remove p c) w (es ++ entry.Call c call r ∷ []) }
    // The world that is then left is the one that the answer leaves.
    ensures left { (w new : World) (es : List Entry) (c : ℕ) (call : Call) (r : Reply)
        → MayAnswer (replay w es) (doomers_in [] es) c call r new
        → new ≡ replay w (es ++ entry.Call c call r ∷ []) }
    // An inner entry that a pending call needs leaves it legal, and the call stays pending.
    ensures needed { (p : Pending) (w : World) (es : List Entry) (c : ℕ) (call : Call) (x : Inner)
        → IsLegal p w es → get p c ≡ Some call → apply (replay w es) c call ≡ Needs x
        → IsLegal p w (es ++ entry.Inner c x ∷ []) }
    // The world that is then left is the one that the inner entry makes.
    ensures done { (w : World) (es : List Entry) (c : ℕ) (x : Inner)
        → effect (replay w es) c x ≡ replay w (es ++ entry.Inner c x ∷ []) }
{}
