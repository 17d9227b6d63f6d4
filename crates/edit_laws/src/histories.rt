// The edits of every legal history tell what walks read after it.
ghost use Rattle.std.specs.Prelude.{◌≡◌, ◌++◌, ◌∷◌, List, []};
ghost use Rattle.vfs_tree.specs.Sound.{IsSound};
ghost use Rattle.vfs_tree.specs.Start.{start_world};
ghost use Rattle.vfs_tree.specs.Views.{facts_of};
ghost use Rattle.vfs_tree.specs.declared.limits.Limits.{Limits};
ghost use Rattle.vfs_tree.specs.declared.world.World.{World};
ghost use Rattle.call_model.specs.Legal.{IsLegal, Pending, replay};
ghost use Rattle.call_model.specs.NameEdits.{edited_by, edits, edits_of};
ghost use Rattle.call_model.specs.declared.entry.Entry.{Entry};
ghost use Rattle.call_laws.specs.Lasting.{IsLasting};

/// The edits of every legal history tell what it does to names and mounts: a law of the model, with no code.
pub fn edits_of_legal_histories_tell()
    // From the start on, its edits, one after the other, give what walks read in the world that it leaves.
    ensures start { (limits : Limits) (p : Pending) (es : List Entry)
        → IsLegal p (start_world limits) es
        → facts_of (replay (start_world limits) es) ≡ edited_by (facts_of (start_world limits)) (edits (start_world limits) es) }
    // So they do from every sound world that lasts.
    ensures world { (p : Pending) (w : World) (es : List Entry)
        → IsLegal p w es → IsSound w → IsLasting w → facts_of (replay w es) ≡ edited_by (facts_of w) (edits w es) }
    // An entry at its end that has none leaves what walks read, from the start on
    ensures start_none { (limits : Limits) (p : Pending) (es : List Entry) (e : Entry)
        → IsLegal p (start_world limits) (es ++ e ∷ []) → edits_of (replay (start_world limits) es) e ≡ []
        → facts_of (replay (start_world limits) (es ++ e ∷ [])) ≡ facts_of (replay (start_world limits) es) }
    // and from such a world.
    ensures world_none { (p : Pending) (w : World) (es : List Entry) (e : Entry)
        → IsLegal p w (es ++ e ∷ []) → IsSound w → IsLasting w → edits_of (replay w es) e ≡ []
        → facts_of (replay w (es ++ e ∷ [])) ≡ facts_of (replay w es) }
{}
