// Calls need what the upper layer lacks, and that changes nothing that mounts show.
ghost use Rattle.std.specs.Prelude.{◌≡◌, ◌==◌, ◌∷◌, ◌++◌, ℕ, List, [], IsSome, false};
ghost use Rattle.std.specs.List.{list_any};
ghost use Rattle.std.specs.FinMap.{get};
ghost use Rattle.vfs_tree.specs.Layers.{is_cut, root_of, stores};
ghost use Rattle.vfs_tree.specs.Place.{Seen, UnionUp, bare};
ghost use Rattle.vfs_tree.specs.Shown.{shown};
ghost use Rattle.vfs_tree.specs.Sound.{IsSound, IsSoundPlace};
ghost use Rattle.vfs_tree.specs.Start.{start_world};
ghost use Rattle.vfs_tree.specs.Views.{facts_of};
ghost use Rattle.vfs_tree.specs.declared.limits.Limits.{Limits};
ghost use Rattle.vfs_tree.specs.declared.walk.Step.TheVariants.{Wants};
ghost use Rattle.vfs_tree.specs.declared.world.World.{World};
ghost use Rattle.call_model.specs.Checks.{upper_store};
ghost use Rattle.call_model.specs.Effects.{effect};
ghost use Rattle.call_model.specs.Legal.{Pending, IsLegal, replay};
ghost use Rattle.call_model.specs.Rows.{row};
ghost use Rattle.call_model.specs.declared.call.Call.{Call};
ghost use Rattle.call_model.specs.declared.entry.Entry.{Entry};
ghost use Rattle.call_model.specs.declared.entry.Entry.TheVariants as entry;
ghost use Rattle.call_model.specs.declared.entry.Inner.TheVariants.{CopyUp, Shadow};
ghost use Rattle.call_laws.specs.Lasting.{IsLasting, IsOver, IsUncut};
ghost use Rattle.layer_laws.specs.Apart.{IsApart};
ghost use Rattle.need_laws.specs.Lacking.{LacksDir, LacksFile};
ghost use Rattle.need_laws.specs.Showing.{ShowsAsBefore};

/// A call needs what its union has in the lower layer alone: a law of the model, with no code.
pub fn calls_need_what_the_upper_layer_lacks()
    // A shadow directory is needed where the upper layer has nothing and the union shows a directory,
    ensures shadow { (w : World) (c m u : ℕ) (call : Call) (n : List ℕ)
        → IsSound w → IsLasting w → row w c call ≡ Wants (Shadow m u n) → LacksDir w m u n }
    // and a copy where it has a file or link of the lower layer alone.
    ensures copy { (w : World) (c m u : ℕ) (call : Call) (n : List ℕ)
        → IsSound w → IsLasting w → row w c call ≡ Wants (CopyUp m u n) → LacksFile w m u n }
{}

/// What a call needs first leaves what mounts show: a law of the model, with no code. Only a mount that rests on the memory
/// mount of the upper layer can show the new node.
pub fn needed_entries_change_nothing_shown()
    // A shadow directory that is needed leaves the kinds, bytes and targets at the root of its union, along any names,
    // where the union isn't cut off.
    ensures shadow { (w : World) (c m u : ℕ) (call : Call) (n : List ℕ)
        → IsSound w → IsLasting w → IsApart w → row w c call ≡ Wants (Shadow m u n) → is_cut (facts_of w) m ≡ false
        → ShowsAsBefore w (effect w c (Shadow m u n)) m }
    // So does a copy that is needed: its union is never cut off.
    ensures copy { (w : World) (c m u : ℕ) (call : Call) (n : List ℕ)
        → IsSound w → IsLasting w → IsApart w → row w c call ≡ Wants (CopyUp m u n)
        → ShowsAsBefore w (effect w c (CopyUp m u n)) m }
    // So they do at each node of the upper layer that was there, through whatever null mounts it is seen.
    ensures shadow_seen { (w : World) (c m u r : ℕ) (call : Call) (n : List ℕ) (p : Seen) (ns : List (List ℕ))
        → IsSound w → IsLasting w → IsApart w → row w c call ≡ Wants (Shadow m u n)
        → IsSoundPlace (facts_of w) p → IsUncut (facts_of w) p → IsOver (facts_of w) p → bare p ≡ UnionUp m r
        → shown (effect w c (Shadow m u n)) p ns ≡ shown w p ns }
    ensures copy_seen { (w : World) (c m u r : ℕ) (call : Call) (n : List ℕ) (p : Seen) (ns : List (List ℕ))
        → IsSound w → IsLasting w → IsApart w → row w c call ≡ Wants (CopyUp m u n)
        → IsSoundPlace (facts_of w) p → IsUncut (facts_of w) p → IsOver (facts_of w) p → bare p ≡ UnionUp m r
        → shown (effect w c (CopyUp m u n)) p ns ≡ shown w p ns }
    // Both leave what is shown at the root of each mount that doesn't rest on the upper layer's memory mount.
    ensures shadow_others { (w : World) (c m u k : ℕ) (n : List ℕ)
        → IsSound w → IsLasting w → IsSome (get w.mounts k) → is_cut (facts_of w) k ≡ false
        → list_any (λ t. t == upper_store w m) (stores (facts_of w) (root_of (facts_of w) k)) ≡ false
        → ShowsAsBefore w (effect w c (Shadow m u n)) k }
    ensures copy_others { (w : World) (c m u k : ℕ) (n : List ℕ)
        → IsSound w → IsLasting w → IsSome (get w.mounts k) → is_cut (facts_of w) k ≡ false
        → list_any (λ t. t == upper_store w m) (stores (facts_of w) (root_of (facts_of w) k)) ≡ false
        → ShowsAsBefore w (effect w c (CopyUp m u n)) k }
{}

/// No shadow directory and no copy of a legal history changes what its union shows: a law of the model, with no code.
pub fn inner_entries_of_histories_change_nothing_shown()
    // From the start on there is nothing else to know: a shadow directory in a union that isn't cut off leaves what its root
    // shows,
    ensures shadow { (limits : Limits) (p : Pending) (es fs : List Entry) (c m u : ℕ) (n : List ℕ)
        → IsLegal p (start_world limits) (es ++ entry.Inner c (Shadow m u n) ∷ fs)
        → is_cut (facts_of (replay (start_world limits) es)) m ≡ false
        → ShowsAsBefore (replay (start_world limits) es) (replay (start_world limits) (es ++ entry.Inner c (Shadow m u n) ∷ [])) m }
    // and so does each copy.
    ensures copy { (limits : Limits) (p : Pending) (es fs : List Entry) (c m u : ℕ) (n : List ℕ)
        → IsLegal p (start_world limits) (es ++ entry.Inner c (CopyUp m u n) ∷ fs)
        → ShowsAsBefore (replay (start_world limits) es) (replay (start_world limits) (es ++ entry.Inner c (CopyUp m u n) ∷ [])) m }
{}
