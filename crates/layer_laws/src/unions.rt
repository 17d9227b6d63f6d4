// Shadow directories and copies change nothing of what their union shows.
ghost use Rattle.std.specs.Prelude.{◌≡◌, ◌∷◌, ℕ, List, [], Some, IsSome, false};
ghost use Rattle.vfs_tree.specs.Child.{child_of};
ghost use Rattle.vfs_tree.specs.Layers.{is_cut, kind_in, root_of};
ghost use Rattle.vfs_tree.specs.Place.{Seen, UnionLow, UnionUp};
ghost use Rattle.vfs_tree.specs.Shown as seen;
ghost use Rattle.vfs_tree.specs.Shown.{shown};
ghost use Rattle.vfs_tree.specs.Sound.{IsSound};
ghost use Rattle.vfs_tree.specs.Views.{facts_of};
ghost use Rattle.vfs_tree.specs.declared.mount.MountKind.TheVariants as kind;
ghost use Rattle.vfs_tree.specs.declared.walk.Child.TheVariants as child;
ghost use Rattle.vfs_tree.specs.declared.world.World.{World};
ghost use Rattle.call_model.specs.Checks.{is_full};
ghost use Rattle.call_model.specs.Effects.{effect};
ghost use Rattle.call_model.specs.declared.entry.Inner.TheVariants.{CopyUp, Shadow};
ghost use Rattle.call_laws.specs.Lasting.{IsLasting};
ghost use Rattle.call_laws.specs.Needing.{IsFree};
ghost use Rattle.layer_laws.specs.Apart.{IsApart};

/// A shadow directory leaves what its union shows: a law of the model, with no code. It is made where the upper layer has
/// nothing at the name, and the union shows a directory there.
pub fn a_shadow_directory_changes_nothing_shown()
    // At the root, along any names, stand the kinds, bytes and targets that stood there.
    ensures root { (w : World) (c m s top u : ℕ) (lower : Seen) (n : List ℕ) (ns : List (List ℕ))
        → IsSound w → IsLasting w → IsApart w
        → kind_in (facts_of w) m ≡ Some (kind.Union s top lower) → is_cut (facts_of w) m ≡ false
        → IsFree (facts_of w) m u n → is_full w s ≡ false → shown w (UnionUp m u) (n ∷ []) ≡ Some seen.Dir
        → shown (effect w c (Shadow m u n)) (root_of (facts_of w) m) ns ≡ shown w (root_of (facts_of w) m) ns }
    // So they do at each node of the upper layer that was there.
    ensures directory { (w : World) (c m s top u r : ℕ) (lower : Seen) (n : List ℕ) (ns : List (List ℕ))
        → IsSound w → IsLasting w → IsApart w
        → kind_in (facts_of w) m ≡ Some (kind.Union s top lower) → is_cut (facts_of w) m ≡ false
        → IsFree (facts_of w) m u n → is_full w s ≡ false → shown w (UnionUp m u) (n ∷ []) ≡ Some seen.Dir
        → IsSome ((facts_of w).kind s r)
        → shown (effect w c (Shadow m u n)) (UnionUp m r) ns ≡ shown w (UnionUp m r) ns }
{}

/// A copy-up leaves what its union shows: a law of the model, with no code. What is copied is a file or link that the union
/// has in its lower layer alone.
pub fn a_copy_changes_nothing_shown()
    // At the root, along any names, stand the kinds, bytes and targets that stood there.
    ensures root { (w : World) (c m s top u : ℕ) (lower q : Seen) (n : List ℕ) (ns : List (List ℕ))
        → IsSound w → IsLasting w → IsApart w
        → kind_in (facts_of w) m ≡ Some (kind.Union s top lower) → is_cut (facts_of w) m ≡ false
        → is_full w s ≡ false → child_of (facts_of w) (UnionUp m u) n ≡ child.At (UnionLow m u n q)
        → shown (effect w c (CopyUp m u n)) (root_of (facts_of w) m) ns ≡ shown w (root_of (facts_of w) m) ns }
    // So they do at each node of the upper layer that was there.
    ensures directory { (w : World) (c m s top u r : ℕ) (lower q : Seen) (n : List ℕ) (ns : List (List ℕ))
        → IsSound w → IsLasting w → IsApart w
        → kind_in (facts_of w) m ≡ Some (kind.Union s top lower) → is_cut (facts_of w) m ≡ false
        → is_full w s ≡ false → child_of (facts_of w) (UnionUp m u) n ≡ child.At (UnionLow m u n q)
        → IsSome ((facts_of w).kind s r)
        → shown (effect w c (CopyUp m u n)) (UnionUp m r) ns ≡ shown w (UnionUp m r) ns }
{}
