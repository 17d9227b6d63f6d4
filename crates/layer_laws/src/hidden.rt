// Edits through a union leave what its lower layer shows.
ghost use Rattle.std.specs.Prelude.{◌≡◌, ℕ, List, Some, false};
ghost use Rattle.vfs_tree.specs.Layers.{is_cut, kind_in};
ghost use Rattle.vfs_tree.specs.Place.{Seen, UnionLow, UnionUp, bare};
ghost use Rattle.vfs_tree.specs.Shown.{shown};
ghost use Rattle.vfs_tree.specs.Sound.{IsSound};
ghost use Rattle.vfs_tree.specs.Views.{facts_of};
ghost use Rattle.vfs_tree.specs.declared.mount.MountKind.TheVariants as kind;
ghost use Rattle.vfs_tree.specs.declared.node.Store.{Store};
ghost use Rattle.vfs_tree.specs.declared.walk.Step.TheVariants.{Go};
ghost use Rattle.vfs_tree.specs.declared.world.World.{World};
ghost use Rattle.call_model.specs.Checks.{copied, edit_at};
ghost use Rattle.call_model.specs.Effects.{effect};
ghost use Rattle.call_model.specs.declared.entry.Inner.TheVariants.{CopyUp, Shadow};
ghost use Rattle.call_laws.specs.Lasting.{IsLasting};
ghost use Rattle.layer_laws.specs.Apart.{IsApart};

/// Edits through a union leave what its lower layer shows: a law of the model, with no code. They go to the memory mount of
/// its upper layer.
pub fn edits_through_a_union_leave_its_lower_layer()
    // So does an edit at a place of the upper layer, through whatever null mounts it is seen,
    ensures edit { (w : World) (m s top i : ℕ) (lower p : Seen) (edit : Store → ℕ → Store) (ns : List (List ℕ))
        → IsSound w → IsLasting w → IsApart w
        → kind_in (facts_of w) m ≡ Some (kind.Union s top lower) → is_cut (facts_of w) m ≡ false → bare p ≡ UnionUp m i
        → shown (edit_at w p edit) lower ns ≡ shown w lower ns }
    // a shadow directory,
    ensures shadow { (w : World) (c m s top u : ℕ) (lower : Seen) (n : List ℕ) (ns : List (List ℕ))
        → IsSound w → IsLasting w → IsApart w
        → kind_in (facts_of w) m ≡ Some (kind.Union s top lower) → is_cut (facts_of w) m ≡ false
        → shown (effect w c (Shadow m u n)) lower ns ≡ shown w lower ns }
    // and a copy-up.
    ensures copy_up { (w : World) (c m s top u : ℕ) (lower : Seen) (n : List ℕ) (ns : List (List ℕ))
        → IsSound w → IsLasting w → IsApart w
        → kind_in (facts_of w) m ≡ Some (kind.Union s top lower) → is_cut (facts_of w) m ≡ false
        → shown (effect w c (CopyUp m u n)) lower ns ≡ shown w lower ns }
    // A call that changes a file never goes on where its place is of the lower layer alone.
    ensures lower { (w : World) (m u : ℕ) (n : List ℕ) (p q : Seen)
        → bare p ≡ UnionLow m u n q → copied w p ≡ Go tt → ⊥ }
{}
