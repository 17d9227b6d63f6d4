// A directory is linked exactly where a name of its parent gives it.
ghost use Rattle.std.specs.Prelude.{◌≡◌, ◌==◌, ℕ, List, Some, IsSome, true, false};
ghost use Rattle.vfs_tree.specs.Layers.{is_linked};
ghost use Rattle.vfs_tree.specs.Sound.{IsSound};
ghost use Rattle.vfs_tree.specs.Views.{facts_of};
ghost use Rattle.vfs_tree.specs.declared.node.Kind.TheVariants as node;
ghost use Rattle.vfs_tree.specs.declared.node.NameEntry.TheVariants.{Ino};
ghost use Rattle.vfs_tree.specs.declared.world.World.{World};
ghost use Rattle.model_laws.specs.Named.{IsNamedAbove};

/// A directory is linked exactly where a name of its parent gives it: a law of the model, with no code. So what its
/// parent has tells it, and no other directory of the store does.
pub fn a_directory_is_linked_where_its_parent_names_it()
    // A linked directory other than the root has a name in its parent.
    ensures named { (w : World) (s i : ℕ)
        → IsSound w → is_linked (facts_of w) s i ≡ true → (i == 1) ≡ false → IsNamedAbove (facts_of w) s i }
    // A directory that has one is linked, in every world.
    ensures linked { (w : World) (s i : ℕ)
        → IsSome ((facts_of w).dir s i) → IsNamedAbove (facts_of w) s i → is_linked (facts_of w) s i ≡ true }
    // So is one that any name of its store gives, and the root.
    ensures given { (w : World) (s i d : ℕ) (n : List ℕ)
        → IsSome ((facts_of w).dir s i) → (facts_of w).entry s d n ≡ Some (Ino i) → is_linked (facts_of w) s i ≡ true }
    ensures root { (w : World) (s : ℕ) → IsSome ((facts_of w).dir s 1) → is_linked (facts_of w) s 1 ≡ true }
    // No other name gives a directory.
    ensures once { (w : World) (s i d e : ℕ) (n m : List ℕ)
        → IsSound w → (facts_of w).kind s i ≡ Some node.Dir → (i == 1) ≡ false
        → (facts_of w).entry s d n ≡ Some (Ino i) → (facts_of w).entry s e m ≡ Some (Ino i) → (d ≡ e) × (n ≡ m) }
{}
