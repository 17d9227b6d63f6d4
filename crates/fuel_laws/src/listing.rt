// The names that a directory shows are listed through all layers.
ghost use Rattle.std.specs.Prelude.{◌≡◌, ℕ, List, []};
ghost use Rattle.vfs_tree.specs.Child.{low};
ghost use Rattle.vfs_tree.specs.Place.{Mem, Null, Seen, UnionLow, UnionUp};
ghost use Rattle.vfs_tree.specs.Sound.{IsSound};
ghost use Rattle.vfs_tree.specs.Views.{facts_of};
ghost use Rattle.vfs_tree.specs.Visible.{given_names, listed_below, names_at, visible};
ghost use Rattle.vfs_tree.specs.declared.walk.Step.TheVariants.{Go};
ghost use Rattle.vfs_tree.specs.declared.world.World.{World};
ghost use Rattle.fuel_laws.specs.Layered.{IsFalling, IsLayered};
ghost use Rattle.fuel_laws.specs.Listing.{with_lower_part};

/// The names that a directory shows are listed through all layers: a law of the model, with no code.
pub fn visible_names_are_whole()
    // A directory of a memory mount shows its names that give an inode,
    ensures mem { (w : World) (m i : ℕ) → visible w (Mem m i) ≡ Go (given_names (names_at w m i)) }
    // a directory in a null mount those that the one under it shows,
    ensures null { (w : World) → IsSound w → IsLayered w → (m : ℕ) (p : Seen) → IsFalling (Null m p)
        → visible w (Null m p) ≡ visible w p }
    // and a union's directory its own and those that its lower part shows, but for what it hides.
    ensures union { (w : World) → IsSound w → IsLayered w → (m u : ℕ)
        → visible w (UnionUp m u) ≡ with_lower_part w m u (listed_below (visible w) (low (facts_of w) m u)) }
    // What a union has in its lower layer alone is no directory, and shows none.
    ensures file { (w : World) (m u : ℕ) (n : List ℕ) (p : Seen) → visible w (UnionLow m u n p) ≡ Go [] }
{}
