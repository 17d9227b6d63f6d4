// A directory lists the names of the tree that it shows.
ghost use Rattle.std.specs.Prelude.{◌≡◌, ◌∷◌, ◌↔◌, ℕ, List, [], IsSome};
ghost use Rattle.std.specs.List.{Contains};
ghost use Rattle.vfs_tree.specs.Place.{Seen};
ghost use Rattle.vfs_tree.specs.Shown.{shown, shown_child};
ghost use Rattle.vfs_tree.specs.Sound.{IsSound, IsSoundDir};
ghost use Rattle.vfs_tree.specs.Views.{facts_of};
ghost use Rattle.vfs_tree.specs.Visible.{visible};
ghost use Rattle.vfs_tree.specs.declared.walk.Child.TheVariants as child;
ghost use Rattle.vfs_tree.specs.declared.walk.Step.TheVariants.{Go};
ghost use Rattle.vfs_tree.specs.declared.world.World.{World};
ghost use Rattle.call_laws.specs.Lasting.{IsLasting, IsOver, IsUncut};

/// The names that a directory lists are those of the tree that it shows: a law of the model, with no code.
pub fn visible_names_are_those_shown()
    // Where the listing needs no shadow directory, a name is in it exactly where the directory shows a place at the name,
    ensures place { (w : World) (d : Seen) (names : List (List ℕ)) (n : List ℕ)
        → IsSound w → IsLasting w → IsSoundDir (facts_of w) d → IsUncut (facts_of w) d → IsOver (facts_of w) d
        → visible w d ≡ Go names
        → Contains names n ↔ ((p : Seen) × (shown_child (facts_of w) d n ≡ child.At p)) }
    // and so exactly where the tree that it shows has a directory, file or link there.
    ensures tree { (w : World) (d : Seen) (names : List (List ℕ)) (n : List ℕ)
        → IsSound w → IsLasting w → IsSoundDir (facts_of w) d → IsUncut (facts_of w) d → IsOver (facts_of w) d
        → visible w d ≡ Go names
        → Contains names n ↔ IsSome (shown w d (n ∷ [])) }
{}
