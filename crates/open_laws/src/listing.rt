// An open directory lists the names of the tree that it shows, also where its mount is cut off.
ghost use Rattle.std.specs.Prelude.{◌≡◌, ◌∷◌, ◌↔◌, ℕ, List, [], IsSome};
ghost use Rattle.std.specs.List.{Contains};
ghost use Rattle.vfs_tree.specs.Place.{Seen};
ghost use Rattle.vfs_tree.specs.Shown.{shown, shown_child};
ghost use Rattle.vfs_tree.specs.Sound.{IsSound};
ghost use Rattle.vfs_tree.specs.Start.{start_world};
ghost use Rattle.vfs_tree.specs.Views.{facts_of};
ghost use Rattle.vfs_tree.specs.Visible.{visible};
ghost use Rattle.vfs_tree.specs.declared.limits.Limits.{Limits};
ghost use Rattle.vfs_tree.specs.declared.open.Open.{Open};
ghost use Rattle.vfs_tree.specs.declared.walk.Child.TheVariants as child;
ghost use Rattle.vfs_tree.specs.declared.walk.Step.TheVariants.{Go};
ghost use Rattle.vfs_tree.specs.declared.world.World.{World};
ghost use Rattle.call_model.specs.Legal.{Pending, IsLegal, replay};
ghost use Rattle.call_model.specs.declared.entry.Entry.{Entry};
ghost use Rattle.call_laws.specs.Lasting.{IsLasting};
ghost use Rattle.open_laws.specs.OpenDirs.{IsOpenDir};
ghost use Rattle.open_laws.specs.Standing.{AreStanding};

/// The names that an open directory lists are those of the tree that it shows, also where a forced unmount has cut its
/// mount off: a law of the model, with no code.
pub fn open_directories_list_what_they_show()
    // Where the mounts of open files stand and the listing needs no shadow directory, a name is in it exactly where the
    // directory shows a place at the name,
    ensures place { (w : World) (o : Open) (names : List (List ℕ)) (n : List ℕ)
        → IsSound w → IsLasting w → AreStanding w → IsOpenDir w o → visible w o.place ≡ Go names
        → Contains names n ↔ ((p : Seen) × (shown_child (facts_of w) o.place n ≡ child.At p)) }
    // and so exactly where the tree that it shows has a directory, file or link there.
    ensures tree { (w : World) (o : Open) (names : List (List ℕ)) (n : List ℕ)
        → IsSound w → IsLasting w → AreStanding w → IsOpenDir w o → visible w o.place ≡ Go names
        → Contains names n ↔ IsSome (shown w o.place (n ∷ [])) }
    // After every legal history from the start there is nothing else to know.
    ensures history_place { (limits : Limits) (p : Pending) (es : List Entry) (o : Open)
        (names : List (List ℕ)) (n : List ℕ)
        → let w = replay (start_world limits) es in
        IsLegal p (start_world limits) es → IsOpenDir w o → visible w o.place ≡ Go names
        → Contains names n ↔ ((q : Seen) × (shown_child (facts_of w) o.place n ≡ child.At q)) }
    ensures history_tree { (limits : Limits) (p : Pending) (es : List Entry) (o : Open)
        (names : List (List ℕ)) (n : List ℕ)
        → let w = replay (start_world limits) es in
        IsLegal p (start_world limits) es → IsOpenDir w o → visible w o.place ≡ Go names
        → Contains names n ↔ IsSome (shown w o.place (n ∷ [])) }
{}
