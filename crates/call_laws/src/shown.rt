// What a directory shows is what walks find, but for the shadow directories that a walk waits for.
ghost use Rattle.std.specs.Prelude.{◌≡◌, ℕ, List};
ghost use Rattle.vfs_tree.specs.Child.{child_of};
ghost use Rattle.vfs_tree.specs.Facts.{Facts};
ghost use Rattle.vfs_tree.specs.Place.{Seen};
ghost use Rattle.vfs_tree.specs.declared.walk.Child.TheVariants as child;
ghost use Rattle.vfs_tree.specs.Shown.{shown_child};

/// The tree that a directory shows is the one that walks find, but that it waits for no shadow directory.
pub fn walks_find_what_is_shown()
    // What stands at a name is shown there.
    ensures there { (f : Facts) (d : Seen) (n : List ℕ) (p : Seen)
        → child_of f d n ≡ child.At p → shown_child f d n ≡ child.At p }
    // Where nothing stands, nothing is shown.
    ensures absent { (f : Facts) (d : Seen) (n : List ℕ)
        → child_of f d n ≡ child.Absent → shown_child f d n ≡ child.Absent }
{}
