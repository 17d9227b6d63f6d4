// What a mount stands on, and what a directory is below.
ghost use Rattle.std.specs.Prelude.{◌≡◌, ◌==◌, ◌||◌, ◌&&◌, not, ℕ, true};
ghost use Rattle.std.specs.FinMap.{get};
ghost use Rattle.std.specs.List.{list_any};
ghost use Rattle.vfs_tree.specs.Carriers.{is_below};
ghost use Rattle.vfs_tree.specs.Facts.{Facts};
ghost use Rattle.vfs_tree.specs.Layers.{base, is_linked, parent_ino, same_node};
ghost use Rattle.vfs_tree.specs.Mounts.{layers_at, stands_on};
ghost use Rattle.vfs_tree.specs.Place.{Mem, Seen};
ghost use Rattle.vfs_tree.specs.Sound.{IsSound};
ghost use Rattle.vfs_tree.specs.Views.{facts_of};
ghost use Rattle.vfs_tree.specs.declared.world.World.{World};
ghost use Rattle.call_laws.specs.Lasting.{IsLasting};

/// A mount stands on those that its layers lie in, and on all that these stand on: a law of the model, with no code.
pub fn a_mount_stands_on_all_below_it()
    ensures { (w : World) → IsSound w → (a b : ℕ)
        → stands_on w.mounts a b ≡ list_any (λ l. (l == b) || stands_on w.mounts l b) (layers_at (get w.mounts a)) }
{}

/// A directory is below each on its way up: a law of the model, with no code.
pub fn a_directory_is_below_all_above_it()
    // It is below another as the node is on which it rests,
    ensures node { (f : Facts) (d top : Seen) → is_below f d top ≡ is_below f (Mem (base f d).store (base f d).ino) top }
    // and that where it is the node of the other, or isn't the root and its parent is below the other.
    ensures below { (w : World) → IsSound w → IsLasting w → (s i : ℕ) (top : Seen) → is_linked (facts_of w) s i ≡ true
        → is_below (facts_of w) (Mem s i) top
        ≡ (same_node (base (facts_of w) (Mem s i)) (base (facts_of w) top)
        || (not (i == 1) && is_below (facts_of w) (Mem s (parent_ino (facts_of w) s i)) top)) }
{}
