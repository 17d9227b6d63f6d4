// A walk takes as many steps as it has components and links, and more steps find the same.
ghost use Rattle.std.specs.Prelude.{◌≡◌, ◌≤◌, ◌<◌, ◌+◌, ◌⊎◌, ℕ, Bool, List, true};
ghost use Rattle.vfs_tree.specs.Carriers.{below_within};
ghost use Rattle.vfs_tree.specs.Child.{Lookup, child_of, child_within, low_within, steps};
ghost use Rattle.vfs_tree.specs.Facts.{Facts};
ghost use Rattle.vfs_tree.specs.Layers.{is_linked};
ghost use Rattle.vfs_tree.specs.Mounts.{stands_on, stands_within};
ghost use Rattle.vfs_tree.specs.Place.{Seen, mount_of};
ghost use Rattle.vfs_tree.specs.Shown.{shown_child, shown_within};
ghost use Rattle.vfs_tree.specs.Sound.{IsSound};
ghost use Rattle.vfs_tree.specs.Views.{facts_of};
ghost use Rattle.vfs_tree.specs.Visible.{visible, visible_within};
ghost use Rattle.vfs_tree.specs.Walk.{Walked, enter_as, enter_within, find, leave, leave_within, walk_from};
ghost use Rattle.vfs_tree.specs.declared.errno.Errno.TheVariants as errno;
ghost use Rattle.vfs_tree.specs.declared.walk.Component.{Component};
ghost use Rattle.vfs_tree.specs.declared.walk.Found.TheVariants as found;
ghost use Rattle.vfs_tree.specs.declared.walk.Leaf.{Leaf};
ghost use Rattle.vfs_tree.specs.declared.walk.Step.TheVariants.{Refuse};
ghost use Rattle.vfs_tree.specs.declared.world.World.{World};
ghost use Rattle.call_laws.specs.Lasting.{IsLasting};
ghost use Rattle.fuel_laws.specs.Layered.{IsFalling, IsLayered};
ghost use Rattle.fuel_laws.specs.Links.{find_links, walk_links};

/// A walk needs its components and links, and no more: a law of the model, with no code. It recurses along its components,
/// and at each link by the number of links that it may still follow.
pub fn a_walk_needs_its_links_and_components()
    // A walk may follow 32 links,
    ensures walk { (f : Facts) (leaf : Leaf) (parts : List Component) (d : Seen) → walk_from f leaf parts d ≡ walk_links 32 f leaf parts d }
    // and so may one along a path as it is written.
    ensures find { (f : Facts) (leaf : Leaf) (from : Walked Seen) (text : List ℕ) → find f leaf from text ≡ find_links 32 f leaf from text }
    // However many it may follow, it answers ELOOP, or what it answers where it may follow more.
    ensures links { (f : Facts) (leaf : Leaf) (k more : ℕ) (parts : List Component) (d : Seen)
        → (walk_links k f leaf parts d ≡ Refuse errno.ELOOP) ⊎ (walk_links (k + more) f leaf parts d ≡ walk_links k f leaf parts d) }
    ensures path { (f : Facts) (leaf : Leaf) (k more : ℕ) (from : Walked Seen) (text : List ℕ)
        → (find_links k f leaf from text ≡ found.Refused errno.ELOOP) ⊎ (find_links (k + more) f leaf from text ≡ find_links k f leaf from text) }
{}

/// The steps by which the definitions recurse are enough, and more of them find the same: a law of the model, with no code.
pub fn more_steps_find_the_same()
    // Into the mounts that cover a place,
    ensures enter { (w : World) → IsSound w → IsLasting w → (k : ℕ) (into_cut : Bool) (p : Seen)
        → steps ≤ k → enter_within k (facts_of w) into_cut p ≡ enter_as (facts_of w) into_cut p }
    // out of those whose root a directory is,
    ensures leave { (w : World) → IsSound w → IsLasting w → (k : ℕ) (d : Seen)
        → steps ≤ k → leave_within k (facts_of w) d ≡ leave (facts_of w) d }
    // through the layers of a directory to what it has, shows and lists,
    ensures child { (w : World) → IsSound w → IsLayered w → (k : ℕ) (d : Seen) (n : List ℕ)
        → IsFalling d → mount_of d < k → child_within k (facts_of w) d n ≡ child_of (facts_of w) d n }
    ensures shown { (w : World) → IsSound w → IsLayered w → (k : ℕ) (d : Seen) (n : List ℕ)
        → IsFalling d → mount_of d < k → shown_within k (facts_of w) d n ≡ shown_child (facts_of w) d n }
    ensures visible { (w : World) → IsSound w → IsLayered w → (k : ℕ) (d : Seen)
        → IsFalling d → mount_of d < k → visible_within k w d ≡ visible w d }
    // down to the mounts that a mount stands on,
    ensures stands { (w : World) → IsSound w → (k a b : ℕ) → a < k → stands_within k w.mounts a b ≡ stands_on w.mounts a b }
    // and up from a linked directory, to the lower part of one above it and to one that it is below.
    ensures low { (w : World) → IsSound w → IsLasting w → (k : ℕ) (look : Lookup) (s upper u : ℕ) (lower : Seen)
        → is_linked (facts_of w) s u ≡ true → steps ≤ k
        → low_within k (facts_of w) look s upper lower u ≡ low_within steps (facts_of w) look s upper lower u }
    ensures below { (w : World) → IsSound w → IsLasting w → (k s top i : ℕ)
        → is_linked (facts_of w) s i ≡ true → steps ≤ k
        → below_within k (facts_of w) s top i ≡ below_within steps (facts_of w) s top i }
{}
