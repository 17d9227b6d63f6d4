// The steps through mounts that walks and layers take are enough in a sound world.
ghost use Rattle.std.specs.Prelude.{◌≡◌, ◌&&◌, ◌+◌, ◌==◌, ◌∷◌, ℕ, [], Some, Bool, not};
ghost use Rattle.vfs_tree.specs.Layers.{depth, is_root, kind_in, on_of, stores};
ghost use Rattle.vfs_tree.specs.Place.{Seen, mount_of};
ghost use Rattle.vfs_tree.specs.Sound.{IsSound};
ghost use Rattle.vfs_tree.specs.Views.{facts_of};
ghost use Rattle.vfs_tree.specs.Walk.{enter_as, enter_case, leave, leave_case};
ghost use Rattle.vfs_tree.specs.declared.mount.MountKind.TheVariants as kind;
ghost use Rattle.vfs_tree.specs.declared.world.World.{World};
ghost use Rattle.call_laws.specs.Lasting.{IsLasting};

/// A place is entered, and left, through as many mounts as there are: a law of the model, with no code. The number of steps
/// by which the definitions recurse is enough in each sound world, so they meet the equations that have none.
pub fn walks_pass_all_mounts()
    ensures enter { (w : World) → IsSound w → IsLasting w → (into_cut : Bool) (p : Seen)
        → enter_as (facts_of w) into_cut p
        ≡ enter_case (enter_as (facts_of w) into_cut) (facts_of w) into_cut p ((facts_of w).covering p) }
    ensures leave { (w : World) → IsSound w → IsLasting w → (d : Seen)
        → leave (facts_of w) d
        ≡ leave_case (leave (facts_of w)) d (not (mount_of d == 0) && is_root (facts_of w) d) (on_of (facts_of w) (mount_of d)) }
{}

/// The layers of a place are counted to the lowest: a law of the model, with no code.
pub fn layers_are_counted_whole()
    // In a memory mount a place has none under it, and rests on the mount itself.
    ensures mem_depth { (w : World) (p : Seen)
        → kind_in (facts_of w) (mount_of p) ≡ Some kind.Mem → depth (facts_of w) p ≡ 0 }
    ensures mem_stores { (w : World) (p : Seen)
        → kind_in (facts_of w) (mount_of p) ≡ Some kind.Mem → stores (facts_of w) p ≡ mount_of p ∷ [] }
    // In a null mount it has one more than the layer, and rests on what that rests on.
    ensures null_depth { (w : World) (p layer : Seen)
        → IsSound w → kind_in (facts_of w) (mount_of p) ≡ Some (kind.Null layer) → depth (facts_of w) p ≡ 1 + depth (facts_of w) layer }
    ensures null_stores { (w : World) (p layer : Seen)
        → IsSound w → kind_in (facts_of w) (mount_of p) ≡ Some (kind.Null layer) → stores (facts_of w) p ≡ stores (facts_of w) layer }
    // In a union it has one more than the lower layer, and rests on the mount of the upper one too.
    ensures union_depth { (w : World) (p lower : Seen) (s u : ℕ)
        → IsSound w → kind_in (facts_of w) (mount_of p) ≡ Some (kind.Union s u lower) → depth (facts_of w) p ≡ 1 + depth (facts_of w) lower }
    ensures union_stores { (w : World) (p lower : Seen) (s u : ℕ)
        → IsSound w → kind_in (facts_of w) (mount_of p) ≡ Some (kind.Union s u lower) → stores (facts_of w) p ≡ s ∷ stores (facts_of w) lower }
{}
