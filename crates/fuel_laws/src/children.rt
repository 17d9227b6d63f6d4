// What stands at a name is found, and shown, through all layers: the steps of the definitions are enough.
ghost use Rattle.std.specs.Prelude.{◌≡◌, ◌==◌, ◌||◌, ◌∷◌, [], ℕ, List, Option, Some, IfSome, true, false};
ghost use Rattle.std.specs.FinMap.{get};
ghost use Rattle.vfs_tree.specs.Child.{child_below, child_mem, child_null, child_of, child_union, low, low_case, upper_entry};
ghost use Rattle.vfs_tree.specs.Facts.{Facts};
ghost use Rattle.vfs_tree.specs.Layers.{is_linked, is_opaque, kind_in, root_of};
ghost use Rattle.vfs_tree.specs.Place.{Mem, Null, Seen, UnionLow, UnionUp};
ghost use Rattle.vfs_tree.specs.Shown.{shown, shown_at, shown_child, shown_union};
ghost use Rattle.vfs_tree.specs.Sound.{IsSound, is_union};
ghost use Rattle.vfs_tree.specs.Views.{facts_of};
ghost use Rattle.vfs_tree.specs.declared.mount.MountKind.TheVariants as kind;
ghost use Rattle.vfs_tree.specs.declared.walk.Child.TheVariants as child;
ghost use Rattle.vfs_tree.specs.declared.walk.Found.TheVariants as found;
ghost use Rattle.vfs_tree.specs.declared.world.World.{World};
ghost use Rattle.call_model.specs.Rows.{Way, found_at};
ghost use Rattle.call_laws.specs.Lasting.{IsLasting, IsOver};
ghost use Rattle.fuel_laws.specs.Layered.{IsFalling, IsLayered};
ghost use Rattle.fuel_laws.specs.ShownUnder.{shown_lower, shown_under};

/// What stands at a name is found through all layers: a law of the model, with no code. The number of mounts that the
/// definition passes is enough in each sound world that is layered, so it meets the equations that have none.
pub fn children_are_found_whole()
    // A directory of a memory mount has what its entry gives,
    ensures mem { (f : Facts) (m i : ℕ) (n : List ℕ) → child_of f (Mem m i) n ≡ child_mem m (f.entry m i n) }
    // a directory in a null mount what the one under it has, seen through the mount,
    ensures null { (w : World) → IsSound w → IsLayered w → (m : ℕ) (p : Seen) (n : List ℕ) → IsFalling (Null m p)
        → child_of (facts_of w) (Null m p) n ≡ child_null m (child_of (facts_of w) p n) }
    // and a union's directory what the entry of its upper layer gives or hides, and else what its lower part has.
    ensures union { (w : World) → IsSound w → IsLayered w → (m u : ℕ) (n : List ℕ)
        → child_of (facts_of w) (UnionUp m u) n
        ≡ child_union (facts_of w) m u n (upper_entry (facts_of w) (kind_in (facts_of w) m) u n)
        (child_below (child_of (facts_of w)) (low (facts_of w) m u)) }
    // What a union has in its lower layer alone is no directory, and has nothing.
    ensures file { (f : Facts) (m u : ℕ) (a n : List ℕ) (p : Seen) → child_of f (UnionLow m u a p) n ≡ child.Absent }
    // What stands at a name is falling, as its directory is.
    ensures falling { (w : World) → IsSound w → IsLayered w → (d p : Seen) (n : List ℕ)
        → IsFalling d → child_of (facts_of w) d n ≡ child.At p → IsFalling p }
{}

/// What callers come by is falling: a law of the model, with no code. So what is said of falling places is said of these.
pub fn what_is_found_is_falling()
    // Each place is that is seen over the mounts of lower layers,
    ensures over { (w : World) → IsSound w → (p : Seen) → IsOver (facts_of w) p → IsFalling p }
    // that a path finds,
    ensures path { (w : World) → IsSound w → IsLasting w → (c : ℕ) (o : Option Way) (p : Seen) → found_at w c o ≡ found.At p → IsFalling p }
    // in which it finds a name,
    ensures dir { (w : World) → IsSound w → IsLasting w → (c : ℕ) (o : Option Way) (d : Seen) (n : List ℕ) (x : Option Seen)
        → found_at w c o ≡ found.In d n x → IsFalling d }
    // or that is open or a current directory and isn't dead.
    ensures opens { (w : World) → IsSound w → IsLasting w → (k : ℕ × ℕ) → IfSome (get w.opens k) (λ o. o.dead ≡ false → IsFalling o.place) }
    ensures cwds { (w : World) → IsSound w → IsLasting w → (c : ℕ) → IfSome (get w.cwds c) (λ d. d.dead ≡ false → IsFalling d.place) }
{}

/// What a union's directory has below it is found up to the root: a law of the model, with no code.
pub fn lower_parts_are_found_whole()
    // Nothing is below a directory of another mount, or one that isn't linked.
    ensures none { (f : Facts) (m u : ℕ) → is_union (kind_in f m) ≡ false → low f m u ≡ child.Absent }
    ensures removed { (f : Facts) (m u s upper : ℕ) (lower : Seen)
        → kind_in f m ≡ Some (kind.Union s upper lower) → is_linked f s u ≡ false → low f m u ≡ child.Absent }
    // Nothing is below an opaque directory, or the root of a store, unless it is the upper layer's own.
    ensures opaque { (f : Facts) (m u s upper : ℕ) (lower : Seen) → kind_in f m ≡ Some (kind.Union s upper lower)
        → (u == upper) ≡ false → is_opaque f s u ≡ true → low f m u ≡ child.Absent }
    ensures root { (f : Facts) (m s upper : ℕ) (lower : Seen) → kind_in f m ≡ Some (kind.Union s upper lower)
        → (1 == upper) ≡ false → low f m 1 ≡ child.Absent }
    // The lower layer is below the upper one, nothing below an opaque directory or the root of a store, and below another
    // what the lower part of its parent has at its name, where that is a directory.
    ensures linked { (w : World) → IsSound w → IsLasting w → IsLayered w → (m u s upper : ℕ) (lower : Seen)
        → kind_in (facts_of w) m ≡ Some (kind.Union s upper lower) → is_linked (facts_of w) s u ≡ true
        → low (facts_of w) m u
        ≡ low_case (facts_of w) (child_of (facts_of w)) s lower (low (facts_of w) m) u (u == upper) (is_opaque (facts_of w) s u || (u == 1)) }
{}

/// The tree that a directory shows is shown whole: a law of the model, with no code.
pub fn trees_are_shown_whole()
    // At a name a directory shows what it has there, in a memory mount,
    ensures mem { (f : Facts) (m i : ℕ) (n : List ℕ) → shown_child f (Mem m i) n ≡ child_mem m (f.entry m i n) }
    // through a null mount,
    ensures null { (w : World) → IsSound w → IsLayered w → (m : ℕ) (p : Seen) (n : List ℕ) → IsFalling (Null m p)
        → shown_child (facts_of w) (Null m p) n ≡ child_null m (shown_child (facts_of w) p n) }
    // and in a union, where a directory of the lower layer alone is shown as the lower layer shows it.
    ensures union { (w : World) → IsSound w → IsLayered w → (m u : ℕ) (n : List ℕ)
        → shown_child (facts_of w) (UnionUp m u) n
        ≡ shown_union (facts_of w) m u n (upper_entry (facts_of w) (kind_in (facts_of w) m) u n)
        (child_below (shown_child (facts_of w)) (shown_lower (facts_of w) m u)) }
    // The lower part of a union's directory is what the lower layer shows in its place.
    ensures lower { (w : World) → IsSound w → IsLasting w → (m u s upper : ℕ) (lower : Seen)
        → kind_in (facts_of w) m ≡ Some (kind.Union s upper lower) → is_linked (facts_of w) s u ≡ true
        → shown_lower (facts_of w) m u
        ≡ low_case (facts_of w) (shown_child (facts_of w)) s lower (shown_lower (facts_of w) m) u (u == upper) (is_opaque (facts_of w) s u || (u == 1)) }
    // An opaque directory, or the root of a store, shows nothing of the lower layer, unless it is the upper layer's own.
    ensures opaque { (f : Facts) (m u s upper : ℕ) (lower : Seen) → kind_in f m ≡ Some (kind.Union s upper lower)
        → (u == upper) ≡ false → is_opaque f s u ≡ true → shown_lower f m u ≡ child.Absent }
    ensures root { (f : Facts) (m s upper : ℕ) (lower : Seen) → kind_in f m ≡ Some (kind.Union s upper lower)
        → (1 == upper) ≡ false → shown_lower f m 1 ≡ child.Absent }
    // What is shown is falling, as its directory is.
    ensures falling { (w : World) → IsSound w → IsLayered w → (d p : Seen) (n : List ℕ)
        → IsFalling d → shown_child (facts_of w) d n ≡ child.At p → IsFalling p }
    // No names stand for the directory itself,
    ensures itself { (w : World) (d : Seen) → shown w d [] ≡ shown_at w (child.At d) }
    // and a name before others for the tree below what it shows.
    ensures below { (w : World) (d : Seen) (n : List ℕ) (ns : List (List ℕ))
        → shown w d (n ∷ ns) ≡ shown_under w (shown_child (facts_of w) d n) ns }
{}

/// A null mount shows the tree of its layer, cut off or not: a law of the model, with no code.
pub fn null_mounts_show_their_layers()
    // At its root, along any names, stand the kinds, bytes and targets of the layer.
    ensures root { (w : World) → IsSound w → IsLayered w → (m : ℕ) (layer : Seen) (ns : List (List ℕ))
        → kind_in (facts_of w) m ≡ Some (kind.Null layer) → shown w (root_of (facts_of w) m) ns ≡ shown w layer ns }
    // At a place in it stand those of the place that is seen through it.
    ensures place { (w : World) → IsSound w → IsLayered w → (m : ℕ) (p : Seen) (ns : List (List ℕ))
        → IsFalling (Null m p) → shown w (Null m p) ns ≡ shown w p ns }
{}
