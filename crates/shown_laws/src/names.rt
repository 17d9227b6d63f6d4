// A removed name shows nothing, and an undeleted one what the lower layer has.
ghost use Rattle.std.specs.Prelude.{◌≡◌, ◌∷◌, ℕ, List, None, Option, false};
ghost use Rattle.vfs_tree.specs.Carriers.{is_in_union};
ghost use Rattle.vfs_tree.specs.Child.{child_below};
ghost use Rattle.vfs_tree.specs.Place.{Seen, UnionUp, bare};
ghost use Rattle.vfs_tree.specs.Shown.{shown, shown_child, shown_low};
ghost use Rattle.vfs_tree.specs.Sound.{IsSound};
ghost use Rattle.vfs_tree.specs.Views.{facts_of};
ghost use Rattle.vfs_tree.specs.declared.walk.Found.TheVariants as found;
ghost use Rattle.vfs_tree.specs.declared.walk.Leaf.TheVariants as leaf;
ghost use Rattle.vfs_tree.specs.declared.world.World.{World};
ghost use Rattle.call_model.specs.Apply.{Finished, apply};
ghost use Rattle.call_model.specs.Rows.{found_at, way};
ghost use Rattle.call_model.specs.declared.call.Call.TheVariants as call;
ghost use Rattle.call_model.specs.declared.reply.Reply.TheVariants as reply;
ghost use Rattle.call_laws.specs.Lasting.{IsLasting};
ghost use Rattle.fuel_laws.specs.Layered.{IsLayered};
ghost use Rattle.fuel_laws.specs.ShownUnder.{shown_lower, shown_under};

/// A name that is removed shows nothing, whatever the lower layer of a union has there: a law of the model, with no code.
pub fn a_removed_name_shows_nothing()
    ensures unlink { (w new : World) (c : ℕ) (text : List ℕ) (d : Seen) (n : List ℕ) (o : Option Seen) (ns : List (List ℕ))
        → IsSound w → IsLasting w → found_at w c (way leaf.Parent text) ≡ found.In d n o
        → apply w c (call.Unlink text) ≡ Finished new reply.Done → shown new d (n ∷ ns) ≡ None }
    ensures rmdir { (w new : World) (c : ℕ) (text : List ℕ) (d : Seen) (n : List ℕ) (o : Option Seen) (ns : List (List ℕ))
        → IsSound w → IsLasting w → found_at w c (way leaf.Parent text) ≡ found.In d n o
        → apply w c (call.Rmdir text) ≡ Finished new reply.Done → shown new d (n ∷ ns) ≡ None }
{}

/// A name whose whiteout is undeleted shows what the lower layer has there: a law of the model, with no code.
pub fn an_undeleted_name_shows_the_lower_layer()
    // In a union's directory it shows what the lower part has,
    ensures union { (w new : World) (c m u : ℕ) (text : List ℕ) (d : Seen) (n : List ℕ) (o : Option Seen) (ns : List (List ℕ))
        → IsSound w → IsLasting w → IsLayered w → found_at w c (way leaf.Parent text) ≡ found.In d n o
        → bare d ≡ UnionUp m u → apply w c (call.Undelete text) ≡ Finished new reply.Done
        → shown new d (n ∷ ns)
        ≡ shown_under new (shown_low (facts_of new) m u n (child_below (shown_child (facts_of new)) (shown_lower (facts_of new) m u) n)) ns }
    // and in another, of a memory mount, nothing.
    ensures other { (w new : World) (c : ℕ) (text : List ℕ) (d : Seen) (n : List ℕ) (o : Option Seen) (ns : List (List ℕ))
        → IsSound w → IsLasting w → found_at w c (way leaf.Parent text) ≡ found.In d n o
        → is_in_union d ≡ false → apply w c (call.Undelete text) ≡ Finished new reply.Done → shown new d (n ∷ ns) ≡ None }
{}
