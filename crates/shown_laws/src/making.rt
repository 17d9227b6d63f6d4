// A directory that is made shows no name.
ghost use Rattle.std.specs.Prelude.{◌≡◌, ◌∷◌, ℕ, List, [], None, Option, Some};
ghost use Rattle.vfs_tree.specs.Place.{Seen};
ghost use Rattle.vfs_tree.specs.Shown as seen;
ghost use Rattle.vfs_tree.specs.Shown.{shown};
ghost use Rattle.vfs_tree.specs.Sound.{IsSound};
ghost use Rattle.vfs_tree.specs.declared.walk.Found.TheVariants as found;
ghost use Rattle.vfs_tree.specs.declared.walk.Leaf.TheVariants as leaf;
ghost use Rattle.vfs_tree.specs.declared.world.World.{World};
ghost use Rattle.call_model.specs.Apply.{Finished, apply};
ghost use Rattle.call_model.specs.Rows.{found_at, way};
ghost use Rattle.call_model.specs.declared.call.Call.TheVariants as call;
ghost use Rattle.call_model.specs.declared.reply.Reply.TheVariants as reply;
ghost use Rattle.call_laws.specs.Lasting.{IsLasting};
ghost use Rattle.fuel_laws.specs.Layered.{IsLayered};
ghost use Rattle.layer_laws.specs.Apart.{IsApart};

/// A directory that is made shows no name, whatever the lower layer of a union has where it is made: a law of the model,
/// with no code. Over a whiteout it is opaque; elsewhere in a union the lower layer had nothing at its name.
pub fn a_made_directory_is_empty()
    // A directory is shown at the name,
    ensures there { (w new : World) (c : ℕ) (text : List ℕ) (d : Seen) (n : List ℕ) (o : Option Seen)
        → IsSound w → IsLasting w → IsLayered w → IsApart w → found_at w c (way leaf.Parent text) ≡ found.In d n o
        → apply w c (call.Mkdir text) ≡ Finished new reply.Done → shown new d (n ∷ []) ≡ Some seen.Dir }
    // and nothing at any name in it.
    ensures empty { (w new : World) (c : ℕ) (text : List ℕ) (d : Seen) (n : List ℕ) (o : Option Seen) (k : List ℕ) (ns : List (List ℕ))
        → IsSound w → IsLasting w → IsLayered w → IsApart w → found_at w c (way leaf.Parent text) ≡ found.In d n o
        → apply w c (call.Mkdir text) ≡ Finished new reply.Done → shown new d (n ∷ k ∷ ns) ≡ None }
{}
