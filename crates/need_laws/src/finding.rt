// Paths find what is in mounts that aren't cut.
ghost use Rattle.std.specs.Prelude.{◌≡◌, ℕ, List, Option, Some, None};
ghost use Rattle.vfs_tree.specs.Place.{Seen};
ghost use Rattle.vfs_tree.specs.Sound.{IsSound, IsSoundDir};
ghost use Rattle.vfs_tree.specs.Views.{facts_of};
ghost use Rattle.vfs_tree.specs.declared.walk.Found.TheVariants as found;
ghost use Rattle.vfs_tree.specs.declared.world.World.{World};
ghost use Rattle.call_model.specs.Rows.{Way, found_at};
ghost use Rattle.call_laws.specs.Lasting.{IsLasting};
ghost use Rattle.need_laws.specs.Finding.{IsWellPlaced};

/// A path finds what is in mounts that aren't cut: a law of the model, with no code. So the laws of such places hold of
/// what calls find, in whatever form their paths are walked. Only a path to a mount may find one that is cut.
pub fn a_path_finds_what_is_uncut()
    // A place that is found is a sound one, in mounts that aren't cut and stand on none that is.
    ensures place { (w : World) (c : ℕ) (way : Option Way) (p : Seen)
        → IsSound w → IsLasting w → found_at w c way ≡ found.At p → IsWellPlaced w p }
    // So is the directory in which a name is found, be something there or not,
    ensures parent { (w : World) (c : ℕ) (way : Option Way) (d : Seen) (n : List ℕ) (o : Option Seen)
        → IsSound w → IsLasting w → found_at w c way ≡ found.In d n o → IsWellPlaced w d }
    // which is a directory,
    ensures dir { (w : World) (c : ℕ) (way : Option Way) (d : Seen) (n : List ℕ) (o : Option Seen)
        → IsSound w → IsLasting w → found_at w c way ≡ found.In d n o → IsSoundDir (facts_of w) d }
    // and so is what stands at the name.
    ensures child { (w : World) (c : ℕ) (way : Option Way) (d p : Seen) (n : List ℕ)
        → IsSound w → IsLasting w → found_at w c way ≡ found.In d n (Some p) → IsWellPlaced w p }
    // Nothing covers a place that is found.
    ensures bare { (w : World) (c : ℕ) (way : Option Way) (p : Seen)
        → IsSound w → IsLasting w → found_at w c way ≡ found.At p → (facts_of w).covering p ≡ None }
{}
