// The places that paths find are sound, so a change of the current directory keeps a world sound.
ghost use Rattle.std.specs.Prelude.{◌≡◌, ℕ, List, Option, Some, None, IsSome};
ghost use Rattle.std.specs.FinMap.{get};
ghost use Rattle.vfs_tree.specs.Place.{Seen};
ghost use Rattle.vfs_tree.specs.Sound.{IsSound, IsSoundPlace, IsSoundDir};
ghost use Rattle.vfs_tree.specs.Start.{start_world};
ghost use Rattle.vfs_tree.specs.Views.{facts_of};
ghost use Rattle.vfs_tree.specs.declared.limits.Limits.{Limits};
ghost use Rattle.vfs_tree.specs.declared.walk.Found.TheVariants as found;
ghost use Rattle.vfs_tree.specs.declared.walk.Leaf.TheVariants as leaf;
ghost use Rattle.vfs_tree.specs.declared.world.World.{World};
ghost use Rattle.call_model.specs.Effects.{doomed};
ghost use Rattle.call_model.specs.Legal.{after};
ghost use Rattle.call_model.specs.Rows.{found_at, way};
ghost use Rattle.call_model.specs.declared.call.Call.TheVariants as call;
ghost use Rattle.call_model.specs.declared.entry.Entry.TheVariants as entry;
ghost use Rattle.call_model.specs.declared.entry.Ref.{Ref};
ghost use Rattle.call_model.specs.declared.reply.Reply.{Reply};
ghost use Rattle.call_laws.specs.Lasting.{IsLasting, IsUncut};

/// A path finds sound places: a law of the model, with no code.
pub fn a_path_finds_a_sound_place()
    // One that is followed to its end finds a sound place.
    ensures sound { (w : World) → IsSound w → IsLasting w → (c : ℕ) (text : List ℕ) (p : Seen)
        → found_at w c (way leaf.Follow text) ≡ found.At p → IsSoundPlace (facts_of w) p }
    // None of the mounts through which it is seen is cut.
    ensures uncut { (w : World) → IsSound w → IsLasting w → (c : ℕ) (text : List ℕ) (p : Seen)
        → found_at w c (way leaf.Follow text) ≡ found.At p → IsUncut (facts_of w) p }
    // Nothing covers it.
    ensures bare { (w : World) → IsSound w → IsLasting w → (c : ℕ) (text : List ℕ) (p : Seen)
        → found_at w c (way leaf.Follow text) ≡ found.At p → (facts_of w).covering p ≡ None }
    // A path to a name finds it in a directory at a sound place,
    ensures dir { (w : World) → IsSound w → IsLasting w → (c : ℕ) (text : List ℕ) (d : Seen) (n : List ℕ) (o : Option Seen)
        → found_at w c (way leaf.Parent text) ≡ found.In d n o → IsSoundDir (facts_of w) d }
    // and what stands at it is at a sound place too.
    ensures child { (w : World) → IsSound w → IsLasting w → (c : ℕ) (text : List ℕ) (d p : Seen) (n : List ℕ)
        → found_at w c (way leaf.Parent text) ≡ found.In d n (Some p) → IsSoundPlace (facts_of w) p }
    // A path to a mount finds one that is there.
    ensures mount { (w : World) → IsSound w → IsLasting w → (c : ℕ) (text : List ℕ) (m : ℕ)
        → found_at w c (way leaf.Mount text) ≡ found.Mount m → IsSome (get w.mounts m) }
    // What this rests on holds at the start.
    ensures start { (limits : Limits) → IsLasting (start_world limits) }
    // It holds after a doom.
    ensures doom { (w : World) (at : Ref) → IsLasting w → IsLasting (doomed w at) }
{}

/// A caller that changes its current directory leaves a sound world: a law of the model, with no code.
pub fn chdir_keeps_worlds_sound()
    ensures { (w : World) → IsSound w → IsLasting w → (c : ℕ) (text : List ℕ) (r : Reply)
        → IsSound (after w (entry.Call c (call.Chdir text) r)) }
{}
