// A shadow directory changes nothing that its union shows, also where the union is cut off.
ghost use Rattle.std.specs.Prelude.{◌≡◌, ◌∷◌, ◌++◌, ℕ, List, []};
ghost use Rattle.vfs_tree.specs.Sound.{IsSound};
ghost use Rattle.vfs_tree.specs.Start.{start_world};
ghost use Rattle.vfs_tree.specs.declared.limits.Limits.{Limits};
ghost use Rattle.vfs_tree.specs.declared.walk.Step.TheVariants.{Wants};
ghost use Rattle.vfs_tree.specs.declared.world.World.{World};
ghost use Rattle.call_model.specs.Effects.{effect};
ghost use Rattle.call_model.specs.Legal.{Pending, IsLegal, replay};
ghost use Rattle.call_model.specs.Rows.{row};
ghost use Rattle.call_model.specs.declared.call.Call.{Call};
ghost use Rattle.call_model.specs.declared.entry.Entry.{Entry};
ghost use Rattle.call_model.specs.declared.entry.Entry.TheVariants as entry;
ghost use Rattle.call_model.specs.declared.entry.Inner.TheVariants.{Shadow};
ghost use Rattle.call_laws.specs.Lasting.{IsLasting};
ghost use Rattle.layer_laws.specs.Apart.{IsApart};
ghost use Rattle.need_laws.specs.Showing.{ShowsAsBefore};
ghost use Rattle.open_laws.specs.Standing.{AreStanding};

/// A shadow directory that a call needs leaves what its union shows, also where a forced unmount has cut the union off: a
/// law of the model, with no code.
pub fn a_shadow_directory_in_a_cut_union_changes_nothing_shown()
    // Where the mounts of open files stand, the kinds, bytes and targets at the root of the union stay, along any names.
    ensures { (w : World) (c m u : ℕ) (call : Call) (n : List ℕ)
        → IsSound w → IsLasting w → IsApart w → AreStanding w → row w c call ≡ Wants (Shadow m u n)
        → ShowsAsBefore w (effect w c (Shadow m u n)) m }
{}

/// No shadow directory of a legal history changes what its union shows, be the union cut off or not: a law of the model, with
/// no code.
pub fn needed_shadows_change_nothing_shown()
    // From the start on there is nothing else to know.
    ensures { (limits : Limits) (p : Pending) (es fs : List Entry) (c m u : ℕ) (n : List ℕ)
        → IsLegal p (start_world limits) (es ++ entry.Inner c (Shadow m u n) ∷ fs)
        → ShowsAsBefore (replay (start_world limits) es) (replay (start_world limits) (es ++ entry.Inner c (Shadow m u n) ∷ [])) m }
{}
