// A mount covers what it is on, and the edits of a history show sound views.
ghost use Rattle.std.specs.Prelude.{◌≡◌, ℕ, List, Some, true};
ghost use Rattle.vfs_tree.specs.Place.{Seen};
ghost use Rattle.vfs_tree.specs.Sound.{IsSound, IsSoundView, is_on_place};
ghost use Rattle.vfs_tree.specs.Start.{start_world};
ghost use Rattle.vfs_tree.specs.Views.{facts_of};
ghost use Rattle.vfs_tree.specs.declared.limits.Limits.{Limits};
ghost use Rattle.vfs_tree.specs.declared.world.World.{World};
ghost use Rattle.call_model.specs.Legal.{IsLegal, Pending};
ghost use Rattle.call_model.specs.NameEdits.{edited_by, edits};
ghost use Rattle.call_model.specs.declared.entry.Entry.{Entry};
ghost use Rattle.call_laws.specs.Lasting.{IsLasting};
ghost use Rattle.shown_laws.specs.Covering.{IsCovered};

/// A mount covers the directory that it is on, unless a caller is leaving it, and no other mount does: a law of the model,
/// with no code.
pub fn mounts_cover_what_they_are_on()
    // What covers a place is on it, and nobody is leaving it,
    ensures on { (w : World) (p : Seen) (m : ℕ)
        → IsSound w → IsLasting w → (facts_of w).covering p ≡ Some m → is_on_place w p m ≡ true }
    // and what is on it, and nobody is leaving, covers it.
    ensures covers { (w : World) (p : Seen) (m : ℕ)
        → IsSound w → IsLasting w → is_on_place w p m ≡ true → (facts_of w).covering p ≡ Some m }
    // So walks read of a world which mount covers a place as its mounts say it.
    ensures world { (w : World) → IsSound w → IsLasting w → IsCovered (facts_of w) }
{}

/// What the edits of a legal history show, one after the other, is sound: a law of the model, with no code. So a reader that
/// keeps names and mounts alone, and takes in the edits of the entries, reads by sound views.
pub fn edits_of_histories_show_sound_views()
    // Its names, places and mounts are sound,
    ensures sound { (limits : Limits) (p : Pending) (es : List Entry) → IsLegal p (start_world limits) es
        → IsSoundView (edited_by (facts_of (start_world limits)) (edits (start_world limits) es)) }
    // and its mounts cover what they are on.
    ensures covered { (limits : Limits) (p : Pending) (es : List Entry) → IsLegal p (start_world limits) es
        → IsCovered (edited_by (facts_of (start_world limits)) (edits (start_world limits) es)) }
{}
