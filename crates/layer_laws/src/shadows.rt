// A shadow directory that is needed stands for a directory of the lower layer.
ghost use Rattle.std.specs.Prelude.{◌≡◌, ◌∷◌, ℕ, List, [], Some, true, false};
ghost use Rattle.vfs_tree.specs.Layers.{is_cut};
ghost use Rattle.vfs_tree.specs.Place.{UnionUp};
ghost use Rattle.vfs_tree.specs.Shown as seen;
ghost use Rattle.vfs_tree.specs.Shown.{shown};
ghost use Rattle.vfs_tree.specs.Sound.{IsSound};
ghost use Rattle.vfs_tree.specs.Views.{facts_of};
ghost use Rattle.vfs_tree.specs.declared.walk.Step.TheVariants.{Wants};
ghost use Rattle.vfs_tree.specs.declared.world.World.{World};
ghost use Rattle.call_model.specs.Rows.{row};
ghost use Rattle.call_model.specs.declared.call.Call.{Call};
ghost use Rattle.call_model.specs.declared.entry.Inner.TheVariants.{Shadow};
ghost use Rattle.call_laws.specs.Lasting.{IsLasting};
ghost use Rattle.call_laws.specs.Needing.{IsFree};
ghost use Rattle.layer_laws.specs.Listings.{IsCutListing};

/// A shadow directory stands for a directory of the lower layer: a law of the model, with no code.
pub fn a_shadow_directory_stands_for_one_that_is_shown()
    // Where a call needs one, in a union that isn't cut, the union shows a directory at the name.
    ensures shown { (w : World) (c : ℕ) (call : Call) (m u : ℕ) (n : List ℕ)
        → IsSound w → IsLasting w → row w c call ≡ Wants (Shadow m u n) → is_cut (facts_of w) m ≡ false
        → shown w (UnionUp m u) (n ∷ []) ≡ Some seen.Dir }
    // The upper layer has nothing there, so that the directory is one of the lower layer.
    ensures free { (w : World) (c : ℕ) (call : Call) (m u : ℕ) (n : List ℕ)
        → row w c call ≡ Wants (Shadow m u n) → IsFree (facts_of w) m u n }
    // In a union that is cut no call needs one, but for the listing of an open directory whose mount is cut.
    ensures cut { (w : World) (c : ℕ) (call : Call) (m u : ℕ) (n : List ℕ)
        → IsSound w → IsLasting w → row w c call ≡ Wants (Shadow m u n) → is_cut (facts_of w) m ≡ true
        → IsCutListing w c call }
{}
