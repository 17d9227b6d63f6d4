// What a row answers and needs: how many references live on, who is leaving a mount, and what comes first.
ghost use Rattle.std.specs.Prelude.{◌≡◌, ℕ, Some};
ghost use Rattle.std.specs.FinMap.{get};
ghost use Rattle.vfs_tree.specs.declared.world.World.{World};
ghost use Rattle.call_model.specs.MountRows.{doom_next};
ghost use Rattle.call_model.specs.Refs.{first_in};
ghost use Rattle.call_model.specs.Rows.{row};
ghost use Rattle.call_model.specs.declared.call.Call.{Call};
ghost use Rattle.call_laws.specs.Fitting.{Fits};
ghost use Rattle.call_laws.specs.Leaving.{IsLeaver};

/// A call that is answered leaves at most one reference more live and doesn't lack memory. It changes nothing of which other
/// callers are leaving a mount, and a caller that was leaving one by this call leaves none any more. What a call needs first
/// is a node where an inode number is left for it, the detachment of a mount by a caller that leaves none, or the doom of a
/// live reference, in a forced unmount that has detached its mount or in a revocation.
pub fn a_row_fits()
    ensures { (w : World) (c : ℕ) (call : Call) → Fits w c call (row w c call) }
{}

/// A forced unmount by a caller that is leaving a mount goes on with that mount, whatever its path finds.
pub fn a_leaver_goes_on()
    ensures { (w : World) (c : ℕ) (call : Call) (m : ℕ)
        → get w.leaving c ≡ Some m → IsLeaver (Some call) → row w c call ≡ doom_next w c m (first_in w m) }
{}
