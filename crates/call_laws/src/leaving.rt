// Who is leaving a mount: only a detachment changes it, for its own caller.
ghost use Rattle.std.specs.Prelude.{◌≡◌, ◌==◌, ℕ, IsSome, List, false};
ghost use Rattle.std.specs.FinMap.{get};
ghost use Rattle.vfs_tree.specs.declared.world.World.{World};
ghost use Rattle.call_model.specs.Effects.{effect};
ghost use Rattle.call_model.specs.declared.entry.Inner.{Inner};
ghost use Rattle.call_model.specs.declared.entry.Inner.TheVariants.{CopyUp, Doom, Shadow};
ghost use Rattle.call_model.specs.declared.entry.Ref.{Ref};

/// Which callers are leaving a mount changes only where a mount is detached, and then for its own caller alone.
pub fn an_entry_keeps_leavers()
    // Every other caller leaves the mount that it left before, or none as before.
    ensures others { (w : World) (c : ℕ) (x : Inner) (d : ℕ)
        → (d == c) ≡ false → get (effect w c x).leaving d ≡ get w.leaving d }
    // A caller that is leaving a mount is leaving one after an entry of its own too.
    ensures own { (w : World) (c : ℕ) (x : Inner) → IsSome (get w.leaving c) → IsSome (get (effect w c x).leaving c) }
    // Where no mount is detached, it is the same one.
    ensures shadow { (w : World) (c m u : ℕ) (n : List ℕ) → get (effect w c (Shadow m u n)).leaving c ≡ get w.leaving c }
    ensures copy_up { (w : World) (c m u : ℕ) (n : List ℕ) → get (effect w c (CopyUp m u n)).leaving c ≡ get w.leaving c }
    ensures doom { (w : World) (c : ℕ) (at : Ref) → get (effect w c (Doom at)).leaving c ≡ get w.leaving c }
{}
