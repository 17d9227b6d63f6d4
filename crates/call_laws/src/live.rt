// How many references live: a doom leaves fewer, and no inner entry adds one.
ghost use Rattle.std.specs.Prelude.{◌≡◌, ◌≤◌, ◌<◌, ℕ, List};
ghost use Rattle.vfs_tree.specs.declared.world.World.{World};
ghost use Rattle.call_model.specs.Effects.{doomed, effect};
ghost use Rattle.call_model.specs.declared.entry.Inner.{Inner};
ghost use Rattle.call_model.specs.declared.entry.Inner.TheVariants.{CopyUp, Detach, Shadow};
ghost use Rattle.call_model.specs.declared.entry.Ref.{Ref};
ghost use Rattle.call_laws.specs.Fitting.{IsLive};
ghost use Rattle.call_laws.specs.Live.{live};

/// To doom a live open file or current directory leaves fewer live ones: what is dead stays dead, and the doomed one is
/// dead then too.
pub fn a_doom_leaves_fewer_live()
    ensures { (w : World) (at : Ref) → IsLive w at → live (doomed w at) < live w }
{}

/// No inner entry brings an open file or current directory back to life, or opens one.
pub fn an_entry_adds_no_live()
    ensures most { (w : World) (c : ℕ) (x : Inner) → live (effect w c x) ≤ live w }
    // Where none is doomed, as many are live as before.
    ensures shadow { (w : World) (c m u : ℕ) (n : List ℕ) → live (effect w c (Shadow m u n)) ≡ live w }
    ensures copy_up { (w : World) (c m u : ℕ) (n : List ℕ) → live (effect w c (CopyUp m u n)) ≡ live w }
    ensures detach { (w : World) (c m : ℕ) → live (effect w c (Detach m)) ≡ live w }
{}
