// What every entry keeps of a world: all but stores and nodes.
ghost use Rattle.std.specs.Prelude.{◌≡◌, ℕ, if◌then◌else◌, None, option_map};
ghost use Rattle.std.specs.FinMap.{contains_key, get};
ghost use Rattle.vfs_tree.specs.declared.node.Store.{Store};
ghost use Rattle.vfs_tree.specs.declared.world.World.{World};
ghost use Rattle.call_model.specs.Kept.{is_kept, kept, kept_store};

/// What is kept of a world: a law of the model, with no code. All but stores and nodes is as it was.
pub fn a_world_keeps_what_is_reached()
    // A store is kept exactly where its mount is there.
    ensures stores { (w : World) (s : ℕ)
        → get (kept w).stores s ≡ (if contains_key w.mounts s then option_map (kept_store w s) (get w.stores s) else None) }
    // A node is kept exactly where it is the root, a name of its store gives it, or something rests on it.
    ensures nodes { (w : World) (s : ℕ) (t : Store) (i : ℕ)
        → get (kept_store w s t).nodes i ≡ (if is_kept w s t i then get t.nodes i else None) }
{}
