// A copy joins no open files.
ghost use Rattle.std.specs.Prelude.{ℕ, List};
ghost use Rattle.vfs_tree.specs.Sound.{IsSound};
ghost use Rattle.vfs_tree.specs.declared.world.World.{World};
ghost use Rattle.call_model.specs.Effects.{effect};
ghost use Rattle.call_model.specs.declared.entry.Inner.TheVariants.{CopyUp};
ghost use Rattle.call_laws.specs.Lasting.{IsLasting};
ghost use Rattle.open_laws.specs.OpenFiles.{RestApart};

/// A copy-up joins no open files: a law of the model, with no code. It may part two that rested on one node.
pub fn a_copy_joins_no_open_files()
    // Two that rested on two nodes rest on two nodes after it.
    ensures { (w : World) (c m u : ℕ) (n : List ℕ) (j k : ℕ × ℕ)
        → IsSound w → IsLasting w → RestApart w j k → RestApart (effect w c (CopyUp m u n)) j k }
{}
