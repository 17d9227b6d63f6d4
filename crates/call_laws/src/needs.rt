// What a walk needs: a shadow directory at a free name.
ghost use Rattle.std.specs.Prelude.{◌≡◌, ℕ, Option};
ghost use Rattle.vfs_tree.specs.Views.{facts_of};
ghost use Rattle.vfs_tree.specs.declared.walk.Found.TheVariants as found;
ghost use Rattle.vfs_tree.specs.declared.walk.Need.{Need};
ghost use Rattle.vfs_tree.specs.declared.world.World.{World};
ghost use Rattle.call_model.specs.Rows.{Way, found_at};
ghost use Rattle.call_laws.specs.Needing.{IsFree};

/// A walk that needs a shadow directory needs it where it can be made: a law of the model, with no code.
pub fn a_walk_needs_what_is_free()
    // The directory of the upper layer is linked, and has nothing at the name.
    ensures { (w : World) (c : ℕ) (o : Option Way) (x : Need)
        → found_at w c o ≡ found.Need x → IsFree (facts_of w) x.mount x.dir x.name }
{}
