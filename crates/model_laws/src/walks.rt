// Walks read names and mounts alone.
ghost use Rattle.std.specs.Prelude.{◌≡◌, ℕ, List, Option};
ghost use Rattle.std.specs.FinMap.{get};
ghost use Rattle.vfs_tree.specs.Facts.{Facts};
ghost use Rattle.vfs_tree.specs.Place.{Seen};
ghost use Rattle.vfs_tree.specs.Views.{facts_of};
ghost use Rattle.vfs_tree.specs.Walk.{Walked, find};
ghost use Rattle.vfs_tree.specs.declared.walk.Leaf.{Leaf};
ghost use Rattle.vfs_tree.specs.declared.world.World.{World};
ghost use Rattle.call_model.specs.Rows.{Way, found_at};
ghost use Rattle.model_laws.specs.Alike.{ShowsSame};

/// A walk reads the names and mounts alone: a law of the model, with no code.
pub fn a_walk_reads_names_and_mounts()
    // Where two views show the same, a walk that begins at the same place answers the same.
    ensures views { (f g : Facts) → ShowsSame f g → (leaf : Leaf) (from : Walked Seen) (text : List ℕ)
        → find f leaf from text ≡ find g leaf from text }
    // So do the paths of a caller's calls in two worlds, where its current directory is the same too.
    ensures worlds { (v w : World) (c : ℕ) → ShowsSame (facts_of v) (facts_of w) → get v.cwds c ≡ get w.cwds c → (o : Option Way)
        → found_at v c o ≡ found_at w c o }
{}
