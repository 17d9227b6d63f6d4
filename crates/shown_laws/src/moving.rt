// A directory that is moved in a union has nothing of the lower layer below it.
ghost use Rattle.std.specs.Prelude.{◌≡◌, ◌==◌, ◌||◌, ℕ, List, Option, Some, true, false};
ghost use Rattle.vfs_tree.specs.Carriers.{is_in_union};
ghost use Rattle.vfs_tree.specs.Layers.{base, is_dir, kind_in};
ghost use Rattle.vfs_tree.specs.Place.{Seen};
ghost use Rattle.vfs_tree.specs.Sound.{IsSound};
ghost use Rattle.vfs_tree.specs.Views.{facts_of};
ghost use Rattle.vfs_tree.specs.declared.mount.MountKind.TheVariants as kind;
ghost use Rattle.vfs_tree.specs.declared.walk.Child.TheVariants as child;
ghost use Rattle.vfs_tree.specs.declared.walk.Found.TheVariants as found;
ghost use Rattle.vfs_tree.specs.declared.walk.Leaf.TheVariants as leaf;
ghost use Rattle.vfs_tree.specs.declared.world.World.{World};
ghost use Rattle.call_model.specs.Apply.{Finished, apply};
ghost use Rattle.call_model.specs.Checks.{has_white};
ghost use Rattle.call_model.specs.NameRows.{is_there};
ghost use Rattle.call_model.specs.Rows.{found_at, way};
ghost use Rattle.call_model.specs.declared.call.Call.TheVariants as call;
ghost use Rattle.call_model.specs.declared.reply.Reply.TheVariants as reply;
ghost use Rattle.call_laws.specs.Lasting.{IsLasting};
ghost use Rattle.fuel_laws.specs.ShownUnder.{shown_lower};

/// A directory that is renamed in a union, or over a whiteout, has nothing of the lower layer below it: a law of the model,
/// with no code. It has in no union in whose upper layer it lies, unless it is the upper layer's own directory.
pub fn a_moved_directory_shows_nothing_below()
    ensures { (w new : World) (c m s i top : ℕ) (lower : Seen) (from to : List ℕ) (d e p : Seen) (old n : List ℕ) (q : Option Seen)
        → IsSound w → IsLasting w
        → found_at w c (way leaf.Parent from) ≡ found.In d old (Some p) → found_at w c (way leaf.Parent to) ≡ found.In e n q
        → apply w c (call.Rename from to) ≡ Finished new reply.Done → is_there p q ≡ false → is_dir (facts_of w) p ≡ true
        → base (facts_of w) p ≡ record { store = s; ino = i } → (is_in_union e || has_white w e n) ≡ true
        → kind_in (facts_of w) m ≡ Some (kind.Union s top lower) → (i == top) ≡ false
        → shown_lower (facts_of new) m i ≡ child.Absent }
{}
