// An open file is kept until its last close.
ghost use Rattle.std.specs.Prelude.{◌≡◌, ℕ, IsSome, List, Some, false};
ghost use Rattle.std.specs.FinMap.{get};
ghost use Rattle.vfs_tree.specs.Layers.{base};
ghost use Rattle.vfs_tree.specs.Sound.{IsSound};
ghost use Rattle.vfs_tree.specs.Start.{start_world};
ghost use Rattle.vfs_tree.specs.Views.{facts_of};
ghost use Rattle.vfs_tree.specs.declared.limits.Limits.{Limits};
ghost use Rattle.vfs_tree.specs.declared.open.Open.{Open};
ghost use Rattle.vfs_tree.specs.declared.world.World.{World};
ghost use Rattle.call_model.specs.Checks.{node_of};
ghost use Rattle.call_model.specs.Kept.{kept};
ghost use Rattle.call_model.specs.Legal.{IsLegal, Pending, replay};
ghost use Rattle.call_model.specs.declared.entry.Entry.{Entry};
ghost use Rattle.call_laws.specs.Lasting.{IsLasting};
ghost use Rattle.open_laws.specs.Standing.{AreStanding};

/// A file that is open is kept until its last close, though its names are gone and though a forced unmount has cut its
/// mount off: a law of the model, with no code.
pub fn an_open_file_is_kept()
    // Where the mounts of open files stand, the memory mount in whose store an open file has its node is there,
    ensures mount { (w : World) (k : ℕ × ℕ) (o : Open)
        → IsSound w → IsLasting w → AreStanding w → get w.opens k ≡ Some o → o.dead ≡ false
        → IsSome (get w.mounts (base (facts_of w) o.place).store) }
    // the node is there,
    ensures node { (w : World) (k : ℕ × ℕ) (o : Open)
        → IsSound w → get w.opens k ≡ Some o → o.dead ≡ false → IsSome (node_of w o.place) }
    // and it is kept as it is.
    ensures kept { (w : World) (k : ℕ × ℕ) (o : Open)
        → IsSound w → IsLasting w → AreStanding w → get w.opens k ≡ Some o → o.dead ≡ false
        → node_of (kept w) o.place ≡ node_of w o.place }
    // After every legal history from the start there is nothing else to know.
    ensures history_mount { (limits : Limits) (p : Pending) (es : List Entry) (k : ℕ × ℕ) (o : Open)
        → let w = replay (start_world limits) es in
        IsLegal p (start_world limits) es → get w.opens k ≡ Some o → o.dead ≡ false
        → IsSome (get w.mounts (base (facts_of w) o.place).store) }
    ensures history_node { (limits : Limits) (p : Pending) (es : List Entry) (k : ℕ × ℕ) (o : Open)
        → let w = replay (start_world limits) es in
        IsLegal p (start_world limits) es → get w.opens k ≡ Some o → o.dead ≡ false → IsSome (node_of w o.place) }
    ensures history_kept { (limits : Limits) (p : Pending) (es : List Entry) (k : ℕ × ℕ) (o : Open)
        → let w = replay (start_world limits) es in
        IsLegal p (start_world limits) es → get w.opens k ≡ Some o → o.dead ≡ false
        → node_of (kept w) o.place ≡ node_of w o.place }
{}
