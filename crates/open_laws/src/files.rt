// An open file keeps its bytes, also when its names go.
ghost use Rattle.std.specs.Prelude.{◌≡◌, ◌++◌, ℕ, List, IsSome, Some, false};
ghost use Rattle.std.specs.FinMap.{get};
ghost use Rattle.vfs_tree.specs.Layers.{base, is_dir};
ghost use Rattle.vfs_tree.specs.Place.{Seen};
ghost use Rattle.vfs_tree.specs.Sound.{IsSound};
ghost use Rattle.vfs_tree.specs.Start.{start_world};
ghost use Rattle.vfs_tree.specs.Views.{facts_of};
ghost use Rattle.vfs_tree.specs.declared.limits.Limits.{Limits};
ghost use Rattle.vfs_tree.specs.declared.open.Open.{Open};
ghost use Rattle.vfs_tree.specs.declared.world.World.{World};
ghost use Rattle.call_model.specs.Apply.{Finished, apply};
ghost use Rattle.call_model.specs.Checks.{node_of};
ghost use Rattle.call_model.specs.DataRows.{bytes_of};
ghost use Rattle.call_model.specs.Kept.{kept};
ghost use Rattle.call_model.specs.Legal.{IsLegal, Pending, after, replay, world_after};
ghost use Rattle.call_model.specs.declared.call.Call.{Call};
ghost use Rattle.call_model.specs.declared.call.Call.TheVariants as call;
ghost use Rattle.call_model.specs.declared.entry.Entry.{Entry};
ghost use Rattle.call_model.specs.declared.entry.Entry.TheVariants as entry;
ghost use Rattle.call_model.specs.declared.reply.Reply.{Reply};
ghost use Rattle.call_laws.specs.Lasting.{IsLasting, IsUncut};
ghost use Rattle.open_laws.specs.Contents.{AllWriteElsewhere, DropsFiles, IsOpenAt, StaysOpenAt, WritesElsewhere};

/// What is open keeps its file, and its bytes while only other files are written: a law of the model, with no code.
pub fn an_open_file_keeps_its_bytes()
    // What stays open at its place, where that is no directory, has the same node after an entry that writes to no file
    // or to one of another node.
    ensures node { (w : World) (e : Entry) (k : ℕ × ℕ) (p : Seen)
        → IsSound w → IsLasting w → IsOpenAt w k p → IsOpenAt (after w e) k p → WritesElsewhere w e p
        → is_dir (facts_of w) p ≡ false → node_of (after w e) p ≡ node_of w p }
    // The bytes there are what they were.
    ensures bytes { (w : World) (e : Entry) (k : ℕ × ℕ) (p : Seen)
        → IsSound w → IsLasting w → IsOpenAt w k p → IsOpenAt (after w e) k p → WritesElsewhere w e p
        → bytes_of (after w e) p ≡ bytes_of w p }
    // So it has along a legal history in which it stays open at its place and each entry writes elsewhere,
    ensures world_node { (pending : Pending) (w : World) (es : List Entry) (k : ℕ × ℕ) (p : Seen)
        → IsLegal pending w es → IsSound w → IsLasting w → StaysOpenAt w es k p → AllWriteElsewhere w es p
        → is_dir (facts_of w) p ≡ false → node_of (replay w es) p ≡ node_of w p }
    ensures world_bytes { (pending : Pending) (w : World) (es : List Entry) (k : ℕ × ℕ) (p : Seen)
        → IsLegal pending w es → IsSound w → IsLasting w → StaysOpenAt w es k p → AllWriteElsewhere w es p
        → bytes_of (replay w es) p ≡ bytes_of w p }
    // and, from the start, along the later part of any legal history.
    ensures start_node { (limits : Limits) (pending : Pending) (es fs : List Entry) (k : ℕ × ℕ) (p : Seen)
        → IsLegal pending (start_world limits) (es ++ fs) → StaysOpenAt (replay (start_world limits) es) fs k p
        → AllWriteElsewhere (replay (start_world limits) es) fs p
        → is_dir (facts_of (replay (start_world limits) es)) p ≡ false
        → node_of (replay (start_world limits) (es ++ fs)) p ≡ node_of (replay (start_world limits) es) p }
    ensures start_bytes { (limits : Limits) (pending : Pending) (es fs : List Entry) (k : ℕ × ℕ) (p : Seen)
        → IsLegal pending (start_world limits) (es ++ fs) → StaysOpenAt (replay (start_world limits) es) fs k p
        → AllWriteElsewhere (replay (start_world limits) es) fs p
        → bytes_of (replay (start_world limits) (es ++ fs)) p ≡ bytes_of (replay (start_world limits) es) p }
{}

/// A file that is open stays when its names go: a law of the model, with no code. The name may be dropped by `unlink`, or
/// given to another file by `rename`.
pub fn an_unlinked_file_that_is_open_stays()
    // What is open stays open,
    ensures opens { (w : World) (c : ℕ) (call : Call) (r : Reply)
        → DropsFiles call → (after w (entry.Call c call r)).opens ≡ w.opens }
    // a file that is open keeps its node,
    ensures node { (w : World) (c : ℕ) (call : Call) (r : Reply) (k : ℕ × ℕ) (o : Open)
        → IsSound w → IsLasting w → DropsFiles call → get w.opens k ≡ Some o → o.dead ≡ false
        → is_dir (facts_of w) o.place ≡ false → node_of (after w (entry.Call c call r)) o.place ≡ node_of w o.place }
    // and reads by the descriptor answer what they answered.
    ensures pread { (w : World) (b : ℕ) (x : Call) (s : Reply) (c d n at : ℕ) (o : Open) (r : Reply)
        → IsSound w → IsLasting w → DropsFiles x → get w.opens (c, d) ≡ Some o → o.dead ≡ false
        → apply w c (call.Pread d n at) ≡ Finished w r
        → apply (after w (entry.Call b x s)) c (call.Pread d n at) ≡ Finished (after w (entry.Call b x s)) r }
    ensures read { (w u : World) (b : ℕ) (x : Call) (s : Reply) (c d n : ℕ) (o : Open) (r : Reply)
        → IsSound w → IsLasting w → DropsFiles x → get w.opens (c, d) ≡ Some o → o.dead ≡ false
        → apply w c (call.Read d n) ≡ Finished u r
        → apply (after w (entry.Call b x s)) c (call.Read d n)
        ≡ Finished (world_after (after w (entry.Call b x s)) (apply (after w (entry.Call b x s)) c (call.Read d n))) r }
    // Until its last close its node is kept, where the mount of its store is there;
    ensures kept_in { (w : World) (k : ℕ × ℕ) (o : Open)
        → IsSound w → get w.opens k ≡ Some o → o.dead ≡ false → IsSome (get w.mounts (base (facts_of w) o.place).store)
        → node_of (kept w) o.place ≡ node_of w o.place }
    // that is so where no mount that its place names is cut.
    ensures kept { (w : World) (k : ℕ × ℕ) (o : Open)
        → IsSound w → get w.opens k ≡ Some o → o.dead ≡ false → IsUncut (facts_of w) o.place
        → node_of (kept w) o.place ≡ node_of w o.place }
{}
