// A descriptor keeps its bytes, though copies turn it.
ghost use Rattle.std.specs.Prelude.{◌≡◌, ◌++◌, ℕ, List, false};
ghost use Rattle.vfs_tree.specs.Layers.{is_dir};
ghost use Rattle.vfs_tree.specs.Place.{Seen};
ghost use Rattle.vfs_tree.specs.Sound.{IsSound};
ghost use Rattle.vfs_tree.specs.Start.{start_world};
ghost use Rattle.vfs_tree.specs.Views.{facts_of};
ghost use Rattle.vfs_tree.specs.declared.limits.Limits.{Limits};
ghost use Rattle.vfs_tree.specs.declared.world.World.{World};
ghost use Rattle.call_model.specs.Apply.{Finished, apply};
ghost use Rattle.call_model.specs.Checks.{node_of};
ghost use Rattle.call_model.specs.DataRows.{bytes_of};
ghost use Rattle.call_model.specs.Legal.{IsLegal, Pending, replay};
ghost use Rattle.call_model.specs.declared.call.Call.TheVariants as call;
ghost use Rattle.call_model.specs.declared.entry.Entry.{Entry};
ghost use Rattle.call_model.specs.declared.reply.Reply.TheVariants as reply;
ghost use Rattle.call_laws.specs.Lasting.{IsLasting};
ghost use Rattle.open_laws.specs.Contents.{IsOpenAt};
ghost use Rattle.open_laws.specs.Unwritten.{StaysUnwritten};

/// A descriptor that stays live reads the same while nothing writes to what it stands for, though copy-ups turn it to
/// copies: a law of the model, with no code.
pub fn a_descriptor_keeps_its_bytes()
    // At the end of such a legal history it stands for the node for which it stood at the beginning or for a copy of
    // it, where that is no directory,
    ensures world_node { (pending : Pending) (w : World) (es : List Entry) (k : ℕ × ℕ) (p q : Seen)
        → IsLegal pending w es → IsSound w → IsLasting w → StaysUnwritten w es k → IsOpenAt w k p → IsOpenAt (replay w es) k q
        → is_dir (facts_of w) p ≡ false → node_of (replay w es) q ≡ node_of w p }
    // that has the same bytes,
    ensures world_bytes { (pending : Pending) (w : World) (es : List Entry) (k : ℕ × ℕ) (p q : Seen)
        → IsLegal pending w es → IsSound w → IsLasting w → StaysUnwritten w es k → IsOpenAt w k p → IsOpenAt (replay w es) k q
        → bytes_of (replay w es) q ≡ bytes_of w p }
    // and a read at an offset that was answered with bytes is answered with these.
    ensures world_pread { (pending : Pending) (w : World) (es : List Entry) (c d count at : ℕ) (q : Seen) (bytes : List ℕ)
        → IsLegal pending w es → IsSound w → IsLasting w → StaysUnwritten w es (c, d) → IsOpenAt (replay w es) (c, d) q
        → apply w c (call.Pread d count at) ≡ Finished w (reply.Bytes bytes)
        → apply (replay w es) c (call.Pread d count at) ≡ Finished (replay w es) (reply.Bytes bytes) }
    // So it is, from the start, along the later part of any legal history.
    ensures start_node { (limits : Limits) (pending : Pending) (es fs : List Entry) (k : ℕ × ℕ) (p q : Seen)
        → IsLegal pending (start_world limits) (es ++ fs) → StaysUnwritten (replay (start_world limits) es) fs k
        → IsOpenAt (replay (start_world limits) es) k p → IsOpenAt (replay (start_world limits) (es ++ fs)) k q
        → is_dir (facts_of (replay (start_world limits) es)) p ≡ false
        → node_of (replay (start_world limits) (es ++ fs)) q ≡ node_of (replay (start_world limits) es) p }
    ensures start_bytes { (limits : Limits) (pending : Pending) (es fs : List Entry) (k : ℕ × ℕ) (p q : Seen)
        → IsLegal pending (start_world limits) (es ++ fs) → StaysUnwritten (replay (start_world limits) es) fs k
        → IsOpenAt (replay (start_world limits) es) k p → IsOpenAt (replay (start_world limits) (es ++ fs)) k q
        → bytes_of (replay (start_world limits) (es ++ fs)) q ≡ bytes_of (replay (start_world limits) es) p }
    ensures start_pread { (limits : Limits) (pending : Pending) (es fs : List Entry) (c d count at : ℕ) (q : Seen)
        (bytes : List ℕ)
        → let w = replay (start_world limits) es in
        let v = replay (start_world limits) (es ++ fs) in
        IsLegal pending (start_world limits) (es ++ fs) → StaysUnwritten w fs (c, d) → IsOpenAt v (c, d) q
        → apply w c (call.Pread d count at) ≡ Finished w (reply.Bytes bytes)
        → apply v c (call.Pread d count at) ≡ Finished v (reply.Bytes bytes) }
{}
