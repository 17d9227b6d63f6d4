// What is open for writing, and what entries change, is no file of a lower layer alone.
ghost use Rattle.std.specs.Prelude.{◌≡◌, ℕ, IfSome, IsSome, List, Some, false, true};
ghost use Rattle.std.specs.FinMap.{get};
ghost use Rattle.vfs_tree.specs.Layers.{base, is_dir, kind_in, kind_of, same_node};
ghost use Rattle.vfs_tree.specs.Place.{Seen, UnionUp, bare};
ghost use Rattle.vfs_tree.specs.Sound.{IsSound};
ghost use Rattle.vfs_tree.specs.Start.{start_world};
ghost use Rattle.vfs_tree.specs.Views.{facts_of};
ghost use Rattle.vfs_tree.specs.declared.limits.Limits.{Limits};
ghost use Rattle.vfs_tree.specs.declared.mount.MountKind.TheVariants as kind;
ghost use Rattle.vfs_tree.specs.declared.world.World.{World};
ghost use Rattle.call_model.specs.Checks.{node_of};
ghost use Rattle.call_model.specs.Effects.{effect};
ghost use Rattle.call_model.specs.Legal.{Pending, IsLegal, after, replay};
ghost use Rattle.call_model.specs.declared.call.Call.{Call};
ghost use Rattle.call_model.specs.declared.entry.Entry.{Entry};
ghost use Rattle.call_model.specs.declared.entry.Entry.TheVariants as entry;
ghost use Rattle.call_model.specs.declared.entry.Inner.{Inner};
ghost use Rattle.call_model.specs.declared.entry.Inner.TheVariants.{CopyUp, Shadow};
ghost use Rattle.call_model.specs.declared.reply.Reply.{Reply};
ghost use Rattle.call_laws.specs.Lasting.{IsLasting};
ghost use Rattle.layer_laws.specs.Apart.{IsApart};
ghost use Rattle.need_laws.specs.Above.{AreWrittenAbove, is_lower_file};
ghost use Rattle.need_laws.specs.Changed.{ChangesAbove, IsInLayer, changed_place, named_in};

/// A file that is open for writing, dead or not, is never one of a union's lower layer alone: a law of the model, with no
/// code.
pub fn open_files_are_written_above()
    // At the start nothing is open.
    ensures start { (limits : Limits) → AreWrittenAbove (start_world limits) }
    // Each call leaves it so in a sound world that lasts, whatever it answers,
    ensures call { (w : World) (c : ℕ) (call : Call) (r : Reply)
        → IsSound w → IsLasting w → AreWrittenAbove w → AreWrittenAbove (after w (entry.Call c call r)) }
    // and so does each inner entry,
    ensures inner { (w : World) (c : ℕ) (x : Inner) → AreWrittenAbove w → AreWrittenAbove (effect w c x) }
    // and every legal history from the start.
    ensures history { (limits : Limits) (p : Pending) (es : List Entry)
        → IsLegal p (start_world limits) es → AreWrittenAbove (replay (start_world limits) es) }
    // From a sound world that lasts, in which it is so, the same holds.
    ensures history_on { (p : Pending) (w : World) (es : List Entry)
        → IsLegal p w es → IsSound w → IsLasting w → AreWrittenAbove w → AreWrittenAbove (replay w es) }
{}

/// Calls change nodes of upper layers and of memory mounts alone: a law of the model, with no code.
pub fn calls_change_nodes_above()
    // A store that a call changes is that of the node on which the file or directory rests that it changes.
    ensures stores { (w : World) (c : ℕ) (call : Call) (r : Reply) (s : ℕ)
        → IsSound w → IsLasting w → AreWrittenAbove w
        → ChangesAbove w (after w (entry.Call c call r)) (changed_place w c call) s }
    // Through a file of a lower layer alone nothing is changed.
    ensures low { (w : World) (c : ℕ) (call : Call) (r : Reply) (p : Seen) (s : ℕ)
        → IsSound w → IsLasting w → AreWrittenAbove w
        → changed_place w c call ≡ Some p → is_lower_file p ≡ true
        → get (after w (entry.Call c call r)).stores s ≡ get w.stores s }
    // Through a file or directory of a union's upper layer, each node that is seen in the lower layer stays as it was,
    // also where forced unmounts have cut off the union or mounts of that layer.
    ensures lower { (w : World) (c : ℕ) (call : Call) (r : Reply) (m s top i : ℕ) (lower p q : Seen)
        → IsSound w → IsLasting w → IsApart w → AreWrittenAbove w
        → kind_in (facts_of w) m ≡ Some (kind.Union s top lower)
        → changed_place w c call ≡ Some p → bare p ≡ UnionUp m i → IsInLayer (facts_of w) lower q
        → node_of (after w (entry.Call c call r)) q ≡ node_of w q }
{}

/// Inner entries change no node of a lower layer: a law of the model, with no code. A shadow directory and a copy are
/// made in the upper layer of their union, be it cut off or not.
pub fn inner_entries_change_nodes_above()
    // A shadow directory leaves each node that is seen in its union's lower layer, also where forced unmounts have cut
    // off the union or mounts of that layer,
    ensures shadow { (w : World) (c m s top u : ℕ) (lower q : Seen) (n : List ℕ)
        → IsSound w → IsApart w → kind_in (facts_of w) m ≡ Some (kind.Union s top lower) → IsInLayer (facts_of w) lower q
        → node_of (effect w c (Shadow m u n)) q ≡ node_of w q }
    // and so does a copy-up.
    ensures copy { (w : World) (c m s top u : ℕ) (lower q : Seen) (n : List ℕ)
        → IsSound w → IsApart w → kind_in (facts_of w) m ≡ Some (kind.Union s top lower) → IsInLayer (facts_of w) lower q
        → node_of (effect w c (CopyUp m u n)) q ≡ node_of w q }
    // In all other mounts too each inner entry leaves each node that is there, but the directory in which it makes a
    // name: another union may have that one in its lower layer.
    ensures others { (w : World) (c : ℕ) (x : Inner) (q : Seen)
        → IsLasting w → IsSome (kind_of (facts_of w) q)
        → IfSome (named_in w x) (λ d. same_node (base (facts_of w) q) d ≡ false)
        → node_of (effect w c x) q ≡ node_of w q }
    // So it leaves each file and each link.
    ensures files { (w : World) (c : ℕ) (x : Inner) (q : Seen)
        → IsLasting w → IsSome (kind_of (facts_of w) q) → is_dir (facts_of w) q ≡ false
        → node_of (effect w c x) q ≡ node_of w q }
{}
