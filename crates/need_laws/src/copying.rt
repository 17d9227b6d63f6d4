// What is open turns to the copy when its file is copied up, and reads the same.
ghost use Rattle.std.specs.Prelude.{◌≡◌, ℕ, List, Some, true, false};
ghost use Rattle.std.specs.FinMap.{get};
ghost use Rattle.vfs_tree.specs.Child.{child_of};
ghost use Rattle.vfs_tree.specs.Layers.{is_cut, kind_in};
ghost use Rattle.vfs_tree.specs.Nodes.{next_of};
ghost use Rattle.vfs_tree.specs.Place.{Seen, UnionLow, UnionUp, bare};
ghost use Rattle.vfs_tree.specs.Sound.{IsSound};
ghost use Rattle.vfs_tree.specs.Views.{facts_of};
ghost use Rattle.vfs_tree.specs.declared.mount.MountKind.TheVariants as kind;
ghost use Rattle.vfs_tree.specs.declared.open.Open.{Open};
ghost use Rattle.vfs_tree.specs.declared.walk.Child.TheVariants as child;
ghost use Rattle.vfs_tree.specs.declared.world.World.{World};
ghost use Rattle.call_model.specs.Apply.{apply};
ghost use Rattle.call_model.specs.Checks.{node_of};
ghost use Rattle.call_model.specs.DataRows.{bytes_of};
ghost use Rattle.call_model.specs.Effects.{effect};
ghost use Rattle.call_model.specs.declared.call.Call.TheVariants as call;
ghost use Rattle.call_model.specs.declared.entry.Inner.TheVariants.{CopyUp};
ghost use Rattle.call_laws.specs.Lasting.{IsLasting};
ghost use Rattle.need_laws.specs.Turning.{AreOpenAlike, TurnsTo, is_seen_over};

/// What is open when it is copied to the upper layer turns to the copy: a law of the model, with no code. What is copied is
/// a file or link that a union has in its lower layer alone; the copy has the upper layer's next number.
pub fn older_open_files_read_the_copy()
    // The copy stands at the name then, so a later open of the name finds it.
    ensures name { (w : World) (c m s top u : ℕ) (lower q : Seen) (n : List ℕ)
        → IsSound w → IsLasting w → kind_in (facts_of w) m ≡ Some (kind.Union s top lower) → is_cut (facts_of w) m ≡ false
        → child_of (facts_of w) (UnionUp m u) n ≡ child.At (UnionLow m u n q)
        → child_of (facts_of (effect w c (CopyUp m u n))) (UnionUp m u) n ≡ child.At (UnionUp m (next_of (get w.stores s))) }
    // It has the bytes or the target of what was copied,
    ensures copy { (w : World) (c m s top u : ℕ) (lower q : Seen) (n : List ℕ)
        → IsSound w → IsLasting w → kind_in (facts_of w) m ≡ Some (kind.Union s top lower) → is_cut (facts_of w) m ≡ false
        → child_of (facts_of w) (UnionUp m u) n ≡ child.At (UnionLow m u n q)
        → node_of (effect w c (CopyUp m u n)) (UnionUp m (next_of (get w.stores s))) ≡ node_of w q }
    // and each open file that stood on that, through whatever mounts, rests on the copy's node from then on.
    ensures older { (w : World) (c m s top u : ℕ) (lower q : Seen) (n : List ℕ) (k : ℕ × ℕ) (o : Open)
        → IsSound w → IsLasting w → kind_in (facts_of w) m ≡ Some (kind.Union s top lower) → is_cut (facts_of w) m ≡ false
        → child_of (facts_of w) (UnionUp m u) n ≡ child.At (UnionLow m u n q)
        → get w.opens k ≡ Some o → is_seen_over (UnionLow m u n q) o.place ≡ true
        → TurnsTo w (effect w c (CopyUp m u n)) k o (UnionUp m (next_of (get w.stores s))) }
    // So in every world it has the bytes of the copy, through whatever null mounts that is seen: what is written later
    // through the name is read through it,
    ensures reads { (w v : World) (c m s top u : ℕ) (lower p q : Seen) (n : List ℕ) (k : ℕ × ℕ) (o new : Open)
        → IsSound w → IsLasting w → kind_in (facts_of w) m ≡ Some (kind.Union s top lower) → is_cut (facts_of w) m ≡ false
        → child_of (facts_of w) (UnionUp m u) n ≡ child.At (UnionLow m u n q)
        → get w.opens k ≡ Some o → is_seen_over (UnionLow m u n q) o.place ≡ true
        → get (effect w c (CopyUp m u n)).opens k ≡ Some new → bare p ≡ UnionUp m (next_of (get w.stores s))
        → bytes_of v new.place ≡ bytes_of v p }
    // and a read by its descriptor answers what the same read answers by one that was opened later at the name.
    ensures pread { (w v : World) (c m s top u : ℕ) (lower p q : Seen) (n : List ℕ) (k : ℕ × ℕ) (o new : Open)
        (a d b e count at : ℕ)
        → IsSound w → IsLasting w → kind_in (facts_of w) m ≡ Some (kind.Union s top lower) → is_cut (facts_of w) m ≡ false
        → child_of (facts_of w) (UnionUp m u) n ≡ child.At (UnionLow m u n q)
        → get w.opens k ≡ Some o → is_seen_over (UnionLow m u n q) o.place ≡ true
        → get (effect w c (CopyUp m u n)).opens k ≡ Some new → bare p ≡ UnionUp m (next_of (get w.stores s))
        → AreOpenAlike v (a, d) (b, e) new.place p
        → apply v a (call.Pread d count at) ≡ apply v b (call.Pread e count at) }
    // All other open files stay as they are.
    ensures others { (w : World) (c m s top u : ℕ) (lower q : Seen) (n : List ℕ) (k : ℕ × ℕ) (o : Open)
        → IsSound w → IsLasting w → kind_in (facts_of w) m ≡ Some (kind.Union s top lower) → is_cut (facts_of w) m ≡ false
        → child_of (facts_of w) (UnionUp m u) n ≡ child.At (UnionLow m u n q)
        → get w.opens k ≡ Some o → is_seen_over (UnionLow m u n q) o.place ≡ false
        → get (effect w c (CopyUp m u n)).opens k ≡ Some o }
{}
