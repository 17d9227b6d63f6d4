// What calls and inner entries of one caller leave of open files and current directories, its own and others'.
ghost use Rattle.std.specs.Prelude.{◌≡◌, ◌==◌, ℕ, List, Some, None, false, option_map, true};
ghost use Rattle.std.specs.FinMap.{get};
ghost use Rattle.std.specs.List.{list_any};
ghost use Rattle.vfs_tree.specs.Child.{child_below, child_of, low};
ghost use Rattle.vfs_tree.specs.Nodes.{next_of};
ghost use Rattle.vfs_tree.specs.Place.{Seen, UnionLow, UnionUp};
ghost use Rattle.vfs_tree.specs.Views.{facts_of};
ghost use Rattle.vfs_tree.specs.declared.walk.Child.TheVariants as child;
ghost use Rattle.vfs_tree.specs.declared.world.World.{World};
ghost use Rattle.call_model.specs.Checks.{upper_store};
ghost use Rattle.call_model.specs.Effects.{doomed_cwd, doomed_open, effect, turned_open};
ghost use Rattle.call_model.specs.Legal.{Pending, after, doomers_after};
ghost use Rattle.call_model.specs.Refs.{place_of};
ghost use Rattle.call_model.specs.declared.call.Call.{Call};
ghost use Rattle.call_model.specs.declared.entry.Entry.TheVariants as entry;
ghost use Rattle.call_model.specs.declared.entry.Inner.{Inner};
ghost use Rattle.call_model.specs.declared.entry.Inner.TheVariants.{CopyUp, Detach, Doom, Shadow};
ghost use Rattle.call_model.specs.declared.entry.Ref.{Ref};
ghost use Rattle.call_model.specs.declared.reply.Reply.{Reply};
ghost use Rattle.fuel_laws.specs.Ended.{pending_after};
ghost use Rattle.fuel_laws.specs.Staying.{KeepsPlace, StaysButDead, StaysButOffset, StaysButPlace};

/// What one caller's calls leave of what is another's: a law of the model, with no code.
pub fn others_keep_what_is_theirs()
    // Each of its descriptors stands for what it stood for, with the offset and the flags that it had,
    ensures opens { (w : World) (c d fd : ℕ) (call : Call) (r : Reply)
        → (d == c) ≡ false → get (after w (entry.Call c call r)).opens (d, fd) ≡ get w.opens (d, fd) }
    // it is leaving the mount that it was leaving, or none as before,
    ensures leaving { (w : World) (c d : ℕ) (call : Call) (r : Reply)
        → (d == c) ≡ false → get (after w (entry.Call c call r)).leaving d ≡ get w.leaving d }
    // and its call is pending as before.
    ensures pending { (p : Pending) (c d : ℕ) (call : Call) (r : Reply)
        → (d == c) ≡ false → get (pending_after p (entry.Call c call r)) d ≡ get p d }
{}

/// What a call leaves of what is open, also for its own caller: a law of the model, with no code.
pub fn a_call_keeps_what_is_open()
    // A descriptor that is open before and after it stands for the same place, opened in the same way, and is dead only
    // where it was. Reads, writes and seeks move its offset.
    ensures { (w : World) (c : ℕ) (call : Call) (r : Reply) (k : ℕ × ℕ)
        → StaysButOffset (get w.opens k) (get (after w (entry.Call c call r)).opens k) }
{}

/// What the inner entries of one caller leave of what is open: a law of the model, with no code.
pub fn inner_entries_keep_open_files()
    // A shadow directory and a detach leave all open files as they are.
    ensures shadow { (w : World) (c m u : ℕ) (n : List ℕ) → (effect w c (Shadow m u n)).opens ≡ w.opens }
    ensures detach { (w : World) (c m : ℕ) → (effect w c (Detach m)).opens ≡ w.opens }
    // A copy leaves all but their places,
    ensures copy_up { (w : World) (c m u : ℕ) (n : List ℕ) (k : ℕ × ℕ)
        → StaysButPlace (get w.opens k) (get (effect w c (CopyUp m u n)).opens k) }
    // which turn from what was copied to the copy, where they stand on it.
    ensures turned { (w : World) (c m u : ℕ) (n : List ℕ) (q : Seen) (k : ℕ × ℕ)
        → child_below (child_of (facts_of w)) (low (facts_of w) m u) n ≡ child.At q
        → get (effect w c (CopyUp m u n)).opens k
        ≡ option_map (turned_open (UnionLow m u n q) (UnionUp m (next_of (get w.stores (upper_store w m))))) (get w.opens k) }
    // A doom leaves all but whether they are dead.
    ensures doom { (w : World) (c : ℕ) (at : Ref) (k : ℕ × ℕ) → StaysButDead (get w.opens k) (get (effect w c (Doom at)).opens k) }
    // Dead are then those that were, and those at the place of what is doomed.
    ensures doomed { (w : World) (c : ℕ) (at : Ref) (p : Seen) (k : ℕ × ℕ) → place_of w at ≡ Some p
        → get (effect w c (Doom at)).opens k ≡ option_map (doomed_open p) (get w.opens k) }
    // None changes which mounts others are leaving, or which calls are pending.
    ensures leaving { (w : World) (c d : ℕ) (x : Inner) → (d == c) ≡ false → get (effect w c x).leaving d ≡ get w.leaving d }
    ensures pending { (p : Pending) (c : ℕ) (x : Inner) → pending_after p (entry.Inner c x) ≡ p }
{}

/// Only a caller's own calls, and dooms, change its current directory: a law of the model, with no code.
pub fn others_keep_a_current_directory()
    // A call of another caller leaves it.
    ensures call { (w : World) (c d : ℕ) (call : Call) (r : Reply)
        → (d == c) ≡ false → get (after w (entry.Call c call r)).cwds d ≡ get w.cwds d }
    // So does each inner entry but a doom, whoever makes it.
    ensures shadow { (w : World) (c m u : ℕ) (n : List ℕ) → (effect w c (Shadow m u n)).cwds ≡ w.cwds }
    ensures copy_up { (w : World) (c m u : ℕ) (n : List ℕ) → (effect w c (CopyUp m u n)).cwds ≡ w.cwds }
    ensures detach { (w : World) (c m : ℕ) → (effect w c (Detach m)).cwds ≡ w.cwds }
{}

/// What a doom leaves of current directories: a law of the model, with no code. The other inner entries leave them.
pub fn a_doom_keeps_current_directories()
    // It leaves each caller's all but whether it is dead,
    ensures doom { (w : World) (c d : ℕ) (at : Ref) → KeepsPlace (get w.cwds d) (get (effect w c (Doom at)).cwds d) }
    // and dead are then those that were, and those at the place of what is doomed.
    ensures doomed { (w : World) (c d : ℕ) (at : Ref) (p : Seen) → place_of w at ≡ Some p
        → get (effect w c (Doom at)).cwds d ≡ option_map (doomed_cwd p) (get w.cwds d) }
    // A doom of what isn't there leaves the world.
    ensures none { (w : World) (c : ℕ) (at : Ref) → place_of w at ≡ None → effect w c (Doom at) ≡ w }
{}

/// Dooms count for their caller, until its next call entry: a law of the model, with no code. So an entry of one caller
/// leaves whether another's call may find no memory.
pub fn dooms_count_for_their_caller()
    // A caller that dooms has doomed something, and after the entry of its call it has not.
    ensures doom { (doomers : List ℕ) (c : ℕ) (at : Ref)
        → list_any (λ k. k == c) (doomers_after doomers (entry.Inner c (Doom at))) ≡ true }
    ensures ended { (doomers : List ℕ) (c : ℕ) (call : Call) (r : Reply)
        → list_any (λ k. k == c) (doomers_after doomers (entry.Call c call r)) ≡ false }
    // Whether another caller has is as before, after a call
    ensures call { (doomers : List ℕ) (c d : ℕ) (call : Call) (r : Reply) → (d == c) ≡ false
        → list_any (λ k. k == d) (doomers_after doomers (entry.Call c call r)) ≡ list_any (λ k. k == d) doomers }
    // and after an inner entry.
    ensures inner { (doomers : List ℕ) (c d : ℕ) (x : Inner) → (d == c) ≡ false
        → list_any (λ k. k == d) (doomers_after doomers (entry.Inner c x)) ≡ list_any (λ k. k == d) doomers }
{}
