// Worlds are sound: at the start, after inner entries, and after calls that change no name, mount or node.
ghost use Rattle.std.specs.Prelude.{◌≡◌, ℕ, List, None};
ghost use Rattle.std.specs.FinMap.{get};
ghost use Rattle.vfs_tree.specs.Nodes.{IsNumbered};
ghost use Rattle.vfs_tree.specs.Sound.{IsSound};
ghost use Rattle.vfs_tree.specs.Start.{start_world};
ghost use Rattle.vfs_tree.specs.declared.limits.Limits.{Limits};
ghost use Rattle.vfs_tree.specs.declared.walk.Step.TheVariants.{Wants};
ghost use Rattle.vfs_tree.specs.declared.world.World.{World};
ghost use Rattle.call_model.specs.Effects.{detached, doomed, shadowed};
ghost use Rattle.call_model.specs.Legal.{after};
ghost use Rattle.call_model.specs.Rows.{row};
ghost use Rattle.call_model.specs.declared.call.Call.{Call};
ghost use Rattle.call_model.specs.declared.entry.Entry.TheVariants as entry;
ghost use Rattle.call_model.specs.declared.entry.Inner.TheVariants.{Shadow};
ghost use Rattle.call_model.specs.declared.entry.Ref.{Ref};
ghost use Rattle.call_model.specs.declared.reply.Reply.{Reply};
ghost use Rattle.call_laws.specs.Quiet.{IsQuiet};

/// The world at the start is sound: a law of the model, with no code.
pub fn the_start_is_sound()
    ensures { (limits : Limits) → IsSound (start_world limits) }
{}

/// Inner entries leave a sound world: a law of the model, with no code.
pub fn an_entry_keeps_worlds_sound()
    ensures doom { (w : World) (at : Ref) → IsSound w → IsSound (doomed w at) }
    // A mount is detached by a caller that is leaving none.
    ensures detach { (w : World) (c m : ℕ) → get w.leaving c ≡ None → IsSound w → IsSound (detached w c m) }
    // A shadow directory is one that a call needs.
    ensures shadow { (w : World) (c m u : ℕ) (n : List ℕ) (call : Call)
        → row w c call ≡ Wants (Shadow m u n) → IsNumbered w → IsSound w → IsSound (shadowed w m u n) }
{}

/// A call that changes no name and no mount, makes no node, and opens nothing by a path, leaves a sound world: a law of
/// the model, with no code.
pub fn a_quiet_call_keeps_worlds_sound()
    ensures { (w : World) (c : ℕ) (call : Call) (r : Reply)
        → IsQuiet call → IsSound w → IsSound (after w (entry.Call c call r)) }
{}
