// Mounts stay at most four layers deep, each over mounts with smaller numbers.
ghost use Rattle.std.specs.Prelude.{◌≤◌, ℕ, List};
ghost use Rattle.vfs_tree.specs.Layers.{depth};
ghost use Rattle.vfs_tree.specs.Place.{Seen};
ghost use Rattle.vfs_tree.specs.Sound.{IsSound};
ghost use Rattle.vfs_tree.specs.Start.{start_world};
ghost use Rattle.vfs_tree.specs.Views.{facts_of};
ghost use Rattle.vfs_tree.specs.declared.limits.Limits.{Limits};
ghost use Rattle.vfs_tree.specs.declared.world.World.{World};
ghost use Rattle.call_model.specs.Effects.{effect};
ghost use Rattle.call_model.specs.Legal.{Pending, IsLegal, after, replay};
ghost use Rattle.call_model.specs.declared.call.Call.{Call};
ghost use Rattle.call_model.specs.declared.entry.Entry.{Entry};
ghost use Rattle.call_model.specs.declared.entry.Entry.TheVariants as entry;
ghost use Rattle.call_model.specs.declared.entry.Inner.{Inner};
ghost use Rattle.call_model.specs.declared.reply.Reply.{Reply};
ghost use Rattle.call_laws.specs.Lasting.{IsLasting};
ghost use Rattle.fuel_laws.specs.Layered.{IsLayered};

/// Mounts stay few layers deep, each over mounts with smaller numbers: a law of the model, with no code.
pub fn mounts_stay_layered()
    // At the start they are.
    ensures start { (limits : Limits) → IsLayered (start_world limits) }
    // A call leaves them so, whatever it answers: a mount that would be deeper is refused.
    ensures call { (w : World) (c : ℕ) (call : Call) (r : Reply)
        → IsSound w → IsLasting w → IsLayered w → IsLayered (after w (entry.Call c call r)) }
    // So does an inner entry.
    ensures inner { (w : World) (c : ℕ) (x : Inner) → IsLayered w → IsLayered (effect w c x) }
    // So every legal history from the start leaves such a world.
    ensures history { (limits : Limits) (p : Pending) (es : List Entry)
        → IsLegal p (start_world limits) es → IsLayered (replay (start_world limits) es) }
    // From a sound world that lasts, in which they are so, the same holds.
    ensures history_on { (p : Pending) (w : World) (es : List Entry)
        → IsLegal p w es → IsSound w → IsLasting w → IsLayered w → IsLayered (replay w es) }
    // After every legal history from the start a place has at most four layers under it.
    ensures depth { (limits : Limits) (p : Pending) (es : List Entry) (q : Seen)
        → IsLegal p (start_world limits) es → depth (facts_of (replay (start_world limits) es)) q ≤ 4 }
{}
