// The lower layer of a union never rests on the memory mount of its upper layer.
ghost use Rattle.std.specs.Prelude.{◌≡◌, ℕ, List};
ghost use Rattle.vfs_tree.specs.Sound.{IsSound};
ghost use Rattle.vfs_tree.specs.Start.{start_world};
ghost use Rattle.vfs_tree.specs.declared.limits.Limits.{Limits};
ghost use Rattle.vfs_tree.specs.declared.walk.Step.TheVariants.{Wants};
ghost use Rattle.vfs_tree.specs.declared.world.World.{World};
ghost use Rattle.call_model.specs.Effects.{effect};
ghost use Rattle.call_model.specs.Legal.{Pending, IsLegal, after, replay};
ghost use Rattle.call_model.specs.Rows.{row};
ghost use Rattle.call_model.specs.declared.call.Call.{Call};
ghost use Rattle.call_model.specs.declared.entry.Entry.{Entry};
ghost use Rattle.call_model.specs.declared.entry.Entry.TheVariants as entry;
ghost use Rattle.call_model.specs.declared.entry.Inner.{Inner};
ghost use Rattle.call_model.specs.declared.reply.Reply.{Reply};
ghost use Rattle.call_laws.specs.Lasting.{IsLasting};
ghost use Rattle.layer_laws.specs.Apart.{IsApart};

/// The lower layer of a union never rests on the memory mount of its upper layer: a law of the model, with no code.
pub fn layers_stay_apart()
    // At the start there is no union.
    ensures start { (limits : Limits) → IsApart (start_world limits) }
    // What a call needs leaves the layers apart,
    ensures needed { (w : World) (c : ℕ) (call : Call) (x : Inner)
        → row w c call ≡ Wants x → IsSound w → IsLasting w → IsApart w → IsApart (effect w c x) }
    // and so does each call, whatever it answers,
    ensures call { (w : World) (c : ℕ) (call : Call) (r : Reply)
        → IsSound w → IsLasting w → IsApart w → IsApart (after w (entry.Call c call r)) }
    // and every legal history from the start.
    ensures history { (limits : Limits) (p : Pending) (es : List Entry)
        → IsLegal p (start_world limits) es → IsApart (replay (start_world limits) es) }
    // From a sound world that lasts, whose layers are apart, the same holds.
    ensures history_on { (p : Pending) (w : World) (es : List Entry)
        → IsLegal p w es → IsSound w → IsLasting w → IsApart w → IsApart (replay w es) }
{}
