// The layers of a mount lie over the mounts of their lower layers, and an unmount leaves them whole.
ghost use Rattle.std.specs.Prelude.{◌≡◌, ℕ, List};
ghost use Rattle.vfs_tree.specs.Sound.{IsSound};
ghost use Rattle.vfs_tree.specs.Start.{start_world};
ghost use Rattle.vfs_tree.specs.declared.limits.Limits.{Limits};
ghost use Rattle.vfs_tree.specs.declared.walk.Step.TheVariants.{Wants};
ghost use Rattle.vfs_tree.specs.declared.world.World.{World};
ghost use Rattle.call_model.specs.Effects.{effect};
ghost use Rattle.call_model.specs.Legal.{Pending, IsLegal, after, replay};
ghost use Rattle.call_model.specs.Rows.{row};
ghost use Rattle.call_model.specs.declared.call.Call.{Call};
ghost use Rattle.call_model.specs.declared.call.Call.TheVariants as call;
ghost use Rattle.call_model.specs.declared.entry.Entry.{Entry};
ghost use Rattle.call_model.specs.declared.entry.Entry.TheVariants as entry;
ghost use Rattle.call_model.specs.declared.entry.Inner.{Inner};
ghost use Rattle.call_model.specs.declared.reply.Reply.{Reply};
ghost use Rattle.call_laws.specs.Lasting.{IsLasting};
ghost use Rattle.layer_laws.specs.Lying.{LayersLieOver, SoundLayersStay};

/// The layers of a mount lie over the mounts of the lower layers while these are there, also where a forced unmount has
/// cut it off: a law of the model, with no code. So does the directory that it covers.
pub fn layers_lie_over_lower_layers()
    // At the start no mount has a layer.
    ensures start { (limits : Limits) → LayersLieOver (start_world limits) }
    // What a call needs leaves them so,
    ensures needed { (w : World) (c : ℕ) (call : Call) (x : Inner)
        → row w c call ≡ Wants x → IsSound w → IsLasting w → LayersLieOver w → LayersLieOver (effect w c x) }
    // and so does each call, whatever it answers,
    ensures call { (w : World) (c : ℕ) (call : Call) (r : Reply)
        → IsSound w → IsLasting w → LayersLieOver w → LayersLieOver (after w (entry.Call c call r)) }
    // and every legal history from the start.
    ensures history { (limits : Limits) (p : Pending) (es : List Entry)
        → IsLegal p (start_world limits) es → LayersLieOver (replay (start_world limits) es) }
    // From a sound world that lasts, whose layers lie so, the same holds.
    ensures history_on { (p : Pending) (w : World) (es : List Entry)
        → IsLegal p w es → IsSound w → IsLasting w → LayersLieOver w → LayersLieOver (replay w es) }
{}

/// An unmount without force leaves whole layers that are there, of cut mounts too: a law of the model, with no code.
pub fn an_unmount_leaves_layers_whole()
    // Where layers lie over lower layers, each that was at a sound place is at one, and the same node stands there; so
    // is the directory that a mount covers, unless a caller is leaving the mount.
    ensures world { (w : World) (c : ℕ) (text : List ℕ) (r : Reply)
        → LayersLieOver w → SoundLayersStay w (after w (entry.Call c (call.Umount text) r)) }
    // So it is after every legal history from the start.
    ensures history { (limits : Limits) (p : Pending) (es : List Entry) (c : ℕ) (text : List ℕ) (r : Reply)
        → let w = replay (start_world limits) es in IsLegal p (start_world limits) es
        → SoundLayersStay w (after w (entry.Call c (call.Umount text) r)) }
{}
