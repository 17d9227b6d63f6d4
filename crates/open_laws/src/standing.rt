// The mounts of live references stand, those that are cut off too.
ghost use Rattle.std.specs.Prelude.{◌≡◌, ℕ, List};
ghost use Rattle.vfs_tree.specs.Sound.{IsSound};
ghost use Rattle.vfs_tree.specs.Start.{start_world};
ghost use Rattle.vfs_tree.specs.declared.limits.Limits.{Limits};
ghost use Rattle.vfs_tree.specs.declared.walk.Step.TheVariants.{Wants};
ghost use Rattle.vfs_tree.specs.declared.world.World.{World};
ghost use Rattle.call_model.specs.Effects.{effect};
ghost use Rattle.call_model.specs.Legal.{Pending, IsLegal, after, replay};
ghost use Rattle.call_model.specs.Rows.{row};
ghost use Rattle.call_model.specs.declared.call.Call.{Call};
ghost use Rattle.call_model.specs.declared.entry.Entry.{Entry};
ghost use Rattle.call_model.specs.declared.entry.Entry.TheVariants as entry;
ghost use Rattle.call_model.specs.declared.entry.Inner.{Inner};
ghost use Rattle.call_model.specs.declared.reply.Reply.{Reply};
ghost use Rattle.call_laws.specs.Lasting.{IsLasting};
ghost use Rattle.open_laws.specs.Standing.{AllStand, AreStanding};

/// The mounts of open files stand, also those that a forced unmount has cut off: a law of the model, with no code. What they
/// stand on goes when nothing is open in them.
pub fn mounts_of_open_files_stand()
    // At the start nothing is open.
    ensures start { (limits : Limits) → AreStanding (start_world limits) }
    // What a call needs leaves them standing,
    ensures needed { (w : World) (c : ℕ) (call : Call) (x : Inner)
        → row w c call ≡ Wants x → IsSound w → IsLasting w → AreStanding w → AreStanding (effect w c x) }
    // and so does each call, whatever it answers,
    ensures call { (w : World) (c : ℕ) (call : Call) (r : Reply)
        → IsSound w → IsLasting w → AreStanding w → AreStanding (after w (entry.Call c call r)) }
    // and every legal history from the start.
    ensures history { (limits : Limits) (p : Pending) (es : List Entry)
        → IsLegal p (start_world limits) es → AreStanding (replay (start_world limits) es) }
    // From a sound world that lasts, in which they stand, the same holds.
    ensures history_on { (p : Pending) (w : World) (es : List Entry)
        → IsLegal p w es → IsSound w → IsLasting w → AreStanding w → AreStanding (replay w es) }
{}

/// The mounts of live references stand, of open files and of current directories: a law of the model, with no code. So
/// what a live reference stands on is there.
pub fn mounts_of_references_stand()
    // At the start each caller's current directory is in a mount that stands.
    ensures start { (limits : Limits) → AllStand (start_world limits) }
    // What a call needs leaves them standing,
    ensures needed { (w : World) (c : ℕ) (call : Call) (x : Inner)
        → row w c call ≡ Wants x → IsSound w → IsLasting w → AllStand w → AllStand (effect w c x) }
    // and so does each call, whatever it answers,
    ensures call { (w : World) (c : ℕ) (call : Call) (r : Reply)
        → IsSound w → IsLasting w → AllStand w → AllStand (after w (entry.Call c call r)) }
    // and every legal history from the start.
    ensures history { (limits : Limits) (p : Pending) (es : List Entry)
        → IsLegal p (start_world limits) es → AllStand (replay (start_world limits) es) }
    // From a sound world that lasts, in which they stand, the same holds.
    ensures history_on { (p : Pending) (w : World) (es : List Entry)
        → IsLegal p w es → IsSound w → IsLasting w → AllStand w → AllStand (replay w es) }
{}
