// Worlds that last: calls, what they need, and legal histories leave sound worlds, in which later entries do too.
ghost use Rattle.std.specs.Prelude.{◌≡◌, ℕ, List};
ghost use Rattle.vfs_tree.specs.Sound.{IsSound};
ghost use Rattle.vfs_tree.specs.Start.{start_world};
ghost use Rattle.vfs_tree.specs.declared.limits.Limits.{Limits};
ghost use Rattle.vfs_tree.specs.declared.walk.Step.TheVariants.{Wants};
ghost use Rattle.vfs_tree.specs.declared.world.World.{World};
ghost use Rattle.call_model.specs.Effects.{effect};
ghost use Rattle.call_model.specs.Legal.{Pending, IsLegal, after, replay};
ghost use Rattle.call_model.specs.Rows.{row};
ghost use Rattle.call_model.specs.declared.call.Call.{Call};
ghost use Rattle.call_model.specs.declared.entry.Entry.{Entry};
ghost use Rattle.call_model.specs.declared.entry.Entry.TheVariants as entry;
ghost use Rattle.call_model.specs.declared.entry.Inner.{Inner};
ghost use Rattle.call_model.specs.declared.reply.Reply.{Reply};
ghost use Rattle.call_laws.specs.Lasting.{IsLasting};

/// An inner entry that a call needs leaves a sound world, where the world lasts: a law of the model, with no code.
pub fn a_needed_entry_keeps_worlds_lasting()
    ensures sound { (w : World) (c : ℕ) (call : Call) (x : Inner)
        → row w c call ≡ Wants x → IsSound w → IsLasting w → IsSound (effect w c x) }
    // That world lasts too.
    ensures lasting { (w : World) (c : ℕ) (call : Call) (x : Inner)
        → row w c call ≡ Wants x → IsSound w → IsLasting w → IsLasting (effect w c x) }
{}

/// A call leaves a sound world, where the world lasts, whatever it answers: a law of the model, with no code.
pub fn a_call_keeps_worlds_lasting()
    ensures sound { (w : World) (c : ℕ) (call : Call) (r : Reply)
        → IsSound w → IsLasting w → IsSound (after w (entry.Call c call r)) }
    // That world lasts too.
    ensures lasting { (w : World) (c : ℕ) (call : Call) (r : Reply)
        → IsSound w → IsLasting w → IsLasting (after w (entry.Call c call r)) }
{}

/// Every legal history leaves a sound world: a law of the model, with no code.
pub fn legal_histories_keep_worlds_sound()
    // From the start on there is nothing else to know.
    ensures sound { (limits : Limits) (p : Pending) (es : List Entry)
        → IsLegal p (start_world limits) es → IsSound (replay (start_world limits) es) }
    // The world that it leaves lasts.
    ensures lasting { (limits : Limits) (p : Pending) (es : List Entry)
        → IsLegal p (start_world limits) es → IsLasting (replay (start_world limits) es) }
    // From a sound world that lasts on the same holds.
    ensures sound_on { (p : Pending) (w : World) (es : List Entry)
        → IsLegal p w es → IsSound w → IsLasting w → IsSound (replay w es) }
    ensures lasting_on { (p : Pending) (w : World) (es : List Entry)
        → IsLegal p w es → IsSound w → IsLasting w → IsLasting (replay w es) }
{}
