// A call that fails changes nothing, and nothing but a doom makes a reference dead.
ghost use Rattle.std.specs.Prelude.{◌≡◌, ℕ, List, true};
ghost use Rattle.vfs_tree.specs.declared.errno.Errno.{Errno};
ghost use Rattle.vfs_tree.specs.declared.world.World.{World};
ghost use Rattle.call_model.specs.Apply.{Finished, apply};
ghost use Rattle.call_model.specs.Effects.{effect};
ghost use Rattle.call_model.specs.Legal.{MayAnswer, after, is_no_memory};
ghost use Rattle.call_model.specs.declared.call.Call.{Call};
ghost use Rattle.call_model.specs.declared.entry.Entry.TheVariants as entry;
ghost use Rattle.call_model.specs.declared.entry.Inner.TheVariants.{CopyUp, Detach, Shadow};
ghost use Rattle.call_model.specs.declared.reply.Reply.{Reply};
ghost use Rattle.call_model.specs.declared.reply.Reply.TheVariants as reply;
ghost use Rattle.call_laws.specs.Flags.{SetsNoFlag};

/// A call that fails changes nothing: a law of the model, with no code.
pub fn refusals_leave_the_world()
    // A call that is refused leaves the world as it was.
    ensures refused { (w new : World) (c : ℕ) (call : Call) (e : Errno)
        → apply w c call ≡ Finished new (reply.Fail e) → new ≡ w }
    // So does the entry of a call that found no memory.
    ensures no_memory { (w : World) (c : ℕ) (call : Call) (r : Reply)
        → is_no_memory r ≡ true → after w (entry.Call c call r) ≡ w }
    // So whatever errno a call answers in a legal history, the world is as it was.
    ensures failed { (w new : World) (doomers : List ℕ) (c : ℕ) (call : Call) (e : Errno)
        → MayAnswer w doomers c call (reply.Fail e) new → new ≡ w }
{}

/// Only what is doomed dies: no other entry makes an open file or current directory dead. A law of the model, with no
/// code.
pub fn only_a_doom_makes_dead()
    ensures call { (w : World) (c : ℕ) (call : Call) (r : Reply) → SetsNoFlag w (after w (entry.Call c call r)) }
    ensures shadow { (w : World) (c m u : ℕ) (n : List ℕ) → SetsNoFlag w (effect w c (Shadow m u n)) }
    ensures copy_up { (w : World) (c m u : ℕ) (n : List ℕ) → SetsNoFlag w (effect w c (CopyUp m u n)) }
    ensures detach { (w : World) (c m : ℕ) → SetsNoFlag w (effect w c (Detach m)) }
{}
